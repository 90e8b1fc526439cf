//! Instances with tables and automata over the variables x, y and z, and the lines of their models behind these variables.

/// A constraint, with the lines behind the variables.
pub type Conversion = (&'static str, &'static str);

/// The variables of all these instances.
pub const VARIABLES: &str =
    r#"<var id="x"> 0..2 </var><var id="y"> 0..2 </var><var id="z"> 0..2 </var>"#;

/// Their lines.
pub const LINES: &str = "var 0..2: v_x :: output_var;\n\
         var 0..2: v_y :: output_var;\n\
         var 0..2: v_z :: output_var;\n";

/// `extension` by tuples.
pub const TABLES: &[Conversion] = &[
    // A tuple is the conjunction of its literals, and one of the tuples holds.
    (
        "<extension> <list> x y </list> <supports> (0,1)(1,2) </supports> </extension>",
        "var bool: a_0;\n\
         var bool: a_1;\n\
         var bool: a_2;\n\
         var bool: a_3;\n\
         var bool: a_4;\n\
         var bool: a_5;\n\
         constraint int_eq_reif(v_x,0,a_0);\n\
         constraint int_eq_reif(v_y,1,a_1);\n\
         constraint array_bool_and([a_0,a_1],a_2);\n\
         constraint int_eq_reif(v_x,1,a_3);\n\
         constraint int_eq_reif(v_y,2,a_4);\n\
         constraint array_bool_and([a_3,a_4],a_5);\n\
         constraint bool_clause([a_2,a_5],[]);\n",
    ),
    // A star has no literal.
    (
        "<extension> <list> x y </list> <supports> (0,*)(*,2) </supports> </extension>",
        "var bool: a_0;\n\
         var bool: a_1;\n\
         var bool: a_2;\n\
         var bool: a_3;\n\
         constraint int_eq_reif(v_x,0,a_0);\n\
         constraint array_bool_and([a_0],a_1);\n\
         constraint int_eq_reif(v_y,2,a_2);\n\
         constraint array_bool_and([a_2],a_3);\n\
         constraint bool_clause([a_1,a_3],[]);\n",
    ),
    (
        "<extension> <list> x y </list> <supports> (*,*) </supports> </extension>",
        "var bool: a_0;\n\
         constraint array_bool_and([],a_0);\n\
         constraint bool_clause([a_0],[]);\n",
    ),
    // A literal is made at its first need, once for a place and a value.
    (
        "<extension> <list> x y </list> <supports> (0,1) (0,2) </supports> </extension>",
        "var bool: a_0;\n\
         var bool: a_1;\n\
         var bool: a_2;\n\
         var bool: a_3;\n\
         var bool: a_4;\n\
         constraint int_eq_reif(v_x,0,a_0);\n\
         constraint int_eq_reif(v_y,1,a_1);\n\
         constraint array_bool_and([a_0,a_1],a_2);\n\
         constraint int_eq_reif(v_y,2,a_3);\n\
         constraint array_bool_and([a_0,a_3],a_4);\n\
         constraint bool_clause([a_2,a_4],[]);\n",
    ),
    // Two places of one variable have literals of their own.
    (
        "<extension> <list> x x </list> <supports> (0,0)(0,1) </supports> </extension>",
        "var bool: a_0;\n\
         var bool: a_1;\n\
         var bool: a_2;\n\
         var bool: a_3;\n\
         var bool: a_4;\n\
         constraint int_eq_reif(v_x,0,a_0);\n\
         constraint int_eq_reif(v_x,0,a_1);\n\
         constraint array_bool_and([a_0,a_1],a_2);\n\
         constraint int_eq_reif(v_x,1,a_3);\n\
         constraint array_bool_and([a_0,a_3],a_4);\n\
         constraint bool_clause([a_2,a_4],[]);\n",
    ),
    // A tuple that comes twice is stated twice.
    (
        "<extension> <list> x y </list> <supports> (0,0)(0,0) </supports> </extension>",
        "var bool: a_0;\n\
         var bool: a_1;\n\
         var bool: a_2;\n\
         var bool: a_3;\n\
         constraint int_eq_reif(v_x,0,a_0);\n\
         constraint int_eq_reif(v_y,0,a_1);\n\
         constraint array_bool_and([a_0,a_1],a_2);\n\
         constraint array_bool_and([a_0,a_1],a_3);\n\
         constraint bool_clause([a_2,a_3],[]);\n",
    ),
    // A value outside the domain is a literal like any other.
    (
        "<extension> <list> x y </list> <supports> (7,-1) </supports> </extension>",
        "var bool: a_0;\n\
         var bool: a_1;\n\
         var bool: a_2;\n\
         constraint int_eq_reif(v_x,7,a_0);\n\
         constraint int_eq_reif(v_y,-1,a_1);\n\
         constraint array_bool_and([a_0,a_1],a_2);\n\
         constraint bool_clause([a_2],[]);\n",
    ),
    // No tuple at all.
    (
        "<extension> <list> x y </list> <supports>  </supports> </extension>",
        "constraint bool_clause([],[]);\n",
    ),
    // A tuple of conflicts is a clause.
    (
        "<extension> <list> x y </list> <conflicts> (0,1)(1,*) </conflicts> </extension>",
        "var bool: a_0;\n\
         var bool: a_1;\n\
         var bool: a_2;\n\
         constraint int_eq_reif(v_x,0,a_0);\n\
         constraint int_eq_reif(v_y,1,a_1);\n\
         constraint bool_clause([],[a_0,a_1]);\n\
         constraint int_eq_reif(v_x,1,a_2);\n\
         constraint bool_clause([],[a_2]);\n",
    ),
    (
        "<extension> <list> x y </list> <conflicts> (*,*) </conflicts> </extension>",
        "constraint bool_clause([],[]);\n",
    ),
    (
        "<extension> <list> x y </list> <conflicts>  </conflicts> </extension>",
        "",
    ),
    (
        "<extension> <list> x y z </list> <conflicts> (0,1,0)(0,1,1) </conflicts> </extension>",
        "var bool: a_0;\n\
         var bool: a_1;\n\
         var bool: a_2;\n\
         var bool: a_3;\n\
         constraint int_eq_reif(v_x,0,a_0);\n\
         constraint int_eq_reif(v_y,1,a_1);\n\
         constraint int_eq_reif(v_z,0,a_2);\n\
         constraint bool_clause([],[a_0,a_1,a_2]);\n\
         constraint int_eq_reif(v_z,1,a_3);\n\
         constraint bool_clause([],[a_0,a_1,a_3]);\n",
    ),
    // Tuples of one variable.
    (
        "<extension> <list> x </list> <supports> (0)(2) </supports> </extension>",
        "var bool: a_0;\n\
         var bool: a_1;\n\
         var bool: a_2;\n\
         var bool: a_3;\n\
         constraint int_eq_reif(v_x,0,a_0);\n\
         constraint array_bool_and([a_0],a_1);\n\
         constraint int_eq_reif(v_x,2,a_2);\n\
         constraint array_bool_and([a_2],a_3);\n\
         constraint bool_clause([a_1,a_3],[]);\n",
    ),
    (
        "<extension> <list> x </list> <conflicts> (0)(*) </conflicts> </extension>",
        "var bool: a_0;\n\
         constraint int_eq_reif(v_x,0,a_0);\n\
         constraint bool_clause([],[a_0]);\n\
         constraint bool_clause([],[]);\n",
    ),
];

/// `extension` of one variable by integers and ranges.
pub const RANGES: &[Conversion] = &[
    // Values of one variable: the ranges that they merge to.
    (
        "<extension> <list> x </list> <supports> 0 2 </supports> </extension>",
        "var bool: a_0;\n\
         var bool: a_1;\n\
         constraint set_in_reif(v_x,0..0,a_0);\n\
         constraint set_in_reif(v_x,2..2,a_1);\n\
         constraint bool_clause([a_0,a_1],[]);\n",
    ),
    (
        "<extension> <list> x </list> <supports> 0 1 </supports> </extension>",
        "constraint set_in(v_x,0..1);\n",
    ),
    (
        "<extension> <list> x </list> <supports> 2 0..1 1..2 </supports> </extension>",
        "constraint set_in(v_x,0..2);\n",
    ),
    (
        "<extension> <list> x </list> <supports> 5..7 0 3..4 </supports> </extension>",
        "var bool: a_0;\n\
         var bool: a_1;\n\
         constraint set_in_reif(v_x,0..0,a_0);\n\
         constraint set_in_reif(v_x,3..7,a_1);\n\
         constraint bool_clause([a_0,a_1],[]);\n",
    ),
    (
        "<extension> <list> x </list> <supports>  </supports> </extension>",
        "constraint bool_clause([],[]);\n",
    ),
    (
        "<extension> <list> x </list> <conflicts> 0 2 </conflicts> </extension>",
        "var bool: a_0;\n\
         var bool: a_1;\n\
         constraint set_in_reif(v_x,0..0,a_0);\n\
         constraint bool_clause([],[a_0]);\n\
         constraint set_in_reif(v_x,2..2,a_1);\n\
         constraint bool_clause([],[a_1]);\n",
    ),
    (
        "<extension> <list> x </list> <conflicts> 2..3 1 </conflicts> </extension>",
        "var bool: a_0;\n\
         constraint set_in_reif(v_x,1..3,a_0);\n\
         constraint bool_clause([],[a_0]);\n",
    ),
    (
        "<extension> <list> x </list> <conflicts>  </conflicts> </extension>",
        "",
    ),
    // Constraints share no literal.
    (
        "<extension> <list> x </list> <supports> (0) </supports> </extension><extension> <list> x </list> <supports> (0) </supports> </extension>",
        "var bool: a_0;\n\
         var bool: a_1;\n\
         var bool: a_2;\n\
         var bool: a_3;\n\
         constraint int_eq_reif(v_x,0,a_0);\n\
         constraint array_bool_and([a_0],a_1);\n\
         constraint bool_clause([a_1],[]);\n\
         constraint int_eq_reif(v_x,0,a_2);\n\
         constraint array_bool_and([a_2],a_3);\n\
         constraint bool_clause([a_3],[]);\n",
    ),
];

/// `regular`.
pub const AUTOMATA: &[Conversion] = &[
    // One layer: the literals, and then who is reached.
    (
        "<regular> <list> x </list> <transitions> (a,0,b)(a,1,c) </transitions> <start> a </start> <final> b </final> </regular>",
        "var bool: a_0;\n\
         var bool: a_1;\n\
         var bool: a_2;\n\
         var bool: a_3;\n\
         constraint int_eq_reif(v_x,0,a_0);\n\
         constraint int_eq_reif(v_x,1,a_1);\n\
         constraint array_bool_or([a_0],a_2);\n\
         constraint array_bool_or([a_1],a_3);\n\
         constraint bool_clause([a_2],[]);\n",
    ),
    // Two layers: a state that is reached, and the literal.
    (
        "<regular> <list> x y </list> <transitions> (a,0,a)(a,1,b)(b,0,b) </transitions> <start> a </start> <final> b </final> </regular>",
        "var bool: a_0;\n\
         var bool: a_1;\n\
         var bool: a_2;\n\
         var bool: a_3;\n\
         var bool: a_4;\n\
         var bool: a_5;\n\
         var bool: a_6;\n\
         var bool: a_7;\n\
         var bool: a_8;\n\
         var bool: a_9;\n\
         var bool: a_10;\n\
         constraint int_eq_reif(v_x,0,a_0);\n\
         constraint int_eq_reif(v_x,1,a_1);\n\
         constraint array_bool_or([a_0],a_2);\n\
         constraint array_bool_or([a_1],a_3);\n\
         constraint int_eq_reif(v_y,0,a_4);\n\
         constraint array_bool_and([a_2,a_4],a_5);\n\
         constraint int_eq_reif(v_y,1,a_6);\n\
         constraint array_bool_and([a_2,a_6],a_7);\n\
         constraint array_bool_and([a_3,a_4],a_8);\n\
         constraint array_bool_or([a_5],a_9);\n\
         constraint array_bool_or([a_7,a_8],a_10);\n\
         constraint bool_clause([a_10],[]);\n",
    ),
    // A state that no path reaches is left out.
    (
        "<regular> <list> x </list> <transitions> (a,0,b)(c,1,b) </transitions> <start> a </start> <final> b </final> </regular>",
        "var bool: a_0;\n\
         var bool: a_1;\n\
         constraint int_eq_reif(v_x,0,a_0);\n\
         constraint array_bool_or([a_0],a_1);\n\
         constraint bool_clause([a_1],[]);\n",
    ),
    // No final state is reached.
    (
        "<regular> <list> x </list> <transitions> (a,0,b)(c,1,d) </transitions> <start> a </start> <final> d </final> </regular>",
        "var bool: a_0;\n\
         var bool: a_1;\n\
         constraint int_eq_reif(v_x,0,a_0);\n\
         constraint array_bool_or([a_0],a_1);\n\
         constraint bool_clause([],[]);\n",
    ),
    (
        "<regular> <list> x </list> <transitions> (a,0,b) </transitions> <start> a </start> <final>  </final> </regular>",
        "var bool: a_0;\n\
         var bool: a_1;\n\
         constraint int_eq_reif(v_x,0,a_0);\n\
         constraint array_bool_or([a_0],a_1);\n\
         constraint bool_clause([],[]);\n",
    ),
    // No transition leads on.
    (
        "<regular> <list> x y </list> <transitions> (a,0,b) </transitions> <start> a </start> <final> b </final> </regular>",
        "var bool: a_0;\n\
         var bool: a_1;\n\
         constraint int_eq_reif(v_x,0,a_0);\n\
         constraint array_bool_or([a_0],a_1);\n\
         constraint bool_clause([],[]);\n",
    ),
    (
        "<regular> <list> x </list> <transitions>  </transitions> <start> a </start> <final> a </final> </regular>",
        "constraint bool_clause([],[]);\n",
    ),
    // A transition that comes twice, and a final state that does.
    (
        "<regular> <list> x </list> <transitions> (a,0,b)(a,0,b) </transitions> <start> a </start> <final> b b </final> </regular>",
        "var bool: a_0;\n\
         var bool: a_1;\n\
         constraint int_eq_reif(v_x,0,a_0);\n\
         constraint array_bool_or([a_0,a_0],a_1);\n\
         constraint bool_clause([a_1],[]);\n",
    ),
    // Final states in the order in which they are first reached.
    (
        "<regular> <list> x </list> <transitions> (a,0,b)(a,1,c) </transitions> <start> a </start> <final> c b </final> </regular>",
        "var bool: a_0;\n\
         var bool: a_1;\n\
         var bool: a_2;\n\
         var bool: a_3;\n\
         constraint int_eq_reif(v_x,0,a_0);\n\
         constraint int_eq_reif(v_x,1,a_1);\n\
         constraint array_bool_or([a_0],a_2);\n\
         constraint array_bool_or([a_1],a_3);\n\
         constraint bool_clause([a_2,a_3],[]);\n",
    ),
    // A state is numbered where it is first mentioned, and reached in the order of first targets.
    (
        "<regular> <list> x </list> <transitions> (b,1,c)(a,2,c)(a,0,b) </transitions> <start> a </start> <final> b </final> </regular>",
        "var bool: a_0;\n\
         var bool: a_1;\n\
         var bool: a_2;\n\
         var bool: a_3;\n\
         constraint int_eq_reif(v_x,2,a_0);\n\
         constraint int_eq_reif(v_x,0,a_1);\n\
         constraint array_bool_or([a_0],a_2);\n\
         constraint array_bool_or([a_1],a_3);\n\
         constraint bool_clause([a_3],[]);\n",
    ),
];

/// `mdd`.
pub const DIAGRAMS: &[Conversion] = &[
    // A diagram of two layers.
    (
        "<mdd> <list> x y </list> <transitions> (r,0,a)(r,1,b)(a,0,t)(b,1,t) </transitions> </mdd>",
        "var bool: a_0;\n\
         var bool: a_1;\n\
         var bool: a_2;\n\
         var bool: a_3;\n\
         var bool: a_4;\n\
         var bool: a_5;\n\
         var bool: a_6;\n\
         var bool: a_7;\n\
         var bool: a_8;\n\
         constraint int_eq_reif(v_x,0,a_0);\n\
         constraint int_eq_reif(v_x,1,a_1);\n\
         constraint array_bool_or([a_0],a_2);\n\
         constraint array_bool_or([a_1],a_3);\n\
         constraint int_eq_reif(v_y,0,a_4);\n\
         constraint array_bool_and([a_2,a_4],a_5);\n\
         constraint int_eq_reif(v_y,1,a_6);\n\
         constraint array_bool_and([a_3,a_6],a_7);\n\
         constraint array_bool_or([a_5,a_7],a_8);\n\
         constraint bool_clause([a_8],[]);\n",
    ),
    (
        "<mdd> <list> x </list> <transitions> (r,0,t)(r,2,t) </transitions> </mdd>",
        "var bool: a_0;\n\
         var bool: a_1;\n\
         var bool: a_2;\n\
         constraint int_eq_reif(v_x,0,a_0);\n\
         constraint int_eq_reif(v_x,2,a_1);\n\
         constraint array_bool_or([a_0,a_1],a_2);\n\
         constraint bool_clause([a_2],[]);\n",
    ),
    // A list that is longer than the diagram is deep, and an empty one.
    (
        "<mdd> <list> x y </list> <transitions> (r,0,t) </transitions> </mdd>",
        "var bool: a_0;\n\
         var bool: a_1;\n\
         constraint int_eq_reif(v_x,0,a_0);\n\
         constraint array_bool_or([a_0],a_1);\n\
         constraint bool_clause([],[]);\n",
    ),
    (
        "<mdd> <list>  </list> <transitions> (r,0,t) </transitions> </mdd>",
        "constraint bool_clause([],[]);\n",
    ),
];
