//! Instances with expressions, and their models.

/// The declarations and the constraints of an instance, with its model.
pub type Conversion = (&'static str, &'static str, &'static str);

/// A whole file, with its model.
pub type Converted = (&'static str, &'static str);

/// An expression is the text of an `intension` or of its `function`, with whitespace and comments between its words.
pub const PLACES: &[Conversion] = &[
    (
        r#"<var id="a"> 0..3 </var><var id="b"> 0..3 </var>"#,
        "<intension>lt(a,b)</intension>",
        "var 0..3: v_a :: output_var;\n\
         var 0..3: v_b :: output_var;\n\
         constraint int_lt(v_a,v_b);\n\
         solve satisfy;\n",
    ),
    (
        r#"<var id="a"> 0..3 </var><var id="b"> 0..3 </var>"#,
        "<intension><function> lt(a,b) </function></intension>",
        "var 0..3: v_a :: output_var;\n\
         var 0..3: v_b :: output_var;\n\
         constraint int_lt(v_a,v_b);\n\
         solve satisfy;\n",
    ),
    (
        r#"<var id="a"> 0..3 </var><var id="b"> 0..3 </var>"#,
        "<intension id=\"c\" class=\"k\" note=\"n\"> <function note=\"n\" class=\"k\">lt(a,b)</function>\n</intension>",
        "var 0..3: v_a :: output_var;\n\
         var 0..3: v_b :: output_var;\n\
         constraint int_lt(v_a,v_b);\n\
         solve satisfy;\n",
    ),
    (
        r#"<var id="a"> 0..3 </var><var id="b"> 0..3 </var>"#,
        "<intension>\n\tle ( add\n(a , b) ,\r\n3 )\t</intension>",
        "var 0..3: v_a :: output_var;\n\
         var 0..3: v_b :: output_var;\n\
         var 0..6: a_0;\n\
         constraint int_lin_eq([1,1,-1],[v_a,v_b,a_0],0);\n\
         constraint int_le(a_0,3);\n\
         solve satisfy;\n",
    ),
    (
        r#"<var id="a"> 0..3 </var><var id="b"> 0..3 </var>"#,
        "<intension> in(a , set ( ) ) </intension>",
        "var 0..3: v_a :: output_var;\n\
         var 0..3: v_b :: output_var;\n\
         constraint bool_clause([false],[]);\n\
         solve satisfy;\n",
    ),
    (
        r#"<var id="a"> 0..3 </var><var id="b"> 0..3 </var>"#,
        "<intension> le(<!-- the first, ( and -->a<!-- -->,<!-- b -->3) </intension>",
        "var 0..3: v_a :: output_var;\n\
         var 0..3: v_b :: output_var;\n\
         constraint int_le(v_a,3);\n\
         solve satisfy;\n",
    ),
    (
        r#"<var id="a"> 0..3 </var><var id="b"> 0..3 </var>"#,
        "<intension><!-- f --><function><!-- g -->lt(a,<!-- h -->b)</function><!-- i --></intension>",
        "var 0..3: v_a :: output_var;\n\
         var 0..3: v_b :: output_var;\n\
         constraint int_lt(v_a,v_b);\n\
         solve satisfy;\n",
    ),
    (
        r#"<var id="a"> 0..3 </var><var id="b"> 0..3 </var>"#,
        "<intension> and(le(a,+003),ge(a,-0),ne(a,-07)) </intension>",
        "var 0..3: v_a :: output_var;\n\
         var 0..3: v_b :: output_var;\n\
         constraint int_le(v_a,3);\n\
         constraint int_le(0,v_a);\n\
         constraint int_ne(v_a,-7);\n\
         solve satisfy;\n",
    ),
    (
        r#"<var id="a"> 0..3 </var><var id="b"> 0..3 </var>"#,
        "<intension> le(pow(a,+02),9) </intension>",
        "var 0..3: v_a :: output_var;\n\
         var 0..3: v_b :: output_var;\n\
         var 0..9: a_0;\n\
         constraint int_times(v_a,v_a,a_0);\n\
         constraint int_le(a_0,9);\n\
         solve satisfy;\n",
    ),
    (
        r#"<var id="a"> 0..3 </var><var id="b"> 0..3 </var>"#,
        "<intension> or(+1,-0,00) </intension>",
        "var 0..3: v_a :: output_var;\n\
         var 0..3: v_b :: output_var;\n\
         constraint bool_clause([true,false,false],[]);\n\
         solve satisfy;\n",
    ),
    (
        r#"<var id="a"> 0..3 </var><var id="b"> 0..3 </var>"#,
        "<intension> eq(a,a) </intension>",
        "var 0..3: v_a :: output_var;\n\
         var 0..3: v_b :: output_var;\n\
         constraint int_eq(v_a,v_a);\n\
         solve satisfy;\n",
    ),
    (
        "",
        "<intension> and(lt(1,2),1,0) </intension>",
        "constraint int_lt(1,2);\n\
         constraint bool_clause([true],[]);\n\
         constraint bool_clause([false],[]);\n\
         solve satisfy;\n",
    ),
];

/// Cells of arrays, names that are those of operators, and domains with gaps or of one value.
pub const OPERANDS: &[Conversion] = &[
    (
        r#"<array id="m" size="[2][2]"> 0..9 </array>"#,
        "<intension> le(m[0][1],add(m[+1][00],1)) </intension>",
        "var 0..9: v_m_0_0 :: output_var;\n\
         var 0..9: v_m_0_1 :: output_var;\n\
         var 0..9: v_m_1_0 :: output_var;\n\
         var 0..9: v_m_1_1 :: output_var;\n\
         var 1..10: a_0;\n\
         constraint int_lin_eq([1,1,-1],[v_m_1_0,1,a_0],0);\n\
         constraint int_le(v_m_0_1,a_0);\n\
         solve satisfy;\n",
    ),
    (
        r#"<array id="m" size="[2][2]"><domain for="m[0][1]"> 0..1 </domain><domain for="m[1][1]"> 4..6 </domain></array>"#,
        "<intension> imp(m[0][1],eq(m[1][1],5)) </intension>",
        "var 0..1: v_m_0_1 :: output_var;\n\
         var 4..6: v_m_1_1 :: output_var;\n\
         var bool: a_0;\n\
         var bool: a_1;\n\
         constraint bool2int(a_0,v_m_0_1);\n\
         constraint int_eq_reif(v_m_1_1,5,a_1);\n\
         constraint bool_clause([a_1],[a_0]);\n\
         solve satisfy;\n",
    ),
    (
        r#"<var id="add"> 0..3 </var><var id="set"> 0..3 </var><var id="not"> 0..1 </var>"#,
        "<intension> and(not(not),le(add(add,set),4),in(set,set(add))) </intension>",
        "var 0..3: v_add :: output_var;\n\
         var 0..3: v_set :: output_var;\n\
         var 0..1: v_not :: output_var;\n\
         var bool: a_0;\n\
         var 0..6: a_1;\n\
         var bool: a_2;\n\
         var bool: a_3;\n\
         constraint bool2int(a_0,v_not);\n\
         constraint bool_clause([],[a_0]);\n\
         constraint int_lin_eq([1,1,-1],[v_add,v_set,a_1],0);\n\
         constraint int_le(a_1,4);\n\
         constraint int_eq_reif(v_set,v_add,a_2);\n\
         constraint array_bool_or([a_2],a_3);\n\
         constraint bool_clause([a_3],[]);\n\
         solve satisfy;\n",
    ),
    (
        r#"<var id="x_1"> 0..1 </var>"#,
        "<intension>x_1</intension>",
        "var 0..1: v_x__1 :: output_var;\n\
         var bool: a_0;\n\
         constraint bool2int(a_0,v_x__1);\n\
         constraint bool_clause([a_0],[]);\n\
         solve satisfy;\n",
    ),
    (
        r#"<var id="d"> 0 4 9 </var><var id="e"> -3 0 </var>"#,
        "<intension> eq(add(d,1),mul(d,e)) </intension>",
        "var {0,4,9}: v_d :: output_var;\n\
         var {-3,0}: v_e :: output_var;\n\
         var 1..10: a_0;\n\
         var -27..0: a_1;\n\
         constraint int_lin_eq([1,1,-1],[v_d,1,a_0],0);\n\
         constraint int_times(v_d,v_e,a_1);\n\
         constraint int_eq(a_0,a_1);\n\
         solve satisfy;\n",
    ),
    (
        r#"<var id="one"> 1 </var><var id="nil"> 0 </var>"#,
        "<intension> or(one,nil) </intension><intension> one </intension>",
        "var 1..1: v_one :: output_var;\n\
         var 0..0: v_nil :: output_var;\n\
         var bool: a_0;\n\
         var bool: a_1;\n\
         var bool: a_2;\n\
         constraint bool2int(a_0,v_one);\n\
         constraint bool2int(a_1,v_nil);\n\
         constraint bool_clause([a_0,a_1],[]);\n\
         constraint bool2int(a_2,v_one);\n\
         constraint bool_clause([a_2],[]);\n\
         solve satisfy;\n",
    ),
];

/// The new variables are numbered over all constraints.
pub const SEVERAL: &[Conversion] = &[
    (
        r#"<var id="a"> 0..3 </var><var id="b"> 0..3 </var>"#,
        "<intension> lt(add(a,b),3) </intension><intension> or(lt(a,b),eq(a,0)) </intension><intension> ne(dist(a,b),1) </intension>",
        "var 0..3: v_a :: output_var;\n\
         var 0..3: v_b :: output_var;\n\
         var 0..6: a_0;\n\
         var bool: a_1;\n\
         var bool: a_2;\n\
         var -3..3: a_3;\n\
         var 0..3: a_4;\n\
         constraint int_lin_eq([1,1,-1],[v_a,v_b,a_0],0);\n\
         constraint int_lt(a_0,3);\n\
         constraint int_lt_reif(v_a,v_b,a_1);\n\
         constraint int_eq_reif(v_a,0,a_2);\n\
         constraint bool_clause([a_1,a_2],[]);\n\
         constraint int_lin_eq([1,-1,-1],[v_a,v_b,a_3],0);\n\
         constraint int_abs(a_3,a_4);\n\
         constraint int_ne(a_4,1);\n\
         solve satisfy;\n",
    ),
    (
        r#"<var id="a"> 0..3 </var><var id="b"> 0..3 </var>"#,
        "<allDifferent> a b </allDifferent><intension> ne(dist(a,b),1) </intension><allDifferent><list> b a </list></allDifferent><intension> not(eq(a,b)) </intension>",
        "var 0..3: v_a :: output_var;\n\
         var 0..3: v_b :: output_var;\n\
         var -3..3: a_0;\n\
         var 0..3: a_1;\n\
         var bool: a_2;\n\
         constraint int_ne(v_a,v_b);\n\
         constraint int_lin_eq([1,-1,-1],[v_a,v_b,a_0],0);\n\
         constraint int_abs(a_0,a_1);\n\
         constraint int_ne(a_1,1);\n\
         constraint int_ne(v_b,v_a);\n\
         constraint int_eq_reif(v_a,v_b,a_2);\n\
         constraint bool_clause([],[a_2]);\n\
         solve satisfy;\n",
    ),
    (
        r#"<var id="a"> 0..3 </var><var id="b"> 0..3 </var>"#,
        "<intension> lt(a,b) </intension> <!-- the same --> <intension> lt(a,b) </intension>",
        "var 0..3: v_a :: output_var;\n\
         var 0..3: v_b :: output_var;\n\
         constraint int_lt(v_a,v_b);\n\
         constraint int_lt(v_a,v_b);\n\
         solve satisfy;\n",
    ),
];

/// Constraints of the greatest magnitude that there may be, 2^126 - 1: that of all nodes or list members together, and
/// the square of their number.
pub const LIMITS: &[Conversion] = &[
    // 2^126 - 11, 0 and 1, and the square of 3; each constraint has its own
    (
        r#"<var id="t"> 0..85070591730234615865843651857942052853 </var>"#,
        "<intension> le(t,0) </intension><intension> le(t,0) </intension>",
        "var 0..85070591730234615865843651857942052853: v_t :: output_var;\n\
         constraint int_le(v_t,0);\n\
         constraint int_le(v_t,0);\n\
         solve satisfy;\n",
    ),
    // 2^126 - 18, 0, 0 for the set and 1, and the square of 4
    (
        r#"<var id="t"> -85070591730234615865843651857942052846..0 </var>"#,
        "<intension> in(t,set(0)) </intension>",
        "var -85070591730234615865843651857942052846..0: v_t :: output_var;\n\
         constraint set_in(v_t,{0});\n\
         solve satisfy;\n",
    ),
    // 1, 2^126 - 19, 0 for the set and 1, and the square of 4
    (
        "",
        "<intension> in(1,set(85070591730234615865843651857942052845)) </intension>",
        "constraint set_in(1,{85070591730234615865843651857942052845});\n\
         solve satisfy;\n",
    ),
    // 2^126 - 2, and the square of 1
    (
        r#"<var id="t"> 0..85070591730234615865843651857942052862 </var>"#,
        "<allDifferent> t </allDifferent>",
        "var 0..85070591730234615865843651857942052862: v_t :: output_var;\n\
         solve satisfy;\n",
    ),
    // 2^126 - 6 and 1, and the square of 2
    (
        r#"<var id="t"> 0..85070591730234615865843651857942052858 </var><var id="b"> 0..1 </var>"#,
        "<allDifferent> t b </allDifferent>",
        "var 0..85070591730234615865843651857942052858: v_t :: output_var;\n\
         var 0..1: v_b :: output_var;\n\
         constraint int_ne(v_t,v_b);\n\
         solve satisfy;\n",
    ),
];

/// Whole files with 201 levels in what is dropped.
pub const DROPPED: &[Converted] = &[
    (
        "<instance note='{}'><variables/></instance>",
        "solve satisfy;\n",
    ),
    (
        "<instance><variables/><annotations> {} </annotations></instance>",
        "solve satisfy;\n",
    ),
    (
        "<instance><variables/><constraints><intension note='{}'> 1 </intension></constraints></instance>",
        "constraint bool_clause([true],[]);\n\
         solve satisfy;\n",
    ),
    (
        "<instance><variables/><constraints><intension> 1 <!-- {} --></intension></constraints></instance>",
        "constraint bool_clause([true],[]);\n\
         solve satisfy;\n",
    ),
];
