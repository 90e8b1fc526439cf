//! Instances with the models that they are converted to.

/// The declarations and the constraints of an instance, with its model.
pub type Conversion = (&'static str, &'static str, &'static str);

/// A whole file, with its model.
pub type Converted = (&'static str, &'static str);

/// Domains of variables, in any order and spelling.
pub const DOMAINS: &[Conversion] = &[
    (
        r#"<var id="a"> 7 0..3 2 </var>"#,
        "",
        "var {0,1,2,3,7}: v_a :: output_var;\nsolve satisfy;\n",
    ),
    (
        r#"<var id="a"> 3 0..1 2 </var>"#,
        "",
        "var 0..3: v_a :: output_var;\nsolve satisfy;\n",
    ),
    (
        r#"<var id="a"> 5 </var>"#,
        "",
        "var 5..5: v_a :: output_var;\nsolve satisfy;\n",
    ),
    (
        r#"<var id="a">4..4</var>"#,
        "",
        "var 4..4: v_a :: output_var;\nsolve satisfy;\n",
    ),
    (
        r#"<var id="a"> +7 -0 -003..-2 </var>"#,
        "",
        "var {-3,-2,0,7}: v_a :: output_var;\nsolve satisfy;\n",
    ),
    (
        r#"<var id="a"> 9..12 1..2 10..11 </var>"#,
        "",
        "var {1,2,9,10,11,12}: v_a :: output_var;\nsolve satisfy;\n",
    ),
    (
        r#"<var id="a"> 1..2 2..3 </var>"#,
        "",
        "var 1..3: v_a :: output_var;\nsolve satisfy;\n",
    ),
    (
        r#"<var id="a"> -85070591730234615865843651857942052863..85070591730234615865843651857942052863 </var>"#,
        "",
        "var -85070591730234615865843651857942052863..85070591730234615865843651857942052863: v_a :: output_var;\nsolve satisfy;\n",
    ),
    (
        "<var id=\"a\">\t0\r\n2 </var>",
        "",
        "var {0,2}: v_a :: output_var;\nsolve satisfy;\n",
    ),
    (
        r#"<var id="a"> 0..1<!-- and -->3 </var>"#,
        "",
        "var {0,1,3}: v_a :: output_var;\nsolve satisfy;\n",
    ),
    (
        r#"<var id="a" type="integer" class="k" note="n"> 0 </var>"#,
        "",
        "var 0..0: v_a :: output_var;\nsolve satisfy;\n",
    ),
    (
        r#"<array id="x" size="[2]" type="integer" class="k" note="n"> 1 3 </array>"#,
        "",
        "var {1,3}: v_x_0 :: output_var;\nvar {1,3}: v_x_1 :: output_var;\nsolve satisfy;\n",
    ),
];

/// Names, and the cells of arrays in row-major order.
pub const NAMES: &[Conversion] = &[
    (
        r#"<var id="x_1"> 5 </var><array id="x" size="[2]"> 0..1 </array>"#,
        "",
        "var 5..5: v_x__1 :: output_var;\nvar 0..1: v_x_0 :: output_var;\nvar 0..1: v_x_1 :: output_var;\nsolve satisfy;\n",
    ),
    (
        r#"<var id="_a"> 0 </var><var id="a__B9"> 1 </var>"#,
        "",
        "var 0..0: v___a :: output_var;\nvar 1..1: v_a____B9 :: output_var;\nsolve satisfy;\n",
    ),
    (
        r#"<array id="x" size="[1][2][2]"> 0 </array>"#,
        "",
        "var 0..0: v_x_0_0_0 :: output_var;\nvar 0..0: v_x_0_0_1 :: output_var;\nvar 0..0: v_x_0_1_0 :: output_var;\nvar 0..0: v_x_0_1_1 :: output_var;\nsolve satisfy;\n",
    ),
];

/// Arrays with `domain` children.
pub const CELLS: &[Conversion] = &[
    (
        r#"<array id="x" size="[2][2]"><domain for="x[0][]"> 0..1 </domain></array>"#,
        "<allDifferent> x[][] </allDifferent>",
        "var 0..1: v_x_0_0 :: output_var;\nvar 0..1: v_x_0_1 :: output_var;\nconstraint int_ne(v_x_0_0,v_x_0_1);\nsolve satisfy;\n",
    ),
    (
        r#"<array id="x" size="[2][2]"><domain for="x[0][1] x[1][0]"> 5 </domain><domain for="others"> 0..1 </domain></array>"#,
        "",
        "var 0..1: v_x_0_0 :: output_var;\nvar 5..5: v_x_0_1 :: output_var;\nvar 5..5: v_x_1_0 :: output_var;\nvar 0..1: v_x_1_1 :: output_var;\nsolve satisfy;\n",
    ),
    (
        r#"<array id="x" size="[2]"><domain for=" others "> 0 </domain><domain for="others"> 9 </domain></array>"#,
        "",
        "var 0..0: v_x_0 :: output_var;\nvar 0..0: v_x_1 :: output_var;\nsolve satisfy;\n",
    ),
    (
        r#"<array id="x" size="[2]"><domain for="x[]"> 0 2 </domain><domain for="others"> 9 </domain></array>"#,
        "",
        "var {0,2}: v_x_0 :: output_var;\nvar {0,2}: v_x_1 :: output_var;\nsolve satisfy;\n",
    ),
    (
        "<array id=\"x\" size=\"[4]\"> <domain for=\"x[1..2] x[1]\" class=\"k\" note=\"n\"> 1 </domain>\n<!-- c --> <domain for=\"x[+3]\"> 2 </domain> </array>",
        "",
        "var 1..1: v_x_1 :: output_var;\nvar 1..1: v_x_2 :: output_var;\nvar 2..2: v_x_3 :: output_var;\nsolve satisfy;\n",
    ),
    (
        r#"<array id="x" size="[2]"><domain for=""> 0 </domain><domain for="x[1]"> 1 </domain></array>"#,
        "",
        "var 1..1: v_x_1 :: output_var;\nsolve satisfy;\n",
    ),
];

/// Domains that are taken from another declaration.
pub const TAKEN: &[Conversion] = &[
    (
        r#"<var id="a"> 3 1 </var><var id="b" as="a"/><array id="x" size="[2]" as="a"> </array>"#,
        "",
        "var {1,3}: v_a :: output_var;\nvar {1,3}: v_b :: output_var;\nvar {1,3}: v_x_0 :: output_var;\nvar {1,3}: v_x_1 :: output_var;\nsolve satisfy;\n",
    ),
    (
        r#"<array id="x" size="[2][2]"><domain for="x[0][]"> 0..1 </domain><domain for="x[1][1]"> 7 </domain></array><array id="y" size="[2][2]" as="x"/>"#,
        "",
        "var 0..1: v_x_0_0 :: output_var;\nvar 0..1: v_x_0_1 :: output_var;\nvar 7..7: v_x_1_1 :: output_var;\nvar 0..1: v_y_0_0 :: output_var;\nvar 0..1: v_y_0_1 :: output_var;\nvar 7..7: v_y_1_1 :: output_var;\nsolve satisfy;\n",
    ),
    (
        r#"<array id="x" size="[2]"> 0..1 </array><array id="y" size="[3]" as="x"/><array id="z" size="[1][1]" as="y"/>"#,
        "",
        "var 0..1: v_x_0 :: output_var;\nvar 0..1: v_x_1 :: output_var;\nvar 0..1: v_y_0 :: output_var;\nvar 0..1: v_y_1 :: output_var;\nvar 0..1: v_y_2 :: output_var;\nvar 0..1: v_z_0_0 :: output_var;\nsolve satisfy;\n",
    ),
    (
        r#"<array id="x" size="[2]"><domain for="x[0]"> 0..1 </domain><domain for="x[1]"> 1 0 </domain></array><var id="a" as="x"/><var id="b" as="a"/>"#,
        "",
        "var 0..1: v_x_0 :: output_var;\nvar 0..1: v_x_1 :: output_var;\nvar 0..1: v_a :: output_var;\nvar 0..1: v_b :: output_var;\nsolve satisfy;\n",
    ),
];

/// Lists of variables.
pub const LISTS: &[Conversion] = &[
    (
        r#"<array id="x" size="[2][2]"> 0..3 </array><var id="a"> 0..3 </var>"#,
        "<allDifferent> x[][1] a x[0][0] </allDifferent>",
        "var 0..3: v_x_0_0 :: output_var;\nvar 0..3: v_x_0_1 :: output_var;\nvar 0..3: v_x_1_0 :: output_var;\nvar 0..3: v_x_1_1 :: output_var;\nvar 0..3: v_a :: output_var;\nconstraint int_ne(v_x_0_1,v_x_1_1);\nconstraint int_ne(v_x_0_1,v_a);\nconstraint int_ne(v_x_0_1,v_x_0_0);\nconstraint int_ne(v_x_1_1,v_a);\nconstraint int_ne(v_x_1_1,v_x_0_0);\nconstraint int_ne(v_a,v_x_0_0);\nsolve satisfy;\n",
    ),
    (
        r#"<array id="x" size="[2][3]"> 0 </array>"#,
        "<allDifferent> x[0..1][1..2] </allDifferent>",
        "var 0..0: v_x_0_0 :: output_var;\nvar 0..0: v_x_0_1 :: output_var;\nvar 0..0: v_x_0_2 :: output_var;\nvar 0..0: v_x_1_0 :: output_var;\nvar 0..0: v_x_1_1 :: output_var;\nvar 0..0: v_x_1_2 :: output_var;\nconstraint int_ne(v_x_0_1,v_x_0_2);\nconstraint int_ne(v_x_0_1,v_x_1_1);\nconstraint int_ne(v_x_0_1,v_x_1_2);\nconstraint int_ne(v_x_0_2,v_x_1_1);\nconstraint int_ne(v_x_0_2,v_x_1_2);\nconstraint int_ne(v_x_1_1,v_x_1_2);\nsolve satisfy;\n",
    ),
    (
        r#"<array id="x" size="[2][2]"><domain for="x[0][]"> 0..1 </domain></array>"#,
        "<allDifferent> x[1][] x[0][1] </allDifferent>",
        "var 0..1: v_x_0_0 :: output_var;\nvar 0..1: v_x_0_1 :: output_var;\nsolve satisfy;\n",
    ),
    (
        r#"<var id="a"> 0..1 </var><var id="b"> 0..1 </var>"#,
        "<allDifferent><list> a b </list></allDifferent>",
        "var 0..1: v_a :: output_var;\nvar 0..1: v_b :: output_var;\nconstraint int_ne(v_a,v_b);\nsolve satisfy;\n",
    ),
    (
        r#"<var id="a"> 0..1 </var><var id="b"> 0..1 </var>"#,
        "<allDifferent id=\"c\" class=\"k\" note=\"n\">\n<list note=\"n\" class=\"k\">\tb\na</list> </allDifferent>",
        "var 0..1: v_a :: output_var;\nvar 0..1: v_b :: output_var;\nconstraint int_ne(v_b,v_a);\nsolve satisfy;\n",
    ),
    (
        r#"<var id="a"> 0..1 </var><var id="b"> 0..1 </var>"#,
        "<allDifferent/><allDifferent> </allDifferent><allDifferent><list/></allDifferent><allDifferent> a </allDifferent>",
        "var 0..1: v_a :: output_var;\nvar 0..1: v_b :: output_var;\nsolve satisfy;\n",
    ),
    (
        r#"<var id="a"> 0..1 </var><var id="b"> 0..1 </var>"#,
        "<allDifferent> a a </allDifferent> <!-- c --> <allDifferent>b<!-- -->a</allDifferent>",
        "var 0..1: v_a :: output_var;\nvar 0..1: v_b :: output_var;\nconstraint int_ne(v_a,v_a);\nconstraint int_ne(v_b,v_a);\nsolve satisfy;\n",
    ),
];

/// Whole files.
pub const FILES: &[Converted] = &[
    ("<instance><variables/></instance>", "solve satisfy;\n"),
    (
        r#"<instance><variables><var id="a"> 0 </var></variables></instance>"#,
        "var 0..0: v_a :: output_var;\nsolve satisfy;\n",
    ),
    (
        r#"<instance class="k" note="n" format="any" type="COP"><variables/><annotations id="z"> x <decision k="v"> y <b/> </decision></annotations><objectives/><constraints id="c" class="k" note="n"/></instance>"#,
        "solve satisfy;\n",
    ),
    (
        r#"<instance><variables class="k" note="n"> </variables><objectives class="k" note="n"> </objectives></instance>"#,
        "solve satisfy;\n",
    ),
    (
        r#"<instance format='XCSP3' type='CSP'><variables><var id='a' note='say "no"'> 0 </var><var id="b" note="it's > 0 &"> 0 </var></variables></instance>"#,
        "var 0..0: v_a :: output_var;\nvar 0..0: v_b :: output_var;\nsolve satisfy;\n",
    ),
    (
        "<?xml version=\"1.0\" encoding=\"UTF-8\"?>\n<!-- a --><instance\n\tformat = \"XCSP3\"\n><!-- b --><variables><!-- c -->\n<var id=\"a\"><!-- d -->0<!-- e --></var ><!-- <var id=\"b\"/> --></variables\n><!-- f --></instance >\n<!-- g -->\n",
        "var 0..0: v_a :: output_var;\nsolve satisfy;\n",
    ),
    (
        "\r\n<!-- - -- & > --><instance note=\"two\nlines\"><variables><array id=\"x\" size='[1]'>0</array></variables></instance>\t",
        "var 0..0: v_x_0 :: output_var;\nsolve satisfy;\n",
    ),
];
