//! Instances that are refused, with their first fault: a unit that is not the first misses a condition.

/// The declarations and the constraints of an instance, with its fault.
pub type Refusal = (&'static str, &'static str, &'static str);

/// A whole file, with its fault.
pub type Refused = (&'static str, &'static str);

/// An element, an attribute or a value that is not known, or an element where only text may stand.
pub const UNKNOWN: &[Refusal] = &[
    (
        r#"<var id="a"> 0..1 </var><var id="b"> 0..1 </var><var id="c" domain="d"> 0 </var>"#,
        "",
        "F3 at 95",
    ),
    (
        r#"<var id="a"> 0..1 </var><var id="b"> 0..1 </var><var id="c" type="symbolic"> 0 </var>"#,
        "",
        "F3 at 95",
    ),
    (
        r#"<var id="a"> 0..1 </var><var id="b"> 0..1 </var><var id="c"> 0 <d/></var>"#,
        "",
        "F3 at 95",
    ),
    (
        r#"<var id="a"> 0..1 </var><var id="b"> 0..1 </var><array id="x" size="[1]" startIndex="1"> 0 </array>"#,
        "",
        "F3 at 95",
    ),
    (
        r#"<var id="a"> 0..1 </var><var id="b"> 0..1 </var><array id="x" size="[1]" type="real"> 0 </array>"#,
        "",
        "F3 at 95",
    ),
    (
        r#"<var id="a"> 0..1 </var><var id="b"> 0..1 </var><array id="x" size="[1]"><cell> 0 </cell></array>"#,
        "",
        "F3 at 95",
    ),
    (
        r#"<var id="a"> 0..1 </var><var id="b"> 0..1 </var><array id="x" size="[1]"><domain for="x[0]" id="d"> 0 </domain></array>"#,
        "",
        "F3 at 95",
    ),
    (
        r#"<var id="a"> 0..1 </var><var id="b"> 0..1 </var><array id="x" size="[1]"><domain for="x[0]"> 0 <d/></domain></array>"#,
        "",
        "F3 at 95",
    ),
    (
        r#"<var id="a"> 0..1 </var><var id="b"> 0..1 </var><array id="x" size="[1]" as="a"><domain for="x[0]" as="a"/></array>"#,
        "",
        "F3 at 95",
    ),
    (
        r#"<var id="a"> 0..1 </var><var id="b"> 0..1 </var>"#,
        "<stretch/>",
        "F3 at 120",
    ),
    (
        r#"<var id="a"> 0..1 </var><var id="b"> 0..1 </var>"#,
        "<block><stretch/></block>",
        "F3 at 127",
    ),
    (
        r#"<var id="a"> 0..1 </var><var id="b"> 0..1 </var>"#,
        "<group><stretch/><args> a b </args></group>",
        "F3 at 127",
    ),
    (
        r#"<var id="a"> 0..1 </var><var id="b"> 0..1 </var>"#,
        "<allDifferent> a b </allDifferent><allEqual> a b </allEqual>",
        "F3 at 154",
    ),
    (
        r#"<var id="a"> 0..1 </var><var id="b"> 0..1 </var>"#,
        r#"<allDifferent rank="any"> a b </allDifferent>"#,
        "F3 at 120",
    ),
    (
        r#"<var id="a"> 0..1 </var><var id="b"> 0..1 </var>"#,
        "<allDifferent><list> a b </list><except> 0 </except></allDifferent>",
        "F3 at 120",
    ),
    (
        r#"<var id="a"> 0..1 </var><var id="b"> 0..1 </var>"#,
        "<allDifferent><matrix> (a)(b) </matrix></allDifferent>",
        "F3 at 120",
    ),
    (
        r#"<var id="a"> 0..1 </var><var id="b"> 0..1 </var>"#,
        "<allDifferent><list> a <b/></list></allDifferent>",
        "F3 at 120",
    ),
    (
        r#"<var id="a"> 0..1 </var><var id="b"> 0..1 </var>"#,
        r#"<allDifferent><list id="l"> a </list></allDifferent>"#,
        "F3 at 120",
    ),
    (
        r#"<var id="a"> 0..1 </var><var id="b"> 0..1 </var>"#,
        "<AllDifferent> a b </AllDifferent>",
        "F3 at 120",
    ),
];

/// A child, an attribute or a spelling that is not the one that is asked; or no domain, no cell, or an `as` that does not fit.
pub const SHAPES: &[Refusal] = &[
    (
        r#"<var id="a"> 0..1 </var><var id="b"> 0..1 </var><var> 0 </var>"#,
        "",
        "F4 at 95",
    ),
    (
        r#"<var id="a"> 0..1 </var><var id="b"> 0..1 </var><var id=""> 0 </var>"#,
        "",
        "F4 at 95",
    ),
    (
        r#"<var id="a"> 0..1 </var><var id="b"> 0..1 </var><var id="1c"> 0 </var>"#,
        "",
        "F4 at 95",
    ),
    (
        r#"<var id="a"> 0..1 </var><var id="b"> 0..1 </var><var id=" c"> 0 </var>"#,
        "",
        "F4 at 95",
    ),
    (
        r#"<var id="a"> 0..1 </var><var id="b"> 0..1 </var><var id="c-d"> 0 </var>"#,
        "",
        "F4 at 95",
    ),
    (
        r#"<var id="a"> 0..1 </var><var id="b"> 0..1 </var><var id="c"> 0 ..1 </var>"#,
        "",
        "F4 at 95",
    ),
    (
        r#"<var id="a"> 0..1 </var><var id="b"> 0..1 </var><var id="c"> 2..1 </var>"#,
        "",
        "F4 at 95",
    ),
    (
        r#"<var id="a"> 0..1 </var><var id="b"> 0..1 </var><var id="c"> 0x3 </var>"#,
        "",
        "F4 at 95",
    ),
    (
        r#"<var id="a"> 0..1 </var><var id="b"> 0..1 </var><var id="c"> 0,1 </var>"#,
        "",
        "F4 at 95",
    ),
    (
        r#"<var id="a"> 0..1 </var><var id="b"> 0..1 </var><var id="c"> 0...1 </var>"#,
        "",
        "F4 at 95",
    ),
    (
        r#"<var id="a"> 0..1 </var><var id="b"> 0..1 </var><var id="c"> a </var>"#,
        "",
        "F4 at 95",
    ),
    (
        r#"<var id="a"> 0..1 </var><var id="b"> 0..1 </var><var id="c"> 0<!-- one space -->..1 </var>"#,
        "",
        "F4 at 95",
    ),
    (
        r#"<var id="a"> 0..1 </var><var id="b"> 0..1 </var><var id="c"> </var>"#,
        "",
        "F4 at 95",
    ),
    (
        r#"<var id="a"> 0..1 </var><var id="b"> 0..1 </var><var id="c"/>"#,
        "",
        "F4 at 95",
    ),
    (
        r#"<var id="a"> 0..1 </var><var id="b"> 0..1 </var><var id="c" as="a"> 0 </var>"#,
        "",
        "F4 at 95",
    ),
    (
        r#"<var id="a"> 0..1 </var><var id="b"> 0..1 </var><var id="c" as=" a"/>"#,
        "",
        "F4 at 95",
    ),
    (
        r#"<var id="a"> 0..1 </var><var id="b"> 0..1 </var><array id="x"> 0 </array>"#,
        "",
        "F4 at 95",
    ),
    (
        r#"<var id="a"> 0..1 </var><var id="b"> 0..1 </var><array size="[2]"> 0 </array>"#,
        "",
        "F4 at 95",
    ),
    (
        r#"<var id="a"> 0..1 </var><var id="b"> 0..1 </var><array id="x" size=""> 0 </array>"#,
        "",
        "F4 at 95",
    ),
    (
        r#"<var id="a"> 0..1 </var><var id="b"> 0..1 </var><array id="x" size="2"> 0 </array>"#,
        "",
        "F4 at 95",
    ),
    (
        r#"<var id="a"> 0..1 </var><var id="b"> 0..1 </var><array id="x" size="[2"> 0 </array>"#,
        "",
        "F4 at 95",
    ),
    (
        r#"<var id="a"> 0..1 </var><var id="b"> 0..1 </var><array id="x" size="[]"> 0 </array>"#,
        "",
        "F4 at 95",
    ),
    (
        r#"<var id="a"> 0..1 </var><var id="b"> 0..1 </var><array id="x" size="[ 2]"> 0 </array>"#,
        "",
        "F4 at 95",
    ),
    (
        r#"<var id="a"> 0..1 </var><var id="b"> 0..1 </var><array id="x" size="[a]"> 0 </array>"#,
        "",
        "F4 at 95",
    ),
    (
        r#"<var id="a"> 0..1 </var><var id="b"> 0..1 </var><array id="x" size="[0]"> 0 </array>"#,
        "",
        "F4 at 95",
    ),
    (
        r#"<var id="a"> 0..1 </var><var id="b"> 0..1 </var><array id="x" size="[-1]"> 0 </array>"#,
        "",
        "F4 at 95",
    ),
    (
        r#"<var id="a"> 0..1 </var><var id="b"> 0..1 </var><array id="x" size="[2][0]"> 0 </array>"#,
        "",
        "F4 at 95",
    ),
    (
        r#"<var id="a"> 0..1 </var><var id="b"> 0..1 </var><array id="x" size="[2]"/>"#,
        "",
        "F4 at 95",
    ),
    (
        r#"<var id="a"> 0..1 </var><var id="b"> 0..1 </var><array id="x" size="[2]"> 0 <domain for="x[0]"> 0 </domain></array>"#,
        "",
        "F4 at 95",
    ),
    (
        r#"<var id="a"> 0..1 </var><var id="b"> 0..1 </var><array id="x" size="[2]" as="a"> 0 </array>"#,
        "",
        "F4 at 95",
    ),
    (
        r#"<var id="a"> 0..1 </var><var id="b"> 0..1 </var><array id="x" size="[2]" as="a"><domain for="x[0]"> 0 </domain></array>"#,
        "",
        "F4 at 95",
    ),
    (
        r#"<var id="a"> 0..1 </var><var id="b"> 0..1 </var><array id="x" size="[2]"><domain> 0 </domain></array>"#,
        "",
        "F4 at 95",
    ),
    (
        r#"<var id="a"> 0..1 </var><var id="b"> 0..1 </var><array id="x" size="[2]"><domain for="x[0"> 0 </domain></array>"#,
        "",
        "F4 at 95",
    ),
    (
        r#"<var id="a"> 0..1 </var><var id="b"> 0..1 </var><array id="x" size="[2]"><domain for="x[1..0]"> 0 </domain></array>"#,
        "",
        "F4 at 95",
    ),
    (
        r#"<var id="a"> 0..1 </var><var id="b"> 0..1 </var><array id="x" size="[2]"><domain for="x[0]"/></array>"#,
        "",
        "F4 at 95",
    ),
    (
        r#"<var id="a"> 0..1 </var><var id="b"> 0..1 </var><array id="x" size="[2]"><domain for=""> 0 </domain></array>"#,
        "",
        "F4 at 95",
    ),
    (
        r#"<var id="a"> 0..1 </var><var id="b"> 0..1 </var><array id="x" size="[2]"><domain for="x[]"> 0 </domain><domain for="x[1]"> 1 </domain></array>"#,
        "",
        "F4 at 95",
    ),
    (
        r#"<var id="a"> 0..1 </var><var id="b"> 0..1 </var><array id="x" size="[2]"><domain for="others"> 0 </domain><domain for="x[1]"> 1 </domain></array>"#,
        "",
        "F4 at 95",
    ),
    (
        r#"<var id="a"> 0..1 </var><var id="b"> 0..1 </var><array id="x" size="[2]"><domain for="x[0]"> 0 </domain><domain for="x[1]"> 1 </domain></array><array id="y" size="[3]" as="x"/>"#,
        "",
        "F4 at 190",
    ),
    (
        r#"<var id="a"> 0..1 </var><var id="b"> 0..1 </var><array id="x" size="[2]"><domain for="x[0]"> 0 </domain></array><array id="y" size="[1]" as="x"/>"#,
        "",
        "F4 at 159",
    ),
    (
        r#"<var id="a"> 0..1 </var><var id="b"> 0..1 </var><array id="x" size="[2]"><domain for="x[0]"> 0 </domain></array><var id="y" as="x"/>"#,
        "",
        "F4 at 159",
    ),
    (
        r#"<var id="a"> 0..1 </var><var id="b"> 0..1 </var>"#,
        "<allDifferent> a, b </allDifferent>",
        "F4 at 120",
    ),
    (
        r#"<var id="a"> 0..1 </var><var id="b"> 0..1 </var>"#,
        "<allDifferent> a[ </allDifferent>",
        "F4 at 120",
    ),
    (
        r#"<var id="a"> 0..1 </var><var id="b"> 0..1 </var>"#,
        "<allDifferent> a 1 </allDifferent>",
        "F4 at 120",
    ),
    (
        r#"<var id="a"> 0..1 </var><var id="b"> 0..1 </var>"#,
        "<allDifferent> a [0] </allDifferent>",
        "F4 at 120",
    ),
    (
        r#"<var id="a"> 0..1 </var><var id="b"> 0..1 </var>"#,
        "<allDifferent> a[1..0] </allDifferent>",
        "F4 at 120",
    ),
    (
        r#"<var id="a"> 0..1 </var><var id="b"> 0..1 </var>"#,
        "<allDifferent> %0 </allDifferent>",
        "F4 at 120",
    ),
    (
        r#"<var id="a"> 0..1 </var><var id="b"> 0..1 </var>"#,
        "<allDifferent><list> a </list><list> b </list></allDifferent>",
        "F4 at 120",
    ),
    (
        r#"<var id="a"> 0..1 </var><var id="b"> 0..1 </var>"#,
        "<allDifferent> a <list> b </list></allDifferent>",
        "F4 at 120",
    ),
];

/// A name that is not declared or is taken, or brackets that are not right.
pub const NAMES: &[Refusal] = &[
    (
        r#"<var id="a"> 0..1 </var><var id="b"> 0..1 </var><var id="a"> 0 </var>"#,
        "",
        "F5 at 95",
    ),
    (
        r#"<var id="a"> 0..1 </var><var id="b"> 0..1 </var><array id="a" size="[1]"> 0 </array>"#,
        "",
        "F5 at 95",
    ),
    (
        r#"<var id="a"> 0..1 </var><var id="b"> 0..1 </var><array id="x" size="[1]"> 0 </array><var id="x"> 0 </var>"#,
        "",
        "F5 at 131",
    ),
    (
        r#"<var id="a"> 0..1 </var><var id="b"> 0..1 </var><var id="c" as="d"/>"#,
        "",
        "F5 at 95",
    ),
    (
        r#"<var id="a"> 0..1 </var><var id="b"> 0..1 </var><var id="c" as="c"/>"#,
        "",
        "F5 at 95",
    ),
    (
        r#"<var id="a"> 0..1 </var><var id="b"> 0..1 </var><var id="c" as="d"/><var id="d"> 0 </var>"#,
        "",
        "F5 at 95",
    ),
    (
        r#"<var id="a"> 0..1 </var><var id="b"> 0..1 </var><array id="x" size="[1]" as="y"/>"#,
        "",
        "F5 at 95",
    ),
    (
        r#"<var id="a"> 0..1 </var><var id="b"> 0..1 </var><array id="x" size="[1]" as="x"/>"#,
        "",
        "F5 at 95",
    ),
    (
        r#"<var id="a"> 0..1 </var><var id="b"> 0..1 </var><array id="y" size="[1]"> 0 </array><array id="x" size="[1]"><domain for="y[0]"> 0 </domain></array>"#,
        "",
        "F5 at 131",
    ),
    (
        r#"<var id="a"> 0..1 </var><var id="b"> 0..1 </var><array id="x" size="[1]"><domain for="x"> 0 </domain></array>"#,
        "",
        "F5 at 95",
    ),
    (
        r#"<var id="a"> 0..1 </var><var id="b"> 0..1 </var><array id="x" size="[1]"><domain for="a"> 0 </domain></array>"#,
        "",
        "F5 at 95",
    ),
    (
        r#"<var id="a"> 0..1 </var><var id="b"> 0..1 </var><array id="x" size="[1]"><domain for="x[0][0]"> 0 </domain></array>"#,
        "",
        "F5 at 95",
    ),
    (
        r#"<var id="a"> 0..1 </var><var id="b"> 0..1 </var><array id="x" size="[2]"><domain for="x[2]"> 0 </domain></array>"#,
        "",
        "F5 at 95",
    ),
    (
        r#"<var id="a"> 0..1 </var><var id="b"> 0..1 </var><array id="x" size="[2]"><domain for="x[1..2]"> 0 </domain></array>"#,
        "",
        "F5 at 95",
    ),
    (
        r#"<var id="a"> 0..1 </var><var id="b"> 0..1 </var><array id="x" size="[2]"><domain for="x[-1]"> 0 </domain></array>"#,
        "",
        "F5 at 95",
    ),
    (
        r#"<var id="a"> 0..1 </var><var id="b"> 0..1 </var><array id="x" size="[2]"><domain for="x[0] others"> 0 </domain></array>"#,
        "",
        "F5 at 95",
    ),
    (
        r#"<array id="x" size="[2][2]"><domain for="x[0][]"> 0..1 </domain></array>"#,
        "<allDifferent> x[0][0] x[1][0] </allDifferent>",
        "F5 at 144",
    ),
    (
        r#"<var id="a"> 0..1 </var><var id="b"> 0..1 </var>"#,
        "<allDifferent> c </allDifferent>",
        "F5 at 120",
    ),
    (
        r#"<var id="a"> 0..1 </var><var id="b"> 0..1 </var>"#,
        "<allDifferent> A </allDifferent>",
        "F5 at 120",
    ),
    (
        r#"<var id="a"> 0..1 </var><var id="b"> 0..1 </var>"#,
        "<allDifferent> a[0] </allDifferent>",
        "F5 at 120",
    ),
    (
        r#"<var id="a"> 0..1 </var><var id="b"> 0..1 </var>"#,
        "<allDifferent> a[] </allDifferent>",
        "F5 at 120",
    ),
    (
        r#"<var id="a"> 0..1 </var><var id="b"> 0..1 </var>"#,
        "<allDifferent> a b </allDifferent><allDifferent> a b c </allDifferent>",
        "F5 at 154",
    ),
    (
        r#"<array id="x" size="[2][2]"><domain for="x[0][]"> 0..1 </domain></array>"#,
        "<allDifferent> x </allDifferent>",
        "F5 at 144",
    ),
    (
        r#"<array id="x" size="[2][2]"><domain for="x[0][]"> 0..1 </domain></array>"#,
        "<allDifferent> x[0] </allDifferent>",
        "F5 at 144",
    ),
    (
        r#"<array id="x" size="[2][2]"><domain for="x[0][]"> 0..1 </domain></array>"#,
        "<allDifferent> x[] </allDifferent>",
        "F5 at 144",
    ),
    (
        r#"<array id="x" size="[2][2]"><domain for="x[0][]"> 0..1 </domain></array>"#,
        "<allDifferent> x[2][] </allDifferent>",
        "F5 at 144",
    ),
    (
        r#"<array id="x" size="[2][2]"><domain for="x[0][]"> 0..1 </domain></array>"#,
        "<allDifferent> x[][0..2] </allDifferent>",
        "F5 at 144",
    ),
    (
        r#"<array id="x" size="[2][2]"><domain for="x[0][]"> 0..1 </domain></array>"#,
        "<allDifferent> x[-1][0] </allDifferent>",
        "F5 at 144",
    ),
    (
        r#"<array id="x" size="[2][2]"><domain for="x[0][]"> 0..1 </domain></array>"#,
        "<allDifferent> x[0][0][0] </allDifferent>",
        "F5 at 144",
    ),
];

/// More variables and cells, or more values and items, than may be.
pub const COUNTS: &[Refusal] = &[
    (
        r#"<var id="a"> 0..1 </var><var id="b"> 0..1 </var><array id="x" size="[1048575]"> 0 </array>"#,
        "",
        "F6 at 95",
    ),
    (
        r#"<var id="a"> 0..1 </var><var id="b"> 0..1 </var><array id="x" size="[1024][1024]"> 0 </array>"#,
        "",
        "F6 at 95",
    ),
    (
        r#"<var id="a"> 0..1 </var><var id="b"> 0..1 </var><array id="x" size="[85070591730234615865843651857942052863]"> 0 </array>"#,
        "",
        "F6 at 95",
    ),
    (
        r#"<var id="a"> 0..1 </var><var id="b"> 0..1 </var><array id="x" size="[85070591730234615865843651857942052863][85070591730234615865843651857942052863][85070591730234615865843651857942052863]"> 0 </array>"#,
        "",
        "F6 at 95",
    ),
    (
        r#"<var id="a"> 0..1 </var><var id="b"> 0..1 </var><var id="c"> 0 9000000..18000000 </var>"#,
        "",
        "F6 at 95",
    ),
    (
        r#"<var id="a"> 0..1 </var><var id="b"> 0..1 </var><var id="c"> -85070591730234615865843651857942052863 0..85070591730234615865843651857942052863 </var>"#,
        "",
        "F6 at 95",
    ),
    (
        r#"<var id="a"> 0..1 </var><var id="b"> 0..1 </var><var id="c"> 0 10..2097161 </var><var id="d" as="c"/>"#,
        "",
        "F6 at 128",
    ),
    (
        r#"<var id="a"> 0..1 </var><var id="b"> 0..1 </var><array id="x" size="[1000000]"> 0 2 4 6 8 </array>"#,
        "",
        "F6 at 95",
    ),
    (
        r#"<array id="x" size="[1024][1024]"> 0 </array>"#,
        "<allDifferent> x[][] x[][] x[][] x[][] x[0][0] </allDifferent>",
        "F6 at 117",
    ),
    (
        r#"<array id="x" size="[1024][1024]"> 0 </array><var id="a"> 0 </var>"#,
        "",
        "F6 at 92",
    ),
];

/// An integer of a magnitude past 2^126 - 1.
pub const MAGNITUDES: &[Refusal] = &[
    (
        r#"<var id="a"> 0..1 </var><var id="b"> 0..1 </var><var id="c"> 85070591730234615865843651857942052864 </var>"#,
        "",
        "F10 at 95",
    ),
    (
        r#"<var id="a"> 0..1 </var><var id="b"> 0..1 </var><var id="c"> -85070591730234615865843651857942052864 </var>"#,
        "",
        "F10 at 95",
    ),
    (
        r#"<var id="a"> 0..1 </var><var id="b"> 0..1 </var><var id="c"> 0..85070591730234615865843651857942052864 </var>"#,
        "",
        "F10 at 95",
    ),
    (
        r#"<var id="a"> 0..1 </var><var id="b"> 0..1 </var><var id="c"> 1000000000000000000000000000000000000000000000000000000000000 </var>"#,
        "",
        "F10 at 95",
    ),
    (
        r#"<var id="a"> 0..1 </var><var id="b"> 0..1 </var><array id="x" size="[85070591730234615865843651857942052864]"> 0 </array>"#,
        "",
        "F10 at 95",
    ),
    (
        r#"<var id="a"> 0..1 </var><var id="b"> 0..1 </var><array id="x" size="[1]"> +85070591730234615865843651857942052864 </array>"#,
        "",
        "F10 at 95",
    ),
    (
        r#"<var id="a"> 0..1 </var><var id="b"> 0..1 </var><array id="x" size="[1]"><domain for="x[0]"> 85070591730234615865843651857942052864 </domain></array>"#,
        "",
        "F10 at 95",
    ),
    (
        r#"<var id="a"> 0..1 </var><var id="b"> 0..1 </var><array id="x" size="[1]"><domain for="x[85070591730234615865843651857942052864]"> 0 </domain></array>"#,
        "",
        "F10 at 95",
    ),
    (
        r#"<array id="x" size="[2][2]"><domain for="x[0][]"> 0..1 </domain></array>"#,
        "<allDifferent> x[0][85070591730234615865843651857942052864] </allDifferent>",
        "F10 at 144",
    ),
    (
        r#"<array id="x" size="[2][2]"><domain for="x[0][]"> 0..1 </domain></array>"#,
        "<allDifferent> x[][0..85070591730234615865843651857942052864] </allDifferent>",
        "F10 at 144",
    ),
];

/// Two faults, of which the one that comes first counts: the first unit in document order, and in a unit the first condition.
pub const ORDER: &[Refusal] = &[
    (
        r#"<var id="a"> 0..1 </var><var id="1" domain="d"> </var>"#,
        "",
        "F3 at 71",
    ),
    (
        r#"<var id="a"> 0..1 </var><var id="c"> 85070591730234615865843651857942052864 d </var>"#,
        "",
        "F4 at 71",
    ),
    (
        r#"<var id="a"> 0..1 </var><var id="a"> 85070591730234615865843651857942052864 </var>"#,
        "",
        "F10 at 71",
    ),
    (
        r#"<var id="a"> 0..1 </var><var id="a"> </var>"#,
        "",
        "F5 at 71",
    ),
    (
        r#"<var id="a"> 0..1 </var><array id="a" size="[1048577]"> 0 </array>"#,
        "",
        "F5 at 71",
    ),
    (
        r#"<var id="a"> 0..1 </var><array id="a" size="[0]"> 0 </array>"#,
        "",
        "F5 at 71",
    ),
    (
        r#"<var id="a"> 0..1 </var><array id="x" size="[1048577]"/>"#,
        "",
        "F6 at 71",
    ),
    (
        r#"<var id="a"> 0..1 </var><array id="x" size="[85070591730234615865843651857942052864]"><domain for="y[0]"> 0 </domain></array>"#,
        "",
        "F10 at 71",
    ),
    (
        r#"<var id="a"> 0..1 </var><array id="x" size="[2]"><domain for="y[0]"> 0 </domain><domain for="x[0"> 0 </domain></array>"#,
        "",
        "F4 at 71",
    ),
    (
        r#"<var id="a"> 0..1 </var><array id="x" size="[1]"><domain for="x[0"> 0 </domain><cell/></array>"#,
        "",
        "F3 at 71",
    ),
    (
        r#"<var id="a"> 0..1 </var>"#,
        r#"<allDifferent rank="any"> c </allDifferent>"#,
        "F3 at 96",
    ),
    (
        r#"<var id="a"> 0..1 </var>"#,
        "<allDifferent> c 1 </allDifferent>",
        "F4 at 96",
    ),
    (
        r#"<var id="a"> 0..1 </var>"#,
        "<allDifferent> c <list> a </list><list> a </list><except> 0 </except></allDifferent>",
        "F3 at 96",
    ),
    (
        r#"<var id="a"> 0..1 </var>"#,
        "<allDifferent> c a[85070591730234615865843651857942052864] </allDifferent>",
        "F10 at 96",
    ),
    (
        r#"<var id="a"> 0..1 </var><var id="c"> </var><var id="d" domain="e"> 0 </var>"#,
        "",
        "F4 at 71",
    ),
    (
        r#"<var id="a"> 0..1 </var><var id="c" as="d"/><array id="x"> 0 </array>"#,
        "",
        "F5 at 71",
    ),
    (
        r#"<var id="a"> 0..1 </var><array id="x" size="[2]"> </array><var id="a"> 0 </var>"#,
        "",
        "F4 at 71",
    ),
    (
        r#"<var id="a"> 0..1 </var><var id="a"> 0 </var>"#,
        "<stretch/>",
        "F5 at 71",
    ),
    (
        r#"<var id="a"> 0..1 </var>"#,
        "<allDifferent> c </allDifferent><stretch/>",
        "F5 at 96",
    ),
    (
        r#"<var id="a"> 0..1 </var>"#,
        "<stretch/><allDifferent> c </allDifferent>",
        "F3 at 96",
    ),
];
