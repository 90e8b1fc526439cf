//! Instances with tables and automata over the variables x, y and z that are refused, each with its fault.

/// A constraint, with the fault of the instance.
pub type Refusal = (&'static str, &'static str);

/// An attribute or a child that the form does not know.
pub const KNOWN: &[Refusal] = &[
    (
        "<extension> <list> x </list> <supports> 0 </supports> <note/> </extension>",
        "F3 at 144",
    ),
    (
        r#"<extension type="table"> <list> x </list> <supports> 0 </supports> </extension>"#,
        "F3 at 144",
    ),
    (
        r#"<extension> <list startIndex="1"> x </list> <supports> 0 </supports> </extension>"#,
        "F3 at 144",
    ),
    (
        "<regular> <list> x </list> <transitions> (a,0,b) </transitions> <start> a </start> <final> b </final> <supports/> </regular>",
        "F3 at 144",
    ),
    (
        "<mdd> <list> x </list> <transitions> (r,0,t) </transitions> <start> r </start> </mdd>",
        "F3 at 144",
    ),
];

/// Children that are no shape of the form, and texts that are misspelt.
pub const SPELLED: &[Refusal] = &[
    ("<extension/>", "F4 at 144"),
    ("<extension> <list> x y </list> </extension>", "F4 at 144"),
    (
        "<extension> <supports> (0,1) </supports> </extension>",
        "F4 at 144",
    ),
    (
        "<extension> <list> x </list> <list> y </list> <supports> 0 </supports> </extension>",
        "F4 at 144",
    ),
    (
        "<extension> <list> x </list> <supports> 0 </supports> <conflicts> 1 </conflicts> </extension>",
        "F4 at 144",
    ),
    (
        "<extension> text <list> x </list> <supports> 0 </supports> </extension>",
        "F4 at 144",
    ),
    (
        "<extension> <list> x y </list> <supports> ( 0,1) </supports> </extension>",
        "F4 at 144",
    ),
    (
        "<extension> <list> x y </list> <supports> (0, 1) </supports> </extension>",
        "F4 at 144",
    ),
    (
        "<extension> <list> x y </list> <supports> () </supports> </extension>",
        "F4 at 144",
    ),
    (
        "<extension> <list> x y </list> <supports> (0,) </supports> </extension>",
        "F4 at 144",
    ),
    (
        "<extension> <list> x y </list> <supports> (0,1 </supports> </extension>",
        "F4 at 144",
    ),
    (
        "<extension> <list> x y </list> <supports> (0,**) </supports> </extension>",
        "F4 at 144",
    ),
    (
        "<extension> <list> x y </list> <supports> (0,a) </supports> </extension>",
        "F4 at 144",
    ),
    (
        "<extension> <list> x y </list> <supports> (0,1)2 </supports> </extension>",
        "F4 at 144",
    ),
    (
        "<extension> <list> x </list> <supports> (0) 1 </supports> </extension>",
        "F4 at 144",
    ),
    (
        "<extension> <list> x </list> <supports> 3..1 </supports> </extension>",
        "F4 at 144",
    ),
    (
        "<extension> <list> x </list> <supports> 2x3 </supports> </extension>",
        "F4 at 144",
    ),
    (
        "<extension> <list> x </list> <supports> * </supports> </extension>",
        "F4 at 144",
    ),
    (
        "<extension> <list> x </list> <supports> 0 ..1 </supports> </extension>",
        "F4 at 144",
    ),
    (
        "<regular> <list> x </list> <transitions> (a,0,b) </transitions> <final> b </final> </regular>",
        "F4 at 144",
    ),
    (
        "<regular> <list> x </list> <transitions> (a,0,b) </transitions> <start> a b </start> <final> b </final> </regular>",
        "F4 at 144",
    ),
    (
        "<regular> <list> x </list> <transitions> (a,0,b) </transitions> <start> 1a </start> <final> b </final> </regular>",
        "F4 at 144",
    ),
    (
        "<regular> <list> x </list> <transitions> (a,0) </transitions> <start> a </start> <final> b </final> </regular>",
        "F4 at 144",
    ),
    (
        "<regular> <list> x </list> <transitions> (a, 0,b) </transitions> <start> a </start> <final> b </final> </regular>",
        "F4 at 144",
    ),
    (
        "<regular> <list> x </list> <transitions> (a,c,b) </transitions> <start> a </start> <final> b </final> </regular>",
        "F4 at 144",
    ),
    (
        "<regular> <list> x </list> <transitions> (a,*,b) </transitions> <start> a </start> <final> b </final> </regular>",
        "F4 at 144",
    ),
    ("<mdd> <list> x </list> </mdd>", "F4 at 144"),
    (
        "<mdd> <list> x </list> <transitions> (r,0,t)(r,1) </transitions> </mdd>",
        "F4 at 144",
    ),
];

/// Magnitudes, names and what is to fit, one fault before another.
pub const ORDER: &[Refusal] = &[
    (
        "<extension> <list> x y </list> <supports> (0,85070591730234615865843651857942052864) </supports> </extension>",
        "F10 at 144",
    ),
    (
        "<extension> <list> x w </list> <supports> (0,85070591730234615865843651857942052864) </supports> </extension>",
        "F10 at 144",
    ),
    (
        "<extension> <list> x y </list> <supports> (0,85070591730234615865843651857942052864)( 0,1) </supports> </extension>",
        "F4 at 144",
    ),
    (
        "<extension> <list> x </list> <supports> 0..85070591730234615865843651857942052864 </supports> </extension>",
        "F10 at 144",
    ),
    (
        "<extension> <list> x </list> <supports> -85070591730234615865843651857942052864 </supports> </extension>",
        "F10 at 144",
    ),
    (
        "<regular> <list> w </list> <transitions> (a,85070591730234615865843651857942052864,b) </transitions> <start> a </start> <final> b </final> </regular>",
        "F10 at 144",
    ),
    (
        "<mdd> <list> x </list> <transitions> (r,85070591730234615865843651857942052864,t)(s,0,t) </transitions> </mdd>",
        "F10 at 144",
    ),
    (
        "<extension> <list> x w </list> <supports> (0,1) </supports> </extension>",
        "F5 at 144",
    ),
    (
        "<extension> <list> x w </list> <supports> (0) </supports> </extension>",
        "F5 at 144",
    ),
    (
        "<extension> <list> x w </list> <supports> 0 1 </supports> </extension>",
        "F5 at 144",
    ),
    (
        "<extension> <list> x w x </list> <supports> (0,1) </supports> </extension>",
        "F5 at 144",
    ),
    (
        "<regular> <list> w </list> <transitions/> <start> a </start> <final/> </regular>",
        "F5 at 144",
    ),
    (
        "<mdd> <list> w </list> <transitions> (r,0,t)(s,0,t) </transitions> </mdd>",
        "F5 at 144",
    ),
];

/// Lists without members, tuples of another length, roots and leaves that are not one.
pub const FITTING: &[Refusal] = &[
    (
        "<extension> <list>  </list> <supports>  </supports> </extension>",
        "F4 at 144",
    ),
    (
        "<extension> <list>  </list> <supports> (0) </supports> </extension>",
        "F4 at 144",
    ),
    (
        "<extension> <list> x y </list> <supports> (0) </supports> </extension>",
        "F4 at 144",
    ),
    (
        "<extension> <list> x y </list> <supports> (0,1)(0,1,2) </supports> </extension>",
        "F4 at 144",
    ),
    (
        "<extension> <list> x y </list> <supports> 0 1 </supports> </extension>",
        "F4 at 144",
    ),
    (
        "<extension> <list> x </list> <supports> (0,1) </supports> </extension>",
        "F4 at 144",
    ),
    (
        "<regular> <list> </list> <transitions> (a,0,b) </transitions> <start> a </start> <final> b </final> </regular>",
        "F4 at 144",
    ),
    (
        "<mdd> <list> x </list> <transitions> (r,0,t)(s,0,t) </transitions> </mdd>",
        "F4 at 144",
    ),
    (
        "<mdd> <list> x </list> <transitions> (r,0,t)(r,0,u) </transitions> </mdd>",
        "F4 at 144",
    ),
    (
        "<mdd> <list> x y </list> <transitions> (a,0,b)(b,0,a) </transitions> </mdd>",
        "F4 at 144",
    ),
    (
        "<mdd> <list> x </list> <transitions> </transitions> </mdd>",
        "F4 at 144",
    ),
];

/// A constraint that is not the first, and a magnitude that is too great as a whole.
pub const BEHIND: &[Refusal] = &[
    (
        "<extension> <list> x y </list> <supports> (0,1) </supports> </extension><extension> <list> x y </list> <supports> () </supports> </extension>",
        "F4 at 216",
    ),
    (
        "<extension> <list> x y </list> <supports> (0,1) </supports> </extension><regular> <list> x </list> <transitions> (a,0,b) </transitions> <start/> <final> b </final> </regular>",
        "F4 at 216",
    ),
    (
        "<extension> <list> x y </list> <supports> (0,85070591730234615865843651857942052863) </supports> </extension>",
        "F10 at 144",
    ),
    (
        "<extension> <list> x </list> <supports> 85070591730234615865843651857942052863 </supports> </extension>",
        "F10 at 144",
    ),
    (
        "<regular> <list> x </list> <transitions> (a,85070591730234615865843651857942052863,b) </transitions> <start> a </start> <final> b </final> </regular>",
        "F10 at 144",
    ),
];
