//! Instances with expressions that are refused, with their first fault.

/// The declarations and the constraints of an instance, with its fault.
pub type Refusal = (&'static str, &'static str, &'static str);

/// The declarations of five variables.
pub const FIVE: &str =
    r#"<var id="x"> -2..3 </var><var id="y"> 0..5 </var><var id="z"> 1..4 </var><var id="p"> 0..1 </var><var id="q"> 0..1 </var>"#;

/// Two cells of an array of four: the others are undefined.
const CELLS: &str = r#"<array id="m" size="[2][2]"><domain for="m[0][]"> 0..1 </domain></array>"#;

/// Two small variables and one of the greatest bounds that there are.
pub const WIDE: &str =
    r#"<var id="x"> -2..3 </var><var id="z"> 1..4 </var><var id="u"> 0..85070591730234615865843651857942052863 </var>"#;

/// An attribute or a child that is not known, or a child of the `function`.
pub const UNKNOWN: &[Refusal] = &[
    (
        FIVE,
        r#"<intension rank="any"> p </intension>"#,
        "F3 at 193",
    ),
    (
        FIVE,
        r#"<intension type="decision"> p </intension>"#,
        "F3 at 193",
    ),
    (FIVE, "<intension><list> p </list></intension>", "F3 at 193"),
    (
        FIVE,
        "<intension> p <function> p </function><args> p </args></intension>",
        "F3 at 193",
    ),
    (
        FIVE,
        r#"<intension><function id="f"> p </function></intension>"#,
        "F3 at 193",
    ),
    (
        FIVE,
        "<intension><function> p <list/></function></intension>",
        "F3 at 193",
    ),
    (
        FIVE,
        "<intension><function><function> p </function></function></intension>",
        "F3 at 193",
    ),
    (FIVE, "<Intension> p </Intension>", "F3 at 193"),
    (FIVE, "<function> p </function>", "F3 at 193"),
];

/// No expression, or more than one text.
pub const TEXTS: &[Refusal] = &[
    (FIVE, "<intension/>", "F4 at 193"),
    (FIVE, "<intension> </intension>", "F4 at 193"),
    (FIVE, "<intension> <!-- p --> </intension>", "F4 at 193"),
    (FIVE, "<intension><function/></intension>", "F4 at 193"),
    (
        FIVE,
        "<intension><function> </function></intension>",
        "F4 at 193",
    ),
    (
        FIVE,
        "<intension><function> p </function><function> p </function></intension>",
        "F4 at 193",
    ),
    (
        FIVE,
        "<intension><function/><function> p </function></intension>",
        "F4 at 193",
    ),
    (
        FIVE,
        "<intension> p <function> q </function></intension>",
        "F4 at 193",
    ),
    (
        FIVE,
        "<intension><function> p </function> q </intension>",
        "F4 at 193",
    ),
    (FIVE, "<intension> p <function/></intension>", "F4 at 193"),
];

/// Operators with another number of operands than they have.
pub const COUNTS: &[Refusal] = &[
    (FIVE, "<intension> eq(neg(),0) </intension>", "F4 at 193"),
    (FIVE, "<intension> eq(neg(x,y),0) </intension>", "F4 at 193"),
    (FIVE, "<intension> eq(abs(x,y),0) </intension>", "F4 at 193"),
    (FIVE, "<intension> eq(sqr(),0) </intension>", "F4 at 193"),
    (FIVE, "<intension> eq(add(),0) </intension>", "F4 at 193"),
    (FIVE, "<intension> eq(add(x),0) </intension>", "F4 at 193"),
    (FIVE, "<intension> eq(mul(x),0) </intension>", "F4 at 193"),
    (FIVE, "<intension> eq(sub(x),0) </intension>", "F4 at 193"),
    (
        FIVE,
        "<intension> eq(sub(x,y,z),0) </intension>",
        "F4 at 193",
    ),
    (FIVE, "<intension> eq(dist(x),0) </intension>", "F4 at 193"),
    (
        FIVE,
        "<intension> eq(dist(x,y,z),0) </intension>",
        "F4 at 193",
    ),
    (FIVE, "<intension> eq(div(y),0) </intension>", "F4 at 193"),
    (
        FIVE,
        "<intension> eq(div(y,z,z),0) </intension>",
        "F4 at 193",
    ),
    (FIVE, "<intension> eq(mod(y),0) </intension>", "F4 at 193"),
    (
        FIVE,
        "<intension> eq(mod(y,z,z),0) </intension>",
        "F4 at 193",
    ),
    (FIVE, "<intension> eq(pow(x),0) </intension>", "F4 at 193"),
    (
        FIVE,
        "<intension> eq(pow(x,2,2),0) </intension>",
        "F4 at 193",
    ),
    (FIVE, "<intension> eq(min(x),0) </intension>", "F4 at 193"),
    (FIVE, "<intension> eq(max(),0) </intension>", "F4 at 193"),
    (FIVE, "<intension> lt(x) </intension>", "F4 at 193"),
    (FIVE, "<intension> lt(x,y,z) </intension>", "F4 at 193"),
    (FIVE, "<intension> le(x,y,z) </intension>", "F4 at 193"),
    (FIVE, "<intension> gt(x) </intension>", "F4 at 193"),
    (FIVE, "<intension> ge(x,y,z) </intension>", "F4 at 193"),
    (FIVE, "<intension> ne(x,y,z) </intension>", "F4 at 193"),
    (FIVE, "<intension> eq(x) </intension>", "F4 at 193"),
    (FIVE, "<intension> eq() </intension>", "F4 at 193"),
    (FIVE, "<intension> in(x) </intension>", "F4 at 193"),
    (FIVE, "<intension> in(x,set(1),2) </intension>", "F4 at 193"),
    (FIVE, "<intension> notin(x) </intension>", "F4 at 193"),
    (
        FIVE,
        "<intension> notin(x,set(1),set(2)) </intension>",
        "F4 at 193",
    ),
    (FIVE, "<intension> not() </intension>", "F4 at 193"),
    (FIVE, "<intension> not(p,q) </intension>", "F4 at 193"),
    (FIVE, "<intension> and(p) </intension>", "F4 at 193"),
    (FIVE, "<intension> and() </intension>", "F4 at 193"),
    (FIVE, "<intension> or(p) </intension>", "F4 at 193"),
    (FIVE, "<intension> xor(p) </intension>", "F4 at 193"),
    (FIVE, "<intension> iff(p) </intension>", "F4 at 193"),
    (FIVE, "<intension> iff(p,q,p) </intension>", "F4 at 193"),
    (FIVE, "<intension> imp(p) </intension>", "F4 at 193"),
    (FIVE, "<intension> imp(p,q,p) </intension>", "F4 at 193"),
    (FIVE, "<intension> eq(if(p,x),0) </intension>", "F4 at 193"),
    (
        FIVE,
        "<intension> eq(if(p,x,y,z),0) </intension>",
        "F4 at 193",
    ),
];

/// An exponent is an integer from 1 to 64, as written.
pub const EXPONENTS: &[Refusal] = &[
    (FIVE, "<intension> le(pow(x,0),1) </intension>", "F4 at 193"),
    (
        FIVE,
        "<intension> le(pow(x,65),1) </intension>",
        "F4 at 193",
    ),
    (
        FIVE,
        "<intension> le(pow(x,-1),1) </intension>",
        "F4 at 193",
    ),
    (FIVE, "<intension> le(pow(x,y),1) </intension>", "F4 at 193"),
    (
        FIVE,
        "<intension> le(pow(x,add(1,1)),1) </intension>",
        "F4 at 193",
    ),
    (
        FIVE,
        "<intension> le(pow(x,pow(2,1)),1) </intension>",
        "F4 at 193",
    ),
    (
        FIVE,
        "<intension> le(pow(x,85070591730234615865843651857942052864),1) </intension>",
        "F4 at 193",
    ),
    (
        FIVE,
        "<intension> le(pow(x,set(2)),1) </intension>",
        "F4 at 193",
    ),
];

/// A `set` stands as the second operand of `in` and `notin` and nowhere else, and they have no other there.
pub const SETS: &[Refusal] = &[
    (FIVE, "<intension> set() </intension>", "F4 at 193"),
    (FIVE, "<intension> set(1) </intension>", "F4 at 193"),
    (FIVE, "<intension> eq(x,set(1)) </intension>", "F4 at 193"),
    (FIVE, "<intension> in(set(1),x) </intension>", "F4 at 193"),
    (
        FIVE,
        "<intension> in(set(1),set(1)) </intension>",
        "F4 at 193",
    ),
    (FIVE, "<intension> in(x,y) </intension>", "F4 at 193"),
    (FIVE, "<intension> in(x,1) </intension>", "F4 at 193"),
    (FIVE, "<intension> in(x,add(y,1)) </intension>", "F4 at 193"),
    (
        FIVE,
        "<intension> in(x,set(1,set(2))) </intension>",
        "F4 at 193",
    ),
    (FIVE, "<intension> notin(x,3) </intension>", "F4 at 193"),
    (FIVE, "<intension> and(p,set(1)) </intension>", "F4 at 193"),
    (
        FIVE,
        "<intension> eq(add(x,set(1)),0) </intension>",
        "F4 at 193",
    ),
    (
        FIVE,
        "<intension> eq(if(p,set(1),x),0) </intension>",
        "F4 at 193",
    ),
    (FIVE, "<intension> in(x,(1,2)) </intension>", "F4 at 193"),
    (FIVE, "<intension> in(x,{1,2}) </intension>", "F4 at 193"),
];

/// Words that are neither integers nor direct words of variables, and names before a `(` that are no operators.
pub const WORDS: &[Refusal] = &[
    (FIVE, "<intension> le(m[],1) </intension>", "F4 at 193"),
    (FIVE, "<intension> le(m[0..1],1) </intension>", "F4 at 193"),
    (FIVE, "<intension> le(m[0][],1) </intension>", "F4 at 193"),
    (FIVE, "<intension> le(m[1..0],1) </intension>", "F4 at 193"),
    (FIVE, "<intension> le(m[,1) </intension>", "F4 at 193"),
    (FIVE, "<intension> le(m],1) </intension>", "F4 at 193"),
    (FIVE, "<intension> le(m[0,1) </intension>", "F4 at 193"),
    (FIVE, "<intension> le(m [0],1) </intension>", "F4 at 193"),
    (FIVE, "<intension> le(m[ 0],1) </intension>", "F4 at 193"),
    (FIVE, "<intension> le(m[p],1) </intension>", "F4 at 193"),
    (FIVE, "<intension> le(2x3,1) </intension>", "F4 at 193"),
    (FIVE, "<intension> le(x,1x) </intension>", "F4 at 193"),
    (FIVE, "<intension> le(x,1 2) </intension>", "F4 at 193"),
    (
        FIVE,
        "<intension> le(x,1<!-- -->2) </intension>",
        "F4 at 193",
    ),
    (
        FIVE,
        "<intension> l<!-- -->e(x,1) </intension>",
        "F4 at 193",
    ),
    (FIVE, "<intension> le(x,- 1) </intension>", "F4 at 193"),
    (FIVE, "<intension> le(x,--1) </intension>", "F4 at 193"),
    (FIVE, "<intension> le(x,+) </intension>", "F4 at 193"),
    (FIVE, "<intension> le(x,0..1) </intension>", "F4 at 193"),
    (FIVE, "<intension> le(x,1.0) </intension>", "F4 at 193"),
    (FIVE, "<intension> le(x,0x1F) </intension>", "F4 at 193"),
    (FIVE, "<intension> le(%0,1) </intension>", "F4 at 193"),
    (FIVE, "<intension> le(*,1) </intension>", "F4 at 193"),
    (FIVE, "<intension> le(x,y z) </intension>", "F4 at 193"),
    (FIVE, "<intension> x=y </intension>", "F4 at 193"),
    (FIVE, "<intension> x é </intension>", "F4 at 193"),
    (FIVE, "<intension> w(x) </intension>", "F4 at 193"),
    (FIVE, "<intension> x(1) </intension>", "F4 at 193"),
    (FIVE, "<intension> AND(p,q) </intension>", "F4 at 193"),
    (FIVE, "<intension> Le(x,1) </intension>", "F4 at 193"),
    (FIVE, "<intension> add_(x,y) </intension>", "F4 at 193"),
    (FIVE, "<intension> m[0](p) </intension>", "F4 at 193"),
    (FIVE, "<intension> 1(p) </intension>", "F4 at 193"),
    (FIVE, "<intension> min3(x,y,z) </intension>", "F4 at 193"),
    (FIVE, "<intension> le(x,\x0c1) </intension>", "F4 at 193"),
];

/// Parentheses and commas where none may be, or none where one has to be.
pub const BRACKETS: &[Refusal] = &[
    (FIVE, "<intension> and(p,q,) </intension>", "F4 at 193"),
    (FIVE, "<intension> and(,p,q) </intension>", "F4 at 193"),
    (FIVE, "<intension> and(p,,q) </intension>", "F4 at 193"),
    (FIVE, "<intension> and(p q) </intension>", "F4 at 193"),
    (FIVE, "<intension> and p,q </intension>", "F4 at 193"),
    (FIVE, "<intension> and[p,q] </intension>", "F4 at 193"),
    (FIVE, "<intension> and(p,q </intension>", "F4 at 193"),
    (FIVE, "<intension> and(p,q)) </intension>", "F4 at 193"),
    (FIVE, "<intension> and(p,not(q) </intension>", "F4 at 193"),
    (FIVE, "<intension> and(p,q)p </intension>", "F4 at 193"),
    (FIVE, "<intension> (p) </intension>", "F4 at 193"),
    (FIVE, "<intension> p, </intension>", "F4 at 193"),
    (FIVE, "<intension> ,p </intension>", "F4 at 193"),
    (FIVE, "<intension> () </intension>", "F4 at 193"),
    (FIVE, "<intension> ( </intension>", "F4 at 193"),
    (FIVE, "<intension> ) </intension>", "F4 at 193"),
    (FIVE, "<intension> , </intension>", "F4 at 193"),
    (FIVE, "<intension> not p </intension>", "F4 at 193"),
    (FIVE, "<intension> not()p </intension>", "F4 at 193"),
    (FIVE, "<intension> p q </intension>", "F4 at 193"),
    (FIVE, "<intension> and(p,(q)) </intension>", "F4 at 193"),
    (FIVE, "<intension> not(p))( </intension>", "F4 at 193"),
];

/// An integer of a magnitude past 2^126 - 1.
pub const INTEGERS: &[Refusal] = &[
    (
        FIVE,
        "<intension> le(x,85070591730234615865843651857942052864) </intension>",
        "F10 at 193",
    ),
    (
        FIVE,
        "<intension> le(x,-85070591730234615865843651857942052864) </intension>",
        "F10 at 193",
    ),
    (
        FIVE,
        "<intension> le(x,+85070591730234615865843651857942052864) </intension>",
        "F10 at 193",
    ),
    (
        FIVE,
        "<intension> le(x,0085070591730234615865843651857942052864) </intension>",
        "F10 at 193",
    ),
    (
        FIVE,
        "<intension> le(x,1000000000000000000000000000000000000000000000000000000000000) </intension>",
        "F10 at 193",
    ),
    (
        FIVE,
        "<intension> in(x,set(1,85070591730234615865843651857942052864)) </intension>",
        "F10 at 193",
    ),
    (
        FIVE,
        "<intension> le(x[85070591730234615865843651857942052864],1) </intension>",
        "F10 at 193",
    ),
    (
        CELLS,
        "<intension> m[0][85070591730234615865843651857942052864] </intension>",
        "F10 at 144",
    ),
    (
        CELLS,
        "<intension> m[-85070591730234615865843651857942052864][0] </intension>",
        "F10 at 144",
    ),
];

/// A name that is not declared, or brackets that are not right.
pub const NAMES: &[Refusal] = &[
    (FIVE, "<intension> w </intension>", "F5 at 193"),
    (FIVE, "<intension> X </intension>", "F5 at 193"),
    (FIVE, "<intension> not </intension>", "F5 at 193"),
    (FIVE, "<intension> eq(add,sub) </intension>", "F5 at 193"),
    (FIVE, "<intension> le(w,1) </intension>", "F5 at 193"),
    (FIVE, "<intension> in(x,set(1,w)) </intension>", "F5 at 193"),
    (FIVE, "<intension> x[0] </intension>", "F5 at 193"),
    (
        FIVE,
        "<intension> le(neg(x[0][0]),1) </intension>",
        "F5 at 193",
    ),
    (
        FIVE,
        "<intension> eq(if(p,x,w),1) </intension>",
        "F5 at 193",
    ),
    (FIVE, "<intension> m[0][0] </intension>", "F5 at 193"),
    (
        FIVE,
        "<intension><function> w </function></intension>",
        "F5 at 193",
    ),
    (CELLS, "<intension> m </intension>", "F5 at 144"),
    (CELLS, "<intension> m[0] </intension>", "F5 at 144"),
    (CELLS, "<intension> m[0][0][0] </intension>", "F5 at 144"),
    (CELLS, "<intension> m[1][0] </intension>", "F5 at 144"),
    (CELLS, "<intension> m[2][0] </intension>", "F5 at 144"),
    (CELLS, "<intension> m[0][2] </intension>", "F5 at 144"),
    (CELLS, "<intension> m[-1][0] </intension>", "F5 at 144"),
    (
        CELLS,
        "<intension> or(m[0][0],m[1][1]) </intension>",
        "F5 at 144",
    ),
    (CELLS, "<intension> M[0][0] </intension>", "F5 at 144"),
    (CELLS, "<intension> p </intension>", "F5 at 144"),
];

/// Two faults of one constraint: what is not known comes first, then a spelling, an integer, a name, and last what is
/// asked of bounds.
pub const ORDER: &[Refusal] = &[
    (
        FIVE,
        r#"<intension rank="any"> and( </intension>"#,
        "F3 at 193",
    ),
    (FIVE, "<intension> and( <list/></intension>", "F3 at 193"),
    (
        FIVE,
        "<intension> le(85070591730234615865843651857942052864,) </intension>",
        "F4 at 193",
    ),
    (
        FIVE,
        "<intension> and(le(x,85070591730234615865843651857942052864),q </intension>",
        "F4 at 193",
    ),
    (
        FIVE,
        "<intension> le(pow(w,0),85070591730234615865843651857942052864) </intension>",
        "F4 at 193",
    ),
    (FIVE, "<intension> add(w) </intension>", "F4 at 193"),
    (FIVE, "<intension> le(w,x </intension>", "F4 at 193"),
    (FIVE, "<intension> w(v) </intension>", "F4 at 193"),
    (
        FIVE,
        "<intension> in(w,85070591730234615865843651857942052864) </intension>",
        "F4 at 193",
    ),
    (
        FIVE,
        "<intension> le(w,85070591730234615865843651857942052864) <function> p </function></intension>",
        "F4 at 193",
    ),
    (
        FIVE,
        "<intension> le(w,85070591730234615865843651857942052864) </intension>",
        "F10 at 193",
    ),
    (
        FIVE,
        "<intension> le(85070591730234615865843651857942052864,w) </intension>",
        "F10 at 193",
    ),
    (
        FIVE,
        "<intension> le(x[85070591730234615865843651857942052864],w) </intension>",
        "F10 at 193",
    ),
    (
        FIVE,
        "<intension> not(85070591730234615865843651857942052864) </intension>",
        "F10 at 193",
    ),
    (FIVE, "<intension> and(x,w) </intension>", "F5 at 193"),
    (FIVE, "<intension> eq(div(x,z),w) </intension>", "F5 at 193"),
    (FIVE, "<intension> add(x,w) </intension>", "F5 at 193"),
];

/// Two units at fault: the first counts.
pub const UNITS: &[Refusal] = &[
    (
        FIVE,
        "<intension> p </intension><intension> not(x) </intension>",
        "F8 at 219",
    ),
    (
        FIVE,
        "<intension> not(x) </intension><intension> and( </intension>",
        "F8 at 193",
    ),
    (
        FIVE,
        "<intension> and( </intension><intension> not(x) </intension>",
        "F4 at 193",
    ),
    (
        FIVE,
        "<intension> eq(div(x,z),1) </intension><stretch/>",
        "F9 at 193",
    ),
    (FIVE, "<stretch/><intension> w </intension>", "F3 at 193"),
    (
        FIVE,
        "<allDifferent> w </allDifferent><intension> x </intension>",
        "F5 at 193",
    ),
    (
        FIVE,
        "<intension> x </intension><allDifferent> w </allDifferent>",
        "F8 at 193",
    ),
    (
        FIVE,
        "<allDifferent> x y </allDifferent><intension> le(x,y z) </intension>",
        "F4 at 227",
    ),
    (
        r#"<var id="x"> -2..3 </var><var id="y"> 0..5 </var><var id="z"> 1..4 </var><var id="p"> 0..1 </var><var id="q"> 0..1 </var><var id="x"> 0 </var>"#,
        "<intension> x </intension>",
        "F5 at 168",
    ),
    (
        WIDE,
        "<allDifferent> u </allDifferent><intension> x </intension>",
        "F10 at 182",
    ),
    (
        WIDE,
        "<intension> x </intension><allDifferent> u </allDifferent>",
        "F8 at 182",
    ),
    (
        WIDE,
        "<intension> ne(u,0) </intension><allDifferent> u u u </allDifferent>",
        "F10 at 182",
    ),
];

/// More than 4,194,304 items: each list member and each node of an expression is one, and each value of a domain with
/// gaps.
pub const MANY: &[Refusal] = &[
    // 4,194,304 are there before
    (
        r#"<var id="c"> 0 2..4194304 </var>"#,
        "<intension> 1 </intension>",
        "F6 at 104",
    ),
    (
        r#"<var id="c"> 0 2..4194304 </var>"#,
        "<intension> 2 </intension>",
        "F6 at 104",
    ),
    (
        r#"<var id="c"> 0 2..4194304 </var>"#,
        "<intension> w </intension>",
        "F5 at 104",
    ),
    // there is room for five items, and a set is one
    (
        r#"<var id="c"> 0 2..4194299 </var>"#,
        "<intension> in(c,set(0,0,0)) </intension>",
        "F6 at 104",
    ),
    (
        r#"<var id="c"> 0 2..4194299 </var>"#,
        "<intension> in(c,set(0,0)) </intension><intension> 1 </intension>",
        "F6 at 143",
    ),
    (
        r#"<var id="c"> 0 2..4194299 </var>"#,
        "<allDifferent> c c </allDifferent><intension> in(c,set()) </intension><intension> 1 </intension>",
        "F6 at 174",
    ),
    (
        r#"<var id="c"> 0 2..4194299 </var>"#,
        "<intension> in(c,set()) </intension><allDifferent> c c c </allDifferent>",
        "F6 at 140",
    ),
];
