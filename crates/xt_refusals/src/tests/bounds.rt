//! Instances with expressions that are refused for what their bounds show, with their first fault.

use super::refused::{FIVE, Refusal, WIDE};

/// A logic operator or the first operand of `if` over what may be other than 0 and 1; or an expression that may be.
pub const LOGIC: &[Refusal] = &[
    (FIVE, "<intension> not(x) </intension>", "F8 at 193"),
    (FIVE, "<intension> not(2) </intension>", "F8 at 193"),
    (FIVE, "<intension> not(-1) </intension>", "F8 at 193"),
    (FIVE, "<intension> not(neg(p)) </intension>", "F8 at 193"),
    (FIVE, "<intension> and(p,x) </intension>", "F8 at 193"),
    (FIVE, "<intension> and(x,p) </intension>", "F8 at 193"),
    (FIVE, "<intension> and(p,q,y) </intension>", "F8 at 193"),
    (
        FIVE,
        "<intension> and(p,add(p,q)) </intension>",
        "F8 at 193",
    ),
    (FIVE, "<intension> or(p,x) </intension>", "F8 at 193"),
    (FIVE, "<intension> or(2,p) </intension>", "F8 at 193"),
    (FIVE, "<intension> or(p,q,-1) </intension>", "F8 at 193"),
    (FIVE, "<intension> xor(p,y) </intension>", "F8 at 193"),
    (FIVE, "<intension> xor(z,p) </intension>", "F8 at 193"),
    (
        FIVE,
        "<intension> xor(p,q,mul(p,2)) </intension>",
        "F8 at 193",
    ),
    (FIVE, "<intension> iff(p,x) </intension>", "F8 at 193"),
    (
        FIVE,
        "<intension> iff(sub(p,q),p) </intension>",
        "F8 at 193",
    ),
    (FIVE, "<intension> imp(p,x) </intension>", "F8 at 193"),
    (FIVE, "<intension> imp(y,p) </intension>", "F8 at 193"),
    (
        FIVE,
        "<intension> or(p,not(max(p,2))) </intension>",
        "F8 at 193",
    ),
    (
        FIVE,
        "<intension> and(p,if(p,q,2)) </intension>",
        "F8 at 193",
    ),
    (
        FIVE,
        "<intension> eq(if(x,1,2),1) </intension>",
        "F8 at 193",
    ),
    (
        FIVE,
        "<intension> eq(if(2,x,y),1) </intension>",
        "F8 at 193",
    ),
    (
        FIVE,
        "<intension> eq(if(add(p,q),x,y),1) </intension>",
        "F8 at 193",
    ),
    (FIVE, "<intension> x </intension>", "F8 at 193"),
    (FIVE, "<intension> 2 </intension>", "F8 at 193"),
    (FIVE, "<intension> -1 </intension>", "F8 at 193"),
    (FIVE, "<intension> add(p,q) </intension>", "F8 at 193"),
    (FIVE, "<intension> neg(p) </intension>", "F8 at 193"),
    (FIVE, "<intension> sub(p,q) </intension>", "F8 at 193"),
    (FIVE, "<intension> mul(p,2) </intension>", "F8 at 193"),
    (FIVE, "<intension> if(p,q,2) </intension>", "F8 at 193"),
    (FIVE, "<intension> min(x,p) </intension>", "F8 at 193"),
    (FIVE, "<intension> abs(x) </intension>", "F8 at 193"),
    (FIVE, "<intension> pow(2,64) </intension>", "F8 at 193"),
    (FIVE, "<intension> div(y,2) </intension>", "F8 at 193"),
    (FIVE, "<intension> mod(y,3) </intension>", "F8 at 193"),
    (FIVE, "<intension> max(1,2) </intension>", "F8 at 193"),
    (
        FIVE,
        "<intension><function> y </function></intension>",
        "F8 at 193",
    ),
    (
        r#"<var id="x"> 0..5 </var>"#,
        "<intension> and(x,eq(x,1)) </intension>",
        "F8 at 96",
    ),
];

/// A dividend that may be negative, or a divisor that may be below 1.
pub const DIVISION: &[Refusal] = &[
    (FIVE, "<intension> eq(div(x,z),1) </intension>", "F9 at 193"),
    (FIVE, "<intension> eq(div(y,p),1) </intension>", "F9 at 193"),
    (FIVE, "<intension> eq(div(y,0),1) </intension>", "F9 at 193"),
    (
        FIVE,
        "<intension> eq(div(y,-1),1) </intension>",
        "F9 at 193",
    ),
    (
        FIVE,
        "<intension> eq(div(-1,2),0) </intension>",
        "F9 at 193",
    ),
    (FIVE, "<intension> eq(div(y,x),1) </intension>", "F9 at 193"),
    (
        FIVE,
        "<intension> eq(div(y,sub(z,1)),1) </intension>",
        "F9 at 193",
    ),
    (FIVE, "<intension> eq(mod(x,2),1) </intension>", "F9 at 193"),
    (FIVE, "<intension> eq(mod(y,y),1) </intension>", "F9 at 193"),
    (FIVE, "<intension> eq(mod(5,0),1) </intension>", "F9 at 193"),
    (
        FIVE,
        "<intension> eq(mod(neg(y),2),0) </intension>",
        "F9 at 193",
    ),
    (
        FIVE,
        "<intension> or(p,eq(div(sub(x,y),z),1)) </intension>",
        "F9 at 193",
    ),
    (FIVE, "<intension> not(div(y,p)) </intension>", "F9 at 193"),
    (
        r#"<var id="x"> 0..5 </var><var id="y"> 0..5 </var><var id="z"> 1..3 </var>"#,
        "<intension> or(eq(x,0),eq(div(sub(x,y),z),1)) </intension>",
        "F9 at 144",
    ),
];

/// A node whose bounds pass 2^126 - 1, or those of a step of its sum or product do; and nodes whose bounds do not, so
/// that the root is at fault.
pub const NODES: &[Refusal] = &[
    (WIDE, "<intension> add(u,u) </intension>", "F10 at 182"),
    (WIDE, "<intension> add(u,1) </intension>", "F10 at 182"),
    (WIDE, "<intension> add(x,u,u) </intension>", "F10 at 182"),
    (WIDE, "<intension> sub(u,-1) </intension>", "F10 at 182"),
    (WIDE, "<intension> sub(x,u) </intension>", "F10 at 182"),
    (WIDE, "<intension> dist(u,-1) </intension>", "F10 at 182"),
    (WIDE, "<intension> dist(x,u) </intension>", "F10 at 182"),
    (WIDE, "<intension> mul(u,2) </intension>", "F10 at 182"),
    (WIDE, "<intension> mul(u,u) </intension>", "F10 at 182"),
    (WIDE, "<intension> mul(x,u) </intension>", "F10 at 182"),
    (WIDE, "<intension> sqr(u) </intension>", "F10 at 182"),
    (
        WIDE,
        "<intension> sqr(9223372036854775808) </intension>",
        "F10 at 182",
    ),
    (WIDE, "<intension> pow(4,63) </intension>", "F10 at 182"),
    (WIDE, "<intension> pow(-4,63) </intension>", "F10 at 182"),
    (WIDE, "<intension> pow(-5,64) </intension>", "F10 at 182"),
    (WIDE, "<intension> not(add(u,u)) </intension>", "F10 at 182"),
    (
        WIDE,
        "<intension> add(85070591730234615865843651857942052863,85070591730234615865843651857942052863,-85070591730234615865843651857942052863) </intension>",
        "F10 at 182",
    ),
    (
        WIDE,
        "<intension> add(-85070591730234615865843651857942052863,-1,2) </intension>",
        "F10 at 182",
    ),
    (
        WIDE,
        "<intension> mul(4611686018427387904,18446744073709551616,0) </intension>",
        "F10 at 182",
    ),
    (
        WIDE,
        "<intension> le(mul(4611686018427387904,18446744073709551616,0),x) </intension>",
        "F10 at 182",
    ),
    (
        r#"<var id="x"> 0..1267650600228229401496703205376 </var><var id="y"> 0..1267650600228229401496703205376 </var>"#,
        "<intension> eq(mul(x,y),0) </intension>",
        "F10 at 180",
    ),
    (WIDE, "<intension> u </intension>", "F8 at 182"),
    (WIDE, "<intension> neg(u) </intension>", "F8 at 182"),
    (WIDE, "<intension> abs(neg(u)) </intension>", "F8 at 182"),
    (WIDE, "<intension> sub(u,1) </intension>", "F8 at 182"),
    (WIDE, "<intension> dist(u,1) </intension>", "F8 at 182"),
    (WIDE, "<intension> add(u,-1) </intension>", "F8 at 182"),
    (WIDE, "<intension> mul(u,-1) </intension>", "F8 at 182"),
    (
        WIDE,
        "<intension> sqr(9223372036854775807) </intension>",
        "F8 at 182",
    ),
    (WIDE, "<intension> pow(4,62) </intension>", "F8 at 182"),
    (WIDE, "<intension> pow(-2,63) </intension>", "F8 at 182"),
    (
        WIDE,
        "<intension> add(85070591730234615865843651857942052863,-85070591730234615865843651857942052863,85070591730234615865843651857942052863) </intension>",
        "F8 at 182",
    ),
    (WIDE, "<intension> max(u,x) </intension>", "F8 at 182"),
    (WIDE, "<intension> if(0,u,x) </intension>", "F8 at 182"),
    (WIDE, "<intension> mul(u,1,-1) </intension>", "F8 at 182"),
];

/// Two nodes at fault: operands come before their node, the first operand first, and all nodes before the root.
pub const FIRST: &[Refusal] = &[
    (
        FIVE,
        "<intension> and(not(x),eq(div(x,z),1)) </intension>",
        "F8 at 193",
    ),
    (
        FIVE,
        "<intension> eq(if(not(2),div(x,z),1),1) </intension>",
        "F8 at 193",
    ),
    (
        FIVE,
        "<intension> eq(add(not(x),div(y,p)),1) </intension>",
        "F8 at 193",
    ),
    (
        FIVE,
        "<intension> iff(not(x),div(x,2)) </intension>",
        "F8 at 193",
    ),
    (
        FIVE,
        "<intension> and(eq(div(x,z),1),not(x)) </intension>",
        "F9 at 193",
    ),
    (FIVE, "<intension> not(div(x,z)) </intension>", "F9 at 193"),
    (
        FIVE,
        "<intension> eq(if(x,div(x,z),1),1) </intension>",
        "F9 at 193",
    ),
    (
        FIVE,
        "<intension> and(x,eq(mod(x,2),0)) </intension>",
        "F9 at 193",
    ),
    (
        FIVE,
        "<intension> add(div(x,z),5) </intension>",
        "F9 at 193",
    ),
    (FIVE, "<intension> neg(mod(y,p)) </intension>", "F9 at 193"),
    (
        WIDE,
        "<intension> eq(mod(x,2),add(u,u)) </intension>",
        "F9 at 182",
    ),
    (
        WIDE,
        "<intension> le(div(add(u,-1),z),1) </intension>",
        "F9 at 182",
    ),
    (
        WIDE,
        "<intension> and(eq(mod(z,x),1),le(mul(u,u),1)) </intension>",
        "F9 at 182",
    ),
    (
        WIDE,
        "<intension> eq(add(u,u),mod(x,2)) </intension>",
        "F10 at 182",
    ),
    (
        WIDE,
        "<intension> div(add(u,u),x) </intension>",
        "F10 at 182",
    ),
    (
        WIDE,
        "<intension> le(if(x,mul(u,u),1),1) </intension>",
        "F10 at 182",
    ),
    (
        WIDE,
        "<intension> and(le(mul(u,2),1),x) </intension>",
        "F10 at 182",
    ),
];

/// A magnitude past 2^126 - 1: that of all nodes or list members together, and the square of their number.
pub const MAGNITUDES: &[Refusal] = &[
    // 2^126 - 1, 0 and 1, and the square of 3
    (WIDE, "<intension> le(u,0) </intension>", "F10 at 182"),
    (WIDE, "<intension> or(0,le(u,1)) </intension>", "F10 at 182"),
    (
        WIDE,
        "<intension> ne(x,85070591730234615865843651857942052863) </intension>",
        "F10 at 182",
    ),
    // 2^126 - 10, 0 and 1, and the square of 3
    (
        r#"<var id="t"> 0..85070591730234615865843651857942052854 </var>"#,
        "<intension> le(t,0) </intension>",
        "F10 at 133",
    ),
    (
        r#"<var id="t"> -85070591730234615865843651857942052854..0 </var>"#,
        "<intension> le(0,t) </intension>",
        "F10 at 134",
    ),
    // 2^126 - 17, 0, 0 for the set and 1, and the square of 4
    (
        r#"<var id="t"> 0..85070591730234615865843651857942052847 </var>"#,
        "<intension> in(t,set(0)) </intension>",
        "F10 at 133",
    ),
    // 1, 2^126 - 18, 0 for the set and 1, and the square of 4
    (
        "",
        "<intension> in(1,set(85070591730234615865843651857942052846)) </intension>",
        "F10 at 72",
    ),
    // a variable counts each time that it stands there
    (
        r#"<var id="t"> 0..42535295865117307932921825928971026431 </var>"#,
        "<intension> eq(t,t) </intension>",
        "F10 at 133",
    ),
    // 2^126 - 1, and the square of 1
    (
        r#"<var id="t"> 0..85070591730234615865843651857942052863 </var>"#,
        "<allDifferent> t </allDifferent>",
        "F10 at 133",
    ),
    (
        r#"<var id="t"> 0..85070591730234615865843651857942052863 </var>"#,
        "<allDifferent><list> t </list></allDifferent>",
        "F10 at 133",
    ),
    (
        r#"<var id="t"> 0..85070591730234615865843651857942052863 </var><var id="b"> 0..85070591730234615865843651857942052863 </var>"#,
        "<allDifferent> t b </allDifferent>",
        "F10 at 194",
    ),
    // 2^126 - 5 and 1, and the square of 2
    (
        r#"<var id="t"> 0..85070591730234615865843651857942052859 </var><var id="b"> 0..1 </var>"#,
        "<allDifferent> t b </allDifferent>",
        "F10 at 157",
    ),
    (
        r#"<var id="t"> -42535295865117307932921825928971026431..0 </var>"#,
        "<allDifferent> t t </allDifferent>",
        "F10 at 134",
    ),
];
