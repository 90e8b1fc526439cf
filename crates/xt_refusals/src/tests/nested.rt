//! Levels of `(`. In a text `{` stands for so many levels that a piece opens, and `}` for what closes them.

/// A whole file, with its fault.
pub type Refused = (&'static str, &'static str);

/// The constraints of an instance over the five variables, the piece and the levels, with its fault.
pub type Nested = (&'static str, &'static str, usize, &'static str);

/// Texts of expressions and of list members with too many levels, or as many as there may be.
pub const NESTED: &[Nested] = &[
    ("<intension> {p} </intension>", "not(", 201, "F7 at 193"),
    ("<intension> {} </intension>", "(", 201, "F7 at 193"),
    ("<intension> {} </intension>", "( ", 201, "F7 at 193"),
    ("<intension> {w,} </intension>", "not(", 201, "F7 at 193"),
    (
        "<intension> and(p,{q}) </intension>",
        "not(",
        200,
        "F7 at 193",
    ),
    ("<intension> ) {p} </intension>", "not(", 201, "F7 at 193"),
    (
        "<intension><function> {p} </function></intension>",
        "not(",
        201,
        "F7 at 193",
    ),
    (
        "<intension> p <function> {p} </function></intension>",
        "not(",
        201,
        "F7 at 193",
    ),
    // what is not known comes first
    (
        r#"<intension rank="any"> {p} </intension>"#,
        "not(",
        201,
        "F3 at 193",
    ),
    (
        "<intension> {p} <list/></intension>",
        "not(",
        201,
        "F3 at 193",
    ),
    // no more than 200 are open at once
    ("<intension> {} </intension>", "(", 200, "F4 at 193"),
    ("<intension> {p,} </intension>", "not(", 200, "F4 at 193"),
    ("<intension> ) {p} </intension>", "not(", 200, "F4 at 193"),
    ("<intension> {p}{q} </intension>", "not(", 200, "F4 at 193"),
    ("<intension> {w} </intension>", "not(", 200, "F5 at 193"),
    ("<intension> {x} </intension>", "not(", 200, "F8 at 193"),
    (
        "<intension> and({p},{q},x) </intension>",
        "not(",
        199,
        "F8 at 193",
    ),
    // the words of a list are asked one by one
    ("<allDifferent> x {} </allDifferent>", "(", 201, "F7 at 193"),
    (
        "<allDifferent><list> w({}) </list></allDifferent>",
        "(",
        200,
        "F7 at 193",
    ),
    ("<allDifferent> x {} </allDifferent>", "(", 200, "F4 at 193"),
    ("<allDifferent> {} </allDifferent>", "( ", 201, "F4 at 193"),
    (
        r#"<allDifferent rank="any"> {} </allDifferent>"#,
        "(",
        201,
        "F3 at 193",
    ),
    // two units at fault
    (
        "<intension> x </intension><intension> {p} </intension>",
        "not(",
        201,
        "F8 at 193",
    ),
    (
        "<intension> {p} </intension><intension> x </intension>",
        "not(",
        201,
        "F7 at 193",
    ),
    (
        "<intension> p </intension><intension> {p} </intension>",
        "not(",
        201,
        "F7 at 219",
    ),
];

/// Whole files with 201 levels where no expression stands.
pub const ELSEWHERE: &[Refused] = &[
    ("<instance> {} <variables/></instance>", "F4 at 0"),
    (
        "<instance><variables> {} </variables></instance>",
        "F4 at 10",
    ),
    (
        r#"<instance><variables><var id="a"> {} </var></variables></instance>"#,
        "F4 at 21",
    ),
    (
        r#"<instance><variables><array id="x" size="{}"> 0 </array></variables></instance>"#,
        "F4 at 21",
    ),
    (
        "<instance><variables/><constraints> {} </constraints></instance>",
        "F4 at 22",
    ),
    (
        "<instance><variables/><objectives> {} </objectives></instance>",
        "F4 at 22",
    ),
];
