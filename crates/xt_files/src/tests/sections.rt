//! Files that are refused for a unit that holds others: `instance`, `variables`, `constraints`, `objectives`.

use super::refusals::Refused;

/// The units that hold others.
pub const SECTIONS: &[Refused] = &[
    ("<solution/>", "F3 at 0"),
    (r#"<instance id="i"><variables/></instance>"#, "F3 at 0"),
    (
        r#"<instance type="WCSP"><variables/></instance>"#,
        "F3 at 0",
    ),
    ("<instance><variables/><functions/></instance>", "F3 at 0"),
    ("<instance/>", "F4 at 0"),
    ("<instance> x <variables/></instance>", "F4 at 0"),
    ("<instance><variables/> x </instance>", "F4 at 0"),
    ("<instance><constraints/></instance>", "F4 at 0"),
    ("<instance><constraints/><variables/></instance>", "F4 at 0"),
    ("<instance><annotations/><variables/></instance>", "F4 at 0"),
    ("<instance><variables/><variables/></instance>", "F4 at 0"),
    (
        "<instance><variables/><constraints/><objectives/><constraints/></instance>",
        "F4 at 0",
    ),
    (
        "<instance><variables/><annotations/><annotations/></instance>",
        "F4 at 0",
    ),
    (r#"<instance><variables id="v"/></instance>"#, "F3 at 10"),
    (
        "<instance><variables><domain/></variables></instance>",
        "F3 at 10",
    ),
    (
        r#"<instance><variables><var id="a" domain="b"/><set/></variables></instance>"#,
        "F3 at 10",
    ),
    (
        r#"<instance><variables> x <var id="a" domain="b"/></variables></instance>"#,
        "F4 at 10",
    ),
    (
        r#"<instance><variables/><constraints name="c"/></instance>"#,
        "F3 at 22",
    ),
    (
        "<instance><variables/><constraints> x <stretch/></constraints></instance>",
        "F4 at 22",
    ),
    (
        r#"<instance><variables/><objectives id="o"/></instance>"#,
        "F3 at 22",
    ),
    (
        "<instance><variables/><objectives> x </objectives></instance>",
        "F4 at 22",
    ),
    (
        "<instance><variables/><objectives><minimize> 0 </minimize><minimize> 0 </minimize></objectives></instance>",
        "F4 at 22",
    ),
    (
        "<instance><variables/><objectives><minimize> 0 </minimize></objectives></instance>",
        "F3 at 34",
    ),
    (
        "<instance><variables/><constraints><stretch/></constraints><objectives> x </objectives></instance>",
        "F3 at 35",
    ),
    (
        "<instance><variables/><objectives> x </objectives><constraints><stretch/></constraints></instance>",
        "F4 at 22",
    ),
    (
        r#"<instance><variables><var/></variables><constraints id="c" name="d"/></instance>"#,
        "F4 at 21",
    ),
    (
        "<instance><variables><var/></variables><functions/></instance>",
        "F3 at 0",
    ),
];
