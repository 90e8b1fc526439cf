//! Markup: files that are none from some byte on.

use super::refusals::Refused;

/// Files that end before their first element is closed.
pub const ENDS: &[Refused] = &[
    ("", "F2 at 0"),
    ("\n \t\r", "F2 at 4"),
    (r#"<instance><variables><var id="x"> 0.."#, "F2 at 37"),
    ("<instance>", "F2 at 10"),
    ("<instance><variables></variables>", "F2 at 33"),
    ("<instance></instance", "F2 at 10"),
    ("<instance", "F2 at 0"),
    ("<", "F2 at 0"),
    ("<instance><variables", "F2 at 10"),
    (r#"<instance><variables id="x"#, "F2 at 10"),
    (r#"<instance><variables id='x"/></instance>"#, "F2 at 10"),
    ("<!-- <instance/> -->", "F2 at 20"),
    (r#"<?xml version="1.0"?>"#, "F2 at 21"),
    ("<instance><!-- <b> & -- ' -->", "F2 at 29"),
];

/// Bytes that are no token.
pub const TOKENS: &[Refused] = &[
    (r#"<?xml version="1.0"><instance/>"#, "F2 at 0"),
    (r#" <?xml version="1.0"?><instance/>"#, "F2 at 1"),
    ("<?xml?><?xml?><instance/>", "F2 at 7"),
    ("<?xml?><?pi x?><instance/>", "F2 at 7"),
    ("<instance><?pi x?></instance>", "F2 at 10"),
    ("<!DOCTYPE instance><instance/>", "F2 at 0"),
    ("<instance><![CDATA[x]]></instance>", "F2 at 10"),
    ("<instance>a &lt; b</instance>", "F2 at 12"),
    ("< instance/>", "F2 at 0"),
    ("<instance/ >", "F2 at 0"),
    ("<instance></ instance>", "F2 at 10"),
    ("<1instance/>", "F2 at 0"),
    ("<.instance/>", "F2 at 0"),
    ("<in$tance/>", "F2 at 0"),
    ("<instancé/>", "F2 at 0"),
    (r#"<instance a="1"b="2"/>"#, "F2 at 0"),
    ("<instance a=1/>", "F2 at 0"),
    ("<instance a/>", "F2 at 0"),
    (r#"<instance a="<"/>"#, "F2 at 0"),
    (r#"<instance a="1'/>"#, "F2 at 0"),
    ("<instance ='1'/>", "F2 at 0"),
    (
        r#"<instance><variables><var id="a"class="b"> 0 </var></variables></instance>"#,
        "F2 at 21",
    ),
    ("<instance><!-- c </instance>", "F2 at 10"),
    ("<!--><instance/>", "F2 at 0"),
    ("<!-><instance/>", "F2 at 0"),
    ("<instance><!- c --></instance>", "F2 at 10"),
    (r#"<instance <!-- c --> note="n"/>"#, "F2 at 0"),
    (r#"<instance note="<!-- c -->"/>"#, "F2 at 0"),
    ("<instance><!-- c --", "F2 at 10"),
    (r#"<instance></instance note="n">"#, "F2 at 10"),
    ("<instance><></instance>", "F2 at 10"),
];

/// Tokens that do not fit where they stand.
pub const FITS: &[Refused] = &[
    ("x<instance/>", "F2 at 0"),
    ("\n x <instance/>", "F2 at 0"),
    ("<instance/> x", "F2 at 11"),
    ("<instance/>\n<instance/>", "F2 at 12"),
    ("<instance></instance></instance>", "F2 at 21"),
    ("</instance>", "F2 at 0"),
    ("<instance></variables>", "F2 at 10"),
    ("<instance><a></instance></a>", "F2 at 13"),
    ("<instance></Instance>", "F2 at 10"),
    (r#"<instance note="a" note="b"/>"#, "F2 at 0"),
    (
        r#"<instance><variables><var id="a" id="a"> 0 </var></variables></instance>"#,
        "F2 at 21",
    ),
    ("<instance/><!-- c --><?xml?>", "F2 at 21"),
];

/// A fault of the markup comes before those of all units.
pub const FIRST: &[Refused] = &[
    ("<solution></solution>x", "F2 at 21"),
    (
        r#"<instance id="i"><variables id="v"></instance>"#,
        "F2 at 35",
    ),
    (
        "<instance><variables/><constraints><stretch/></instance>",
        "F2 at 45",
    ),
];
