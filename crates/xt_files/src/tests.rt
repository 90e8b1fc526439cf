//! Texts that are refused. The tables have them, with what the specification of the format says of each.

mod markup;
mod refusals;
mod sections;

use self::markup::{ENDS, FIRST, FITS, TOKENS};
use self::refusals::{COUNTS, MAGNITUDES, NAMES, ORDER, SHAPES, UNKNOWN};
use self::sections::SECTIONS;
use std::alloc::Global;
use std::test::Fail;
use xf_num::{Row, Text};
use xf_text::Stop;
use xs_file::read_instance;

// How a text is read: its fault, or `read`.
fn answer(alloc: Global, text: &[u8]) -> Result<String, Fail> {
    match read_instance(alloc, text) {
        Ok(_) => Ok(String::from_str(alloc, "read")?),
        Err(Stop::Refused(fault)) => {
            let number = fault.kind.number();
            let place = fault.place;
            Ok(format!(in alloc; "F{number} at {place}")?)
        }
        Err(Stop::Memory) => Ok(String::from_str(alloc, "want of memory")?),
    }
}

// The instance with these declarations and constraints, and nothing between its parts.
fn instance(alloc: Global, variables: &str, constraints: &str) -> Result<Text, Fail> {
    let mut text = Row::new(alloc);
    text.extend(b"<instance format=\"XCSP3\" type=\"CSP\"><variables>")?;
    text.extend(variables.as_bytes())?;
    text.extend(b"</variables><constraints>")?;
    text.extend(constraints.as_bytes())?;
    text.extend(b"</constraints></instance>")?;
    Ok(text)
}

/// Bytes before the first token.
const HEADS: [(&[u8], &str); 7] = [
    (b"\xef", "F2 at 0"),
    (b"\xef\xbb", "F2 at 0"),
    (b"\xef\xbb\xbf", "F2 at 3"),
    (b"\xef\xbb\xbf\xef\xbb\xbf<instance/>", "F2 at 3"),
    (b"\xff\xfe<instance/>", "F2 at 0"),
    (b"\xef\xbb\xbf<?xml", "F2 at 3"),
    (b"\xef\xbb\xbf <?xml?><instance/>", "F2 at 4"),
];

/// A file whose only `<` and `>` are those of its declaration, its comment and its tags.
const WHOLE_FILE: &[u8] =
    b"<?xml version='1.0'?>\n<!-- two cells -->\n<instance>\n<variables>\n <array id=\"x\" size=\"[2]\"> 0..1 </array>\n</variables>\n<constraints> <allDifferent note='n'> x[] </allDifferent> </constraints>\n</instance>";

// The place of the fault of a file that is cut here: the `<` that is not closed yet, else the end.
fn place_of_cut(file: &[u8]) -> usize {
    match file.iter().rposition(|&byte| byte == b'<') {
        Some(at) if !file[at..].contains(&b'>') => at,
        _ => file.len(),
    }
}

#[test]
fn files_are_refused(rt: HostRuntime) -> Result<(), Fail> {
    let alloc = rt.alloc();
    for cases in [SECTIONS, ENDS, TOKENS, FITS, FIRST] {
        for (file, fault) in cases {
            assert_eq!(rt; answer(alloc, file.as_bytes())?.as_str(), *fault, "{file}");
        }
    }
    for (bytes, fault) in HEADS {
        assert_eq!(rt; answer(alloc, bytes)?.as_str(), fault, "{fault}");
    }
    assert_eq!(rt; answer(alloc, WHOLE_FILE)?.as_str(), "read");
    for len in 0..WHOLE_FILE.len() {
        let cut = &WHOLE_FILE[..len];
        let place = place_of_cut(cut);
        assert_eq!(rt;
            answer(alloc, cut)?.as_str(),
            format!(in alloc; "F2 at {place}")?.as_str(),
            "{len}"
        );
    }
    Ok(())
}

#[test]
fn instances_are_refused(rt: HostRuntime) -> Result<(), Fail> {
    let alloc = rt.alloc();
    for cases in [UNKNOWN, SHAPES, NAMES, MAGNITUDES, ORDER, COUNTS] {
        for (variables, constraints, fault) in cases {
            let text = instance(alloc, variables, constraints)?;
            assert_eq!(rt;
                answer(alloc, text.as_slice())?.as_str(),
                *fault,
                "{variables} {constraints}"
            );
        }
    }
    Ok(())
}

// So many pieces behind the text.
fn repeat(piece: &[u8], count: usize, text: &mut Text) -> Result<(), Fail> {
    for _ in 0..count {
        text.extend(piece)?;
    }
    Ok(())
}

// So many open tags, each of three bytes, and as many end tags.
fn nested(alloc: Global, levels: usize) -> Result<Text, Fail> {
    let mut text = Row::new(alloc);
    repeat(b"<b>", levels, &mut text)?;
    repeat(b"</b>", levels, &mut text)?;
    Ok(text)
}

// An instance whose notes have so many levels.
fn noted(alloc: Global, levels: usize) -> Result<Text, Fail> {
    let mut text = Row::new(alloc);
    text.extend(b"<instance><variables/><annotations>")?;
    text.extend(nested(alloc, levels)?.as_slice())?;
    text.extend(b"</annotations></instance>")?;
    Ok(text)
}

// Two hundred open tags of three bytes, and this behind them.
fn open(alloc: Global, behind: &[u8]) -> Result<Text, Fail> {
    let mut text = Row::new(alloc);
    repeat(b"<b>", 200, &mut text)?;
    text.extend(behind)?;
    Ok(text)
}

#[test]
fn level_201_is_refused(rt: HostRuntime) -> Result<(), Fail> {
    let alloc = rt.alloc();
    assert_eq!(rt;
        answer(alloc, noted(alloc, 198)?.as_slice())?.as_str(),
        "read"
    );
    assert_eq!(rt;
        answer(alloc, nested(alloc, 200)?.as_slice())?.as_str(),
        "F3 at 0"
    );
    // 35 bytes stand before the notes, and 198 tags of three bytes before the one that opens level 201
    assert_eq!(rt;
        answer(alloc, noted(alloc, 199)?.as_slice())?.as_str(),
        "F7 at 629"
    );
    assert_eq!(rt;
        answer(alloc, nested(alloc, 201)?.as_slice())?.as_str(),
        "F7 at 600"
    );
    // what stands behind level 201 does not count, and what stands before it does
    assert_eq!(rt;
        answer(alloc, open(alloc, b"<b/>&")?.as_slice())?.as_str(),
        "F7 at 600"
    );
    assert_eq!(rt;
        answer(alloc, open(alloc, b"<b c='' c=''>")?.as_slice())?.as_str(),
        "F2 at 600"
    );
    Ok(())
}
