//! Models with their text as it is written again. The tables have the texts, worked out by hand from the layout: a line for
//! each variable, then for each shown array, for each call, and for the goal.

mod files;
mod models;

use self::files::FILES;
use self::models::{CALLS, REWRITTEN, SAME};
use fz_file::write_model;
use fz_read::read_model;
use std::alloc::Global;
use std::process::Abort;
use std::test::Fail;
use xf_num::NoMemory;

/// The variables of each call: three integers and two Booleans.
const VARIABLES: &str = "var -9..9: x;\nvar 0..9: y;\nvar 0..9: z;\nvar bool: b;\nvar bool: c;\n";

// The text of what is read, where a text is no model nothing.
fn rewritten(alloc: Global, text: &[u8]) -> Result<Vec<u8>, NoMemory> {
    match read_model(alloc, text, None) {
        Ok(model) => write_model(alloc, &model),
        Err(_) => Ok(Vec::new(alloc)),
    }
}

// A text is written as wanted, and what is written is written as it stands.
fn check(rt: &impl Abort, alloc: Global, text: &[u8], wanted: &[u8]) -> Result<(), NoMemory> {
    assert_eq!(rt; rewritten(alloc, text)?.as_slice(), wanted);
    assert_eq!(rt; rewritten(alloc, wanted)?.as_slice(), wanted);
    Ok(())
}

// A text with this end.
fn joined(alloc: Global, parts: &[&str]) -> Result<Vec<u8>, Fail> {
    let mut text = Vec::new(alloc);
    for part in parts {
        text.extend_from_slice(part.as_bytes())?;
    }
    Ok(text)
}

#[test]
fn models_are_written_again(rt: HostRuntime) -> Result<(), Fail> {
    let alloc = rt.alloc();
    for text in SAME {
        let text = joined(alloc, &[text, "solve satisfy;\n"])?;
        check(&rt, alloc, &text, &text)?;
    }
    for (text, wanted) in REWRITTEN {
        check(&rt, alloc, text.as_bytes(), wanted.as_bytes())?;
    }
    for call in CALLS {
        let text = joined(
            alloc,
            &[VARIABLES, "constraint ", call, ";\nsolve satisfy;\n"],
        )?;
        check(&rt, alloc, &text, &text)?;
    }
    Ok(())
}

#[test]
fn compiled_models_are_written_again(rt: HostRuntime) -> Result<(), Fail> {
    let alloc = rt.alloc();
    for (text, wanted) in FILES {
        check(&rt, alloc, text.as_bytes(), wanted.as_bytes())?;
    }
    Ok(())
}
