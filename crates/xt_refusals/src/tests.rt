//! Instances with expressions that are refused. The tables have them, with what the specification of the format says of
//! each.

mod bounds;
mod nested;
mod refused;

use self::bounds::{DIVISION, FIRST, LOGIC, MAGNITUDES, NODES};
use self::nested::{ELSEWHERE, NESTED};
use self::refused::{
    BRACKETS, COUNTS, EXPONENTS, FIVE, INTEGERS, MANY, NAMES, ORDER, SETS, TEXTS, UNITS, UNKNOWN,
    WORDS,
};
use std::alloc::Global;
use std::test::Fail;
use xf_num::{NoMemory, Row, Text};
use xf_text::Stop;
use xs_file::read_instance;

// How a text is read: its fault, or `read`.
fn answer(alloc: Global, text: &[u8]) -> Result<String, Fail> {
    match read_instance(alloc, text) {
        Ok(_) => Ok(String::from_str(alloc, "read")?),
        Err(Stop::Refused(fault)) => {
            let number = fault.kind.number();
            let place = fault.place;
            Ok(format!(in alloc; "F{number} at {place}")?)
        }
        Err(Stop::Memory) => Ok(String::from_str(alloc, "want of memory")?),
    }
}

// The instance with these declarations and constraints, and nothing between its parts.
fn instance(alloc: Global, variables: &str, constraints: &str) -> Result<Text, Fail> {
    let mut text = Row::new(alloc);
    text.extend(b"<instance format=\"XCSP3\" type=\"CSP\"><variables>")?;
    text.extend(variables.as_bytes())?;
    text.extend(b"</variables><constraints>")?;
    text.extend(constraints.as_bytes())?;
    text.extend(b"</constraints></instance>")?;
    Ok(text)
}

#[test]
fn instances_with_expressions_are_refused(rt: HostRuntime) -> Result<(), Fail> {
    let alloc = rt.alloc();
    for cases in [
        UNKNOWN, TEXTS, COUNTS, EXPONENTS, SETS, WORDS, BRACKETS, INTEGERS, NAMES, ORDER, LOGIC,
        DIVISION, NODES, FIRST, MAGNITUDES, UNITS, MANY,
    ] {
        for (variables, constraints, fault) in cases {
            let text = instance(alloc, variables, constraints)?;
            assert_eq!(rt;
                answer(alloc, text.as_slice())?.as_str(),
                *fault,
                "{variables} {constraints}"
            );
        }
    }
    Ok(())
}

// So many pieces behind the bytes.
fn repeat(piece: &[u8], levels: usize, bytes: &mut Text) -> Result<(), NoMemory> {
    for _ in 0..levels {
        bytes.extend(piece)?;
    }
    Ok(())
}

// The pattern with so many levels: `{` opens them, each by the piece, and `}` closes them.
fn leveled(alloc: Global, pattern: &[u8], piece: &str, levels: usize) -> Result<Text, Fail> {
    let mut bytes = Row::new(alloc);
    for byte in pattern {
        match byte {
            b'{' => repeat(piece.as_bytes(), levels, &mut bytes)?,
            b'}' => repeat(b")", levels, &mut bytes)?,
            other => bytes.push(*other)?,
        }
    }
    Ok(bytes)
}

#[test]
fn levels_are_counted_where_expressions_stand(rt: HostRuntime) -> Result<(), Fail> {
    let alloc = rt.alloc();
    for (constraints, piece, levels, fault) in NESTED {
        let pattern = instance(alloc, FIVE, constraints)?;
        let file = leveled(alloc, pattern.as_slice(), piece, *levels)?;
        assert_eq!(rt;
            answer(alloc, file.as_slice())?.as_str(),
            *fault,
            "{constraints} {levels}"
        );
    }
    for (pattern, fault) in ELSEWHERE {
        let file = leveled(alloc, pattern.as_bytes(), "(", 201)?;
        assert_eq!(rt;
            answer(alloc, file.as_slice())?.as_str(),
            *fault,
            "{pattern}"
        );
    }
    Ok(())
}
