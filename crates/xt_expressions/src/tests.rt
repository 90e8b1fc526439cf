//! Instances with expressions, and their models. The tables have the texts, with what the specification of the formats
//! says of each.

mod converted;
mod numbers;
mod stated;

use self::converted::{DROPPED, LIMITS, OPERANDS, PLACES, SEVERAL};
use self::numbers::NUMBERS;
use self::stated::{FIVE, FIVE_LINES, STATED, TRUTHS};
use std::alloc::Global;
use std::test::Fail;
use xf_carry::write_lowered;
use xf_num::{NoMemory, Row, Text};
use xf_text::{MemSink, Stop, write_whole};
use xs_file::read_instance;

/// More bytes than a write takes at once.
const WHOLE: usize = 1_000_000;

// The lines of the model that a text is converted to; else its fault.
fn answer(alloc: Global, text: &[u8]) -> Result<MemSink, Fail> {
    let out = MemSink::new(alloc, Row::new(alloc), WHOLE);
    match read_instance(alloc, text) {
        Ok(instance) => {
            let (written, out) = write_lowered(alloc, &instance, out);
            written?;
            Ok(out)
        }
        Err(stop) => told(alloc, stop, out),
    }
}

fn told(alloc: Global, stop: Stop, mut out: MemSink) -> Result<MemSink, Fail> {
    match stop {
        Stop::Refused(fault) => {
            let number = fault.kind.number();
            let place = fault.place;
            let line = format!(in alloc; "refused F{number} at {place}")?;
            let _ = write_whole(&mut out, line.as_bytes());
        }
        Stop::Memory => {
            let _ = write_whole(&mut out, b"want of memory");
        }
    }
    Ok(out)
}

// The instance with these declarations and constraints, and nothing between its parts.
fn instance(alloc: Global, variables: &str, constraints: &str) -> Result<Text, Fail> {
    let mut text = Row::new(alloc);
    text.extend(b"<instance format=\"XCSP3\" type=\"CSP\"><variables>")?;
    text.extend(variables.as_bytes())?;
    text.extend(b"</variables><constraints>")?;
    text.extend(constraints.as_bytes())?;
    text.extend(b"</constraints></instance>")?;
    Ok(text)
}

// The constraint that states an expression.
fn stating(alloc: Global, expression: &str) -> Result<String, Fail> {
    Ok(format!(in alloc; "<intension> {expression} </intension>")?)
}

// The model of the five variables with these lines behind them.
fn model(alloc: Global, lines: &str) -> Result<Text, Fail> {
    let mut bytes = Row::new(alloc);
    bytes.extend(FIVE_LINES.as_bytes())?;
    bytes.extend(lines.as_bytes())?;
    bytes.extend(b"solve satisfy;\n")?;
    Ok(bytes)
}

#[test]
fn expressions_are_stated(rt: HostRuntime) -> Result<(), Fail> {
    let alloc = rt.alloc();
    for cases in [STATED, TRUTHS, NUMBERS] {
        for (expression, lines) in cases {
            let constraint = stating(alloc, expression)?;
            let text = instance(alloc, FIVE, constraint.as_str())?;
            let out = answer(alloc, text.as_slice())?;
            assert_eq!(rt;
                out.bytes(),
                model(alloc, lines)?.as_slice(),
                "{expression}"
            );
        }
    }
    Ok(())
}

// So many pieces behind the bytes.
fn repeat(piece: &[u8], levels: usize, bytes: &mut Text) -> Result<(), NoMemory> {
    for _ in 0..levels {
        bytes.extend(piece)?;
    }
    Ok(())
}

// The pattern with so many levels: `{` opens them, each by the piece, and `}` closes them.
fn leveled(alloc: Global, pattern: &[u8], piece: &str, levels: usize) -> Result<Text, Fail> {
    let mut bytes = Row::new(alloc);
    for byte in pattern {
        match byte {
            b'{' => repeat(piece.as_bytes(), levels, &mut bytes)?,
            b'}' => repeat(b")", levels, &mut bytes)?,
            other => bytes.push(*other)?,
        }
    }
    Ok(bytes)
}

// The lines that state so many negations of `p`, one around the other: each is a new variable but the outermost.
fn negations(alloc: Global, levels: usize) -> Result<String, Fail> {
    let mut lines = String::new(alloc);
    for at in 0..levels {
        lines.push_str(format!(in alloc; "var bool: a_{at};\n")?.as_str())?;
    }
    lines.push_str("constraint bool2int(a_0,v_p);\n")?;
    let mut last = 0;
    for at in 1..levels {
        lines.push_str(format!(in alloc; "constraint bool_not(a_{last},a_{at});\n")?.as_str())?;
        last = at;
    }
    lines.push_str(format!(in alloc; "constraint bool_clause([],[a_{last}]);\n")?.as_str())?;
    Ok(lines)
}

#[test]
fn instances_with_expressions_are_converted(rt: HostRuntime) -> Result<(), Fail> {
    let alloc = rt.alloc();
    for cases in [PLACES, OPERANDS, SEVERAL, LIMITS] {
        for (variables, constraints, model) in cases {
            let text = instance(alloc, variables, constraints)?;
            let out = answer(alloc, text.as_slice())?;
            assert_eq!(rt; out.bytes(), model.as_bytes(), "{constraints}");
        }
    }
    for (pattern, model) in DROPPED {
        let file = leveled(alloc, pattern.as_bytes(), "(", 201)?;
        let out = answer(alloc, file.as_slice())?;
        assert_eq!(rt; out.bytes(), model.as_bytes(), "{pattern}");
    }
    let pattern = instance(alloc, FIVE, "<intension> {p} </intension>")?;
    let file = leveled(alloc, pattern.as_slice(), "not(", 200)?;
    let out = answer(alloc, file.as_slice())?;
    let lines = negations(alloc, 200)?;
    assert_eq!(rt; out.bytes(), model(alloc, lines.as_str())?.as_slice());
    Ok(())
}
