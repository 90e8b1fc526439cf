//! Instances with their models, or their faults. The tables have the texts, with what the specification of the formats
//! says of each.

mod conversions;
mod refusals;

use self::conversions::{AUTOMATA, DIAGRAMS, LINES, RANGES, TABLES, VARIABLES};
use self::refusals::{BEHIND, FITTING, KNOWN, ORDER, SPELLED};
use std::alloc::Global;
use std::test::Fail;
use xf_carry::write_lowered;
use xf_num::{Row, Text};
use xf_text::{MemSink, Stop, write_whole};
use xs_file::read_instance;

/// More bytes than a write takes at once.
const WHOLE: usize = 1_000_000;

// The lines of the model that a text is converted to; else its fault.
fn answer(alloc: Global, text: &[u8]) -> Result<MemSink, Fail> {
    let out = MemSink::new(alloc, Row::new(alloc), WHOLE);
    match read_instance(alloc, text) {
        Ok(instance) => {
            let (written, out) = write_lowered(alloc, &instance, out);
            written?;
            Ok(out)
        }
        Err(stop) => told(alloc, stop, out),
    }
}

fn told(alloc: Global, stop: Stop, mut out: MemSink) -> Result<MemSink, Fail> {
    match stop {
        Stop::Refused(fault) => {
            let number = fault.kind.number();
            let place = fault.place;
            let line = format!(in alloc; "F{number} at {place}")?;
            let _ = write_whole(&mut out, line.as_bytes());
        }
        Stop::Memory => {
            let _ = write_whole(&mut out, b"want of memory");
        }
    }
    Ok(out)
}

// The instance with these constraints, and nothing between its parts.
fn instance(alloc: Global, constraints: &str) -> Result<Text, Fail> {
    let mut text = Row::new(alloc);
    text.extend(b"<instance format=\"XCSP3\" type=\"CSP\"><variables>")?;
    text.extend(VARIABLES.as_bytes())?;
    text.extend(b"</variables><constraints>")?;
    text.extend(constraints.as_bytes())?;
    text.extend(b"</constraints></instance>")?;
    Ok(text)
}

// The model with these lines behind the variables.
fn model(alloc: Global, lines: &str) -> Result<Text, Fail> {
    let mut bytes = Row::new(alloc);
    bytes.extend(LINES.as_bytes())?;
    bytes.extend(lines.as_bytes())?;
    bytes.extend(b"solve satisfy;\n")?;
    Ok(bytes)
}

#[test]
fn instances_are_converted(rt: HostRuntime) -> Result<(), Fail> {
    let alloc = rt.alloc();
    for cases in [TABLES, RANGES, AUTOMATA, DIAGRAMS] {
        for (constraint, lines) in cases {
            let out = answer(alloc, instance(alloc, constraint)?.as_slice())?;
            assert_eq!(rt;
                out.bytes(),
                model(alloc, lines)?.as_slice(),
                "{constraint}"
            );
        }
    }
    Ok(())
}

#[test]
fn instances_are_refused(rt: HostRuntime) -> Result<(), Fail> {
    let alloc = rt.alloc();
    for cases in [KNOWN, SPELLED, ORDER, FITTING, BEHIND] {
        for (constraint, fault) in cases {
            let out = answer(alloc, instance(alloc, constraint)?.as_slice())?;
            assert_eq!(rt; out.bytes(), fault.as_bytes(), "{constraint}");
        }
    }
    Ok(())
}
