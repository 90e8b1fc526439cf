//! Instances with their models. The tables have the texts, with what the specification of the formats says of each.

mod conversions;

use self::conversions::{CELLS, DOMAINS, FILES, LISTS, NAMES, TAKEN};
use lo_base::EmitStop;
use std::alloc::Global;
use std::test::Fail;
use xf_carry::write_lowered;
use xf_num::{NoMemory, Row, Text};
use xf_text::{MemSink, Stop, write_whole};
use xs_file::read_instance;

/// More bytes than a write takes at once.
const WHOLE: usize = 1_000_000;

// The lines of the model that a text is converted to; else its fault.
fn answer(alloc: Global, text: &[u8]) -> Result<MemSink, Fail> {
    let out = MemSink::new(alloc, Row::new(alloc), WHOLE);
    match read_instance(alloc, text) {
        Ok(instance) => {
            let (written, out) = write_lowered(alloc, &instance, out);
            written?;
            Ok(out)
        }
        Err(stop) => told(alloc, stop, out),
    }
}

fn told(alloc: Global, stop: Stop, mut out: MemSink) -> Result<MemSink, Fail> {
    match stop {
        Stop::Refused(fault) => {
            let number = fault.kind.number();
            let place = fault.place;
            let line = format!(in alloc; "refused F{number} at {place}")?;
            let _ = write_whole(&mut out, line.as_bytes());
        }
        Stop::Memory => {
            let _ = write_whole(&mut out, b"want of memory");
        }
    }
    Ok(out)
}

// The instance with these declarations and constraints, and nothing between its parts.
fn instance(alloc: Global, variables: &str, constraints: &str) -> Result<Text, Fail> {
    let mut text = Row::new(alloc);
    text.extend(b"<instance format=\"XCSP3\" type=\"CSP\"><variables>")?;
    text.extend(variables.as_bytes())?;
    text.extend(b"</variables><constraints>")?;
    text.extend(constraints.as_bytes())?;
    text.extend(b"</constraints></instance>")?;
    Ok(text)
}

const PAIR: &[u8] =
    b"<instance format=\"XCSP3\" type=\"CSP\"><variables><var id=\"a\"> 0..1 </var><var id=\"b\"> 0..1 </var></variables><constraints><allDifferent> a b </allDifferent></constraints></instance>";

const PAIR_MODEL: &[u8] =
    b"var 0..1: v_a :: output_var;\nvar 0..1: v_b :: output_var;\nconstraint int_ne(v_a,v_b);\nsolve satisfy;\n";

// Where the lines of `PAIR_MODEL` end.
const ENDS: [usize; 5] = [0, 29, 58, 86, 101];

/// What may stand before the first tag.
const HEADS: [&[u8]; 4] = [
    b"\xef\xbb\xbf",
    b"<?xml version=\"1.0\" encoding=\"UTF-8\" ?>",
    b"\xef\xbb\xbf<?xml ?>\n",
    b"<!-- \xef\xbb\xbf <?xml ?> -->",
];

// An instance whose notes have so many levels.
fn noted(alloc: Global, levels: usize) -> Result<Text, Fail> {
    let mut text = Row::new(alloc);
    text.extend(b"<instance><variables/><annotations>")?;
    for _ in 0..levels {
        text.extend(b"<b>")?;
    }
    for _ in 0..levels {
        text.extend(b"</b>")?;
    }
    text.extend(b"</annotations></instance>")?;
    Ok(text)
}

#[test]
fn instances_are_converted(rt: HostRuntime) -> Result<(), Fail> {
    let alloc = rt.alloc();
    for cases in [DOMAINS, NAMES, CELLS, TAKEN, LISTS] {
        for (variables, constraints, model) in cases {
            let text = instance(alloc, variables, constraints)?;
            let out = answer(alloc, text.as_slice())?;
            assert_eq!(rt; out.bytes(), model.as_bytes(), "{variables} {constraints}");
        }
    }
    Ok(())
}

#[test]
fn files_are_converted(rt: HostRuntime) -> Result<(), Fail> {
    let alloc = rt.alloc();
    for (file, model) in FILES {
        let out = answer(alloc, file.as_bytes())?;
        assert_eq!(rt; out.bytes(), model.as_bytes(), "{file}");
    }
    for head in HEADS {
        let mut text = Row::new(alloc);
        text.extend(head)?;
        text.extend(PAIR)?;
        let out = answer(alloc, text.as_slice())?;
        assert_eq!(rt; out.bytes(), PAIR_MODEL);
    }
    let out = answer(alloc, noted(alloc, 198)?.as_slice())?;
    assert_eq!(rt; out.bytes(), b"solve satisfy;\n".as_slice());
    Ok(())
}

// A sink whose call of this number fails.
fn sink(alloc: Global, fails: i128) -> Result<MemSink, NoMemory> {
    let mut calls = Row::new(alloc);
    calls.push(fails)?;
    Ok(MemSink::new(alloc, calls, WHOLE))
}

#[test]
fn each_line_is_one_call_on_the_sink(rt: HostRuntime) -> Result<(), Fail> {
    let alloc = rt.alloc();
    let Ok(instance) = read_instance(alloc, PAIR) else {
        panic!(rt; "not read");
    };
    for lines in 0..4 {
        let (result, out) = write_lowered(alloc, &instance, sink(alloc, lines as i128 + 1)?);
        assert_eq!(rt; result, Err(EmitStop::Failed));
        assert_eq!(rt; out.bytes(), &PAIR_MODEL[..ENDS[lines]]);
    }
    let (result, out) = write_lowered(alloc, &instance, sink(alloc, 5)?);
    assert_eq!(rt; result, Ok(()));
    assert_eq!(rt; out.bytes(), PAIR_MODEL);
    Ok(())
}
