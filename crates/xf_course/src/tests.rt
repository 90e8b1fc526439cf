//! The lines and statuses of answers, and files that are read in a format.

ghost use Rattle.std.specs.Prelude.{◌≡◌, ℕ, List, length};
ghost use Rattle.xf_text.specs.declared.fault.Fault.{Fault as TheFault};

use crate::answers::{Answer, tell};
use crate::course::{Halt, Standing};
use crate::reading::{Format, read_as};
use std::alloc::Global;
use std::test::Fail;
use xf_num::{Row, Text};
use xf_text::{Fault, Kind, MemShelf, MemSink, Stop, Stored};
use xf_words::Which;

// Bytes, of which only the number counts.
struct ALength;

impl Format for ALength {
    type Value = usize;

    ghost accepts = { λ f bytes n. n ≡ length bytes };

    ghost refuses = { λ f bytes fault. ⊥ };

    ghost knows = { λ f n. Unit {0} };

    fn parse(&self, _alloc: Global, bytes: &[u8]) -> Result<usize, Stop> {
        Ok(bytes.len())
    }
}

fn text(alloc: Global, bytes: &[u8]) -> Result<Text, Fail> {
    let mut row = Row::new(alloc);
    row.extend(bytes)?;
    Ok(row)
}

#[test]
fn files_are_read_in_their_format(rt: HostRuntime) -> Result<(), Fail> {
    let alloc = rt.alloc();
    let mut files = Row::new(alloc);
    files.push(Stored {
        name: text(alloc, b"f")?,
        bytes: text(alloc, b"abc")?,
    })?;
    let mut shelf = MemShelf::new(alloc, files, Row::new(alloc));
    let read = read_as(alloc, &ALength, Which::File, "f", &mut shelf);
    assert!(rt; matches!(read, Ok(3)));
    let read = read_as(alloc, &ALength, Which::Solution, "g", &mut shelf);
    assert!(rt; matches!(read, Err(Halt::NotRead(Which::Solution))));
    Ok(())
}

fn refused(which: Which) -> Answer {
    Answer::Halted(Halt::Refused(
        which,
        Fault {
            kind: Kind::Name,
            place: 120,
        },
    ))
}

#[test]
fn answers_are_told(rt: HostRuntime) -> Result<(), Fail> {
    let alloc = rt.alloc();
    let cases = [
        (Answer::Wrote(Standing::Met), 0, ""),
        (Answer::Wrote(Standing::Unmet), 1, ""),
        (Answer::Wrote(Standing::Limited), 7, ""),
        (
            Answer::Halted(Halt::Denied(text(alloc, b"violated 2\n")?)),
            1,
            "violated 2\n",
        ),
        (refused(Which::File), 2, "refused F5 at 120 in f\n"),
        (refused(Which::Solution), 2, "refused F5 at 120 in s\n"),
        (
            Answer::Halted(Halt::NotRead(Which::File)),
            3,
            "read fault in f\n",
        ),
        (
            Answer::Halted(Halt::NotRead(Which::Solution)),
            3,
            "read fault in s\n",
        ),
        (Answer::Halted(Halt::Memory), 5, "want of memory\n"),
        (Answer::NotWritten, 4, "write fault\n"),
        (Answer::NoMemory, 5, "want of memory\n"),
        (Answer::NoCommand, 6, "words refused\n"),
    ];
    for (answer, status, line) in &cases {
        let mut err = MemSink::new(alloc, Row::new(alloc), 7);
        assert_eq!(rt; answer.status(), *status, "{line}");
        assert!(rt; tell(answer, "f", "s", &mut err).is_ok(), "{line}");
        assert_eq!(rt; err.bytes(), line.as_bytes(), "{line}");
    }
    Ok(())
}
