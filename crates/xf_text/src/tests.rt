ghost use Rattle.std.specs.Prelude.{◌≡◌, ◌<◌, IfOk};

use crate::{
    Failed, Kind, MemShelf, MemSink, NumberStop, ReadStop, Shelf, Sink, Stored, SureSink,
    read_file, read_int, write_whole,
};
use std::alloc::Global;
use std::process::Abort;
use std::test::Fail;
use xf_num::{Ints, Row, Text};

fn text(alloc: Global, bytes: &[u8]) -> Result<Text, Fail>
    ensures { IfOk result (λ row. row ≡ bytes.now) }
{
    let mut row = Row::new(alloc);
    row.extend(bytes)?;
    Ok(row)
}

fn numbers(alloc: Global, values: &[i128]) -> Result<Ints, Fail> {
    let mut row = Row::new(alloc);
    row.extend(values)?;
    Ok(row)
}

fn stored(alloc: Global, name: &[u8], bytes: &[u8]) -> Result<Stored, Fail> {
    Ok(Stored {
        name: text(alloc, name)?,
        bytes: text(alloc, bytes)?,
    })
}

// A shelf of two files of one name, and of an empty one.
fn shelf(alloc: Global, fails: &[i128]) -> Result<MemShelf, Fail> {
    let mut files = Row::new(alloc);
    files.push(stored(alloc, b"a", b"first")?)?;
    files.push(stored(alloc, b"a", b"second")?)?;
    files.push(stored(alloc, b"b", b"")?)?;
    Ok(MemShelf::new(alloc, files, numbers(alloc, fails)?))
}

fn files_are_read_to_their_end(rt: &impl Abort, alloc: Global) -> Result<(), Fail> {
    let cases: [(&str, &[u8]); 2] = [("a", b"first"), ("b", b"")];
    for (name, bytes) in cases {
        let mut files = shelf(alloc, &[])?;
        match read_file(alloc, &mut files, name) {
            Ok(read) => assert_eq!(rt; read.as_slice(), bytes),
            Err(_) => assert!(rt; false),
        }
    }
    Ok(())
}

fn calls_that_fail_are_told(rt: &impl Abort, alloc: Global) -> Result<(), Fail> {
    let cases: [(&str, i128); 4] = [("a", 1), ("a", 2), ("a", 3), ("c", 9)];
    for (name, fails) in cases {
        let mut files = shelf(alloc, &[fails])?;
        match read_file(alloc, &mut files, name) {
            Ok(_) => assert!(rt; false),
            Err(stop) => assert_eq!(rt; stop, ReadStop::Failed),
        }
    }
    Ok(())
}

fn texts_are_written_whole(rt: &impl Abort, alloc: Global) -> Result<(), Fail> {
    let mut out = MemSink::new(alloc, numbers(alloc, &[])?, 2);
    assert_eq!(rt; write_whole(&mut out, b"12345"), Ok(()));
    assert_eq!(rt; write_whole(&mut out, b""), Ok(()));
    assert_eq!(rt; out.bytes(), b"12345".as_slice());
    Ok(())
}

fn a_failed_write_leaves_a_prefix(rt: &impl Abort, alloc: Global) -> Result<(), Fail> {
    let mut out = MemSink::new(alloc, numbers(alloc, &[3])?, 2);
    assert_eq!(rt; write_whole(&mut out, b"12345"), Err(Failed));
    assert_eq!(rt; out.bytes(), b"1234".as_slice());
    let mut sure = SureSink::new();
    assert_eq!(rt; write_whole(&mut sure, b"12345"), Ok(()));
    Ok(())
}

fn numbers_in_texts(rt: &impl Abort) {
    let cases: [(&[u8], i128, usize); 6] = [
        (b"0", 0, 1),
        (b"007;", 7, 3),
        (b"-0", 0, 2),
        (b"-12-3", -12, 3),
        (b"170141183460469231731687303715884105727", i128::MAX, 39),
        (b"-170141183460469231731687303715884105728", i128::MIN, 40),
    ];
    for (bytes, value, end) in cases {
        assert_eq!(rt; read_int(bytes, 0), Ok((value, end)));
    }
}

fn texts_that_are_no_numbers(rt: &impl Abort) {
    let cases: [(&[u8], NumberStop); 6] = [
        (b"", NumberStop::NotNumber),
        (b"-", NumberStop::NotNumber),
        (b"+1", NumberStop::NotNumber),
        (b" 1", NumberStop::NotNumber),
        (
            b"170141183460469231731687303715884105728",
            NumberStop::Range,
        ),
        (
            b"-170141183460469231731687303715884105729",
            NumberStop::Range,
        ),
    ];
    for (bytes, stop) in cases {
        assert_eq!(rt; read_int(bytes, 0), Err(stop));
    }
}

fn kinds_are_numbered(rt: &impl Abort) {
    let kinds = [
        (Kind::Long, 1),
        (Kind::Syntax, 2),
        (Kind::Unknown, 3),
        (Kind::Shape, 4),
        (Kind::Name, 5),
        (Kind::Many, 6),
        (Kind::Depth, 7),
        (Kind::Logic, 8),
        (Kind::Division, 9),
        (Kind::Range, 10),
        (Kind::Unbounded, 11),
        (Kind::Kinds, 12),
        (Kind::Missing, 13),
        (Kind::Repeat, 14),
        (Kind::NoAnswer, 15),
    ];
    for (kind, number) in kinds {
        assert_eq!(rt; kind.number(), number);
    }
}

#[test]
fn files(rt: HostRuntime) -> Result<(), Fail> {
    files_are_read_to_their_end(&rt, rt.alloc())?;
    calls_that_fail_are_told(&rt, rt.alloc())?;
    Ok(())
}

#[test]
fn texts(rt: HostRuntime) -> Result<(), Fail> {
    texts_are_written_whole(&rt, rt.alloc())?;
    a_failed_write_leaves_a_prefix(&rt, rt.alloc())?;
    Ok(())
}

#[test]
fn integers(rt: HostRuntime) {
    numbers_in_texts(&rt);
    texts_that_are_no_numbers(&rt);
    kinds_are_numbered(&rt);
}
