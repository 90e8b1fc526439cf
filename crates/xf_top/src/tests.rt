//! Whole runs over files and bytes in memory.

ghost use Rattle.std.specs.Prelude.{◌≡◌, ◌<◌, IfOk};

use crate::engine::run;
use std::alloc::Global;
use std::test::Fail;
use xf_num::{Ints, Row, Text};
use xf_text::{MemShelf, MemSink, Stored};

const PAIR: &str =
    "<instance format=\"XCSP3\" type=\"CSP\"><variables><var id=\"a\"> 0..1 </var><var id=\"b\"> 0..1 </var></variables><constraints><allDifferent> a b </allDifferent></constraints></instance>";

const PAIR_MODEL: &str =
    "var 0..1: v_a :: output_var;\nvar 0..1: v_b :: output_var;\nconstraint int_ne(v_a,v_b);\nsolve satisfy;\n";

/// The pair with a form that is not known.
const STRETCH: &str =
    "<instance format=\"XCSP3\" type=\"CSP\"><variables><var id=\"a\"> 0..1 </var><var id=\"b\"> 0..1 </var></variables><constraints><stretch/></constraints></instance>";

/// More bytes than a write takes at once.
const WHOLE: usize = 1_000_000;

// How a run ended.
#[derive(Drop)]
struct Ended {
    status: u8,
    out: MemSink,
    err: MemSink,
}

fn text(alloc: Global, bytes: &[u8]) -> Result<Text, Fail>
    ensures { IfOk result (λ row. row ≡ bytes.now) }
{
    let mut row = Row::new(alloc);
    row.extend(bytes)?;
    Ok(row)
}

fn numbers(alloc: Global, values: &[i128]) -> Result<Ints, Fail> {
    let mut row = Row::new(alloc);
    row.extend(values)?;
    Ok(row)
}

// The words of a line, which are separated by single spaces.
fn words_of(alloc: Global, line: &str) -> Result<Vec<String>, Fail> {
    let mut words = Vec::new(alloc);
    for word in line.split(' ') {
        words.push(String::from_str(alloc, word)?)?;
    }
    Ok(words)
}

// A shelf with one file, `i.xml`.
fn shelf(alloc: Global, bytes: Text, fails: &[i128]) -> Result<MemShelf, Fail> {
    let mut files = Row::new(alloc);
    files.push(Stored {
        name: text(alloc, b"i.xml")?,
        bytes,
    })?;
    Ok(MemShelf::new(alloc, files, numbers(alloc, fails)?))
}

fn sink(alloc: Global, fails: &[i128], most: usize) -> Result<MemSink, Fail>
    requires { 0 < most }
{
    Ok(MemSink::new(alloc, numbers(alloc, fails)?, most))
}

fn ran(
    alloc: Global,
    words: &[String],
    mut files: MemShelf,
    out: MemSink,
    mut err: MemSink,
) -> Ended {
    let (status, out) = run(alloc, words, &mut files, out, &mut err);
    Ended { status, out, err }
}

// The run of these words over one file, whose calls and whose writes all succeed.
fn run_on(alloc: Global, words: &[String], bytes: Text) -> Result<Ended, Fail> {
    let files = shelf(alloc, bytes, &[])?;
    let out = sink(alloc, &[], WHOLE)?;
    let err = sink(alloc, &[], WHOLE)?;
    Ok(ran(alloc, words, files, out, err))
}

/// Words and the bytes of the file, with the status, what was written, and what was said.
const RUNS: [(&str, &str, u8, &str, &str); 23] = [
    ("to-fzn i.xml", PAIR, 0, PAIR_MODEL, ""),
    (
        "show i.xml",
        "solve satisfy;\n",
        0,
        "flatzinc\nvariables 0\nconstraints 0\ngoal satisfy\n",
        "",
    ),
    (
        "show i.xml",
        "var 0..1: x;\nconstraint foo(x);\nsolve satisfy;\n",
        2,
        "",
        "refused F3 at 13 in i.xml\n",
    ),
    (
        "to-fzn i.xml",
        STRETCH,
        2,
        "",
        "refused F3 at 120 in i.xml\n",
    ),
    ("to-fzn i.xml", "", 2, "", "refused F2 at 0 in i.xml\n"),
    (
        "to-fzn i.xml",
        "<instance></variables>",
        2,
        "",
        "refused F2 at 10 in i.xml\n",
    ),
    (
        "to-fzn i.xml",
        "<instance><variables><var id=\"x\"> 0..",
        2,
        "",
        "refused F2 at 37 in i.xml\n",
    ),
    ("to-fzn j.xml", PAIR, 3, "", "read fault in j.xml\n"),
    ("to-fzn -", PAIR, 3, "", "read fault in -\n"),
    ("", PAIR, 6, "", "words refused\n"),
    ("to-fzn", PAIR, 6, "", "words refused\n"),
    ("to-fzn i.xml --bound 3", PAIR, 6, "", "words refused\n"),
    ("to-fzn -x", PAIR, 6, "", "words refused\n"),
    ("to-fzn ", PAIR, 6, "", "words refused\n"),
    ("check - -", PAIR, 6, "", "words refused\n"),
    ("make queens 0 1", PAIR, 6, "", "words refused\n"),
    ("TO-FZN i.xml", PAIR, 6, "", "words refused\n"),
    (" to-fzn i.xml", PAIR, 6, "", "words refused\n"),
    ("to-xcsp i.xml", PAIR, 6, "", "words refused\n"),
    ("to-xcsp i.xml --bound 3", PAIR, 6, "", "words refused\n"),
    ("check i.xml i.xml", PAIR, 6, "", "words refused\n"),
    ("carry back-x i.xml i.xml", PAIR, 6, "", "words refused\n"),
    (
        "show i.xml",
        PAIR,
        0,
        "xcsp3\nvariables 2\nconstraints 1\ngoal satisfy\nallDifferent 1\n",
        "",
    ),
];

#[test]
fn runs_end_with_their_status_and_line(rt: HostRuntime) -> Result<(), Fail> {
    let alloc = rt.alloc();
    for (line, file, status, written, said) in RUNS {
        let words = words_of(alloc, line)?;
        let ended = run_on(alloc, &words, text(alloc, file.as_bytes())?)?;
        assert_eq!(rt; ended.status, status, "{line}");
        assert_eq!(rt; ended.out.bytes(), written.as_bytes(), "{line}");
        assert_eq!(rt; ended.err.bytes(), said.as_bytes(), "{line}");
    }
    let ended = run_on(alloc, &[], text(alloc, PAIR.as_bytes())?)?;
    assert_eq!(rt; ended.status, 6);
    assert_eq!(rt; ended.err.bytes(), b"words refused\n".as_slice());
    Ok(())
}

/// Which calls on the files, on what takes the text and on what takes the line fail, how many bytes a write takes, and
/// the bytes of the file; with the status, what was written, and what was said.
const FAULTS: [(&[i128], &[i128], &[i128], usize, &str, u8, &str, &str); 5] = [
    (&[1], &[], &[], WHOLE, PAIR, 3, "", "read fault in i.xml\n"),
    (&[2], &[], &[], WHOLE, PAIR, 3, "", "read fault in i.xml\n"),
    (&[], &[2], &[], 10, PAIR, 4, "var 0..1: ", "write fault\n"),
    (&[], &[], &[1], WHOLE, "", 2, "", ""),
    (&[2], &[], &[1], WHOLE, PAIR, 3, "", ""),
];

#[test]
fn faults_of_the_outside_are_told(rt: HostRuntime) -> Result<(), Fail> {
    let alloc = rt.alloc();
    let words = words_of(alloc, "to-fzn i.xml")?;
    for (reads, writes, says, most, file, status, written, said) in FAULTS {
        let files = shelf(alloc, text(alloc, file.as_bytes())?, reads)?;
        let out = sink(alloc, writes, most.max(1))?;
        let err = sink(alloc, says, WHOLE)?;
        let ended = ran(alloc, &words, files, out, err);
        assert_eq!(rt; ended.status, status, "{status}");
        assert_eq!(rt; ended.out.bytes(), written.as_bytes(), "{status}");
        assert_eq!(rt; ended.err.bytes(), said.as_bytes(), "{status}");
    }
    Ok(())
}

// So many spaces.
fn spaces(alloc: Global, count: usize) -> Result<Text, Fail> {
    let block = vec![in alloc; b' '; 1_048_576]?;
    let mut bytes = Row::new(alloc);
    for _ in 0..count / block.len() {
        bytes.extend(&block)?;
    }
    bytes.extend(&block[..count % block.len()])?;
    Ok(bytes)
}

#[test]
fn a_file_of_more_than_64_mib_is_too_long(rt: HostRuntime) -> Result<(), Fail> {
    let alloc = rt.alloc();
    let cases = [
        (67_108_864, "refused F2 at 67108864 in i.xml\n"),
        (67_108_865, "refused F1 at 67108864 in i.xml\n"),
    ];
    let words = words_of(alloc, "to-fzn i.xml")?;
    for (count, said) in cases {
        let ended = run_on(alloc, &words, spaces(alloc, count)?)?;
        assert_eq!(rt; ended.status, 2);
        assert_eq!(rt; ended.out.bytes(), b"".as_slice());
        assert_eq!(rt; ended.err.bytes(), said.as_bytes());
    }
    Ok(())
}
