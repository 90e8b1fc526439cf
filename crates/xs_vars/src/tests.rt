use crate::{read_declarations, read_variables};
use std::alloc::Global;
use std::process::Abort;
use std::test::Fail;
use xf_markup::read_tree;
use xf_text::{Fault, Kind, Stop};

// How many declarations, cells and values a text of `variables` declares.
fn counts(alloc: Global, text: &[u8]) -> Result<(usize, u64, u64), Stop> {
    match read_tree(alloc, text) {
        Ok(node) => {
            let read = read_declarations(alloc, node)?;
            Ok((read.decls.len(), read.cells, read.values))
        }
        Err(_) => Err(Stop::Refused(Fault {
            kind: Kind::Syntax,
            place: 0,
        })),
    }
}

fn variables_declared(rt: &impl Abort, alloc: Global) -> Result<(), Fail> {
    let cases: [(&[u8], (usize, u64, u64)); 5] = [
        (b"<variables/>", (0, 0, 0)),
        (b"<variables note=\"n\"> </variables>", (0, 0, 0)),
        (
            b"<variables><var id=\"x\"> 0..3 </var></variables>",
            (1, 1, 0),
        ),
        (
            b"<variables> <var id=\"x\">0 2</var> <var id=\"y\">1..4 9</var> </variables>",
            (2, 2, 7),
        ),
        (
            b"<variables><var id=\"x\">0 2</var><var id=\"y\" as=\"x\"/></variables>",
            (2, 2, 4),
        ),
    ];
    for (text, want) in cases {
        assert_eq!(rt; counts(alloc, text), Ok(want));
    }
    Ok(())
}

fn arrays_declared(rt: &impl Abort, alloc: Global) -> Result<(), Fail> {
    let cases: [(&[u8], (usize, u64, u64)); 3] = [
        (
            b"<variables><array id=\"a\" size=\"[2][3]\">0 2</array></variables>",
            (1, 6, 12),
        ),
        (
            b"<variables><var id=\"x\">1</var><array id=\"a\" size=\"[2]\">0..1</array><var id=\"y\" as=\"a\"/></variables>",
            (3, 4, 0),
        ),
        (
            b"<variables><var id=\"x\">1 3</var><array id=\"a\" as=\"x\" size=\"[2]\"/></variables>",
            (2, 3, 6),
        ),
    ];
    for (text, want) in cases {
        assert_eq!(rt; counts(alloc, text), Ok(want));
    }
    Ok(())
}

fn variables_refused(rt: &impl Abort, alloc: Global) -> Result<(), Fail> {
    let cases: [(&[u8], Kind, u64); 12] = [
        // The container itself comes first.
        (b"<variables id=\"v\"/>", Kind::Unknown, 0),
        (b"<variables id=\"v\"><var/></variables>", Kind::Unknown, 0),
        (b"<variables><var/><list/></variables>", Kind::Unknown, 0),
        (b"<variables><var/> 0</variables>", Kind::Shape, 0),
        // Then the children, each at its own place.
        (b"<variables><var/></variables>", Kind::Shape, 11),
        (
            b"<variables>  <var id=\"x\" foo=\"1\">0</var></variables>",
            Kind::Unknown,
            13,
        ),
        // Of two faults that of the earlier unit, whatever its kind.
        (
            b"<variables><var id=\"x\"></var><var id=\"y\" foo=\"1\">0</var></variables>",
            Kind::Shape,
            11,
        ),
        // A name that is taken, and one that is declared later.
        (
            b"<variables><var id=\"x\">0</var><var id=\"x\">1</var></variables>",
            Kind::Name,
            30,
        ),
        (
            b"<variables><var id=\"x\" as=\"y\"/><var id=\"y\">1</var></variables>",
            Kind::Name,
            11,
        ),
        (
            b"<variables><var id=\"x\" as=\"x\"/></variables>",
            Kind::Name,
            11,
        ),
        // The values of both domains are counted.
        (
            b"<variables><var id=\"x\">0 2..3000000</var><var id=\"y\" as=\"x\"/></variables>",
            Kind::Many,
            41,
        ),
        (
            b"<variables><var id=\"x\">85070591730234615865843651857942052864</var></variables>",
            Kind::Range,
            11,
        ),
    ];
    for (text, kind, place) in cases {
        assert_eq!(rt;
            counts(alloc, text),
            Err(Stop::Refused(Fault { kind, place }))
        );
    }
    Ok(())
}

// The variable that a word denotes among those of a text of `variables`.
fn variable(alloc: Global, text: &[u8], word: &[u8]) -> Result<Option<u32>, Stop> {
    match read_tree(alloc, text) {
        Ok(node) => {
            let (decls, names) = read_variables(alloc, &node)?;
            Ok(if decls.is_empty() {
                None
            } else {
                names.find(word)
            })
        }
        Err(_) => Ok(None),
    }
}

fn names_declared(rt: &impl Abort, alloc: Global) -> Result<(), Fail> {
    let text = b"<variables><var id=\"x\">0</var><var id=\"y\">1 3</var></variables>".as_slice();
    let cases: [(&[u8], Option<u32>); 3] = [(b"x", Some(0)), (b"y", Some(1)), (b"z", None)];
    for (word, want) in cases {
        assert_eq!(rt; variable(alloc, text, word), Ok(want));
    }
    Ok(())
}

#[test]
fn declared(rt: HostRuntime) -> Result<(), Fail> {
    variables_declared(&rt, rt.alloc())?;
    arrays_declared(&rt, rt.alloc())?;
    Ok(())
}

#[test]
fn refused(rt: HostRuntime) -> Result<(), Fail> {
    variables_refused(&rt, rt.alloc())?;
    names_declared(&rt, rt.alloc())?;
    Ok(())
}
