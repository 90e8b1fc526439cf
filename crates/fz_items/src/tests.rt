//! Texts with the size of their model, or their fault.

use crate::read_syntax_items;
use fz_grammar::read_syntax;
use std::alloc::Global;
use std::test::Fail;
use xf_text::Stop;

/// How many variables, shown arrays and calls there are; or the number of the fault and its place.
type Told = Result<(usize, usize, usize), (u8, u64)>;

fn told(alloc: Global, text: &[u8]) -> Option<Told> {
    let Ok(reading) = read_syntax(alloc, text) else {
        return None;
    };
    match read_syntax_items(alloc, None, text.len(), &reading) {
        Ok(model) => Some(Ok((model.vars.len(), model.outputs.len(), model.calls.len()))),
        Err(Stop::Refused(fault)) => Some(Err((fault.kind.number(), fault.place))),
        Err(Stop::Memory) => None,
    }
}

#[test]
fn models(rt: HostRuntime) -> Result<(), Fail> {
    let cases: [(&[u8], Told); 12] = [
        (b"solve satisfy;", Ok((0, 0, 0))),
        (
            b"var 0..1: x; constraint int_le(x,1); solve minimize x;",
            Ok((1, 0, 1)),
        ),
        (
            b"var bool: b; array [1..1] of var bool: a :: output_array([1..1]) = [b]; solve satisfy;",
            Ok((1, 1, 0)),
        ),
        (
            b"var 0..1: x; constraint foo(x); solve satisfy;",
            Err((3, 13)),
        ),
        (b"var 0..1: x; var 0..1: x; solve satisfy;", Err((5, 13))),
        (b"constraint int_le(y,1); solve satisfy;", Err((5, 0))),
        (
            b"var bool: b; constraint int_le(b,1); solve satisfy;",
            Err((12, 13)),
        ),
        (
            b"var 0..85070591730234615865843651857942052864: x; solve satisfy;",
            Err((10, 0)),
        ),
        (b"var 1..0: x; solve satisfy;", Err((4, 0))),
        (b"array [1..2] of int: p = [1]; solve satisfy;", Err((4, 0))),
        (b"var int: x; solve satisfy;", Err((11, 0))),
        (b"var 0..1: x; solve minimize y;", Err((5, 13))),
    ];
    for (text, wanted) in cases {
        assert_eq!(rt; told(rt.alloc(), text), Some(wanted));
    }
    Ok(())
}
