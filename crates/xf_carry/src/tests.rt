//! The two passes, each over a variable, a Boolean and a call. Whole models are written by tests over the texts of instances.

ghost use Rattle.std.specs.Prelude.{◌≤◌, ◌^◌};

use crate::{CallEmit, DeclEmit};
use fz_model::int_ne;
use lo_base::{Emit, EmitStop};
use std::alloc::Global;
use std::test::Fail;
use xf_num::{NoMemory, Row, Span};
use xf_text::MemSink;

// What `fill` writes: of variables behind two, and of a call where none is named.
const AUXILIARIES: &[u8] = b"var -3..5: a_0;\nvar bool: a_1;\n";

const CALL: &[u8] = b"constraint int_ne(a_0,a_0);\n";

// A sink whose call of this number fails.
fn sink(alloc: Global, fails: i128) -> Result<MemSink, NoMemory> {
    let mut calls = Row::new(alloc);
    calls.push(fails)?;
    Ok(MemSink::new(alloc, calls, 1000))
}

// An integer, a Boolean, and that the first variable differs from the integer.
fn fill<E: Emit>(alloc: Global, out: &mut E) -> Result<(u64, u64), EmitStop>
    requires { E.count out.old ≤ 2 ^ 60 }
{
    let span = Span::new(-3, 5).unwrap();
    let integer = out.new_int(span)?;
    let boolean = out.new_bool()?;
    out.post(int_ne(alloc, 0, integer)?)?;
    Ok((integer, boolean))
}

#[test]
fn one_pass_writes_the_auxiliaries(rt: HostRuntime) -> Result<(), Fail> {
    let mut emit = DeclEmit::new(rt.alloc(), 2, sink(rt.alloc(), 0)?);
    assert_eq!(rt; fill(rt.alloc(), &mut emit)?, (2, 3));
    let out = emit.into_sink();
    assert_eq!(rt; out.bytes(), AUXILIARIES);
    Ok(())
}

#[test]
fn one_pass_writes_the_calls(rt: HostRuntime) -> Result<(), Fail> {
    let named = Row::new(rt.alloc());
    let mut emit = CallEmit::new(rt.alloc(), named, sink(rt.alloc(), 0)?);
    assert_eq!(rt; fill(rt.alloc(), &mut emit)?, (0, 1));
    let out = emit.into_sink();
    assert_eq!(rt; out.bytes(), CALL);
    Ok(())
}
