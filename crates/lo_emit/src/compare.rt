//! Relations between terms.

ghost use Rattle.std.specs.Prelude.{◌≡◌, ◌+◌, ◌<◌, ◌^◌, IfOk, OnOk, OnErr, IsErrOf};
ghost use Rattle.xf_text.specs.Outside.{Rose};
ghost use Rattle.lo_emit.specs.Compare.{compare_call};
ghost use Rattle.lo_emit.specs.Conditions.{truth_of_relation};

use crate::define::truth_of_two;
use crate::term::{Term, arg_of};
use fz_model::{Builtin, Call, call_of_two};
use lo_base::{Emit, EmitStop};
use std::alloc::Global;
use xf_num::NoMemory;

/// How a number is related to another.
#[derive(Clone, Copy)]
pub enum Relation {
    /// Less than it.
    Lt,
    /// At most it.
    Le,
    /// At least it.
    Ge,
    /// Greater than it.
    Gt,
    /// Equal to it.
    Eq,
    /// Other than it.
    Ne,
}

/// The call that states how a term is related to another.
pub fn compare_call(
    alloc: Global,
    relation: Relation,
    term: Term,
    bound: Term,
) -> Result<Call, NoMemory>
    ensures { IfOk result (λ call. call ≡ compare_call relation term bound) }
{
    match relation {
        Relation::Lt => call_of_two(alloc, Builtin::IntLt, arg_of(term), arg_of(bound)),
        Relation::Le => call_of_two(alloc, Builtin::IntLe, arg_of(term), arg_of(bound)),
        Relation::Ge => call_of_two(alloc, Builtin::IntLe, arg_of(bound), arg_of(term)),
        Relation::Gt => call_of_two(alloc, Builtin::IntLt, arg_of(bound), arg_of(term)),
        Relation::Eq => call_of_two(alloc, Builtin::IntEq, arg_of(term), arg_of(bound)),
        Relation::Ne => call_of_two(alloc, Builtin::IntNe, arg_of(term), arg_of(bound)),
    }
}

/// Appends a truth value that tells whether a term is so related to another, and answers it. On an `Err` it began that.
pub fn truth_of_relation<E: Emit>(
    alloc: Global,
    relation: Relation,
    term: Term,
    bound: Term,
    out: &mut E,
) -> Result<Term, EmitStop>
    requires { E.count out.old < 2 ^ 61 }
    ensures value { IfOk result (λ t. t ≡ (truth_of_relation relation (E.count out.old) term bound).term) }
    ensures ok { OnOk result (E.grew out.old out.new (truth_of_relation relation (E.count out.old) term bound).items) }
    ensures count { OnOk result (E.count out.new ≡ E.count out.old + 1) }
    ensures stopped { OnErr result (E.began out.old out.new (truth_of_relation relation (E.count out.old) term bound).items) }
    ensures cause { IsErrOf result EmitStop.Failed → Rose (E.faults out.old) (E.faults out.new) }
{
    match relation {
        Relation::Lt => truth_of_two(alloc, Builtin::IntLtReif, term, bound, out),
        Relation::Le => truth_of_two(alloc, Builtin::IntLeReif, term, bound, out),
        Relation::Ge => truth_of_two(alloc, Builtin::IntLeReif, bound, term, out),
        Relation::Gt => truth_of_two(alloc, Builtin::IntLtReif, bound, term, out),
        Relation::Eq => truth_of_two(alloc, Builtin::IntEqReif, term, bound, out),
        Relation::Ne => truth_of_two(alloc, Builtin::IntNeReif, term, bound, out),
    }
}
