//! The expression of a constraint.

ghost use Rattle.std.specs.Prelude.{◌≡◌, ◌+◌, ◌≤◌, ◌^◌, OnOk, OnErr, IsErrOf, Contains, length};
ghost use Rattle.xf_text.specs.Outside.{Rose};
ghost use Rattle.xs_model.specs.Accepted.{IsAccepted};
ghost use Rattle.xs_model.specs.Names.{words};
ghost use Rattle.xs_model.specs.Spans.{spans_of};
ghost use Rattle.xs_model.specs.declared.instance.Constraint.TheVariants.{Intension};
ghost use Rattle.lo_base.specs.Item.{made};
ghost use Rattle.lo_terms.specs.Lowering.{low_intension};

use crate::expression::lower_intension;
use lo_base::{Emit, EmitStop};
use std::alloc::Global;
use xs_model::{Expr, Instance, spans};

/// Appends what states the expression of an intension of an accepted instance to an object that was made with the
/// instance's variables and has at most 2^60 variables. On an `Err` it began that.
pub fn lower<E: Emit>(alloc: Global, e: &Expr, inst: &Instance, out: &mut E) -> Result<(), EmitStop>
    requires accepted { IsAccepted inst.now }
    requires member { Contains inst.now.constraints (Intension e.now) }
    requires named { E.named out.old ≡ length (words inst.now.decls) }
    requires room { E.count out.old ≤ 2 ^ 60 }
    ensures ok { OnOk result (E.grew out.old out.new (low_intension (spans_of inst.now.decls) (E.count out.old) e.now)) }
    ensures count { OnOk result (E.count out.new ≡ E.count out.old + made (low_intension (spans_of inst.now.decls) (E.count out.old) e.now)) }
    ensures stopped { OnErr result (E.began out.old out.new (low_intension (spans_of inst.now.decls) (E.count out.old) e.now)) }
    ensures cause { IsErrOf result EmitStop.Failed → Rose (E.faults out.old) (E.faults out.new) }
{
    let bounds = spans(alloc, inst.decls.as_slice())?;
    lower_intension(alloc, e, bounds.as_slice(), out)
}
