//! All constraints of an instance.

ghost use Rattle.std.specs.Prelude.{◌≡◌, length, IfOk, OnOk, OnErr, IsErrOf};
ghost use Rattle.xf_text.specs.Outside.{Rose};
ghost use Rattle.xs_model.specs.Names.{words};
ghost use Rattle.xs_model.specs.Accepted.{IsAccepted};
ghost use Rattle.xf_carry.specs.Lowered.{low_items};

use fz_model::Goal;
use lo_base::{Emit, EmitStop};
use lo_instance::lower_constraint;
use std::alloc::Global;
use xs_model::{Instance, spans};

/// Appends the variables and calls that an accepted instance that is lowered so far is lowered to, to an object that has exactly the
/// instance's variables, and answers the model's goal. On an `Err` it began them.
pub fn lower_all<E: Emit>(alloc: Global, inst: &Instance, out: &mut E) -> Result<Goal, EmitStop>
    requires accepted { IsAccepted inst.now }
    requires named { E.named out.old ≡ length (words inst.now.decls) }
    requires count { E.count out.old ≡ length (words inst.now.decls) }
    ensures goal { IfOk result (λ goal. goal ≡ Goal.Satisfy) }
    ensures ok { OnOk result (E.grew out.old out.new (low_items inst.now)) }
    ensures stopped { OnErr result (E.began out.old out.new (low_items inst.now)) }
    ensures cause { IsErrOf result EmitStop.Failed → Rose (E.faults out.old) (E.faults out.new) }
{
    let bounds = spans(alloc, inst.decls.as_slice())?;
    for constraint in inst.constraints.as_slice() {
        lower_constraint(alloc, constraint, bounds.as_slice(), out)?;
    }
    Ok(Goal::Satisfy)
}
