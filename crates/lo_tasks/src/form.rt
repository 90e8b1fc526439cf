//! Tasks by their form.

ghost use Rattle.std.specs.Prelude.{◌≡◌, ◌+◌, ◌≤◌, ◌<◌, ◌^◌, true, length, OnOk, OnErr, IsErrOf};
ghost use Rattle.xf_text.specs.Outside.{Rose};
ghost use Rattle.xs_model.specs.Accepted.{IsFormed, IsMeasured, items_of};
ghost use Rattle.lo_base.specs.Item.{made};
ghost use Rattle.lo_tasks.specs.Form.{is_cumulative, low_form};

use crate::cumulative::lower_cumulative;
use lo_base::{Emit, EmitStop};
use std::alloc::Global;
use xf_num::Span;
use xs_model::Constraint;

/// Appends what `cumulative` is lowered to. Variable `i` lies within `spans[i]`, the magnitude of the constraint is at most
/// the greatest, it has fewer than 2^29 items, and there are at most 2^60 variables before. On an `Err` it began that.
pub fn lower_form<E: Emit>(
    alloc: Global,
    c: &Constraint,
    spans: &[Span],
    out: &mut E,
) -> Result<(), EmitStop>
    requires form { is_cumulative c.now ≡ true }
    requires formed { IsFormed (length spans.now) c.now }
    requires measured { IsMeasured spans.now c.now }
    requires few { items_of c.now < 2 ^ 29 }
    requires room { E.count out.old ≤ 2 ^ 60 }
    ensures ok { OnOk result (E.grew out.old out.new (low_form spans.now (E.count out.old) c.now)) }
    ensures count { OnOk result (E.count out.new ≡ E.count out.old + made (low_form spans.now (E.count out.old) c.now)) }
    ensures stopped { OnErr result (E.began out.old out.new (low_form spans.now (E.count out.old) c.now)) }
    ensures cause { IsErrOf result EmitStop.Failed → Rose (E.faults out.old) (E.faults out.new) }
{
    match c {
        Constraint::Cumulative {
            origins,
            lengths,
            heights,
            ends,
            cond,
        } => lower_cumulative(
            alloc,
            origins.as_slice(),
            lengths.as_slice(),
            heights.as_slice(),
            ends,
            cond,
            spans,
            out,
        ),
        // Any other constraint has no tasks.
        _ => unreachable!(),
    }
}
