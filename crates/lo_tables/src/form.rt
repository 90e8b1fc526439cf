//! A table of either form.

ghost use Rattle.std.specs.Prelude.{◌≡◌, ◌+◌, ◌≤◌, ◌<◌, ◌^◌, true, OnOk, OnErr, IsErrOf};
ghost use Rattle.xf_text.specs.Outside.{Rose};
ghost use Rattle.xs_model.specs.Accepted.{items_of};
ghost use Rattle.xs_model.specs.Fitting.{IsFitting};
ghost use Rattle.lo_base.specs.Item.{made};
ghost use Rattle.lo_tables.specs.Form.{is_table, low_table};

use crate::table::lower_extension;
use crate::unary::lower_unary;
use lo_base::{Emit, EmitStop};
use std::alloc::Global;
use xs_model::Constraint;

/// Appends what a table is lowered to. It has fewer than 2^40 items, and there are at most 2^60 variables before. On an
/// `Err` it began that.
pub fn lower_table<E: Emit>(alloc: Global, c: &Constraint, out: &mut E) -> Result<(), EmitStop>
    requires form { is_table c.now ≡ true }
    requires fitting { IsFitting c.now }
    requires few { items_of c.now < 2 ^ 40 }
    requires room { E.count out.old ≤ 2 ^ 60 }
    ensures ok { OnOk result (E.grew out.old out.new (low_table (E.count out.old) c.now)) }
    ensures count { OnOk result (E.count out.new ≡ E.count out.old + made (low_table (E.count out.old) c.now)) }
    ensures stopped { OnErr result (E.began out.old out.new (low_table (E.count out.old) c.now)) }
    ensures cause { IsErrOf result EmitStop.Failed → Rose (E.faults out.old) (E.faults out.new) }
{
    match c {
        Constraint::Extension {
            list,
            tuples,
            positive,
        } => lower_extension(alloc, list.as_slice(), tuples.as_slice(), *positive, out),
        Constraint::Unary {
            var,
            spans,
            positive,
        } => lower_unary(alloc, *var, spans.as_slice(), *positive, out),
        // Any other constraint is no table.
        _ => unreachable!(),
    }
}
