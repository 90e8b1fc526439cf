//! An automaton or a diagram.

ghost use Rattle.std.specs.Prelude.{◌≡◌, ◌+◌, ◌≤◌, ◌<◌, ◌^◌, true, OnOk, OnErr, IsErrOf};
ghost use Rattle.xf_text.specs.Outside.{Rose};
ghost use Rattle.xs_model.specs.Accepted.{items_of};
ghost use Rattle.lo_base.specs.Item.{made};
ghost use Rattle.lo_paths.specs.Form.{is_path, low_path};

use crate::path::{lower_mdd, lower_regular};
use lo_base::{Emit, EmitStop};
use std::alloc::Global;
use xs_model::Constraint;

/// Appends what an automaton or a diagram is lowered to. It has fewer than 2^30 items, and there are at most 2^60 variables
/// before. On an `Err` it began that.
pub fn lower_path<E: Emit>(alloc: Global, c: &Constraint, out: &mut E) -> Result<(), EmitStop>
    requires form { is_path c.now ≡ true }
    requires few { items_of c.now < 2 ^ 30 }
    requires room { E.count out.old ≤ 2 ^ 60 }
    ensures ok { OnOk result (E.grew out.old out.new (low_path (E.count out.old) c.now)) }
    ensures count { OnOk result (E.count out.new ≡ E.count out.old + made (low_path (E.count out.old) c.now)) }
    ensures stopped { OnErr result (E.began out.old out.new (low_path (E.count out.old) c.now)) }
    ensures cause { IsErrOf result EmitStop.Failed → Rose (E.faults out.old) (E.faults out.new) }
{
    match c {
        Constraint::Regular {
            list,
            edges,
            start,
            finals,
        } => lower_regular(
            alloc,
            list.as_slice(),
            edges.as_slice(),
            *start,
            finals.as_slice(),
            out,
        ),
        Constraint::Mdd {
            list,
            edges,
            root,
            leaf,
        } => lower_mdd(alloc, list.as_slice(), edges.as_slice(), *root, *leaf, out),
        // Any other constraint is neither.
        _ => unreachable!(),
    }
}
