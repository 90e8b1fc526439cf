//! The unit of `variables` itself.

ghost use Rattle.std.specs.Prelude.{◌≡◌, IfOk, map};
ghost use Rattle.xs_fields.specs.Conditions.{first_missed};
ghost use Rattle.xs_var.specs.Container.{are_children_known, variables_meet};

use crate::element::{has_only, is_one_of, text_of};
use crate::var::{judge_known, judge_spelling};
use std::alloc::Global;
use xf_markup::{Node, Piece};
use xf_num::NoMemory;
use xs_fields::{Condition, earlier, is_blank};

/// Whether the name of each child is one of these.
pub fn are_children_known(names: &[&[u8]], pieces: &[Piece]) -> bool
    ensures { result ≡ are_children_known (map (λ name. name.now) names.now) pieces.now }
{
    for piece in pieces {
        if let Piece::Inner(node) = piece {
            if !is_one_of(names, node.name.as_slice()) {
                return false;
            }
        }
    }
    true
}

/// What `variables` misses first by itself.
pub fn judge_variables(alloc: Global, node: &Node) -> Result<Option<Condition>, NoMemory>
    ensures { IfOk result (λ missed. missed ≡ first_missed (variables_meet node.now)) }
{
    let text = text_of(alloc, node)?;
    let known = has_only(node.attrs.as_slice(), &[b"class", b"note"])
        && are_children_known(&[b"var", b"array"], node.pieces.as_slice());
    Ok(earlier(
        judge_known(known),
        judge_spelling(is_blank(text.as_slice())),
    ))
}
