//! What is known of an objective.

ghost use Rattle.std.specs.Prelude.{◌≡◌};
ghost use Rattle.std.specs.List.{list_all};
ghost use Rattle.xs_objectives.specs.Known.{is_child_known, is_objective_known};
ghost use Rattle.xs_var.specs.Elements.{children_of};

use crate::measure::{Measure, is_child_of, measure_of};
use xf_markup::{Node, Piece};
use xs_var::{attribute, has_no_child, has_only, is_one_of};

fn is_child_known(measure: Measure, child: &Node) -> bool
    ensures { result ≡ is_child_known measure child.now }
{
    is_child_of(measure, child.name.as_slice())
        && (has_only(child.attrs.as_slice(), &[b"class", b"note"])
            && has_no_child(child.pieces.as_slice()))
}

fn are_children_known(measure: Measure, pieces: &[Piece]) -> bool
    ensures { result ≡ list_all (is_child_known measure) (children_of pieces.now) }
{
    for piece in pieces {
        if let Piece::Inner(child) = piece {
            if !is_child_known(measure, child) {
                return false;
            }
        }
    }
    true
}

/// Whether an element is an objective of a type that is known, with attributes and children that are.
pub fn is_objective_known(node: &Node) -> bool
    ensures { result ≡ is_objective_known node.now }
{
    let attrs = node.attrs.as_slice();
    if !is_one_of(&[b"minimize", b"maximize"], node.name.as_slice())
        || !has_only(attrs, &[b"id", b"type", b"class", b"note"])
    {
        return false;
    }
    match measure_of(attribute(attrs, b"type")) {
        Some(measure) => are_children_known(measure, node.pieces.as_slice()),
        None => false,
    }
}
