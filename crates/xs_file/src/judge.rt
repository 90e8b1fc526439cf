//! What the elements of an instance miss by themselves.

ghost use Rattle.std.specs.Prelude.{◌≡◌, IfOk, length, nat_le};
ghost use Rattle.std.specs.Option.{option_map};
ghost use Rattle.xs_fields.specs.Conditions.{first_missed};
ghost use Rattle.xs_file.specs.Sections.{are_distinct, are_sections, instance_meets, is_instance_known, is_problem_type, names_of, objectives_meet};
ghost use Rattle.xs_var.specs.Elements.{children_of, is_one_of};

use std::alloc::Global;
use xf_markup::{Node, Piece};
use xf_num::NoMemory;
use xs_fields::{Condition, earlier, is_blank};
use xs_units::next_child;
use xs_var::{
    are_children_known, attribute, has_only, is_one_of, judge_known, judge_spelling, text_of,
};

// Whether the type is `CSP` or `COP`, or there is none.
fn is_problem_type(value: Option<&[u8]>) -> bool
    ensures { result ≡ is_problem_type (option_map (λ x. x.now) value.entry) }
{
    match value {
        Some(text) => is_one_of(&[b"CSP", b"COP"], text),
        None => true,
    }
}

// Whether a child has this name.
fn has_child_named(pieces: &[Piece], name: &[u8]) -> bool
    ensures { result ≡ is_one_of (names_of (children_of pieces.now)) name.now }
{
    for piece in pieces {
        if let Piece::Inner(node) = piece {
            if name == node.name.as_slice() {
                return true;
            }
        }
    }
    false
}

// Whether no two children have one name. At most as many children as there are names are looked at twice.
fn are_distinct(pieces: &[Piece]) -> bool
    ensures { result ≡ are_distinct (names_of (children_of pieces.now)) }
{
    let mut rest = pieces;
    while let Some((node, more)) = next_child(rest) {
        if has_child_named(more, node.name.as_slice()) {
            return false;
        }
        rest = more;
    }
    true
}

// Whether `variables` is the first child, and no child comes twice.
fn are_sections(pieces: &[Piece]) -> bool
    ensures { result ≡ are_sections (names_of (children_of pieces.now)) }
{
    match next_child(pieces) {
        Some((first, _)) => first.name.as_slice() == b"variables".as_slice()
            && are_distinct(pieces),
        None => false,
    }
}

// Whether there is at most one child.
fn is_at_most_one(pieces: &[Piece]) -> bool
    ensures { result ≡ nat_le (length (children_of pieces.now)) 1 }
{
    match next_child(pieces) {
        Some((_, rest)) => next_child(rest).is_none(),
        None => true,
    }
}

// Whether the names, the attributes and the children of the root are known.
fn is_instance_known(node: &Node) -> bool
    ensures { result ≡ is_instance_known node.now }
{
    let attrs = node.attrs.as_slice();
    node.name.as_slice() == b"instance".as_slice()
        && has_only(attrs, &[b"format", b"type", b"class", b"note"])
        && is_problem_type(attribute(attrs, b"type"))
        && are_children_known(
            &[b"variables", b"constraints", b"objectives", b"annotations"],
            node.pieces.as_slice(),
        )
}

/// What the root misses first by itself. Its children are compared with each other only where their names are known.
pub fn judge_instance(alloc: Global, node: &Node) -> Result<Option<Condition>, NoMemory>
    ensures { IfOk result (λ missed. missed ≡ first_missed (instance_meets node.now)) }
{
    if !is_instance_known(node) {
        return Ok(Some(Condition::Known));
    }
    let text = text_of(alloc, node)?;
    Ok(judge_spelling(is_blank(text.as_slice()) && are_sections(node.pieces.as_slice())))
}

/// What `objectives` misses first by itself.
pub fn judge_objectives(alloc: Global, node: &Node) -> Result<Option<Condition>, NoMemory>
    ensures { IfOk result (λ missed. missed ≡ first_missed (objectives_meet node.now)) }
{
    let text = text_of(alloc, node)?;
    let known = has_only(node.attrs.as_slice(), &[b"class", b"note"]);
    Ok(earlier(
        judge_known(known),
        judge_spelling(is_blank(text.as_slice()) && is_at_most_one(node.pieces.as_slice())),
    ))
}
