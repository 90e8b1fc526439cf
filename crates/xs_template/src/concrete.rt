//! Constraints after expansion.

ghost use Rattle.std.specs.Prelude.{◌≡◌, ◌++◌, map, IfOk, OnOk};
ghost use Rattle.xs_var.specs.Elements.{children_of};
ghost use Rattle.xs_template.specs.Concrete.{made_of, own_part, pair_of, pairs_of, part_of, unchanged};

use std::alloc::Global;
use xf_markup::{Attr, Node, Piece};
use xf_num::{NoMemory, Row, Text};
use xs_fields::is_blank;
use xs_model::{Concrete, Pair, Pairs, Part, Parts};
use xs_var::text_of;

fn pair_of(alloc: Global, attr: &Attr) -> Result<Pair, NoMemory>
    ensures { IfOk result (λ pair. pair ≡ pair_of attr.now) }
{
    let name = attr.name.copy(alloc)?;
    let value = attr.value.copy(alloc)?;
    Ok(Pair { name, value })
}

/// The attributes of an element.
pub(crate) fn pairs_of(alloc: Global, attrs: &[Attr]) -> Result<Pairs, NoMemory>
    ensures { IfOk result (λ pairs. pairs ≡ pairs_of attrs.now) }
{
    let mut pairs = Row::new(alloc);
    for attr in attrs {
        let pair = pair_of(alloc, attr)?;
        pairs.push(pair)?;
    }
    Ok(pairs)
}

/// The own text of a constraint, as its first part where it is not blank.
pub(crate) fn own_part(alloc: Global, text: Text) -> Result<Parts, NoMemory>
    ensures { IfOk result (λ parts. parts ≡ own_part text) }
{
    let mut parts = Row::new(alloc);
    if is_blank(text.as_slice()) {
        return Ok(parts);
    }
    let name = Row::new(alloc);
    let attrs = Row::new(alloc);
    parts.push(Part { name, attrs, text })?;
    Ok(parts)
}

/// A child as it is.
fn part_of(alloc: Global, child: &Node) -> Result<Part, NoMemory>
    ensures { IfOk result (λ part. part ≡ part_of unchanged child.now) }
{
    let name = child.name.copy(alloc)?;
    let attrs = pairs_of(alloc, child.attrs.as_slice())?;
    let text = text_of(alloc, child)?;
    Ok(Part { name, attrs, text })
}

/// Appends the children as they are.
fn push_parts(alloc: Global, pieces: &[Piece], parts: &mut Parts) -> Result<(), NoMemory>
    ensures { OnOk result (parts.new ≡ parts.old ++ map (part_of unchanged) (children_of pieces.now)) }
{
    for piece in pieces {
        if let Piece::Inner(child) = piece {
            let part = part_of(alloc, child)?;
            parts.push(part)?;
        }
    }
    Ok(())
}

/// The constraint that an element stands for as it is.
pub fn concrete_of(alloc: Global, node: &Node) -> Result<Concrete, NoMemory>
    ensures { IfOk result (λ made. made ≡ made_of unchanged node.now.place node.now) }
{
    let name = node.name.copy(alloc)?;
    let attrs = pairs_of(alloc, node.attrs.as_slice())?;
    let text = text_of(alloc, node)?;
    let mut parts = own_part(alloc, text)?;
    push_parts(alloc, node.pieces.as_slice(), &mut parts)?;
    Ok(Concrete {
        name,
        attrs,
        parts,
        place: node.place,
    })
}
