//! The attributes, the children and the text of an array.

ghost use Rattle.std.specs.Prelude.{◌≡◌, IfOk, codes};
ghost use Rattle.std.specs.List.{list_all};
ghost use Rattle.std.specs.Option.{option_map};
ghost use Rattle.xs_fields.specs.Conditions.{first_missed};
ghost use Rattle.xs_var.specs.Elements.{children_of, text_or_none, value_in};
ghost use Rattle.xs_array.specs.ArrayUnit.{array_fields_meet, is_array_known, size_meets};
ghost use Rattle.xs_array.specs.DomainChild.{is_domain_known};
ghost use Rattle.xs_array.specs.Reading.{content_within, spelt_sizes};

use crate::child::judge_domains;
use std::alloc::Global;
use xf_markup::{Node, Piece};
use xf_num::{Ints, NoMemory, Row, Text};
use xf_text::FieldStop;
use xs_fields::{Condition, earlier, is_blank, judge_sizes, read_sizes};
use xs_var::{
    are_children_known, attribute, has_no_child, has_only, is_integer_type, judge_as, judge_id,
    judge_known, judge_spelling, text_of,
};

// Whether the attributes of a `domain` child are known, and it has no child.
fn is_domain_known(node: &Node) -> bool
    ensures { result ≡ is_domain_known node.now }
{
    has_only(node.attrs.as_slice(), &[b"for", b"class", b"note"])
        && has_no_child(node.pieces.as_slice())
}

// Whether those of all `domain` children are.
fn are_domains_known(pieces: &[Piece]) -> bool
    ensures { result ≡ list_all is_domain_known (children_of pieces.now) }
{
    for piece in pieces {
        if let Piece::Inner(node) = piece {
            if !is_domain_known(node) {
                return false;
            }
        }
    }
    true
}

// Whether the attributes and the children of an array are known.
fn is_array_known(node: &Node) -> bool
    ensures { result ≡ is_array_known node.now }
{
    let attrs = node.attrs.as_slice();
    let pieces = node.pieces.as_slice();
    has_only(attrs, &[b"id", b"type", b"as", b"size", b"class", b"note"])
        && is_integer_type(attribute(attrs, b"type"))
        && are_children_known(&[b"domain"], pieces)
        && are_domains_known(pieces)
}

// What sizes that have to be there miss first.
fn judge_size(value: Option<&[u8]>) -> Option<Condition>
    ensures { result ≡ first_missed (size_meets (option_map (λ x. x.now) value.entry)) }
{
    match value {
        Some(text) => judge_sizes(text),
        None => judge_spelling(false),
    }
}

// The sizes that a value spells; none where it is misspelt.
fn read_size(alloc: Global, value: Option<&[u8]>) -> Result<Ints, NoMemory>
    ensures { IfOk result (λ sizes. sizes ≡ spelt_sizes (option_map (λ x. x.now) value.entry)) }
{
    match value {
        Some(text) => match read_sizes(alloc, text) {
            Ok(sizes) => Ok(sizes),
            Err(FieldStop::Refused(_)) => Ok(Row::new(alloc)),
            Err(FieldStop::Memory) => Err(NoMemory),
        },
        None => Ok(Row::new(alloc)),
    }
}

/// The sizes that an array states; none where they are misspelt.
pub fn stated_sizes(alloc: Global, node: &Node) -> Result<Ints, NoMemory>
    ensures { IfOk result (λ sizes. sizes ≡ spelt_sizes (value_in (codes "size") node.now.attrs)) }
{
    read_size(alloc, attribute(node.attrs.as_slice(), b"size"))
}

/// The name of an array; the empty text where it has none.
pub fn array_name(alloc: Global, node: &Node) -> Result<Text, NoMemory>
    ensures { IfOk result (λ name. name ≡ text_or_none (value_in (codes "id") node.now.attrs)) }
{
    let mut name = Row::new(alloc);
    if let Some(id) = attribute(node.attrs.as_slice(), b"id") {
        name.extend(id)?;
    }
    Ok(name)
}

// What the content of an array of this name and these sizes misses first.
fn judge_content(
    alloc: Global,
    like: Option<&[u8]>,
    name: &[u8],
    sizes: &[i128],
    node: &Node,
) -> Result<Option<Condition>, NoMemory>
    ensures { IfOk result (λ missed. missed ≡ first_missed (content_within (option_map (λ x. x.now) like.entry) name.now sizes.now node.now)) }
{
    let text = text_of(alloc, node)?;
    let pieces = node.pieces.as_slice();
    match like {
        Some(_) => Ok(judge_spelling(is_blank(text.as_slice()) && has_no_child(pieces))),
        None => judge_domains(alloc, name, sizes, pieces, text.as_slice()),
    }
}

/// What the element of an array misses first by itself. The sizes are those that it states, none where they are
/// misspelt.
pub fn judge_array_fields(
    alloc: Global,
    node: &Node,
    sizes: &[i128],
) -> Result<Option<Condition>, NoMemory>
    requires { sizes.now ≡ spelt_sizes (value_in (codes "size") node.now.attrs) }
    ensures { IfOk result (λ missed. missed ≡ first_missed (array_fields_meet node.now)) }
{
    let attrs = node.attrs.as_slice();
    let like = attribute(attrs, b"as");
    let name = array_name(alloc, node)?;
    let content = judge_content(alloc, like, name.as_slice(), sizes, node)?;
    let sized = earlier(judge_size(attribute(attrs, b"size")), content);
    let taken = earlier(judge_as(like), sized);
    let named = earlier(judge_id(attribute(attrs, b"id")), taken);
    Ok(earlier(judge_known(is_array_known(node)), named))
}
