//! The attributes and the text of an element.

ghost use Rattle.std.specs.Prelude.{◌≡◌, IfOk, IfSome, map};
ghost use Rattle.std.specs.Option.{option_map};
ghost use Rattle.xs_var.specs.Elements.{has_only, is_one_of, text_in, value_in};

use std::alloc::Global;
use xf_markup::{Attr, Node, Piece};
use xf_num::{NoMemory, Row, Text};

/// The value of the attribute with this name; of two, the first.
pub fn attribute<'a>(attrs: &'a [Attr], name: &[u8]) -> Option<&'a [u8]>
    ensures { option_map (λ value. value.now) result ≡ value_in name.now attrs.now }
{
    for attr in attrs {
        if attr.name.as_slice() == name {
            return Some(attr.value.as_slice());
        }
    }
    None
}

/// Whether the name of each attribute is one of these.
pub fn has_only(attrs: &[Attr], names: &[&[u8]]) -> bool
    ensures { result ≡ has_only (map (λ name. name.now) names.now) attrs.now }
{
    for attr in attrs {
        if !is_one_of(names, attr.name.as_slice()) {
            return false;
        }
    }
    true
}

/// Whether a name is one of a list.
pub fn is_one_of(names: &[&[u8]], name: &[u8]) -> bool
    ensures { result ≡ is_one_of (map (λ known. known.now) names.now) name.now }
{
    for known in names {
        if name == *known {
            return true;
        }
    }
    false
}

/// The text of an element that is no more than one piece. None says nothing.
pub fn one_text(pieces: &[Piece]) -> Option<&[u8]>
    ensures { IfSome result (λ text. text.now ≡ text_in pieces.now) }
{
    match pieces {
        [] => Some(&[]),
        [Piece::Words(words)] => Some(words.as_slice()),
        _ => None,
    }
}

/// The text of an element: its pieces of text joined.
pub fn text_of(alloc: Global, node: &Node) -> Result<Text, NoMemory>
    ensures { IfOk result (λ text. text ≡ text_in node.now.pieces) }
{
    let mut text = Row::new(alloc);
    for piece in node.pieces.as_slice() {
        match piece {
            Piece::Words(words) => text.extend(words.as_slice())?,
            Piece::Inner(_) => {}
        }
    }
    Ok(text)
}
