//! The parts of a `circuit`.

ghost use Rattle.std.specs.Prelude.{◌≡◌, length};
ghost use Rattle.std.specs.Option.{option_map};
ghost use Rattle.xs_circuits.specs.Circuit.{are_children, are_parts, children_in, is_own, list_text, size_text, start_text, text_of};

use xs_model::Part;
use xs_parts::{or_else, part_in, value_among};

// The text of the first part with this name.
fn text_of<'a>(parts: &'a [Part], name: &[u8]) -> Option<&'a [u8]>
    ensures { option_map (λ x. x.now) result ≡ text_of name.now parts.now }
{
    match part_in(parts, name) {
        Some(part) => Some(part.text.as_slice()),
        None => None,
    }
}

/// The text of the list: of its child, or else the own text.
pub(crate) fn list_text(parts: &[Part]) -> &[u8]
    ensures { result.now ≡ list_text parts.now }
{
    or_else(text_of(parts, b"list"), or_else(text_of(parts, b""), b""))
}

/// The start, where the list is a child that has one.
pub(crate) fn start_text(parts: &[Part]) -> Option<&[u8]>
    ensures { option_map (λ x. x.now) result ≡ start_text parts.now }
{
    match part_in(parts, b"list") {
        Some(list) => value_among(list.attrs.as_slice(), b"startIndex"),
        None => None,
    }
}

/// The text of the size, where there is one.
pub(crate) fn size_text(parts: &[Part]) -> Option<&[u8]>
    ensures { option_map (λ x. x.now) result ≡ size_text parts.now }
{
    text_of(parts, b"size")
}

// Whether there is no part but the own text.
fn is_own(parts: &[Part]) -> bool
    ensures { result ≡ is_own parts.now }
{
    match parts {
        [] => true,
        [part] => part.name.as_slice() == b"".as_slice(),
        _ => false,
    }
}

// How many parts there are where the list is a child.
fn children_in(size: Option<&[u8]>) -> usize
    ensures { result ≡ children_in (option_map (λ x. x.now) size.entry) }
{
    match size {
        None => 1,
        Some(_) => 2,
    }
}

// Whether the parts are one `list` and at most one `size`.
fn are_children(parts: &[Part]) -> bool
    ensures { result ≡ are_children parts.now }
{
    text_of(parts, b"list").is_some() && parts.len() == children_in(size_text(parts))
}

/// Whether the parts are the own text alone, or a `list` and at most a `size`.
pub(crate) fn are_parts(parts: &[Part]) -> bool
    ensures { result ≡ are_parts parts.now }
{
    is_own(parts) || are_children(parts)
}
