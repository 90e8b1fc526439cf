//! The parts and the attributes of a constraint by their names.

ghost use Rattle.std.specs.Prelude.{◌≡◌, ◌+◌, ◌≤◌, [], ◌∷◌, length};
ghost use Rattle.std.specs.Option.{option_map};
ghost use Rattle.xs_parts.specs.Parts.{is_single, is_text_part, one_text, or_else, own_text, part_in, parts_named, text_of_one, value_among};

use xs_model::{Pair, Part};

/// The value of the first attribute with this name.
pub fn value_among<'a>(pairs: &'a [Pair], name: &[u8]) -> Option<&'a [u8]>
    ensures { option_map (λ x. x.now) result ≡ value_among pairs.now name.now }
{
    for pair in pairs {
        if pair.name.as_slice() == name {
            return Some(pair.value.as_slice());
        }
    }
    None
}

/// An attribute's value, and this one where it is not there.
pub fn or_else<'a>(value: Option<&'a [u8]>, absent: &'a [u8]) -> &'a [u8]
    ensures { result.now ≡ or_else (option_map (λ x. x.now) value.entry) absent.now }
{
    match value {
        Some(value) => value,
        None => absent,
    }
}

/// The first child with this name.
pub fn part_in<'a>(parts: &'a [Part], name: &[u8]) -> Option<&'a Part>
    ensures { option_map (λ x. x.now) result ≡ part_in name.now parts.now }
{
    for part in parts {
        if part.name.as_slice() == name {
            return Some(part);
        }
    }
    None
}

// How many children have this name.
fn count_named(parts: &[Part], name: &[u8]) -> usize
    ensures value { result ≡ length (parts_named name.now parts.now) }
    ensures within { result ≤ length parts.now }
{
    let mut count = 0;
    for part in parts {
        if part.name.as_slice() == name {
            count += 1;
        }
    }
    count
}

/// Whether no second child has this name.
pub fn is_single(parts: &[Part], name: &[u8]) -> bool
    ensures { result ≡ is_single name.now parts.now }
{
    count_named(parts, name) <= 1
}

fn is_text_part(part: &Part, child: &[u8]) -> bool
    ensures { result ≡ is_text_part child.now part.now }
{
    let name = part.name.as_slice();
    name == b"".as_slice() || name == child
}

/// The one text of a constraint: its own, or that of its one child, which has this name. A constraint without parts has
/// a blank text; None where there is no such text.
pub fn one_text<'a>(parts: &'a [Part], child: &[u8]) -> Option<&'a [u8]>
    ensures { option_map (λ x. x.now) result ≡ one_text child.now parts.now }
{
    match parts {
        [] => Some(&[]),
        [part] => {
            if is_text_part(part, child) {
                Some(part.text.as_slice())
            } else {
                None
            }
        }
        _ => None,
    }
}

fn own_text(parts: &[Part]) -> &[u8]
    ensures { result.now ≡ own_text parts.now }
{
    match parts {
        [part] => {
            if part.name.as_slice() == b"".as_slice() {
                part.text.as_slice()
            } else {
                &[]
            }
        }
        _ => &[],
    }
}

/// The text of the one child with this name, whatever stands beside it, or without such a child the own text where
/// nothing stands beside it; else none.
pub fn text_of_one<'a>(parts: &'a [Part], child: &[u8]) -> &'a [u8]
    ensures { result.now ≡ text_of_one child.now parts.now }
{
    match part_in(parts, child) {
        None => own_text(parts),
        Some(part) => {
            if is_single(parts, child) {
                part.text.as_slice()
            } else {
                &[]
            }
        }
    }
}
