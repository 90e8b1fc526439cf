//! `extension` as a whole.

ghost use Rattle.std.specs.Prelude.{◌≡◌, ◌≤◌, None, Some, IfOk, MatchOption};
ghost use Rattle.std.specs.Option.{option_map};
ghost use Rattle.xs_fields.specs.Conditions.{IsOrMemory, answer};
ghost use Rattle.xs_model.specs.Accepted.{IsFormed, items_of};
ghost use Rattle.xs_model.specs.Outline.{variables_in};
ghost use Rattle.xs_tables.specs.Extension.{both_of, extension_meets, extension_of, parts_denote, parts_meet, text_in, two_texts};

use crate::tables::read_table;
use std::alloc::Global;
use xf_text::{FieldStop, Kind};
use xs_model::{Concrete, Constraint, Names, Part};
use xs_parts::part_in;

/// The text of the first child with this name.
pub fn text_in<'a>(parts: &'a [Part], name: &[u8]) -> Option<&'a [u8]>
    ensures { option_map (λ x. x.now) result ≡ text_in name.now parts.now }
{
    match part_in(parts, name) {
        Some(part) => Some(part.text.as_slice()),
        None => None,
    }
}

fn both_of<'a>(first: Option<&'a [u8]>, second: Option<&'a [u8]>) -> Option<(&'a [u8], &'a [u8])>
    ensures { MatchOption result (both_of (option_map (λ x. x.now) first.entry) (option_map (λ x. x.now) second.entry) ≡ None) (λ x. both_of (option_map (λ x. x.now) first.entry) (option_map (λ x. x.now) second.entry) ≡ Some (x.0.now, x.1.now)) }
{
    match (first, second) {
        (Some(first), Some(second)) => Some((first, second)),
        _ => None,
    }
}

/// The texts of two children with these names, which differ, where nothing else stands beside them.
pub fn two_texts<'a>(parts: &'a [Part], first: &[u8], second: &[u8]) -> Option<(&'a [u8], &'a [u8])>
    ensures { MatchOption result (two_texts first.now second.now parts.now ≡ None) (λ x. two_texts first.now second.now parts.now ≡ Some (x.0.now, x.1.now)) }
{
    if parts.len() == 2 {
        both_of(text_in(parts, first), text_in(parts, second))
    } else {
        None
    }
}

// The constraint, or the kind of fault of the first condition that is missed.
fn read_texts(
    alloc: Global,
    parts: &[Part],
    names: &Names,
    left: u64,
) -> Result<Constraint, FieldStop>
    ensures { IsOrMemory result (answer (parts_meet names.now left parts.now) (parts_denote names.now parts.now)) }
{
    match two_texts(parts, b"list", b"supports") {
        Some((list, text)) => read_table(alloc, list, text, true, names, left),
        None => match two_texts(parts, b"list", b"conflicts") {
            Some((list, text)) => read_table(alloc, list, text, false, names, left),
            None => Err(FieldStop::Refused(Kind::Shape)),
        },
    }
}

/// The constraint of an `extension`, a `list` and `supports` or `conflicts`, where at most `left` items may still come:
/// one for each variable and each entry, two for each integer or range of a table over one variable. Else the kind of fault
/// of the first condition that it misses, or want of memory.
pub fn read_extension(
    alloc: Global,
    c: &Concrete,
    names: &Names,
    left: u64,
) -> Result<Constraint, FieldStop>
    ensures value { IsOrMemory result (answer (extension_meets names.now left c.now) (extension_of names.now c.now)) }
    ensures formed { IfOk result (λ x. IsFormed (variables_in names.now) x) }
    ensures few { IfOk result (λ x. items_of x ≤ left) }
{
    read_texts(alloc, c.parts.as_slice(), names, left)
}
