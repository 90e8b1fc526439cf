//! How many entries tuples have.

ghost use Rattle.std.specs.Prelude.{◌≡◌, ◌++◌, nat_eq, length};
ghost use Rattle.std.specs.List.{list_all};
ghost use Rattle.xs_boxes.specs.Boxes.{are_even, first_in, widths_of};
ghost use Rattle.xs_boxes.specs.Tuples.{width_of};
ghost use Rattle.xs_fields.specs.Conditions.{first_missed};
ghost use Rattle.xs_fields.specs.Words.{is_byte, parts};
ghost use Rattle.xs_tables.specs.Groups.{spelt_meets};

use xs_fields::{Condition, cut};
use xs_tables::{inner, next_group};

/// How many words stand between commas.
pub(crate) fn count_parts(inner: &[u8]) -> usize
    ensures { result ≡ length (parts (is_byte 44) inner.now) }
{
    let mut count = 0;
    let mut rest = Some(inner);
    while let Some(bytes) = rest {
        let (_, more) = cut(bytes, b',');
        count += 1;
        rest = more;
    }
    count
}

// How many entries a tuple has.
fn width_of(group: &[u8]) -> usize
    ensures { result ≡ width_of group.now }
{
    match inner(group) {
        Some(inner) => count_parts(inner),
        None => 0,
    }
}

// How many entries the first tuple of a text has.
fn first_width(text: &[u8]) -> Option<usize>
    ensures { result ≡ first_in (widths_of text.now) }
{
    match next_group(text) {
        Some((group, _)) => Some(width_of(group)),
        None => None,
    }
}

// Whether each tuple of a text has so many entries.
fn are_wide(text: &[u8], width: usize) -> bool
    ensures { result ≡ list_all (nat_eq width) (widths_of text.now) }
{
    let mut rest = text;
    while let Some((group, more)) = next_group(rest) {
        if width_of(group) != width {
            return false;
        }
        rest = more;
    }
    true
}

// Whether all tuples of two texts are equally long.
fn are_even(first: &[u8], second: &[u8]) -> bool
    ensures { result ≡ are_even (widths_of first.now ++ widths_of second.now) }
{
    match first_width(first) {
        Some(width) => are_wide(first, width) && are_wide(second, width),
        None => match first_width(second) {
            Some(width) => are_wide(second, width),
            None => true,
        },
    }
}

/// `Spelling` exactly where two tuples of two texts are not equally long.
pub(crate) fn judge_widths(first: &[u8], second: &[u8]) -> Option<Condition>
    ensures { result ≡ first_missed (spelt_meets (are_even (widths_of first.now ++ widths_of second.now))) }
{
    if are_even(first, second) {
        None
    } else {
        Some(Condition::Spelling)
    }
}
