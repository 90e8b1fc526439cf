//! Ranges `a..b`.

ghost use Rattle.std.specs.Prelude.{◌≡◌, true, Some, IsTrue};
ghost use Rattle.xs_conditions.specs.Ranges.{range_from, range_in};
ghost use Rattle.xs_fields.specs.Conditions.{judged};
ghost use Rattle.xs_fields.specs.Integers.{integer_of, is_small};
ghost use Rattle.xs_fields.specs.Lists.{has_small_ends, range_of};

use crate::spelling::halves;
use xf_num::Span;
use xs_fields::{Condition, at_most, is_integer, small_value};

/// The range between two values.
fn ordered(low: i128, high: i128) -> Result<Span, Condition>
    requires low_small { is_small low ≡ true }
    requires high_small { is_small high ≡ true }
    ensures { result ≡ judged has_small_ends (range_of (Some low) (Some high)) }
{
    match Span::new(low, high) {
        Some(span) => Ok(span),
        None => Err(Condition::Spelling),
    }
}

/// The range between two integers.
fn range(low: &[u8], high: &[u8]) -> Result<Span, Condition>
    ensures { result ≡ judged has_small_ends (range_of (integer_of low.now) (integer_of high.now)) }
{
    if !is_integer(low) || !is_integer(high) || !at_most(low, high) {
        return Err(Condition::Spelling);
    }
    match (small_value(low), small_value(high)) {
        (Some(low), Some(high)) => ordered(low, high),
        _ => Err(Condition::Magnitude),
    }
}

/// The range from a low end to what stands behind a further dot.
fn range_from(low: &[u8], behind: &[u8]) -> Result<Span, Condition>
    ensures { result ≡ judged has_small_ends (range_from low.now behind.now) }
{
    match behind.split_first() {
        Some((first, high)) => {
            if *first == b'.' {
                range(low, high)
            } else {
                Err(Condition::Spelling)
            }
        }
        None => Err(Condition::Spelling),
    }
}

/// The range that a word spells, or the first of `Spelling` and `Magnitude` that it misses.
pub(crate) fn read_range(word: &[u8]) -> Result<Span, Condition>
    ensures { result ≡ judged has_small_ends (range_in word.now) }
{
    match halves(word, b'.') {
        Some((low, behind)) => range_from(low, behind),
        None => Err(Condition::Spelling),
    }
}
