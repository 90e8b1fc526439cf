//! Operators of an order, flags and starts.

ghost use Rattle.std.specs.Prelude.{◌≡◌, None, Some};
ghost use Rattle.std.specs.Option.{option_map};
ghost use Rattle.xs_conditions.specs.Flags.{flag_meets, flag_of, judged_false, rel_by, rel_meets, rel_of, start_meets, start_of};
ghost use Rattle.xs_fields.specs.Conditions.{first_missed};
ghost use Rattle.xs_fields.specs.declared.condition.Condition.TheVariants.{Spelling};
ghost use Rattle.xs_model.specs.Sound.{IsSmall};

use crate::spelling::word_in;
use xs_fields::{Condition, Reading, read_integer};
use xs_model::Rel;

/// The operator that a word is.
fn rel_by(word: &[u8]) -> Option<Rel>
    ensures { result ≡ rel_by word.now }
{
    if word == b"lt".as_slice() {
        Some(Rel::Lt)
    } else if word == b"le".as_slice() {
        Some(Rel::Le)
    } else if word == b"ge".as_slice() {
        Some(Rel::Ge)
    } else if word == b"gt".as_slice() {
        Some(Rel::Gt)
    } else {
        None
    }
}

/// What stands for an operator that is not spelt right.
fn no_rel() -> Reading<Rel>
    ensures { result.missed ≡ Some Spelling }
{
    Reading {
        value: Rel::Lt,
        missed: Some(Condition::Spelling),
    }
}

/// The operator of an order that a text is, `lt`, `le`, `ge` or `gt`, and whether it misses `Spelling`.
pub fn scan_rel(text: &[u8]) -> Reading<Rel>
    ensures missed { result.missed ≡ first_missed (rel_meets text.now) }
    ensures value { result.missed ≡ None → result.value ≡ rel_of text.now }
{
    match word_in(text) {
        Some(word) => match rel_by(word) {
            Some(rel) => Reading {
                value: rel,
                missed: None,
            },
            None => no_rel(),
        },
        None => no_rel(),
    }
}

/// The flag that an attribute is, `true` or `false`, or what stands for an absent one; and whether it misses `Known`.
pub fn scan_flag(text: Option<&[u8]>, absent: bool) -> Reading<bool>
    ensures missed { result.missed ≡ first_missed (flag_meets (option_map (λ x. x.now) text.entry)) }
    ensures value { result.value ≡ flag_of absent (option_map (λ x. x.now) text.entry) }
{
    match text {
        None => Reading {
            value: absent,
            missed: None,
        },
        Some(text) => {
            if text == b"true".as_slice() {
                Reading {
                    value: true,
                    missed: None,
                }
            } else {
                Reading {
                    value: false,
                    missed: judge_false(text),
                }
            }
        }
    }
}

/// `Known` where a flag that is not `true` is not `false` either.
fn judge_false(text: &[u8]) -> Option<Condition>
    ensures { result ≡ judged_false text.now }
{
    if text == b"false".as_slice() {
        None
    } else {
        Some(Condition::Known)
    }
}

/// The start that an attribute is, an integer, which is 0 where it is absent; and the first condition that it misses:
/// `Spelling` or `Magnitude`.
pub fn scan_start(text: Option<&[u8]>) -> Reading<i128>
    ensures missed { result.missed ≡ first_missed (start_meets (option_map (λ x. x.now) text.entry)) }
    ensures value { result.missed ≡ None → result.value ≡ start_of (option_map (λ x. x.now) text.entry) }
    ensures formed { IsSmall result.value }
{
    match text {
        None => Reading {
            value: 0,
            missed: None,
        },
        Some(text) => match read_integer(text) {
            Ok(value) => Reading {
                value,
                missed: None,
            },
            Err(condition) => Reading {
                value: 0,
                missed: Some(condition),
            },
        },
    }
}
