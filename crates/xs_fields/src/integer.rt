ghost use Rattle.std.specs.Prelude.{◌≡◌, ◌≤◌, ◌+◌, true, length, nat_abs, nat_le, int_le, FitsSigned, SomeIff};
ghost use Rattle.std.specs.Int.{w128};
ghost use Rattle.std.specs.Char.{is_ascii_digit};
ghost use Rattle.std.specs.List.{list_all};
ghost use Rattle.std.specs.Str.Parse.{digits_value, signed_digits_value, without_leading_sign};
ghost use Rattle.xs_fields.specs.Conditions.{first_missed, judged, meets};
ghost use Rattle.xs_fields.specs.Integers.{integer_of, is_integer, is_small, number_place, small_value_of};

use crate::condition::Condition;
use crate::words::from;
use xf_num::MAX_MAGNITUDE;
use xf_text::read_int;

/// The bytes behind a sign.
pub fn unsigned(word: &[u8]) -> &[u8]
    ensures { result.now ≡ without_leading_sign word.now }
{
    if !word.is_empty() && (word[0] == b'-' || word[0] == b'+') {
        from(word, 1)
    } else {
        word
    }
}

fn are_digits(bytes: &[u8]) -> bool
    ensures { result ≡ list_all is_ascii_digit bytes.now }
{
    bytes.iter().all(|byte| byte.is_ascii_digit())
}

pub fn is_integer(word: &[u8]) -> bool
    ensures { result ≡ is_integer word.now }
{
    let digits = unsigned(word);
    !digits.is_empty() && are_digits(digits)
}

fn is_small(value: i128) -> bool
    ensures { result ≡ is_small value }
{
    value.unsigned_abs() <= MAX_MAGNITUDE
}

/// Where the number of an integer begins.
fn number_place(word: &[u8]) -> usize
    ensures { result ≡ number_place word.now }
{
    if !word.is_empty() && word[0] == b'+' {
        1
    } else {
        0
    }
}

/// The value of an integer, where it is an i128.
fn wide_value(word: &[u8]) -> Option<i128>
    requires { is_integer word.now ≡ true }
    ensures { SomeIff result (FitsSigned w128 (signed_digits_value 10 word.now)) (signed_digits_value 10 word.now) }
{
    match read_int(word, number_place(word)) {
        Ok((value, _)) => Some(value),
        Err(_) => None,
    }
}

/// The value of an integer, where it is small.
pub fn small_value(word: &[u8]) -> Option<i128>
    requires { is_integer word.now ≡ true }
    ensures { result ≡ small_value_of word.now }
{
    match wide_value(word) {
        Some(value) => { if is_small(value) { Some(value) } else { None } }
        None => None,
    }
}

/// The integer that a word spells, or the first of `Spelling` and `Magnitude` that it misses.
pub fn read_integer(word: &[u8]) -> Result<i128, Condition>
    ensures { result ≡ judged is_small (integer_of word.now) }
{
    if !is_integer(word) {
        return Err(Condition::Spelling);
    }
    match small_value(word) {
        Some(value) => Ok(value),
        None => Err(Condition::Magnitude),
    }
}

/// The first of `Spelling` and `Magnitude` that the text of one integer misses.
pub fn judge_integer(text: &[u8]) -> Option<Condition>
    ensures { result ≡ first_missed (meets is_small (integer_of text.now)) }
{
    read_integer(text).err()
}
