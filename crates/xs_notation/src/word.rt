ghost use Rattle.std.specs.Prelude.{◌≡◌, ◌≤◌, drop, length, position};
ghost use Rattle.xs_fields.specs.Conditions.{all_meet, first_missed};
ghost use Rattle.xs_fields.specs.Sizes.{brackets_of, size_meets};
ghost use Rattle.xs_fields.specs.Words.{is_byte};
ghost use Rattle.xs_notation.specs.Terms.{direct_meets};

use xs_fields::{Condition, earlier, judge_sizes, judge_word};

/// The bytes from a place on.
fn from(bytes: &[u8], at: usize) -> &[u8]
    requires { at ≤ length bytes.now }
    ensures { result.now ≡ drop at bytes.now }
{
    &bytes[at..]
}

/// Where the first bracket begins.
fn bracket_start(word: &[u8]) -> Option<usize>
    ensures { result ≡ position (is_byte 91) word.now }
{
    word.iter().position(|byte| *byte == b'[')
}

/// What the brackets of a word miss first where each is to hold an integer.
fn judge_indices(word: &[u8]) -> Option<Condition>
    ensures { result ≡ first_missed (all_meet size_meets (brackets_of word.now)) }
{
    match bracket_start(word) {
        Some(start) => judge_sizes(from(word, start)),
        None => None,
    }
}

/// The first of `Spelling` and `Magnitude` that a direct variable word misses.
pub fn judge_direct(word: &[u8]) -> Option<Condition>
    ensures { result ≡ first_missed (direct_meets word.now) }
{
    earlier(judge_word(word), judge_indices(word))
}
