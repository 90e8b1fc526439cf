//! How deep texts are nested.

ghost use Rattle.std.specs.Prelude.{◌≡◌};
ghost use Rattle.xs_fields.specs.Conditions.{first_missed};
ghost use Rattle.xs_parts.specs.Nesting.{are_parts_shallow, are_words_shallow, is_shallow, nesting_meets};

use xs_fields::{Condition, next_word};
use xs_model::Part;
use xs_notation::is_deeper;

/// Whether no more than 200 `(` are open at once in a text.
pub fn is_shallow(text: &[u8]) -> bool
    ensures { result ≡ is_shallow text.now }
{
    !is_deeper(text)
}

/// The same of each word of a text.
pub fn are_words_shallow(text: &[u8]) -> bool
    ensures { result ≡ are_words_shallow text.now }
{
    let mut rest = text;
    while let Some((word, more)) = next_word(rest) {
        if !is_shallow(word) {
            return false;
        }
        rest = more;
    }
    true
}

/// The same of the text of each part.
pub fn are_parts_shallow(parts: &[Part]) -> bool
    ensures { result ≡ are_parts_shallow parts.now }
{
    for part in parts {
        if !is_shallow(part.text.as_slice()) {
            return false;
        }
    }
    true
}

/// `Nesting` exactly where the test fails.
pub fn judge_nesting(test: bool) -> Option<Condition>
    ensures { result ≡ first_missed (nesting_meets test) }
{
    if test { None } else { Some(Condition::Nesting) }
}
