//! How the texts of single fields are cut.

ghost use Rattle.std.specs.Prelude.{◌≡◌, ◌≤◌, ◌∷◌, [], drop, length, position, Some, None, MatchOption};
ghost use Rattle.std.specs.Option.{option_map};
ghost use Rattle.xs_conditions.specs.Spelling.{between_of, halves_of, word_in, words_in};
ghost use Rattle.xs_fields.specs.Words.{is_byte};

use xs_fields::{is_blank, next_word};

/// The one word of a text.
pub fn word_in(text: &[u8]) -> Option<&[u8]>
    ensures { option_map (λ x. x.now) result ≡ word_in text.now }
{
    match next_word(text) {
        Some((word, rest)) => { if is_blank(rest) { Some(word) } else { None } }
        None => None,
    }
}

/// The two words of a text.
pub fn words_in(text: &[u8]) -> Option<(&[u8], &[u8])>
    ensures { MatchOption result (words_in text.now ≡ None) (λ x. words_in text.now ≡ Some (x.0.now, x.1.now)) }
{
    match next_word(text) {
        Some((first, rest)) => match word_in(rest) {
            Some(second) => Some((first, second)),
            None => None,
        },
        None => None,
    }
}

/// Where the first `stop` stands.
fn place_of(bytes: &[u8], stop: u8) -> Option<usize>
    ensures { result ≡ position (is_byte stop) bytes.now }
{
    bytes.iter().position(|byte| *byte == stop)
}

/// The bytes from a place on.
fn from(bytes: &[u8], at: usize) -> &[u8]
    requires { at ≤ length bytes.now }
    ensures { result.now ≡ drop at bytes.now }
{
    &bytes[at..]
}

/// What stands before and behind the first `stop`.
pub(crate) fn halves(bytes: &[u8], stop: u8) -> Option<(&[u8], &[u8])>
    ensures { MatchOption result (halves_of stop bytes.now ≡ None) (λ x. halves_of stop bytes.now ≡ Some (x.0.now, x.1.now)) }
{
    match place_of(bytes, stop) {
        Some(at) => Some((&bytes[..at], from(bytes, at + 1))),
        None => None,
    }
}

/// What stands between the first byte and the last, which are these.
pub(crate) fn between(word: &[u8], first: u8, last: u8) -> Option<&[u8]>
    ensures { option_map (λ x. x.now) result ≡ between_of first last word.now }
{
    match word.split_first() {
        Some((byte, rest)) => {
            if *byte == first && rest.ends_with(&[last]) {
                Some(&rest[..rest.len() - 1])
            } else {
                None
            }
        }
        None => None,
    }
}
