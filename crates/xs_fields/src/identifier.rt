ghost use Rattle.std.specs.Prelude.{◌≡◌, true, IfOk};
ghost use Rattle.std.specs.List.{list_all};
ghost use Rattle.xs_fields.specs.Conditions.{answer, first_missed, IsOrMemory};
ghost use Rattle.xs_fields.specs.Identifiers.{identifier_meets, is_identifier};
ghost use Rattle.xs_model.specs.Identifier.{is_letter, is_word, IsIdentifier};

use crate::condition::Condition;
use std::alloc::Global;
use xf_num::{NoMemory, Row, Text};
use xf_text::FieldStop;

fn is_letter(byte: u8) -> bool
    ensures { result ≡ is_letter byte }
{
    (byte >= b'A' && byte <= b'Z') || (byte >= b'a' && byte <= b'z') || byte == b'_'
}

fn is_word(byte: u8) -> bool
    ensures { result ≡ is_word byte }
{
    is_letter(byte) || (byte >= b'0' && byte <= b'9')
}

fn are_word(bytes: &[u8]) -> bool
    ensures { result ≡ list_all is_word bytes.now }
{
    bytes.iter().all(|byte| is_word(*byte))
}

/// Whether the bytes are an identifier.
pub fn is_identifier(bytes: &[u8]) -> bool
    ensures value { result ≡ is_identifier bytes.now }
    ensures named { result ≡ true → IsIdentifier bytes.now }
    ensures every { IsIdentifier bytes.now → result ≡ true }
{
    match bytes {
        [] => false,
        [first, rest @ ..] => is_letter(*first) && are_word(rest),
    }
}

/// `Spelling` exactly where the text is no identifier.
pub fn judge_identifier(text: &[u8]) -> Option<Condition>
    ensures { result ≡ first_missed (identifier_meets text.now) }
{
    if is_identifier(text) {
        None
    } else {
        Some(Condition::Spelling)
    }
}

/// A text of these bytes.
pub fn copied(alloc: Global, bytes: &[u8]) -> Result<Text, NoMemory>
    ensures { IfOk result (λ text. text ≡ bytes.now) }
{
    Row::from_slice(alloc, bytes)
}

/// The identifier that a text is. Any other text is F4.
pub fn read_identifier(alloc: Global, text: &[u8]) -> Result<Text, FieldStop>
    ensures value { IsOrMemory result (answer (identifier_meets text.now) text.now) }
    ensures named { IfOk result IsIdentifier }
{
    if is_identifier(text) {
        Ok(copied(alloc, text)?)
    } else {
        Err(FieldStop::Refused(Condition::Spelling.kind()))
    }
}
