//! Compact words of variables: which words are, and whether they name what is declared.

ghost use Rattle.std.specs.Prelude.{◌≡◌, ◌↔◌, ◌<◌, true, Some, length, IsTrue, IfOk, IfSome};
ghost use Rattle.std.specs.List.{AllByRecursion, list_all};
ghost use Rattle.xs_fields.specs.Cells.{are_inside};
ghost use Rattle.xs_model.specs.Outline.{IsSoundOutline, sizes_at};
ghost use Rattle.std.specs.Option.{option_map};
ghost use Rattle.xs_fields.specs.Sizes.{inner_of, size_of};
ghost use Rattle.xs_fields.specs.Words.{is_byte, parts_behind};
ghost use Rattle.xs_fields.specs.declared.condition.Condition.TheVariants.{Spelling};
ghost use Rattle.xs_words.specs.Compact.{are_indices, are_named, are_spelt, covered_at, covered_in, is_compact, is_covered, is_index_part, is_named, is_spelt, small_word};

use std::alloc::Global;
use xf_num::NoMemory;
use xf_text::FieldStop;
use xs_fields::{Condition, Word, are_inside, cut, is_integer, judge_word, next_word, read_word};
use xs_model::Names;

/// The bytes before the `]` that ends a part.
fn inner(part: &[u8]) -> Option<&[u8]>
    ensures { option_map (λ x. x.now) result ≡ inner_of part.now }
{
    if part.ends_with(b"]") {
        Some(&part[..part.len() - 1])
    } else {
        None
    }
}

/// Whether an integer stands in a bracket.
fn is_index_part(part: &[u8]) -> bool
    ensures { result ≡ is_index_part part.now }
{
    match inner(part) {
        Some(text) => is_integer(text),
        None => false,
    }
}

fn are_index_parts(behind: Option<&[u8]>) -> bool
    ensures { result ≡ list_all is_index_part (parts_behind (is_byte 91) (option_map (λ x. x.now) behind.entry)) }
{
    let mut rest = behind;
    while let Some(bytes) = rest {
        let (part, more) = cut(bytes, b'[');
        if !is_index_part(part) {
            return false;
        }
        rest = more;
    }
    true
}

/// Whether an integer stands in each bracket of a word.
fn are_indices(word: &[u8]) -> bool
    ensures { result ≡ are_indices word.now }
{
    let (_, behind) = cut(word, b'[');
    are_index_parts(behind)
}

fn is_spelling(missed: Condition) -> bool
    ensures { IsTrue result ↔ (missed ≡ Spelling) }
{
    match missed {
        Condition::Spelling => true,
        _ => false,
    }
}

/// Whether a word is a variable word that is spelt right.
fn is_spelt(word: &[u8]) -> bool
    ensures { result ≡ is_spelt word.now }
{
    match judge_word(word) {
        Some(missed) => !is_spelling(missed),
        None => true,
    }
}

/// Whether each word of a list of variables is spelt right.
pub fn are_spelt(text: &[u8]) -> bool
    ensures { result ≡ are_spelt text.now }
{
    let mut rest = text;
    while let Some((word, more)) = next_word(rest) {
        if !is_spelt(word) {
            return false;
        }
        rest = more;
    }
    true
}

/// Whether a word is a compact variable word.
pub fn is_compact(word: &[u8]) -> bool
    ensures { result ≡ is_compact word.now }
{
    is_spelt(word) && !are_indices(word)
}

/// The word of a compact word; None where an integer in its brackets is too large.
pub(crate) fn small_word(alloc: Global, word: &[u8]) -> Result<Option<Word>, NoMemory>
    requires { is_spelt word.now ≡ true }
    ensures { IfOk result (λ small. small ≡ small_word word.now) }
{
    match read_word(alloc, word) {
        Ok(word) => Ok(Some(word)),
        Err(FieldStop::Refused(_)) => Ok(None),
        Err(FieldStop::Memory) => Err(NoMemory),
    }
}

fn covered_at(names: &Names, word: &Word, at: usize) -> Option<usize>
    requires { at < length names.now }
    ensures value { result ≡ covered_at names.now word.now (Some at) }
    ensures within { IfSome result (λ at. at < length names.now) }
    ensures inside { IfSome result (λ at. are_inside (sizes_at names.now at) word.now.brackets ≡ true) }
{
    if are_inside(names.sizes(at), word.brackets.as_slice()) {
        Some(at)
    } else {
        None
    }
}

/// The number of the declaration of the word's name, where the word's brackets fit its sizes.
pub(crate) fn covered_in(names: &Names, word: &Word) -> Option<usize>
    ensures value { result ≡ covered_in names.now word.now }
    ensures within { IfSome result (λ at. at < length names.now) }
    ensures inside { IfSome result (λ at. are_inside (sizes_at names.now at) word.now.brackets ≡ true) }
    ensures sound { AllByRecursion IsSoundOutline names.now }
{
    match names.position(word.name.as_slice()) {
        Some(at) => covered_at(names, word, at),
        None => None,
    }
}

fn is_covered(names: &Names, word: &Option<Word>) -> bool
    ensures { result ≡ is_covered names.now word.now }
{
    match word {
        Some(word) => covered_in(names, word).is_some(),
        None => false,
    }
}

/// Whether a word is no compact word, or names what is declared.
fn is_named(alloc: Global, names: &Names, word: &[u8]) -> Result<bool, NoMemory>
    ensures { IfOk result (λ named. named ≡ is_named names.now word.now) }
{
    if !is_compact(word) {
        return Ok(true);
    }
    let word = small_word(alloc, word)?;
    Ok(is_covered(names, &word))
}

/// Whether each compact word of a text names what is declared.
pub fn are_named(alloc: Global, names: &Names, text: &[u8]) -> Result<bool, NoMemory>
    ensures { IfOk result (λ named. named ≡ are_named names.now text.now) }
{
    let mut rest = text;
    while let Some((word, more)) = next_word(rest) {
        let named = is_named(alloc, names, word)?;
        if !named {
            return Ok(false);
        }
        rest = more;
    }
    Ok(true)
}
