//! The words of an `args` and of the list of a slide.

ghost use Rattle.std.specs.Prelude.{◌≡◌, ◌≤◌, ◌+◌, ◌++◌, ◌∷◌, [], length, nat_abs, replicate, true, IfOk, IfSome, OnOk, SomeIff};
ghost use Rattle.std.specs.Option.{option_map};
ghost use Rattle.xs_fields.specs.Integers.{is_integer};
ghost use Rattle.xs_words.specs.Compact.{cell_words_of, is_compact};
ghost use Rattle.xs_words.specs.Args.{are_few, args_of, copied_of, copies_of, is_count, is_few, other_args, word_args};

use crate::cells::{count_cells, push_cells};
use crate::compact::is_compact;
use std::alloc::Global;
use xf_num::{NoMemory, Row, Text};
use xs_fields::{at_most, cut, is_integer, next_word, small_value};
use xs_model::Names;

/// Words, each a text of its own.
pub type Words = Row<Text>;

/// Whether a word is an integer of at least 1.
pub fn is_count(word: &[u8]) -> bool
    ensures { result ≡ is_count word.now }
{
    is_integer(word) && at_most(b"1", word)
}

/// The `v` and the `k` of a word `vxk`.
fn copied_of(word: &[u8]) -> Option<(&[u8], &[u8])>
    ensures value { option_map (λ x. (x.0.now, x.1.now)) result ≡ copied_of word.now }
    ensures integer { IfSome result (λ x. is_integer x.1.now ≡ true) }
{
    let (value, behind) = cut(word, b'x');
    match behind {
        None => None,
        Some(behind) => {
            let (times, more) = cut(behind, b'x');
            match more {
                None => {
                    if is_integer(value) && is_count(times) {
                        Some((value, times))
                    } else {
                        None
                    }
                }
                Some(_) => None,
            }
        }
    }
}

pub(crate) fn copied(alloc: Global, bytes: &[u8]) -> Result<Text, NoMemory>
    ensures { IfOk result (λ text. text ≡ bytes.now) }
{
    let mut text = Row::new(alloc);
    text.extend(bytes)?;
    Ok(text)
}

/// Appends so many copies of a word.
fn push_times(alloc: Global, words: &mut Words, word: &[u8], times: u128) -> Result<(), NoMemory>
    ensures { OnOk result (words.new ≡ words.old ++ replicate times word.now) }
{
    for _ in 0..times {
        let copy = copied(alloc, word)?;
        words.push(copy)?;
    }
    Ok(())
}

/// Appends the copies that `vxk` stands for, or some of them.
fn push_copies(alloc: Global, words: &mut Words, word: &[u8], times: &[u8]) -> Result<(), NoMemory>
    requires { is_integer times.now ≡ true }
    ensures { OnOk result (words.new ≡ words.old ++ copies_of word.now times.now) }
{
    match small_value(times) {
        Some(times) => push_times(alloc, words, word, times.unsigned_abs()),
        None => Ok(()),
    }
}

/// Appends a word as it is.
fn push_same(alloc: Global, words: &mut Words, word: &[u8]) -> Result<(), NoMemory>
    ensures { OnOk result (words.new ≡ words.old ++ word.now ∷ []) }
{
    let word = copied(alloc, word)?;
    words.push(word)
}

/// Appends the words that a word other than `vxk` stands for, or some of them.
fn push_other(alloc: Global, words: &mut Words, names: &Names, word: &[u8]) -> Result<(), NoMemory>
    ensures { OnOk result (words.new ≡ words.old ++ other_args names.now word.now) }
{
    if is_compact(word) {
        push_cells(alloc, words, names, word)
    } else {
        push_same(alloc, words, word)
    }
}

/// Appends the words that a word stands for, or some of them.
fn push_word(alloc: Global, words: &mut Words, names: &Names, word: &[u8]) -> Result<(), NoMemory>
    ensures { OnOk result (words.new ≡ words.old ++ word_args names.now word.now) }
{
    match copied_of(word) {
        Some((value, times)) => push_copies(alloc, words, value, times),
        None => push_other(alloc, words, names, word),
    }
}

/// The words of an `args`.
pub fn expand_args(alloc: Global, names: &Names, text: &[u8]) -> Result<Words, NoMemory>
    ensures { IfOk result (λ words. words ≡ args_of names.now text.now) }
{
    let mut words = Row::new(alloc);
    let mut rest = text;
    while let Some((word, more)) = next_word(rest) {
        push_word(alloc, &mut words, names, word)?;
        rest = more;
    }
    Ok(words)
}

/// The count with so many copies more, where it is at most `left`.
fn with_copies(count: u64, word: &[u8], times: &[u8], left: u64) -> Option<u64>
    requires count { count ≤ left }
    requires times { is_integer times.now ≡ true }
    ensures { SomeIff result (count + length (copies_of word.now times.now) ≤ left) (count + length (copies_of word.now times.now)) }
{
    match small_value(times) {
        Some(times) => {
            if times.unsigned_abs() <= u128::from(left - count) {
                Some(count + times.unsigned_abs() as u64)
            } else {
                None
            }
        }
        None => Some(count),
    }
}

/// The count with the words of a compact word more, where it is at most `left`.
fn with_cells(
    alloc: Global,
    count: u64,
    names: &Names,
    word: &[u8],
    left: u64,
) -> Result<Option<u64>, NoMemory>
    requires count { count ≤ left }
    requires compact { is_compact word.now ≡ true }
    ensures { IfOk result (λ r. SomeIff r (count + length (cell_words_of names.now word.now) ≤ left) (count + length (cell_words_of names.now word.now))) }
{
    let more = count_cells(alloc, names, word)?;
    if more <= left - count {
        Ok(Some(count + more))
    } else {
        Ok(None)
    }
}

/// The count with the words of a word other than `vxk` more, where it is at most `left`.
fn with_other(
    alloc: Global,
    count: u64,
    names: &Names,
    word: &[u8],
    left: u64,
) -> Result<Option<u64>, NoMemory>
    requires { count ≤ left }
    ensures { IfOk result (λ r. SomeIff r (count + length (other_args names.now word.now) ≤ left) (count + length (other_args names.now word.now))) }
{
    if is_compact(word) {
        return with_cells(alloc, count, names, word, left);
    }
    Ok(if count < left { Some(count + 1) } else { None })
}

/// The count with the words of one word more, where it is at most `left`.
fn with_word(
    alloc: Global,
    count: u64,
    names: &Names,
    word: &[u8],
    left: u64,
) -> Result<Option<u64>, NoMemory>
    requires { count ≤ left }
    ensures { IfOk result (λ r. SomeIff r (count + length (word_args names.now word.now) ≤ left) (count + length (word_args names.now word.now))) }
{
    match copied_of(word) {
        Some((value, times)) => Ok(with_copies(count, value, times, left)),
        None => with_other(alloc, count, names, word, left),
    }
}

/// The number of words of an `args`, where it is at most `left`. It is found without the words.
pub fn count_args(
    alloc: Global,
    names: &Names,
    text: &[u8],
    left: u64,
) -> Result<Option<u64>, NoMemory>
    ensures { IfOk result (λ r. SomeIff r (length (args_of names.now text.now) ≤ left) (length (args_of names.now text.now))) }
{
    let mut count = 0;
    let mut rest = text;
    while let Some((word, more)) = next_word(rest) {
        let next = with_word(alloc, count, names, word, left)?;
        match next {
            Some(next) => count = next,
            None => return Ok(None),
        }
        rest = more;
    }
    Ok(Some(count))
}

/// Whether the number of copies of a word is small.
fn is_few(word: &[u8]) -> bool
    ensures { result ≡ is_few word.now }
{
    match copied_of(word) {
        Some((_, times)) => small_value(times).is_some(),
        None => true,
    }
}

/// Whether the number of copies of each word is small.
pub fn are_few(text: &[u8]) -> bool
    ensures { result ≡ are_few text.now }
{
    let mut rest = text;
    while let Some((word, more)) = next_word(rest) {
        if !is_few(word) {
            return false;
        }
        rest = more;
    }
    true
}
