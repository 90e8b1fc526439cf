ghost use Rattle.std.specs.Prelude.{◌≡◌, ◌∷◌, ◌++◌, true, Some, IfOk};
ghost use Rattle.std.specs.Result.{result_err};
ghost use Rattle.std.specs.Option.{option_map};
ghost use Rattle.xs_fields.specs.Conditions.{answer, earlier_of, first_missed, judged, IsOrMemory};
ghost use Rattle.xs_fields.specs.Integers.{integer_of, is_small};
ghost use Rattle.xs_fields.specs.Lists.{has_small_ends, piece_in, piece_list, piece_of, pieces_meet, pieces_of, point, range_of};
ghost use Rattle.xs_fields.specs.Words.{is_byte, parts};

use crate::compare::at_most;
use crate::condition::{Condition, earlier};
use crate::integer::{is_integer, read_integer, small_value};
use crate::reading::Reading;
use crate::words::{cut, next_word};
use std::alloc::Global;
use xf_num::{NoMemory, Row, Span, Spans};
use xf_text::FieldStop;

/// The range between two values.
fn ordered(low: i128, high: i128) -> Result<Span, Condition>
    requires low_small { is_small low ≡ true }
    requires high_small { is_small high ≡ true }
    ensures { result ≡ judged has_small_ends (range_of (Some low) (Some high)) }
{
    match Span::new(low, high) {
        Some(span) => Ok(span),
        None => Err(Condition::Spelling),
    }
}

/// The range between two integers.
pub fn range(low: &[u8], high: &[u8]) -> Result<Span, Condition>
    ensures { result ≡ judged has_small_ends (range_of (integer_of low.now) (integer_of high.now)) }
{
    if !is_integer(low) || !is_integer(high) || !at_most(low, high) {
        return Err(Condition::Spelling);
    }
    match (small_value(low), small_value(high)) {
        (Some(low), Some(high)) => ordered(low, high),
        _ => Err(Condition::Magnitude),
    }
}

/// The range of one integer.
fn single(word: &[u8]) -> Result<Span, Condition>
    ensures { result ≡ judged has_small_ends (option_map point (integer_of word.now)) }
{
    match read_integer(word) {
        Ok(value) => match Span::new(value, value) {
            Some(span) => Ok(span),
            None => Err(Condition::Spelling),
        },
        Err(missed) => Err(missed),
    }
}

/// The range whose low end and first dot stand before these bytes.
fn range_behind(low: &[u8], behind: &[u8]) -> Result<Span, Condition>
    ensures { result ≡ judged has_small_ends (piece_in (low.now ∷ parts (is_byte 46) behind.now)) }
{
    let (middle, high) = cut(behind, b'.');
    match high {
        None => Err(Condition::Spelling),
        Some(high) => {
            let (high, more) = cut(high, b'.');
            match more {
                None => {
                    if middle.is_empty() {
                        range(low, high)
                    } else {
                        Err(Condition::Spelling)
                    }
                }
                Some(_) => Err(Condition::Spelling),
            }
        }
    }
}

/// What a word of a domain text spells, or the first of `Spelling` and `Magnitude` that it misses.
fn read_piece(word: &[u8]) -> Result<Span, Condition>
    ensures { result ≡ judged has_small_ends (piece_of word.now) }
{
    let (low, behind) = cut(word, b'.');
    match behind {
        None => single(low),
        Some(behind) => range_behind(low, behind),
    }
}

/// Appends what a word spells. What is missed with it.
fn take_piece(
    pieces: &mut Spans,
    missed: Option<Condition>,
    piece: Result<Span, Condition>,
) -> Result<Option<Condition>, NoMemory>
    ensures missed { IfOk result (λ m. m ≡ earlier_of missed (result_err piece)) }
    ensures value { IfOk result (λ _. pieces.new ≡ pieces.old ++ piece_list piece) }
{
    match piece {
        Ok(piece) => {
            pieces.push(piece)?;
            Ok(earlier(missed, None))
        }
        Err(condition) => Ok(earlier(missed, Some(condition))),
    }
}

/// The ranges that a domain text denotes, as written, and the first condition that the text misses: `Spelling` or
/// `Magnitude`. A word that misses one has no range.
pub fn scan_pieces(alloc: Global, text: &[u8]) -> Result<Reading<Spans>, NoMemory>
    ensures missed { IfOk result (λ r. r.missed ≡ first_missed (pieces_meet text.now)) }
    ensures value { IfOk result (λ r. r.value ≡ pieces_of text.now) }
{
    let mut pieces = Row::new(alloc);
    let mut missed = None;
    let mut rest = text;
    while let Some((word, more)) = next_word(rest) {
        missed = take_piece(&mut pieces, missed, read_piece(word))?;
        rest = more;
    }
    Ok(Reading {
        value: pieces,
        missed,
    })
}

/// The ranges that a domain text denotes, as written: integers, and ranges `a..b` with `a` at most `b`.
///
/// A misspelt word is F4, a magnitude above 2^126 - 1 is F10: the first of these over the whole text.
pub fn read_pieces(alloc: Global, text: &[u8]) -> Result<Spans, FieldStop>
    ensures { IsOrMemory result (answer (pieces_meet text.now) (pieces_of text.now)) }
{
    let reading = scan_pieces(alloc, text)?;
    match reading.missed {
        Some(missed) => Err(FieldStop::Refused(missed.kind())),
        None => Ok(reading.value),
    }
}

/// The first of `Spelling` and `Magnitude` that a domain text misses, over the whole text.
pub fn judge_pieces(text: &[u8]) -> Option<Condition>
    ensures { result ≡ first_missed (pieces_meet text.now) }
{
    let mut missed = None;
    let mut rest = text;
    while let Some((word, more)) = next_word(rest) {
        missed = earlier(missed, read_piece(word).err());
        rest = more;
    }
    missed
}
