//! The texts of a template, cut at their gaps.

ghost use Rattle.std.specs.Prelude.{◌≡◌, ◌<◌, ◌≤◌, ◌+◌, ◌++◌, None, length, drop, IfOk, IfSome};
ghost use Rattle.std.specs.Char.{is_ascii_digit};
ghost use Rattle.std.specs.List.{prefix_len, take_while};
ghost use Rattle.xs_template.specs.Template.{asked_by, front_gap, gap_behind, numbered, place_number, plain_len, spots_of, within_words};

use std::alloc::Global;
use xf_num::{MAX_ITEMS, NoMemory, Row, Text};

/// The place behind all words that an `args` may have.
const MOST_WORDS: u32 = MAX_ITEMS as u32;

/// A gap in a text of a template.
#[derive(Clone, Copy, Debug)]
pub enum Gap {
    /// `%i`: the word at this place.
    Place(u32),
    /// `%...`: all words behind those that have a place.
    Rest,
}

/// A piece of a text of a template.
#[derive(Debug, Drop)]
pub enum Spot {
    /// Bytes that stay.
    Plain(Text),
    /// A gap.
    Open(Gap),
}

/// A text of a template, piece by piece.
pub type Spots = Row<Spot>;

/// The bytes from a place on.
fn from(bytes: &[u8], at: usize) -> &[u8]
    requires { at ≤ length bytes.now }
    ensures { result.now ≡ drop at bytes.now }
{
    &bytes[at..]
}

/// How many digits stand at the front.
fn digits_len(bytes: &[u8]) -> usize
    ensures value { result ≡ prefix_len is_ascii_digit bytes.now }
    ensures within { result ≤ length bytes.now }
{
    for i in 0..bytes.len() {
        if !bytes[i].is_ascii_digit() {
            return i;
        }
    }
    bytes.len()
}

/// The digits at the front.
fn digits(bytes: &[u8]) -> &[u8]
    ensures value { result.now ≡ take_while is_ascii_digit bytes.now }
    ensures within { length result.now ≤ length bytes.now }
{
    &bytes[..digits_len(bytes)]
}

/// The place that digits name.
fn place_number(digits: &[u8]) -> u32
    ensures value { result ≡ place_number within_words digits.now }
    ensures most { result ≤ 4194304 }
{
    let mut number: u32 = 0;
    for digit in digits {
        number = (number * 10 + u32::from(digit.saturating_sub(b'0'))).min(MOST_WORDS);
    }
    number
}

fn numbered(digits: &[u8]) -> Option<(Gap, usize)>
    ensures value { result ≡ numbered within_words digits.now }
    ensures within { IfSome result (λ gap. gap.1 ≡ length digits.now + 1) }
{
    if digits.is_empty() {
        None
    } else {
        Some((Gap::Place(place_number(digits)), digits.len() + 1))
    }
}

/// The gap whose `%` stands before these bytes, and how many bytes spell it.
fn gap_behind(bytes: &[u8]) -> Option<(Gap, usize)>
    ensures value { result ≡ gap_behind within_words bytes.now }
    ensures within { IfSome result (λ gap. gap.1 ≤ length bytes.now + 1) }
    ensures some { IfSome result (λ gap. 0 < gap.1) }
{
    if bytes.starts_with(b"...") {
        Some((Gap::Rest, 4))
    } else {
        numbered(digits(bytes))
    }
}

/// The gap that a text begins with, and how many bytes spell it.
fn front_gap(bytes: &[u8]) -> Option<(Gap, usize)>
    ensures value { result ≡ front_gap within_words bytes.now }
    ensures within { IfSome result (λ gap. gap.1 ≤ length bytes.now) }
    ensures some { IfSome result (λ gap. 0 < gap.1) }
{
    match bytes {
        [first, rest @ ..] => {
            if *first == b'%' {
                gap_behind(rest)
            } else {
                None
            }
        }
        [] => None,
    }
}

/// How many bytes stand before the first gap.
fn plain_len(bytes: &[u8]) -> usize
    ensures value { result ≡ plain_len within_words bytes.now }
    ensures within { result ≤ length bytes.now }
{
    for i in 0..bytes.len() {
        match front_gap(from(bytes, i)) {
            Some(_) => return i,
            None => {}
        }
    }
    bytes.len()
}

/// A text of these bytes.
fn copied(alloc: Global, bytes: &[u8]) -> Result<Text, NoMemory>
    ensures { IfOk result (λ text. text ≡ bytes.now) }
{
    let mut text = Row::new(alloc);
    text.extend(bytes)?;
    Ok(text)
}

/// Appends the bytes before the first gap, of which there is one; the other spots are those of the bytes behind.
fn push_plain<'a>(alloc: Global, spots: &mut Spots, text: &'a [u8]) -> Result<&'a [u8], NoMemory>
    requires some { 0 < length text.now }
    requires plain { front_gap within_words text.now ≡ None }
    ensures value { IfOk result (λ more. spots.new ++ spots_of within_words more.now ≡ spots.old ++ spots_of within_words text.now) }
    ensures within { IfOk result (λ more. length more.now < length text.now) }
{
    let len = plain_len(text);
    let plain = copied(alloc, &text[..len])?;
    spots.push(Spot::Plain(plain))?;
    Ok(from(text, len))
}

/// Appends the first spot of a text; the others are those of the bytes behind.
fn push_spot<'a>(alloc: Global, spots: &mut Spots, text: &'a [u8]) -> Result<&'a [u8], NoMemory>
    requires { 0 < length text.now }
    ensures value { IfOk result (λ more. spots.new ++ spots_of within_words more.now ≡ spots.old ++ spots_of within_words text.now) }
    ensures within { IfOk result (λ more. length more.now < length text.now) }
{
    match front_gap(text) {
        Some((gap, size)) => {
            spots.push(Spot::Open(gap))?;
            Ok(from(text, size))
        }
        None => push_plain(alloc, spots, text),
    }
}

/// The spots of a text of a template.
pub fn cut_text(alloc: Global, text: &[u8]) -> Result<Spots, NoMemory>
    ensures { IfOk result (λ spots. spots ≡ spots_of within_words text.now) }
{
    let mut spots = Row::new(alloc);
    let mut rest = text;
    while !rest.is_empty() {
        let more = push_spot(alloc, &mut spots, rest)?;
        rest = more;
    }
    Ok(spots)
}

/// How many words some spots ask for.
pub fn asked_by(spots: &[Spot]) -> u64
    ensures value { result ≡ asked_by spots.now }
    ensures most { result ≤ 4294967296 }
{
    let mut asked = 0;
    for spot in spots {
        if let Spot::Open(Gap::Place(place)) = spot {
            asked = asked.max(u64::from(*place) + 1);
        }
    }
    asked
}
