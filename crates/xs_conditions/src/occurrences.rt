//! How often values are to occur.

ghost use Rattle.std.specs.Prelude.{◌≡◌, ◌++◌, ◌∷◌, [], None, Option, is_some, length, map, IfOk};
ghost use Rattle.std.specs.Result.{result_err};
ghost use Rattle.xs_conditions.specs.Occurrences.{occurrence_meets, occurrences_meet, occurrences_of, word_occurrences};
ghost use Rattle.xs_conditions.specs.Scanning.{has_room, uncounted};
ghost use Rattle.xf_num.specs.Span.{Bounds};
ghost use Rattle.xs_fields.specs.Conditions.{first_missed, judged};
ghost use Rattle.xs_fields.specs.Lists.{has_small_ends, piece_list};
ghost use Rattle.xs_fields.specs.Scanning.{have_room, joined};
ghost use Rattle.xs_fields.specs.Terms.{term_meets, word_terms};
ghost use Rattle.xs_fields.specs.Words.{words_of};
ghost use Rattle.xs_model.specs.declared.term.Occurrence.TheVariants as occurrence;

use crate::range::read_range;
use std::alloc::Global;
use xf_num::{NoMemory, Row, Span};
use xs_fields::{Condition, Reading, earlier, next_word, scan_terms};
use xs_model::{Names, Occurrence, Occurrences, Term};

/// What is missed with one word more, which misses this by itself, where its members have room or not.
fn joined(missed: Option<Condition>, judged: Option<Condition>, room: bool) -> Option<Condition>
    ensures { result ≡ joined missed judged room }
{
    match missed {
        Some(_) => earlier(missed, judged),
        None => match judged {
            Some(condition) => Some(condition),
            None => {
                if room {
                    None
                } else {
                    Some(Condition::Counting)
                }
            }
        },
    }
}

/// What a word misses apart from its count.
fn uncounted(missed: Option<Condition>) -> Option<Condition>
    ensures { result ≡ uncounted missed }
{
    if has_room(missed) { missed } else { None }
}

/// Whether the count of a word is not missed.
fn has_room(missed: Option<Condition>) -> bool
    ensures { result ≡ has_room missed }
{
    match missed {
        Some(Condition::Counting) => false,
        _ => true,
    }
}

/// Appends the terms, or some of them.
fn push_terms(occurrences: &mut Occurrences, terms: &[Term]) -> Result<(), NoMemory>
    ensures { IfOk result (λ _. occurrences.new ≡ occurrences.old ++ map occurrence.Term terms.now) }
{
    for term in terms {
        occurrences.push(Occurrence::Term(*term))?;
    }
    Ok(())
}

/// Appends the range of a word, where nothing is missed and it has room. What is missed with it.
fn take_range(
    occurrences: &mut Occurrences,
    missed: Option<Condition>,
    range: Result<Span, Condition>,
    left: u64,
) -> Result<Option<Condition>, NoMemory>
    ensures missed { IfOk result (λ m. m ≡ joined missed (result_err range) (have_room left occurrences.old (length (map occurrence.Span (piece_list range))))) }
    ensures value { IfOk result (λ m. m ≡ None → occurrences.new ≡ occurrences.old ++ map occurrence.Span (piece_list range)) }
{
    match range {
        Ok(span) => {
            let next = joined(missed, None, (occurrences.len() as u64) < left);
            if next.is_none() {
                occurrences.push(Occurrence::Span(span))?;
            }
            Ok(next)
        }
        Err(condition) => Ok(joined(missed, Some(condition), true)),
    }
}

/// Appends the terms of a word, where nothing is missed and they have room. What is missed with it.
fn take_terms(
    alloc: Global,
    occurrences: &mut Occurrences,
    missed: Option<Condition>,
    names: &Names,
    word: &[u8],
    left: u64,
) -> Result<Option<Condition>, NoMemory>
    requires { words_of word.now ≡ word.now ∷ [] }
    ensures missed { IfOk result (λ m. m ≡ joined missed (first_missed (term_meets names.now word.now)) (have_room left occurrences.old (length (map occurrence.Term (word_terms names.now word.now))))) }
    ensures value { IfOk result (λ m. m ≡ None → occurrences.new ≡ occurrences.old ++ map occurrence.Term (word_terms names.now word.now)) }
{
    let room = left.saturating_sub(occurrences.len() as u64);
    let reading = scan_terms(alloc, word, names, room)?;
    let next = joined(missed, uncounted(reading.missed), has_room(reading.missed));
    if next.is_none() {
        push_terms(occurrences, reading.value.as_slice())?;
    }
    Ok(next)
}

/// Whether a word is a range, of which it is told what it spells.
fn is_range(range: &Result<Span, Condition>) -> bool
    ensures { (o : Option Bounds) → range.now ≡ judged has_small_ends o → result ≡ is_some o }
{
    match range {
        Ok(_) => true,
        Err(missed) => *missed != Condition::Spelling,
    }
}

/// Appends what a word stands for, where nothing is missed and it has room. What is missed with it.
fn take_word(
    alloc: Global,
    occurrences: &mut Occurrences,
    missed: Option<Condition>,
    names: &Names,
    word: &[u8],
    left: u64,
) -> Result<Option<Condition>, NoMemory>
    requires { words_of word.now ≡ word.now ∷ [] }
    ensures missed { IfOk result (λ m. m ≡ joined missed (first_missed (occurrence_meets names.now word.now)) (have_room left occurrences.old (length (word_occurrences names.now word.now)))) }
    ensures value { IfOk result (λ m. m ≡ None → occurrences.new ≡ occurrences.old ++ word_occurrences names.now word.now) }
{
    let range = read_range(word);
    if is_range(&range) {
        let next = take_range(occurrences, missed, range, left)?;
        Ok(next)
    } else {
        let next = take_terms(alloc, occurrences, missed, names, word, left)?;
        Ok(next)
    }
}

/// The list of occurrences that a text denotes, and the first condition that the text misses where at most `left` members
/// are allowed: `Spelling`, `Magnitude`, `Naming` or `Counting`.
pub fn scan_occurrences(
    alloc: Global,
    text: &[u8],
    names: &Names,
    left: u64,
) -> Result<Reading<Occurrences>, NoMemory>
    ensures missed { IfOk result (λ r. r.missed ≡ first_missed (occurrences_meet names.now text.now left)) }
    ensures value { IfOk result (λ r. r.missed ≡ None → r.value ≡ occurrences_of names.now text.now) }
{
    let mut occurrences = Row::new(alloc);
    let mut missed = None;
    let mut rest = text;
    while let Some((word, more)) = next_word(rest) {
        missed = take_word(alloc, &mut occurrences, missed, names, word, left)?;
        rest = more;
    }
    Ok(Reading {
        value: occurrences,
        missed,
    })
}
