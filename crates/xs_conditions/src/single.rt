//! Single terms: an integer or a variable.

ghost use Rattle.std.specs.Prelude.{◌≡◌, ◌≤◌, ◌&&◌, None, drop, length, position, IfOk};
ghost use Rattle.std.specs.Option.{option_map};
ghost use Rattle.xs_conditions.specs.Single.{direct_meets, direct_of, direct_spelt, first_of, one_term_meets, one_term_of, single_meets, single_of, two_terms_meet, two_terms_of};
ghost use Rattle.xs_fields.specs.Cells.{name_meets, variables_of};
ghost use Rattle.xs_fields.specs.Conditions.{all_meet, first_missed};
ghost use Rattle.xs_fields.specs.Sizes.{brackets_of, size_meets};
ghost use Rattle.xs_fields.specs.Variables.{word_of};
ghost use Rattle.xs_fields.specs.Words.{is_byte};
ghost use Rattle.xs_model.specs.Fields.{item_of};
ghost use Rattle.xs_model.specs.Formed.{IsFormedItem};
ghost use Rattle.xs_model.specs.Outline.{variables_in};
ghost use Rattle.xs_model.specs.declared.term.Term.TheVariants.{Var};

use crate::spelling::{word_in, words_in};
use std::alloc::Global;
use xf_num::NoMemory;
use xs_fields::{
    Condition, Reading, Word, direct_variable, earlier, judge_sizes, judge_word, reach,
    read_integer, read_word,
};
use xs_model::{Names, Term};

/// The bytes from a place on.
fn from(bytes: &[u8], at: usize) -> &[u8]
    requires { at ≤ length bytes.now }
    ensures { result.now ≡ drop at bytes.now }
{
    &bytes[at..]
}

/// Where the first bracket begins.
fn bracket_start(word: &[u8]) -> Option<usize>
    ensures { result ≡ position (is_byte 91) word.now }
{
    word.iter().position(|byte| *byte == b'[')
}

/// What the brackets of a word miss first where each is to hold an integer.
fn judge_indices(word: &[u8]) -> Option<Condition>
    ensures { result ≡ first_missed (all_meet size_meets (brackets_of word.now)) }
{
    match bracket_start(word) {
        Some(start) => judge_sizes(from(word, start)),
        None => None,
    }
}

/// The first of `Spelling` and `Magnitude` that a direct word misses.
fn judge_direct(word: &[u8]) -> Option<Condition>
    ensures { result ≡ first_missed (direct_spelt word.now) }
{
    earlier(judge_word(word), judge_indices(word))
}

/// The first of some variables.
fn first_of(variables: &[u32]) -> u32
    ensures { result ≡ first_of variables.now }
{
    match variables {
        [first, ..] => *first,
        _ => 0,
    }
}

/// The word of these bytes, which miss nothing, so that only memory can be wanting.
fn parsed(alloc: Global, word: &[u8]) -> Result<Word, NoMemory>
    ensures { IfOk result (λ w. w ≡ word_of word.now) }
{
    match read_word(alloc, word) {
        Ok(parsed) => Ok(parsed),
        Err(_) => Err(NoMemory),
    }
}

/// The variable that a direct word denotes which is spelt right, and whether it misses `Naming`.
fn named(alloc: Global, names: &Names, word: &[u8]) -> Result<Reading<u32>, NoMemory>
    ensures missed { IfOk result (λ r. r.missed ≡ first_missed (name_meets names.now word.now)) }
    ensures value { IfOk result (λ r. r.missed ≡ None → r.value ≡ first_of (variables_of names.now word.now)) }
{
    let parsed = parsed(alloc, word)?;
    let reached = reach(alloc, names, &parsed)?;
    match reached {
        Ok(variables) => Ok(Reading {
            value: first_of(variables.as_slice()),
            missed: None,
        }),
        Err(condition) => Ok(Reading {
            value: 0,
            missed: Some(condition),
        }),
    }
}

/// The variable that a direct word denotes, and the first condition that the word misses.
pub fn scan_direct(alloc: Global, names: &Names, word: &[u8]) -> Result<Reading<u32>, NoMemory>
    ensures missed { IfOk result (λ r. r.missed ≡ first_missed (direct_meets names.now word.now)) }
    ensures value { IfOk result (λ r. r.missed ≡ None → r.value ≡ direct_of names.now word.now) }
{
    if let Some(variable) = direct_variable(names, word) {
        return Ok(Reading {
            value: variable,
            missed: None,
        });
    }
    match judge_direct(word) {
        Some(condition) => Ok(Reading {
            value: 0,
            missed: Some(condition),
        }),
        None => named(alloc, names, word),
    }
}

/// The term of a direct word, and the first condition that it misses.
fn scan_variable(alloc: Global, names: &Names, word: &[u8]) -> Result<Reading<Term>, NoMemory>
    ensures missed { IfOk result (λ r. r.missed ≡ first_missed (direct_meets names.now word.now)) }
    ensures value { IfOk result (λ r. r.missed ≡ None → r.value ≡ Var (direct_of names.now word.now)) }
{
    let reading = scan_direct(alloc, names, word)?;
    Ok(Reading {
        value: Term::Var(reading.value),
        missed: reading.missed,
    })
}

/// What stands for a term that misses a condition.
fn none_for(condition: Condition) -> Reading<Term>
    ensures { result.missed ≡ Some condition }
{
    Reading {
        value: Term::Int(0),
        missed: Some(condition),
    }
}

/// The term that a word is, an integer or a direct word, and the first condition that the word misses.
pub fn scan_single(alloc: Global, names: &Names, word: &[u8]) -> Result<Reading<Term>, NoMemory>
    ensures missed { IfOk result (λ r. r.missed ≡ first_missed (single_meets names.now word.now)) }
    ensures value { IfOk result (λ r. r.missed ≡ None → r.value ≡ single_of names.now word.now) }
{
    match read_integer(word) {
        Ok(value) => Ok(Reading {
            value: Term::Int(value),
            missed: None,
        }),
        Err(Condition::Spelling) => scan_variable(alloc, names, word),
        Err(condition) => Ok(none_for(condition)),
    }
}

/// The term that a text denotes, an integer or a direct word, and the first condition that the text misses: `Spelling`,
/// `Magnitude` or `Naming`.
pub fn scan_term(alloc: Global, text: &[u8], names: &Names) -> Result<Reading<Term>, NoMemory>
    ensures missed { IfOk result (λ r. r.missed ≡ first_missed (one_term_meets names.now text.now)) }
    ensures value { IfOk result (λ r. r.missed ≡ None → r.value ≡ one_term_of names.now text.now) }
    ensures formed { IfOk result (λ r. r.missed ≡ None → IsFormedItem (variables_in names.now) (item_of r.value)) }
{
    let reading = scan_one(alloc, text, names)?;
    Ok(reading)
}

/// The term of the one word of a text, and the first condition that the text misses.
fn scan_one(alloc: Global, text: &[u8], names: &Names) -> Result<Reading<Term>, NoMemory>
    ensures missed { IfOk result (λ r. r.missed ≡ first_missed (one_term_meets names.now text.now)) }
    ensures value { IfOk result (λ r. r.missed ≡ None → r.value ≡ one_term_of names.now text.now) }
{
    match word_in(text) {
        Some(word) => scan_single(alloc, names, word),
        None => Ok(none_for(Condition::Spelling)),
    }
}

/// The two terms that a text denotes, and the first condition that the text misses.
pub fn scan_two_terms(
    alloc: Global,
    text: &[u8],
    names: &Names,
) -> Result<Reading<(Term, Term)>, NoMemory>
    ensures missed { IfOk result (λ r. r.missed ≡ first_missed (two_terms_meet names.now text.now)) }
    ensures value { IfOk result (λ r. r.missed ≡ None → r.value ≡ two_terms_of names.now text.now) }
    ensures first { IfOk result (λ r. r.missed ≡ None → IsFormedItem (variables_in names.now) (item_of r.value.0)) }
    ensures second { IfOk result (λ r. r.missed ≡ None → IsFormedItem (variables_in names.now) (item_of r.value.1)) }
{
    let reading = scan_pair(alloc, text, names)?;
    Ok(reading)
}

/// The terms of the two words of a text, and the first condition that the text misses.
fn scan_pair(alloc: Global, text: &[u8], names: &Names) -> Result<Reading<(Term, Term)>, NoMemory>
    ensures missed { IfOk result (λ r. r.missed ≡ first_missed (two_terms_meet names.now text.now)) }
    ensures value { IfOk result (λ r. r.missed ≡ None → r.value ≡ two_terms_of names.now text.now) }
{
    match words_in(text) {
        Some((first, second)) => scan_both(alloc, names, first, second),
        None => Ok(Reading {
            value: (Term::Int(0), Term::Int(0)),
            missed: Some(Condition::Spelling),
        }),
    }
}

/// The terms that two words are, and the first condition that they miss.
fn scan_both(
    alloc: Global,
    names: &Names,
    first: &[u8],
    second: &[u8],
) -> Result<Reading<(Term, Term)>, NoMemory>
    ensures missed { IfOk result (λ r. r.missed ≡ first_missed (λ k. single_meets names.now first.now k && single_meets names.now second.now k)) }
    ensures value { IfOk result (λ r. r.missed ≡ None → r.value ≡ (single_of names.now first.now, single_of names.now second.now)) }
{
    let one = scan_single(alloc, names, first)?;
    let other = scan_single(alloc, names, second)?;
    Ok(Reading {
        value: (one.value, other.value),
        missed: earlier(one.missed, other.missed),
    })
}
