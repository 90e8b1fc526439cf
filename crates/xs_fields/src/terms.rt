ghost use Rattle.std.specs.Prelude.{◌≡◌, ◌++◌, length, map, nat_abs, replicate, Option, is_some, IfOk};
ghost use Rattle.std.specs.Result.{result_err};
ghost use Rattle.xs_fields.specs.Cells.{variable_meets, variables_of};
ghost use Rattle.xs_fields.specs.Conditions.{answer, first_missed, judged, IsOrMemory};
ghost use Rattle.xs_fields.specs.Lists.{is_small_run, members_in};
ghost use Rattle.xs_fields.specs.Scanning.{have_room, joined};
ghost use Rattle.xs_fields.specs.Terms.{term_meets, terms_meet, terms_of, word_terms};
ghost use Rattle.xs_fields.specs.declared.runs.Run.{Run};
ghost use Rattle.xs_model.specs.declared.term.Term.TheVariants.{Int, Var};

use crate::condition::Condition;
use crate::direct::direct_variable;
use crate::reading::Reading;
use crate::runs::{Run, read_run};
use crate::scan::{has_room, joined};
use crate::variables::scan_word;
use crate::words::next_word;
use std::alloc::Global;
use xf_num::{NoMemory, Row};
use xf_text::FieldStop;
use xs_model::{Names, Term, Terms};

/// Whether a word is an integer or `vxk`, of which it is told what it spells.
fn is_run(run: Result<Run, Condition>) -> bool
    ensures { (o : Option Run) → run ≡ judged is_small_run o → result ≡ is_some o }
{
    match run {
        Ok(_) => true,
        Err(missed) => missed != Condition::Spelling,
    }
}

/// Appends the copies, or some of them.
fn push_copies(terms: &mut Terms, run: Run) -> Result<(), NoMemory>
    ensures { IfOk result (λ _. terms.new ≡ terms.old ++ map Int (replicate (nat_abs run.times) run.value)) }
{
    for _ in 0..run.times.unsigned_abs() {
        terms.push(Term::Int(run.value))?;
    }
    Ok(())
}

/// Appends the variables, or some of them.
fn push_variables(terms: &mut Terms, variables: &[u32]) -> Result<(), NoMemory>
    ensures { IfOk result (λ _. terms.new ≡ terms.old ++ map Var variables.now) }
{
    for variable in variables {
        terms.push(Term::Var(*variable))?;
    }
    Ok(())
}

/// Appends the copies that a word spells, where nothing is missed and they have room. What is missed with it.
fn take_run(
    terms: &mut Terms,
    missed: Option<Condition>,
    run: Result<Run, Condition>,
    left: u64,
) -> Result<Option<Condition>, NoMemory>
    ensures missed { IfOk result (λ m. m ≡ joined missed (result_err run) (have_room left terms.old (length (map Int (members_in run))))) }
    ensures value { IfOk result (λ m. m ≡ None → terms.new ≡ terms.old ++ map Int (members_in run)) }
{
    match run {
        Ok(run) => {
            let room = has_room(left, terms.len(), run.times.unsigned_abs());
            let next = joined(missed, None, room);
            if next.is_none() {
                push_copies(terms, run)?;
            }
            Ok(next)
        }
        Err(condition) => {
            let room = has_room(left, terms.len(), 0);
            Ok(joined(missed, Some(condition), room))
        }
    }
}

/// Appends the variables, where nothing is missed and they have room. What is missed with them.
fn take(
    terms: &mut Terms,
    missed: Option<Condition>,
    judged: Option<Condition>,
    more: &[u32],
    left: u64,
) -> Result<Option<Condition>, NoMemory>
    ensures missed { IfOk result (λ m. m ≡ joined missed judged (have_room left terms.old (length (map Var more.now)))) }
    ensures value { IfOk result (λ m. m ≡ None → terms.new ≡ terms.old ++ map Var more.now) }
{
    let room = has_room(left, terms.len(), more.len() as u128);
    let next = joined(missed, judged, room);
    if next.is_none() {
        push_variables(terms, more)?;
    }
    Ok(next)
}

/// Appends the variables of a word, where nothing is missed and they have room. What is missed with it.
fn take_variables(
    alloc: Global,
    terms: &mut Terms,
    missed: Option<Condition>,
    names: &Names,
    word: &[u8],
    left: u64,
) -> Result<Option<Condition>, NoMemory>
    ensures missed { IfOk result (λ m. m ≡ joined missed (first_missed (variable_meets names.now word.now)) (have_room left terms.old (length (map Var (variables_of names.now word.now))))) }
    ensures value { IfOk result (λ m. m ≡ None → terms.new ≡ terms.old ++ map Var (variables_of names.now word.now)) }
{
    match direct_variable(names, word) {
        Some(variable) => {
            let next = take(terms, missed, None, &[variable], left)?;
            Ok(next)
        }
        None => {
            let reading = scan_word(alloc, names, word)?;
            let next = take(
                terms,
                missed,
                reading.missed,
                reading.value.as_slice(),
                left,
            )?;
            Ok(next)
        }
    }
}

/// Appends the terms of a word, where nothing is missed and they have room. What is missed with it.
fn take_word(
    alloc: Global,
    terms: &mut Terms,
    missed: Option<Condition>,
    names: &Names,
    word: &[u8],
    left: u64,
) -> Result<Option<Condition>, NoMemory>
    ensures missed { IfOk result (λ m. m ≡ joined missed (first_missed (term_meets names.now word.now)) (have_room left terms.old (length (word_terms names.now word.now)))) }
    ensures value { IfOk result (λ m. m ≡ None → terms.new ≡ terms.old ++ word_terms names.now word.now) }
{
    let run = read_run(word);
    if is_run(run) {
        let next = take_run(terms, missed, run, left)?;
        Ok(next)
    } else {
        let next = take_variables(alloc, terms, missed, names, word, left)?;
        Ok(next)
    }
}

/// The list of terms that a text denotes, and the first condition that the text misses where at most `left` terms are
/// allowed: `Spelling`, `Magnitude`, `Naming` or `Counting`. Past the limit none is made, and the words are judged to the
/// end.
pub fn scan_terms(
    alloc: Global,
    text: &[u8],
    names: &Names,
    left: u64,
) -> Result<Reading<Terms>, NoMemory>
    ensures missed { IfOk result (λ r. r.missed ≡ first_missed (terms_meet names.now text.now left)) }
    ensures value { IfOk result (λ r. r.missed ≡ None → r.value ≡ terms_of names.now text.now) }
{
    let mut terms = Row::new(alloc);
    let mut missed = None;
    let mut rest = text;
    while let Some((word, more)) = next_word(rest) {
        missed = take_word(alloc, &mut terms, missed, names, word, left)?;
        rest = more;
    }
    Ok(Reading {
        value: terms,
        missed,
    })
}

/// The list of terms that a text denotes: integers, `vxk` for `k` copies of `v`, and variable words.
///
/// A misspelt word is F4; a magnitude above 2^126 - 1 is F10; a word that names no variables is F5; more than `left`
/// terms are F6: the first of these over the whole text. No term past `left` is made.
pub fn read_terms(alloc: Global, text: &[u8], names: &Names, left: u64) -> Result<Terms, FieldStop>
    ensures { IsOrMemory result (answer (terms_meet names.now text.now left) (terms_of names.now text.now)) }
{
    let reading = scan_terms(alloc, text, names, left)?;
    match reading.missed {
        Some(missed) => Err(FieldStop::Refused(missed.kind())),
        None => Ok(reading.value),
    }
}
