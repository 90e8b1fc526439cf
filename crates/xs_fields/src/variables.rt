ghost use Rattle.std.specs.Prelude.{◌≡◌, ◌<◌, ◌++◌, length, Some, IfOk};
ghost use Rattle.std.specs.Result.{result_err};
ghost use Rattle.xs_fields.specs.Cells.{reached, reached_at, variable_meets, variables_at, variables_in, variables_of, vars_meet, vars_of};
ghost use Rattle.xs_fields.specs.Conditions.{answer, first_missed, IsOrMemory};
ghost use Rattle.xs_fields.specs.Scanning.{have_room, joined};
ghost use Rattle.xs_fields.specs.Variables.{word_of};

use crate::cells::{are_inside, covered};
use crate::condition::{Condition, earlier};
use crate::direct::direct_variable;
use crate::reading::Reading;
use crate::scan::{has_room, joined};
use crate::variable::{Word, expand_word, judge_word};
use crate::words::next_word;
use std::alloc::Global;
use xf_num::{NoMemory, Row, Vars};
use xf_text::FieldStop;
use xs_model::Names;

/// The variables of the defined ones among the cells at these places.
fn variables_at(alloc: Global, names: &Names, at: usize, places: &[u64]) -> Result<Vars, NoMemory>
    requires { at < length names.now }
    ensures { IfOk result (λ vars. vars ≡ variables_at names.now at places.now) }
{
    let mut vars = Row::new(alloc);
    for place in places {
        if let Some(variable) = names.cell(at, *place) {
            vars.push(variable)?;
        }
    }
    Ok(vars)
}

/// The variables that a word denotes as one of the declaration `at`, or that it misses `Naming`.
fn reach_at(
    alloc: Global,
    names: &Names,
    word: &Word,
    at: usize,
) -> Result<Result<Vars, Condition>, NoMemory>
    requires { at < length names.now }
    ensures { IfOk result (λ r. r ≡ reached_at names.now word.now (Some at)) }
{
    let sizes = names.sizes(at);
    let brackets = word.brackets.as_slice();
    if !are_inside(sizes, brackets) {
        return Ok(Err(Condition::Naming));
    }
    let places = covered(alloc, sizes, brackets)?;
    let vars = variables_at(alloc, names, at, places.as_slice())?;
    if word.is_direct() && vars.is_empty() {
        return Ok(Err(Condition::Naming));
    }
    Ok(Ok(vars))
}

/// The variables that a word denotes, in row-major order. `Naming` where its name is not declared, where its brackets do
/// not fit the dimensions, and where it is a direct word for an undefined cell.
pub fn reach(alloc: Global, names: &Names, word: &Word) -> Result<Result<Vars, Condition>, NoMemory>
    ensures { IfOk result (λ r. r ≡ reached names.now word.now) }
{
    match names.position(word.name.as_slice()) {
        Some(at) => reach_at(alloc, names, word, at),
        None => Ok(Err(Condition::Naming)),
    }
}

/// The variables that the bytes of a word denote, where it is spelt right.
fn reach_bytes(
    alloc: Global,
    names: &Names,
    word: &[u8],
) -> Result<Result<Vars, Condition>, NoMemory>
    ensures { IfOk result (λ r. r ≡ reached names.now (word_of word.now)) }
{
    let word = expand_word(alloc, word)?;
    reach(alloc, names, &word)
}

/// The variables of a word, none where it misses `Naming`, and whether it does.
fn parted(alloc: Global, reached: Result<Vars, Condition>) -> (Vars, Option<Condition>)
    ensures value { result.0 ≡ variables_in reached }
    ensures missed { result.1 ≡ result_err reached }
{
    match reached {
        Ok(vars) => (vars, None),
        Err(condition) => (Row::new(alloc), Some(condition)),
    }
}

/// The variables that a word denotes, and the first condition that it misses.
pub(crate) fn scan_word(
    alloc: Global,
    names: &Names,
    word: &[u8],
) -> Result<Reading<Vars>, NoMemory>
    ensures missed { IfOk result (λ r. r.missed ≡ first_missed (variable_meets names.now word.now)) }
    ensures value { IfOk result (λ r. r.value ≡ variables_of names.now word.now) }
{
    let reached = reach_bytes(alloc, names, word)?;
    let (value, named) = parted(alloc, reached);
    let missed = earlier(judge_word(word), named);
    Ok(Reading { value, missed })
}

/// Appends the variables, where nothing is missed and they have room. What is missed with them.
fn take(
    vars: &mut Vars,
    missed: Option<Condition>,
    judged: Option<Condition>,
    more: &[u32],
    left: u64,
) -> Result<Option<Condition>, NoMemory>
    ensures missed { IfOk result (λ m. m ≡ joined missed judged (have_room left vars.old (length more.now))) }
    ensures value { IfOk result (λ m. m ≡ None → vars.new ≡ vars.old ++ more.now) }
{
    let room = has_room(left, vars.len(), more.len() as u128);
    let next = joined(missed, judged, room);
    if next.is_none() {
        vars.extend(more)?;
    }
    Ok(next)
}

/// Appends the variables of a word, where nothing is missed and they have room. What is missed with it.
fn take_word(
    alloc: Global,
    vars: &mut Vars,
    missed: Option<Condition>,
    names: &Names,
    word: &[u8],
    left: u64,
) -> Result<Option<Condition>, NoMemory>
    ensures missed { IfOk result (λ m. m ≡ joined missed (first_missed (variable_meets names.now word.now)) (have_room left vars.old (length (variables_of names.now word.now)))) }
    ensures value { IfOk result (λ m. m ≡ None → vars.new ≡ vars.old ++ variables_of names.now word.now) }
{
    match direct_variable(names, word) {
        Some(variable) => {
            let next = take(vars, missed, None, &[variable], left)?;
            Ok(next)
        }
        None => {
            let reading = scan_word(alloc, names, word)?;
            let next = take(vars, missed, reading.missed, reading.value.as_slice(), left)?;
            Ok(next)
        }
    }
}

/// The list of variables that a text denotes, and the first condition that the text misses where at most `left`
/// variables are allowed: `Spelling`, `Magnitude`, `Naming` or `Counting`. Past the limit none is appended, and the words
/// are judged to the end.
pub fn scan_vars(
    alloc: Global,
    text: &[u8],
    names: &Names,
    left: u64,
) -> Result<Reading<Vars>, NoMemory>
    ensures missed { IfOk result (λ r. r.missed ≡ first_missed (vars_meet names.now text.now left)) }
    ensures value { IfOk result (λ r. r.missed ≡ None → r.value ≡ vars_of names.now text.now) }
{
    let mut vars = Row::new(alloc);
    let mut missed = None;
    let mut rest = text;
    while let Some((word, more)) = next_word(rest) {
        missed = take_word(alloc, &mut vars, missed, names, word, left)?;
        rest = more;
    }
    Ok(Reading {
        value: vars,
        missed,
    })
}

/// The list of variables that a text denotes: direct words, and compact words for the defined cells that they cover, in
/// row-major order.
///
/// A misspelt word is F4; a magnitude above 2^126 - 1 is F10; a name that is not declared, brackets that do not fit the
/// dimensions or reach past a size, and a direct word for an undefined cell are F5; more than `left` variables are F6:
/// the first of these over the whole text.
pub fn read_vars(alloc: Global, text: &[u8], names: &Names, left: u64) -> Result<Vars, FieldStop>
    ensures { IsOrMemory result (answer (vars_meet names.now text.now left) (vars_of names.now text.now)) }
{
    let reading = scan_vars(alloc, text, names, left)?;
    match reading.missed {
        Some(missed) => Err(FieldStop::Refused(missed.kind())),
        None => Ok(reading.value),
    }
}
