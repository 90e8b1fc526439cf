ghost use Rattle.std.specs.Prelude.{◌≡◌, ◌&&◌, IfOk};
ghost use Rattle.std.specs.Result.{result_err};
ghost use Rattle.xs_fields.specs.Cells.{name_meets, reached, variables_of};
ghost use Rattle.xs_fields.specs.Conditions.{first_missed};
ghost use Rattle.xs_fields.specs.Variables.{word_of};
ghost use Rattle.xs_notation.specs.Terms.{direct_meets, settled, term_at, term_in, term_meets, term_of, variable_in};

use crate::word::judge_direct;
use std::alloc::Global;
use xf_num::NoMemory;
use xs_fields::{Condition, Reading, Word, direct_variable, reach, read_integer, read_word};
use xs_model::{Expr, Names};

/// The first of some variables.
fn variable_in(variables: &[u32]) -> Expr
    ensures { result ≡ variable_in variables.now }
{
    match variables {
        [first, ..] => Expr::Var(*first),
        _ => Expr::Int(0),
    }
}

/// The word of these bytes, which miss nothing, so that only memory can be wanting.
fn parsed(alloc: Global, word: &[u8]) -> Result<Word, NoMemory>
    ensures { IfOk result (λ w. w ≡ word_of word.now) }
{
    match read_word(alloc, word) {
        Ok(parsed) => Ok(parsed),
        Err(_) => Err(NoMemory),
    }
}

/// The variable that a direct word denotes, or that it misses `Naming`.
fn named(alloc: Global, names: &Names, word: &[u8]) -> Result<Result<Expr, Condition>, NoMemory>
    ensures { IfOk result (λ r. r ≡ settled (first_missed (name_meets names.now word.now)) (variable_in (variables_of names.now word.now))) }
{
    let parsed = parsed(alloc, word)?;
    let reached = reach(alloc, names, &parsed)?;
    match reached {
        Ok(variables) => Ok(Ok(variable_in(variables.as_slice()))),
        Err(missed) => Ok(Err(missed)),
    }
}

/// The variable of a word, or the first condition that it misses.
fn variable(alloc: Global, names: &Names, word: &[u8]) -> Result<Result<Expr, Condition>, NoMemory>
    ensures { IfOk result (λ r. r ≡ settled (first_missed (λ k. direct_meets word.now k && name_meets names.now word.now k)) (variable_in (variables_of names.now word.now))) }
{
    if let Some(variable) = direct_variable(names, word) {
        return Ok(Ok(Expr::Var(variable)));
    }
    match judge_direct(word) {
        Some(missed) => Ok(Err(missed)),
        None => named(alloc, names, word),
    }
}

/// The operand that a word is, or the first condition that it misses.
fn read_term(alloc: Global, names: &Names, word: &[u8]) -> Result<Result<Expr, Condition>, NoMemory>
    ensures { IfOk result (λ r. r ≡ term_at names.now word.now) }
{
    match read_integer(word) {
        Ok(value) => Ok(Ok(Expr::Int(value))),
        Err(Condition::Spelling) => variable(alloc, names, word),
        Err(missed) => Ok(Err(missed)),
    }
}

/// The operand that a word is, 0 where it misses a condition, and the first condition that it misses.
pub fn scan_term(alloc: Global, names: &Names, word: &[u8]) -> Result<Reading<Expr>, NoMemory>
    ensures missed { IfOk result (λ r. r.missed ≡ first_missed (term_meets names.now word.now)) }
    ensures value { IfOk result (λ r. r.value ≡ term_of names.now word.now) }
{
    let term = read_term(alloc, names, word)?;
    Ok(parted(term))
}

/// An operand, or 0 and the condition in its place.
fn parted(term: Result<Expr, Condition>) -> Reading<Expr>
    ensures missed { result.missed ≡ result_err term }
    ensures value { result.value ≡ term_in term }
{
    match term {
        Ok(value) => Reading {
            value,
            missed: None,
        },
        Err(condition) => Reading {
            value: Expr::Int(0),
            missed: Some(condition),
        },
    }
}
