//! The condition of a `cumulative`.

ghost use Rattle.std.specs.Prelude.{◌≡◌, None, IfOk};
ghost use Rattle.xs_conditions.specs.Conditions.{condition_of};
ghost use Rattle.xs_conditions.specs.Spelling.{word_in};
ghost use Rattle.xs_fields.specs.Conditions.{first_missed};
ghost use Rattle.xs_tasks.specs.Tasks.{is_limit_word, limit_meets};

use std::alloc::Global;
use xf_num::NoMemory;
use xs_conditions::{scan_condition, word_in};
use xs_fields::{Reading, earlier};
use xs_model::{Cond, Names};
use xs_var::judge_spelling;

// Whether the operator of a condition is `lt` or `le`.
fn is_limit(text: &[u8]) -> bool
    ensures { result ≡ is_limit_word (word_in text.now) }
{
    match word_in(text) {
        Some(word) => word.starts_with(b"(lt,") || word.starts_with(b"(le,"),
        None => false,
    }
}

/// The condition that a text spells, and the first condition of a unit that it misses; an operator other than `lt` and
/// `le` misses `Spelling`.
pub(crate) fn scan_limit(
    alloc: Global,
    text: &[u8],
    names: &Names,
    left: u64,
) -> Result<Reading<Cond>, NoMemory>
    ensures missed { IfOk result (λ r. r.missed ≡ first_missed (limit_meets names.now left text.now)) }
    ensures value { IfOk result (λ r. r.missed ≡ None → r.value ≡ condition_of names.now text.now) }
{
    let spelt = judge_spelling(is_limit(text));
    let reading = scan_condition(alloc, text, names, left)?;
    Ok(Reading {
        value: reading.value,
        missed: earlier(spelt, reading.missed),
    })
}
