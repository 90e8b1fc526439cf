//! A condition `(operator,operand)`.

ghost use Rattle.std.specs.Prelude.{◌≡◌, ◌≤◌, None, Some, length, IfOk, MatchOption};
ghost use Rattle.std.specs.List.{AllByRecursion};
ghost use Rattle.xs_conditions.specs.Conditions.{condition_meets, condition_of, split_in, split_meets, split_of};
ghost use Rattle.xs_conditions.specs.Spelling.{with_count};
ghost use Rattle.xs_fields.specs.Conditions.{first_missed};
ghost use Rattle.xs_model.specs.Fields.{cond_items};
ghost use Rattle.xs_model.specs.Fitting.{IsCond};
ghost use Rattle.xs_model.specs.Formed.{IsFormedItem};
ghost use Rattle.xs_model.specs.Outline.{variables_in};

use crate::operand::{none_for, scan_operand};
use crate::operator::{membership_of, relation_of};
use crate::spelling::{between, halves, word_in};
use std::alloc::Global;
use xf_num::NoMemory;
use xs_fields::{Condition, Reading};
use xs_model::{Cond, Names};

/// The operator and the operand of a condition.
fn split_in(text: &[u8]) -> Option<(&[u8], &[u8])>
    ensures { MatchOption result (split_in text.now ≡ None) (λ x. split_in text.now ≡ Some (x.0.now, x.1.now)) }
{
    match word_in(text) {
        Some(word) => match between(word, b'(', b')') {
            Some(inner) => halves(inner, b','),
            None => None,
        },
        None => None,
    }
}

/// The condition that a text spells, and the first condition of a unit that it misses where its items are not counted.
fn scan_split(alloc: Global, text: &[u8], names: &Names) -> Result<Reading<Cond>, NoMemory>
    ensures missed { IfOk result (λ r. r.missed ≡ first_missed (split_meets names.now (split_in text.now))) }
    ensures value { IfOk result (λ r. r.missed ≡ None → r.value ≡ split_of names.now (split_in text.now)) }
{
    match split_in(text) {
        Some((op, operand)) => {
            scan_operand(alloc, relation_of(op), membership_of(op), operand, names)
        }
        None => Ok(none_for(Condition::Spelling)),
    }
}

/// How many items a condition has.
pub fn count_items(cond: &Cond) -> u64
    ensures { result ≡ length (cond_items cond.now) }
{
    match cond {
        Cond::InSpan(_) => 2,
        Cond::OutSpan(_) => 2,
        Cond::InSet(set) => set.len() as u64,
        Cond::OutSet(set) => set.len() as u64,
        _ => 1,
    }
}

/// The condition that a text spells, and the first condition of a unit that the text misses where so many items may still
/// come: `Spelling`, `Magnitude`, `Naming` or `Counting`.
pub fn scan_condition(
    alloc: Global,
    text: &[u8],
    names: &Names,
    left: u64,
) -> Result<Reading<Cond>, NoMemory>
    ensures missed { IfOk result (λ r. r.missed ≡ first_missed (condition_meets names.now text.now left)) }
    ensures value { IfOk result (λ r. r.missed ≡ None → r.value ≡ condition_of names.now text.now) }
    ensures formed { IfOk result (λ r. r.missed ≡ None → AllByRecursion (IsFormedItem (variables_in names.now)) (cond_items r.value)) }
    ensures fitting { IfOk result (λ r. r.missed ≡ None → IsCond r.value) }
    ensures few { IfOk result (λ r. r.missed ≡ None → length (cond_items r.value) ≤ left) }
{
    let reading = scan_split(alloc, text, names)?;
    let missed = with_count(reading.missed, count_items(&reading.value), left);
    Ok(Reading {
        value: reading.value,
        missed,
    })
}

/// What is missed first where so many items are to be no more than are left.
fn with_count(missed: Option<Condition>, count: u64, left: u64) -> Option<Condition>
    ensures { result ≡ with_count missed count left }
{
    match missed {
        Some(condition) => Some(condition),
        None => {
            if count <= left {
                None
            } else {
                Some(Condition::Counting)
            }
        }
    }
}
