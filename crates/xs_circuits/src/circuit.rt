//! The reader of a `circuit`.

ghost use Rattle.std.specs.Prelude.{◌≡◌, ◌≤◌, None, IfOk};
ghost use Rattle.std.specs.Option.{option_map};
ghost use Rattle.xs_circuits.specs.Circuit.{circuit_meets, circuit_of, fields_denote, fields_meet, items_in, parts_denote, parts_meet, size_meets, size_of};
ghost use Rattle.xs_conditions.specs.Spelling.{with_count};
ghost use Rattle.xs_fields.specs.Conditions.{IsOrMemory, answer, first_missed};
ghost use Rattle.xs_model.specs.Accepted.{IsFormed, items_of};
ghost use Rattle.xs_model.specs.Outline.{variables_in};

use crate::parts::{are_parts, list_text, size_text, start_text};
use std::alloc::Global;
use xf_num::NoMemory;
use xf_text::FieldStop;
use xs_conditions::{scan_start, scan_term};
use xs_fields::{Condition, Reading, earlier, scan_vars};
use xs_model::{Concrete, Constraint, Names, Part, Term};
use xs_parts::answered;
use xs_var::judge_spelling;

// The size, and what its text misses first.
fn scan_size(
    alloc: Global,
    text: Option<&[u8]>,
    names: &Names,
) -> Result<Reading<Option<Term>>, NoMemory>
    ensures missed { IfOk result (λ r. r.missed ≡ first_missed (size_meets names.now (option_map (λ x. x.now) text.entry))) }
    ensures value { IfOk result (λ r. r.missed ≡ None → r.value ≡ size_of names.now (option_map (λ x. x.now) text.entry)) }
{
    match text {
        Some(text) => {
            let term = scan_term(alloc, text, names)?;
            Ok(Reading {
                value: Some(term.value),
                missed: term.missed,
            })
        }
        None => Ok(Reading {
            value: None,
            missed: None,
        }),
    }
}

// How many items a list of so many members, a start and a size are.
fn items_in(members: usize, size: Option<&[u8]>) -> u128
    ensures { result ≡ items_in members (option_map (λ x. x.now) size.entry) }
{
    match size {
        None => members as u128 + 1,
        Some(_) => members as u128 + 2,
    }
}

// What is missed first where so many items are to be no more than are left.
fn with_count(missed: Option<Condition>, count: u128, left: u64) -> Option<Condition>
    ensures { result ≡ with_count missed count left }
{
    match missed {
        None => {
            if count <= u128::from(left) {
                None
            } else {
                Some(Condition::Counting)
            }
        }
        Some(condition) => Some(condition),
    }
}

// The constraint of a list, a start and a size, and what their texts and their count miss first.
fn scan_fields(
    alloc: Global,
    list: &[u8],
    start: Option<&[u8]>,
    size: Option<&[u8]>,
    names: &Names,
    left: u64,
) -> Result<Reading<Constraint>, NoMemory>
    ensures missed { IfOk result (λ r. r.missed ≡ first_missed (fields_meet names.now left list.now (option_map (λ x. x.now) start.entry) (option_map (λ x. x.now) size.entry))) }
    ensures value { IfOk result (λ r. r.missed ≡ None → r.value ≡ fields_denote names.now list.now (option_map (λ x. x.now) start.entry) (option_map (λ x. x.now) size.entry)) }
{
    let members = scan_vars(alloc, list, names, left)?;
    let first = scan_start(start);
    let nodes = scan_size(alloc, size, names)?;
    let ends = earlier(first.missed, nodes.missed);
    let texts = earlier(members.missed, ends);
    let missed = with_count(texts, items_in(members.value.len(), size), left);
    Ok(Reading {
        value: Constraint::Circuit {
            list: members.value,
            start: first.value,
            size: nodes.value,
        },
        missed,
    })
}

// The constraint, or the kind of fault of the first condition that is missed.
fn read_parts(
    alloc: Global,
    parts: &[Part],
    names: &Names,
    left: u64,
) -> Result<Constraint, FieldStop>
    ensures { IsOrMemory result (answer (parts_meet names.now left parts.now) (parts_denote names.now parts.now)) }
{
    let unit = judge_spelling(are_parts(parts));
    let reading = scan_fields(
        alloc,
        list_text(parts),
        start_text(parts),
        size_text(parts),
        names,
        left,
    )?;
    answered(earlier(unit, reading.missed), reading.value)
}

/// The constraint of a `circuit`, whose list is its text, or a `list` child with an optional start, beside which a `size` may
/// stand, where at most `left` items may still come: one for each list member, one for the start, given or not, and one for
/// the size. Else the kind of fault of the first condition that it misses, or want of memory.
pub fn read_circuit(
    alloc: Global,
    c: &Concrete,
    names: &Names,
    left: u64,
) -> Result<Constraint, FieldStop>
    ensures value { IsOrMemory result (answer (circuit_meets names.now left c.now) (circuit_of names.now c.now)) }
    ensures formed { IfOk result (λ x. IsFormed (variables_in names.now) x) }
    ensures few { IfOk result (λ x. items_of x ≤ left) }
{
    read_parts(alloc, c.parts.as_slice(), names, left)
}
