//! `regular` as a whole.

ghost use Rattle.std.specs.Prelude.{◌≡◌, ◌+◌, ◌*◌, ◌≤◌, codes, length, nat_le, nat_lt, IfOk};
ghost use Rattle.xs_automata.specs.Regular.{are_parts, automaton_meets, automaton_of, is_there, parts_denote, parts_meet, regular_meets, regular_of, text_of};
ghost use Rattle.xs_fields.specs.Conditions.{IsOrMemory, answer};
ghost use Rattle.xs_model.specs.Accepted.{IsFormed, items_of};
ghost use Rattle.xs_model.specs.Outline.{variables_in};

use crate::states::States;
use crate::transitions::{scan_state, scan_states, scan_transitions};
use std::alloc::Global;
use xf_num::{Row, Vars};
use xf_text::{FieldStop, Kind};
use xs_fields::{earlier, scan_vars};
use xs_model::{Concrete, Constraint, Edges, Names, Part};
use xs_parts::{answered, part_in};
use xs_tables::{judge_sizes, text_in};

fn is_there(parts: &[Part], name: &[u8]) -> bool
    ensures { result ≡ is_there name.now parts.now }
{
    part_in(parts, name).is_some()
}

/// The text of the first child with this name; none is empty.
fn text_of<'a>(parts: &'a [Part], name: &[u8]) -> &'a [u8]
    ensures { result.now ≡ text_of name.now parts.now }
{
    match text_in(parts, name) {
        Some(text) => text,
        None => &[],
    }
}

/// Whether the children are one `list`, `transitions`, `start` and `final`.
fn are_parts(parts: &[Part]) -> bool
    ensures { result ≡ are_parts parts.now }
{
    parts.len() == 4
        && is_there(parts, b"list")
        && is_there(parts, b"transitions")
        && is_there(parts, b"start")
        && is_there(parts, b"final")
}

/// Whether a list has a member.
fn is_some(list: &Vars) -> bool
    ensures { result ≡ nat_lt 0 (length list.now) }
{
    0 < list.len()
}

/// Whether a list, transitions, a start and final states have no more items than are left.
fn are_few(list: &Vars, edges: &Edges, finals: &Row<u32>, left: u64) -> bool
    ensures { result ≡ nat_le (length list.now + (3 * length edges.now + (1 + length finals.now))) left }
{
    list.len() as u128 + 3 * edges.len() as u128 + 1 + finals.len() as u128 <= u128::from(left)
}

// The constraint of the four texts, or the kind of fault of the first condition that they miss.
fn read_automaton(
    alloc: Global,
    list: &[u8],
    transitions: &[u8],
    start: &[u8],
    finals: &[u8],
    names: &Names,
    left: u64,
) -> Result<Constraint, FieldStop>
    ensures { IsOrMemory result (answer (automaton_meets names.now left list.now transitions.now start.now finals.now) (automaton_of names.now list.now transitions.now start.now finals.now)) }
{
    let mut states = States::new(alloc);
    let list = scan_vars(alloc, list, names, left)?;
    let edges = scan_transitions(alloc, transitions, &mut states, left)?;
    let start = scan_state(start, &mut states)?;
    let finals = scan_states(alloc, finals, &mut states, left)?;
    let ends = earlier(start.missed, finals.missed);
    let behind = earlier(edges.missed, ends);
    match earlier(list.missed, behind) {
        Some(missed) => Err(FieldStop::Refused(missed.kind())),
        None => {
            let few = are_few(&list.value, &edges.value, &finals.value, left);
            let fits = is_some(&list.value);
            answered(
                judge_sizes(few, fits),
                Constraint::Regular {
                    list: list.value,
                    edges: edges.value,
                    start: start.value,
                    finals: finals.value,
                },
            )
        }
    }
}

// The constraint, or the kind of fault of the first condition that is missed.
fn read_parts(
    alloc: Global,
    parts: &[Part],
    names: &Names,
    left: u64,
) -> Result<Constraint, FieldStop>
    ensures { IsOrMemory result (answer (parts_meet names.now left parts.now) (parts_denote names.now parts.now)) }
{
    if are_parts(parts) {
        let list = text_of(parts, b"list");
        let transitions = text_of(parts, b"transitions");
        let start = text_of(parts, b"start");
        let finals = text_of(parts, b"final");
        read_automaton(alloc, list, transitions, start, finals, names, left)
    } else {
        Err(FieldStop::Refused(Kind::Shape))
    }
}

/// The constraint of a `regular`, a `list`, `transitions`, a `start` and `final` states, where at most `left` items may still
/// come: one for each variable, three for each transition, and one for the start and each final state. Else the kind of
/// fault of the first condition that it misses, or want of memory.
pub fn read_regular(
    alloc: Global,
    c: &Concrete,
    names: &Names,
    left: u64,
) -> Result<Constraint, FieldStop>
    ensures value { IsOrMemory result (answer (regular_meets names.now left c.now) (regular_of names.now c.now)) }
    ensures formed { IfOk result (λ x. IsFormed (variables_in names.now) x) }
    ensures few { IfOk result (λ x. items_of x ≤ left) }
{
    read_parts(alloc, c.parts.as_slice(), names, left)
}
