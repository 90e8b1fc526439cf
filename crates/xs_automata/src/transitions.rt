//! Transitions, and the states of `start` and `final`.

ghost use Rattle.std.specs.Prelude.{◌≡◌, ◌∷◌, ◌++◌, [], length, None, Some, IfOk, MatchOption};
ghost use Rattle.std.specs.Result.{result_err};
ghost use Rattle.xs_automata.specs.Numbers.{edge_of, edges_from, number_of, numbers_from, with_name, with_step, with_steps};
ghost use Rattle.xs_automata.specs.Transitions.{Step, is_small_step, is_state, seen_step, spelt_value, state_meets, state_of, states_meet, states_of, step_by, step_in, step_meets, step_of, steps_in, steps_of, transitions_meet};
ghost use Rattle.xs_fields.specs.Conditions.{earlier_of, first_missed, judged};
ghost use Rattle.xs_fields.specs.Identifiers.{identifier_meets};
ghost use Rattle.xs_fields.specs.Integers.{integer_of, is_small};
ghost use Rattle.xs_fields.specs.Scanning.{joined};
ghost use Rattle.xs_fields.specs.Words.{is_byte, parts, words_of};
ghost use Rattle.xs_tables.specs.Groups.{is_room_for, spelt_meets};

use crate::states::States;
use std::alloc::Global;
use xf_num::{NoMemory, Row};
use xs_fields::{
    Condition, Reading, cut, earlier, is_blank, is_identifier, judge_identifier, next_word,
    read_integer,
};
use xs_model::{Edge, Edges};
use xs_tables::{has_room, inner, joined, judge_behind, next_group};

/// The value of a transition between two states, or the first of `Spelling` and `Magnitude` that they miss.
fn read_value(from: &[u8], value: &[u8], to: &[u8]) -> Result<i128, Condition>
    ensures { result ≡ judged is_small (spelt_value from.now value.now to.now) }
{
    if is_identifier(from) && is_identifier(to) {
        read_integer(value)
    } else {
        Err(Condition::Spelling)
    }
}

/// A transition between two states.
fn step_between<'a>(
    from: &'a [u8],
    value: &[u8],
    to: &'a [u8],
) -> Result<(&'a [u8], i128, &'a [u8]), Condition>
    ensures { seen_step (λ x. x.now) result ≡ judged is_small_step (step_by from.now value.now to.now) }
{
    match read_value(from, value, to) {
        Ok(value) => Ok((from, value, to)),
        Err(missed) => Err(missed),
    }
}

/// A transition of which the first state stands before these bytes and a comma.
fn step_behind<'a>(
    from: &'a [u8],
    behind: &'a [u8],
) -> Result<(&'a [u8], i128, &'a [u8]), Condition>
    ensures { seen_step (λ x. x.now) result ≡ judged is_small_step (step_in (from.now ∷ parts (is_byte 44) behind.now)) }
{
    let (value, behind) = cut(behind, b',');
    match behind {
        None => Err(Condition::Spelling),
        Some(behind) => {
            let (to, more) = cut(behind, b',');
            match more {
                None => step_between(from, value, to),
                Some(_) => Err(Condition::Spelling),
            }
        }
    }
}

/// A transition, from what stands between its parentheses.
fn step_inside(inner: &[u8]) -> Result<(&[u8], i128, &[u8]), Condition>
    ensures { seen_step (λ x. x.now) result ≡ judged is_small_step (step_in (parts (is_byte 44) inner.now)) }
{
    let (from, behind) = cut(inner, b',');
    match behind {
        None => Err(Condition::Spelling),
        Some(behind) => step_behind(from, behind),
    }
}

/// The transition of a group, or the first of `Spelling` and `Magnitude` that it misses.
fn read_step(group: &[u8]) -> Result<(&[u8], i128, &[u8]), Condition>
    ensures { seen_step (λ x. x.now) result ≡ judged is_small_step (step_of group.now) }
{
    match inner(group) {
        None => Err(Condition::Spelling),
        Some(inner) => step_inside(inner),
    }
}

/// Appends a transition between the numbers of its states.
fn push_edge(
    states: &mut States,
    edges: &mut Edges,
    from: &[u8],
    value: i128,
    to: &[u8],
) -> Result<(), NoMemory>
    ensures value { IfOk result (λ _. edges.new ≡ edges.old ++ edge_of states.old (record { from = from.now; value = value; to = to.now }) ∷ []) }
    ensures known { IfOk result (λ _. states.new ≡ with_step states.old (record { from = from.now; value = value; to = to.now })) }
{
    let from = states.number(from)?;
    let to = states.number(to)?;
    edges.push(Edge { from, value, to })?;
    Ok(())
}

/// Appends the transition of a group, where nothing is missed and there is room. What is missed with it.
fn take_step(
    states: &mut States,
    edges: &mut Edges,
    missed: Option<Condition>,
    group: &[u8],
    left: u64,
) -> Result<Option<Condition>, NoMemory>
    ensures missed { IfOk result (λ m. m ≡ joined missed (first_missed (step_meets group.now)) (is_room_for left (length edges.old) (length (steps_in group.now)))) }
    ensures value { IfOk result (λ m. m ≡ None → edges.new ≡ edges.old ++ edges_from states.old (steps_in group.now)) }
    ensures known { IfOk result (λ m. m ≡ None → states.new ≡ with_steps states.old (steps_in group.now)) }
{
    match read_step(group) {
        Err(condition) => Ok(earlier(missed, Some(condition))),
        Ok((from, value, to)) => {
            let next = joined(missed, None, has_room(left, edges.len() as u64, 1));
            if next.is_none() {
                push_edge(states, edges, from, value, to)?;
            }
            Ok(next)
        }
    }
}

/// The transitions that a text denotes, whose states are numbered and mentioned, and the first condition that the text
/// misses where at most `left` transitions are allowed: `Spelling`, `Magnitude` or `Counting`. Past the limit none is
/// appended, and the groups are judged to the end.
pub(crate) fn scan_transitions(
    alloc: Global,
    text: &[u8],
    states: &mut States,
    left: u64,
) -> Result<Reading<Edges>, NoMemory>
    ensures missed { IfOk result (λ r. r.missed ≡ first_missed (transitions_meet text.now left)) }
    ensures value { IfOk result (λ r. r.missed ≡ None → r.value ≡ edges_from states.old (steps_of text.now)) }
    ensures known { IfOk result (λ r. r.missed ≡ None → states.new ≡ with_steps states.old (steps_of text.now)) }
{
    let mut edges = Row::new(alloc);
    let mut missed = None;
    let mut rest = text;
    while let Some((group, more)) = next_group(rest) {
        missed = take_step(states, &mut edges, missed, group, left)?;
        rest = more;
    }
    Ok(Reading {
        value: edges,
        missed: earlier(missed, judge_behind(rest)),
    })
}

/// The number of the one state of a text, which is mentioned, and `Spelling` where the text is not one state.
pub(crate) fn scan_state(text: &[u8], states: &mut States) -> Result<Reading<u32>, NoMemory>
    ensures missed { IfOk result (λ r. r.missed ≡ first_missed (state_meets text.now)) }
    ensures value { IfOk result (λ r. r.missed ≡ None → r.value ≡ number_of states.old (state_of text.now)) }
    ensures known { IfOk result (λ r. r.missed ≡ None → states.new ≡ with_name states.old (state_of text.now)) }
{
    match next_word(text) {
        Some((name, more)) if is_blank(more) && is_identifier(name) => {
            let value = states.number(name)?;
            Ok(Reading {
                value,
                missed: None,
            })
        }
        _ => Ok(Reading {
            value: 0,
            missed: Some(Condition::Spelling),
        }),
    }
}

/// Appends the number of a state, where nothing is missed and there is room. What is missed with it.
fn take_state(
    states: &mut States,
    numbers: &mut Row<u32>,
    missed: Option<Condition>,
    name: &[u8],
    left: u64,
) -> Result<Option<Condition>, NoMemory>
    ensures missed { IfOk result (λ m. m ≡ joined missed (first_missed (identifier_meets name.now)) (is_room_for left (length numbers.old) 1)) }
    ensures value { IfOk result (λ m. m ≡ None → numbers.new ≡ numbers.old ++ number_of states.old name.now ∷ []) }
    ensures known { IfOk result (λ m. m ≡ None → states.new ≡ with_name states.old name.now) }
{
    let room = has_room(left, numbers.len() as u64, 1);
    let next = joined(missed, judge_identifier(name), room);
    if next.is_none() {
        let number = states.number(name)?;
        numbers.push(number)?;
    }
    Ok(next)
}

/// The numbers of the states of a text, which are mentioned, and the first condition that the text misses where at most
/// `left` states are allowed: `Spelling` or `Counting`. Past the limit none is appended, and the words are judged to the
/// end.
pub(crate) fn scan_states(
    alloc: Global,
    text: &[u8],
    states: &mut States,
    left: u64,
) -> Result<Reading<Row<u32>>, NoMemory>
    ensures missed { IfOk result (λ r. r.missed ≡ first_missed (states_meet text.now left)) }
    ensures value { IfOk result (λ r. r.missed ≡ None → r.value ≡ numbers_from states.old (states_of text.now)) }
{
    let mut numbers = Row::new(alloc);
    let mut missed = None;
    let mut rest = text;
    while let Some((name, more)) = next_word(rest) {
        missed = take_state(states, &mut numbers, missed, name, left)?;
        rest = more;
    }
    Ok(Reading {
        value: numbers,
        missed,
    })
}
