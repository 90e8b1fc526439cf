//! How much room the tests of constraints ask.

ghost use Rattle.std.specs.Prelude.{◌≡◌, ◌≤◌, ◌^◌};
ghost use Rattle.xs_model.specs.Fitting.{ends_of};
ghost use Rattle.xs_forms.specs.Room.{body_length, goal_length, longest_in, longest_line, longest_row, most_longest, most_states, past_states, states_in};

use xf_num::Row;
use xs_model::{Body, Constraint, Edge, Objective};

// One more than the greatest of states.
fn past_states(states: &[u32]) -> u64
    ensures value { result ≡ past_states states.now }
    ensures few { result ≤ 2 ^ 32 }
{
    let mut past: u64 = 0;
    for state in states {
        past = past.max(*state as u64 + 1);
    }
    past
}

// One more than the greatest of the states of transitions.
fn past_edges(edges: &[Edge]) -> u64
    ensures value { result ≡ past_states (ends_of edges.now) }
    ensures few { result ≤ 2 ^ 32 }
{
    let mut past: u64 = 0;
    for edge in edges {
        past = past.max(edge.from as u64 + 1).max(edge.to as u64 + 1);
    }
    past
}

// How many states a constraint has.
fn states_in(constraint: &Constraint) -> u64
    ensures value { result ≡ states_in constraint.now }
    ensures few { result ≤ 2 ^ 32 }
{
    match constraint {
        Constraint::Regular {
            edges,
            start,
            finals,
            ..
        } => past_edges(edges.as_slice())
            .max(*start as u64 + 1)
            .max(past_states(finals.as_slice())),
        Constraint::Mdd {
            edges,
            root,
            leaf,
            ..
        } => past_edges(edges.as_slice())
            .max(*root as u64 + 1)
            .max(*leaf as u64 + 1),
        _ => 0,
    }
}

// The greatest number of states of a constraint.
pub(crate) fn most_states(constraints: &[Constraint]) -> u64
    ensures value { result ≡ most_states constraints.now }
    ensures few { result ≤ 2 ^ 32 }
{
    let mut most: u64 = 0;
    for constraint in constraints {
        most = most.max(states_in(constraint));
    }
    most
}

// The greatest length of a row.
fn longest_row<T>(rows: &[Row<T>]) -> usize
    ensures { result ≡ longest_row rows.now }
{
    let mut longest = 0;
    for row in rows {
        longest = longest.max(row.len());
    }
    longest
}

// The greatest length of a row or of a column.
fn longest_line<T>(rows: &[Row<T>]) -> usize
    ensures { result ≡ longest_line rows.now }
{
    rows.len().max(longest_row(rows))
}

// The greatest length of a list of a constraint, or of a line of its matrix.
fn longest_in(constraint: &Constraint) -> usize
    ensures { result ≡ longest_in constraint.now }
{
    match constraint {
        Constraint::Intension { .. } | Constraint::Unary { .. } => 0,
        Constraint::Extension { list, .. } => list.len(),
        Constraint::Regular { list, .. } => list.len(),
        Constraint::Mdd { list, .. } => list.len(),
        Constraint::AllDifferent { list, except } => list.len().max(except.len()),
        Constraint::DifferentLists { lists } => longest_line(lists.as_slice()),
        Constraint::DifferentMatrix { rows } => longest_line(rows.as_slice()),
        Constraint::AllEqual { list } => list.len(),
        Constraint::Ordered { list, .. } => list.len(),
        Constraint::Lex { lists, .. } => longest_line(lists.as_slice()),
        Constraint::LexMatrix { rows, .. } => longest_line(rows.as_slice()),
        Constraint::Sum { list, .. } => list.len(),
        Constraint::Count { list, values, .. } => list.len().max(values.len()),
        Constraint::NValues { list, except, .. } => list.len().max(except.len()),
        Constraint::Cardinality { list, values, .. } => list.len().max(values.len()),
        Constraint::Minimum { list, .. } => list.len(),
        Constraint::Maximum { list, .. } => list.len(),
        Constraint::Element { list, .. } => list.len(),
        Constraint::ElementMatrix { rows, .. } => longest_line(rows.as_slice()),
        Constraint::Channel { list, .. } => list.len(),
        Constraint::ChannelTwo { first, second, .. } => first.len().max(second.len()),
        Constraint::ChannelValue { list, .. } => list.len(),
        Constraint::NoOverlap { origins, .. } => longest_line(origins.as_slice()),
        Constraint::Cumulative { origins, .. } => origins.len(),
        Constraint::Circuit { list, .. } => list.len(),
        Constraint::Instantiation { list, .. } => list.len(),
    }
}

// The same of some constraint.
pub(crate) fn most_longest(constraints: &[Constraint]) -> usize
    ensures { result ≡ most_longest constraints.now }
{
    let mut most = 0;
    for constraint in constraints {
        most = most.max(longest_in(constraint));
    }
    most
}

// The length of the list of an objective.
fn body_length(body: &Body) -> usize
    ensures { result ≡ body_length body.now }
{
    match body {
        Body::Value(_) => 0,
        Body::Sum(list, _) | Body::Least(list) | Body::Greatest(list) | Body::Distinct(list) => {
            list.len()
        }
    }
}

pub(crate) fn goal_length(objective: &Option<Objective>) -> usize
    ensures { result ≡ goal_length objective.now }
{
    match objective {
        Some(objective) => body_length(&objective.body),
        None => 0,
    }
}
