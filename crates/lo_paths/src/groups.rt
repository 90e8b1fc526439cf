//! Arrivals by the states that are arrived at.

ghost use Rattle.std.specs.Prelude.{◌≡◌, ◌<◌, ◌≤◌, ◌∷◌, ◌++◌, [], List, length, get_or, slice_set, IfOk, OnOk};
ghost use Rattle.lo_paths.specs.declared.path.Arrival.{Arrival};
ghost use Rattle.lo_paths.specs.Groups.{IsGrouped};

use crate::path::Arrival;
use crate::states::States;
use lo_emit::Term;
use std::alloc::Global;
use xf_num::{NoMemory, Row};

/// States that are arrived at, in order of first target, and for each what tells of the transitions there whether they are
/// taken.
#[derive(Drop)]
pub struct Groups {
    pub states: States,
    pub ways: Row<Row<Term>>,
}

/// Appends a truth value to the list at a place.
fn push_at(alloc: Global, at: usize, truth: Term, ways: &mut Row<Row<Term>>) -> Result<(), NoMemory>
    requires { at < length ways.old }
    ensures { OnOk result (ways.new ≡ slice_set ways.old at (get_or ways.old at [] ++ truth ∷ [])) }
{
    let mut all = ways.replace(at, Row::new(alloc));
    all.push(truth)?;
    ways.replace(at, all);
    Ok(())
}

/// Appends a list of one truth value.
fn push_first(alloc: Global, truth: Term, ways: &mut Row<Row<Term>>) -> Result<(), NoMemory>
    ensures { OnOk result (ways.new ≡ ways.old ++ (truth ∷ []) ∷ []) }
{
    let mut all = Row::new(alloc);
    all.push(truth)?;
    ways.push(all)?;
    Ok(())
}

/// Puts an arrival to those of its state.
fn group(alloc: Global, arrival: Arrival, groups: &mut Groups) -> Result<(), NoMemory>
    requires even { length groups.old.ways ≡ length groups.old.states }
    ensures { (rs : List Arrival) → IsGrouped rs groups.old → OnOk result (IsGrouped (rs ++ arrival ∷ []) groups.new) }
{
    match groups.states.place(arrival.state) {
        Some(at) => {
            push_at(alloc, at, arrival.truth, &mut groups.ways)?;
            Ok(())
        }
        None => {
            groups.states.push(arrival.state)?;
            push_first(alloc, arrival.truth, &mut groups.ways)?;
            Ok(())
        }
    }
}

/// The states that are arrived at, and for each what tells of the transitions there.
pub fn group_all(alloc: Global, arrivals: &[Arrival]) -> Result<Groups, NoMemory>
    ensures value { IfOk result (λ groups. IsGrouped arrivals.now groups) }
    ensures few { IfOk result (λ groups. length groups.ways ≤ length arrivals.now) }
{
    let mut groups = Groups {
        states: States::new(alloc),
        ways: Row::new(alloc),
    };
    for arrival in arrivals {
        group(alloc, *arrival, &mut groups)?;
    }
    Ok(groups)
}
