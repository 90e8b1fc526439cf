//! Rows and their members.

ghost use Rattle.std.specs.Prelude.{◌≡◌, ◌<◌, ◌+◌, ◌&&◌, nat_le, length, map, IfOk, MatchOption};
ghost use Rattle.xs_boxes.specs.Boxes.{one_each};
ghost use Rattle.xs_model.specs.Formed.{total};

use std::alloc::Global;
use xf_num::{NoMemory, Row, Vars};
use xs_model::{Term, Terms};

/// A row for each variable.
pub(crate) fn one_each_variable(alloc: Global, list: &[u32]) -> Result<Row<Vars>, NoMemory>
    ensures { IfOk result (λ rows. rows ≡ one_each list.now) }
{
    let mut rows = Row::with_room(alloc, list.len())?;
    for variable in list {
        let row = Row::from_slice(alloc, &[*variable])?;
        rows.push(row)?;
    }
    Ok(rows)
}

/// A row for each term.
pub(crate) fn one_each_term(alloc: Global, list: &[Term]) -> Result<Row<Terms>, NoMemory>
    ensures { IfOk result (λ rows. rows ≡ one_each list.now) }
{
    let mut rows = Row::with_room(alloc, list.len())?;
    for term in list {
        let row = Row::from_slice(alloc, &[*term])?;
        rows.push(row)?;
    }
    Ok(rows)
}

// How much room is left behind the members of rows. None exactly where there is not so much.
fn behind_variables(rows: &[Vars], left: u64) -> Option<u64>
    ensures { MatchOption result (left < total (map length rows.now)) (λ room. room + total (map length rows.now) ≡ left) }
{
    let mut room = left;
    for row in rows {
        let len = row.len() as u64;
        if len > room {
            return None;
        }
        room -= len;
    }
    Some(room)
}

// The same of terms.
fn behind_terms(rows: &[Terms], left: u64) -> Option<u64>
    ensures { MatchOption result (left < total (map length rows.now)) (λ room. room + total (map length rows.now) ≡ left) }
{
    let mut room = left;
    for row in rows {
        let len = row.len() as u64;
        if len > room {
            return None;
        }
        room -= len;
    }
    Some(room)
}

/// Whether origins and lengths have no more members in all than are left.
pub(crate) fn are_few(origins: &[Vars], lengths: &[Terms], left: u64) -> bool
    ensures { result ≡ nat_le (total (map length origins.now) + total (map length lengths.now)) left }
{
    match behind_variables(origins, left) {
        Some(room) => behind_terms(lengths, room).is_some(),
        None => false,
    }
}
