//! Whether a list of values is a circuit: by one walk from the first place that does not lead to itself.

ghost use Rattle.std.specs.Prelude.{◌≡◌, ◌↔◌, ◌&&◌, ◌+ℤ◌, ◌<◌, true, length, pos, MatchOption};
ghost use Rattle.std.specs.List.{AllByRecursion, list_all};
ghost use Rattle.xs_laws.specs.Indices.{IsIndex, is_index};
ghost use Rattle.xs_model.specs.Fields.{optional, term};
ghost use Rattle.xs_model.specs.Formed.{AreFormed};
ghost use Rattle.xs_model.specs.Instance.{Holds, IsSizeOf, values};
ghost use Rattle.xs_model.specs.Value.{at};
ghost use Rattle.xs_model.specs.declared.instance.Constraint.TheVariants.{Circuit};
ghost use Rattle.xs_paths.specs.Round.{first_moved, goes_round};
ghost use Rattle.xs_paths.specs.Walk.{is_moved, moved_places};
ghost use Rattle.xs_testing.specs.Rows.{AreBelow};

use xs_model::Term;
use xs_testing::{cell, term_value};

// Whether a value is an index of a list of so many members.
fn is_index(start: &i128, count: usize, value: &i128) -> bool
    ensures { result ≡ is_index start.now count value.now }
{
    let Some(place) = value.checked_sub(*start) else {
        return false;
    };
    0 <= place && place < count as i128
}

// Whether every value is an index.
fn are_indices(list: &[u32], start: &i128, a: &[i128]) -> bool
    requires { AreBelow (length a.now) list.now }
    ensures { result ≡ list_all (is_index start.now (length list.now)) (values a.now list.now) }
{
    for variable in list {
        if !is_index(start, list.len(), &a[*variable as usize]) {
            return false;
        }
    }
    true
}

// The place whose index is the value at a place.
fn next(list: &[u32], start: &i128, a: &[i128], place: usize) -> usize
    requires place { place < length list.now }
    requires valued { AreBelow (length a.now) list.now }
    requires inside { AllByRecursion (IsIndex start.now (length list.now)) (values a.now list.now) }
    ensures within { result < length list.now }
    ensures value { at (values a.now list.now) place ≡ start.now +ℤ pos result }
{
    (cell(list, place, a) - *start) as usize
}

// Whether a place does not lead to itself.
fn is_moved(list: &[u32], start: &i128, a: &[i128], place: usize) -> bool
    requires place { place < length list.now }
    requires valued { AreBelow (length a.now) list.now }
    requires inside { AllByRecursion (IsIndex start.now (length list.now)) (values a.now list.now) }
    ensures { result ≡ is_moved start.now (values a.now list.now) place }
{
    next(list, start, a, place) != place
}

// The first place that does not lead to itself.
fn first_moved(list: &[u32], start: &i128, a: &[i128]) -> Option<usize>
    requires valued { AreBelow (length a.now) list.now }
    requires inside { AllByRecursion (IsIndex start.now (length list.now)) (values a.now list.now) }
    ensures { MatchOption result (first_moved start.now (values a.now list.now) ≡ length list.now) (λ home. (home ≡ first_moved start.now (values a.now list.now)) × (home < length list.now)) }
{
    for place in 0..list.len() {
        if is_moved(list, start, a, place) {
            return Some(place);
        }
    }
    None
}

// How many places do not lead to themselves.
fn moved_places(list: &[u32], start: &i128, a: &[i128]) -> usize
    requires valued { AreBelow (length a.now) list.now }
    requires inside { AllByRecursion (IsIndex start.now (length list.now)) (values a.now list.now) }
    ensures { result ≡ moved_places start.now (values a.now list.now) }
{
    let mut count = 0;
    for place in 0..list.len() {
        if is_moved(list, start, a, place) {
            count += 1;
        }
    }
    count
}

// Whether the walk from a place is back after so many steps, and not before.
fn goes_round(list: &[u32], start: &i128, a: &[i128], home: usize, nodes: usize) -> bool
    requires home { home < length list.now }
    requires valued { AreBelow (length a.now) list.now }
    requires inside { AllByRecursion (IsIndex start.now (length list.now)) (values a.now list.now) }
    ensures { result ≡ goes_round start.now (values a.now list.now) home nodes }
{
    let mut place = next(list, start, a, home);
    for _ in 1..nodes {
        if place == home {
            return false;
        }
        place = next(list, start, a, place);
    }
    place == home
}

// Whether a number of nodes is as the size says, where one is given.
fn is_size(size: &Option<Term>, nodes: usize, a: &[i128]) -> bool
    requires { AreFormed (length a.now) (optional term size.now) }
    ensures { (result ≡ true) ↔ IsSizeOf a.now size.now nodes }
{
    match size {
        None => true,
        Some(term) => nodes as i128 == term_value(*term, a),
    }
}

// Whether values that are indices are one circuit of so many nodes as the size says.
fn is_sized_circuit(list: &[u32], start: &i128, size: &Option<Term>, a: &[i128]) -> bool
    requires valued { AreBelow (length a.now) list.now }
    requires inside { AllByRecursion (IsIndex start.now (length list.now)) (values a.now list.now) }
    requires size { AreFormed (length a.now) (optional term size.now) }
    ensures { (result ≡ true) ↔ Holds (Circuit list.now start.now size.now) a.now }
{
    let nodes = moved_places(list, start, a);
    match first_moved(list, start, a) {
        Some(home) => goes_round(list, start, a, home, nodes) && is_size(size, nodes, a),
        None => false,
    }
}

/// Whether every value of a list is an index, counted from the start, and the places that do not lead to themselves are one
/// circuit of at least two nodes, of so many as the size says where one is given. Takes linear time and no memory.
///
/// Asks that each variable of the list has a value, and that the size is small, or a variable that has a value.
pub fn holds_circuit(list: &[u32], start: &i128, size: &Option<Term>, a: &[i128]) -> bool
    requires valued { AreBelow (length a.now) list.now }
    requires size { AreFormed (length a.now) (optional term size.now) }
    ensures { (result ≡ true) ↔ Holds (Circuit list.now start.now size.now) a.now }
{
    are_indices(list, start, a) && is_sized_circuit(list, start, size, a)
}
