//! `cardinality`.

ghost use Rattle.std.specs.Prelude.{◌≡◌, ◌↔◌, ◌<◌, ◌≤◌, ◌&&◌, ◌||◌, not, [], true, length};
ghost use Rattle.std.specs.List.{AllByRecursion, flat_map};
ghost use Rattle.std.specs.List.Sorted.{IsSorted};
ghost use Rattle.std.specs.Ordering.{int_cmp};
ghost use Rattle.xs_counted.specs.Tests.{are_said, is_full, is_said};
ghost use Rattle.xs_model.specs.Comparing.{AreDifferent};
ghost use Rattle.xs_model.specs.Counting.{IsCardinality};
ghost use Rattle.xs_model.specs.Fields.{occurrence_items};
ghost use Rattle.xs_model.specs.Formed.{IsFormedItem};
ghost use Rattle.xs_model.specs.Instance.{OccursAs, values};
ghost use Rattle.xs_testing.specs.Rows.{AreBelow};

use crate::sorted::how_often;
use xs_forms::Scratch;
use xs_model::Occurrence;
use xs_testing::{put_values, term_value};

// Whether a number of occurrences is as is said.
fn is_said(occurrence: Occurrence, count: usize, a: &[i128]) -> bool
    requires { AllByRecursion (IsFormedItem (length a.now)) (occurrence_items occurrence) }
    ensures { result ≡ is_said a.now occurrence count }
{
    let number = count as i128;
    match occurrence {
        Occurrence::Term(term) => number == term_value(term, a),
        Occurrence::Span(span) => span.lo() <= number && number <= span.hi(),
    }
}

// Whether each value occurs in a sorted list as often as is said of it.
fn are_said(values: &[i128], occurs: &[Occurrence], sorted: &[i128], a: &[i128]) -> bool
    requires formed { AllByRecursion (IsFormedItem (length a.now)) (flat_map occurrence_items occurs.now) }
    requires sorted { IsSorted int_cmp sorted.now }
    ensures { result ≡ are_said a.now values.now occurs.now sorted.now }
{
    let mut dues = values;
    let mut saids = occurs;
    while let Some((due, dues_left)) = dues.split_first() {
        match saids.split_first() {
            None => return false,
            Some((said, saids_left)) => {
                if !is_said(*said, how_often(sorted, due), a) {
                    return false;
                }
                dues = dues_left;
                saids = saids_left;
            }
        }
    }
    saids.is_empty()
}

// Whether values occur in a sorted list as often as it is long.
fn is_full(values: &[i128], sorted: &[i128]) -> bool
    requires { IsSorted int_cmp sorted.now }
    ensures { result ≡ is_full values.now sorted.now }
{
    let mut left = sorted.len();
    let mut rest = values;
    while let Some((value, behind)) = rest.split_first() {
        let count = how_often(sorted, value);
        if count > left {
            return false;
        }
        left -= count;
        rest = behind;
    }
    left == 0
}

// Whether each value occurs in a sorted list as often as is said of it, and where closed, the list has no others.
fn is_kept(
    values: &[i128],
    occurs: &[Occurrence],
    closed: bool,
    sorted: &[i128],
    a: &[i128],
) -> bool
    requires formed { AllByRecursion (IsFormedItem (length a.now)) (flat_map occurrence_items occurs.now) }
    requires sorted { IsSorted int_cmp sorted.now }
    ensures { result ≡ (are_said a.now values.now occurs.now sorted.now && (not closed || is_full values.now sorted.now)) }
{
    are_said(values, occurs, sorted, a) && (!closed || is_full(values, sorted))
}

/// Whether each value occurs in a list as often as is said of it, and where closed, no other value occurs. Takes no memory,
/// and leaves the room as it is: the values of the list are sorted there.
///
/// Asks that the values differ, that each variable has a value, that integers are small, and that the room has no values,
/// and is enough for the list.
pub fn holds_cardinality(
    list: &[u32],
    due: &[i128],
    occurs: &[Occurrence],
    closed: bool,
    a: &[i128],
    scratch: &mut Scratch,
) -> bool
    requires valued { AreBelow (length a.now) list.now }
    requires formed { AllByRecursion (IsFormedItem (length a.now)) (flat_map occurrence_items occurs.now) }
    requires different { AreDifferent due.now }
    requires empty { scratch.old.values ≡ [] }
    requires room { length list.now ≤ scratch.old.most }
    ensures value { (result ≡ true) ↔ IsCardinality (OccursAs a.now) closed due.now occurs.now (values a.now list.now) }
    ensures same { scratch.new ≡ scratch.old }
{
    put_values(list, a, scratch);
    scratch.sort();
    let kept = is_kept(due, occurs, closed, scratch.values(), a);
    scratch.clear();
    kept
}
