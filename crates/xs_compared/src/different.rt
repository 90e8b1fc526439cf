//! `allDifferent` over a list and over a matrix.

ghost use Rattle.std.specs.Prelude.{◌≡◌, ◌↔◌, ◌<◌, ◌≤◌, ◌&&◌, [], true, length, map};
ghost use Rattle.std.specs.List.{AllByRecursion, list_all};
ghost use Rattle.xs_compared.specs.Tests.{all_below, all_next, are_different, is_apart, passes_next};
ghost use Rattle.xs_forms.specs.Room.{longest_line, longest_row, with_values};
ghost use Rattle.xs_model.specs.Comparing.{AreDifferentBut, AreDifferentLines};
ghost use Rattle.xs_model.specs.Fitting.{HaveLength};
ghost use Rattle.xs_model.specs.Instance.{rows_of, values};
ghost use Rattle.xs_model.specs.Lists.{column, width};
ghost use Rattle.xs_testing.specs.Rows.{AreBelow, HasPlace};

use xf_num::Vars;
use xs_forms::Scratch;
use xs_testing::{contains, put_column, put_values, width};

// Whether a value differs from the next, where there is one, or is an exception.
fn is_apart(value: &i128, behind: &[i128], except: &[i128]) -> bool
    ensures { result ≡ passes_next (is_apart except.now) value.now behind.now }
{
    match behind.split_first() {
        None => true,
        Some((next, _)) => value != next || contains(except, value),
    }
}

// Whether no value is equal to the next, but exceptions.
fn are_apart(values: &[i128], except: &[i128]) -> bool
    ensures { result ≡ all_next (is_apart except.now) values.now }
{
    let mut rest = values;
    while let Some((value, behind)) = rest.split_first() {
        if !is_apart(value, behind, except) {
            return false;
        }
        rest = behind;
    }
    true
}

// Whether the values that were put differ, but exceptions. Takes them away.
fn are_put_different(except: &[i128], scratch: &mut Scratch) -> bool
    ensures value { result ≡ are_different except.now scratch.old.values }
    ensures same { scratch.new ≡ with_values scratch.old [] }
{
    scratch.sort();
    let apart = are_apart(scratch.values(), except);
    scratch.clear();
    apart
}

// Whether the values of a list differ, but exceptions.
fn is_different(list: &[u32], except: &[i128], a: &[i128], scratch: &mut Scratch) -> bool
    requires valued { AreBelow (length a.now) list.now }
    requires empty { scratch.old.values ≡ [] }
    requires room { length list.now ≤ scratch.old.most }
    ensures value { result ≡ are_different except.now (values a.now list.now) }
    ensures same { scratch.new ≡ scratch.old }
{
    put_values(list, a, scratch);
    are_put_different(except, scratch)
}

// Whether the values of each row differ.
fn are_rows_different(rows: &[Vars], a: &[i128], scratch: &mut Scratch) -> bool
    requires valued { AllByRecursion (AreBelow (length a.now)) rows.now }
    requires empty { scratch.old.values ≡ [] }
    requires room { longest_row rows.now ≤ scratch.old.most }
    ensures value { result ≡ list_all (are_different []) (rows_of a.now rows.now) }
    ensures same { scratch.new ≡ scratch.old }
{
    for row in rows {
        if !is_different(row.as_slice(), &[], a, scratch) {
            return false;
        }
    }
    true
}

// Whether the values of a column differ.
fn is_column_different(rows: &[Vars], place: usize, a: &[i128], scratch: &mut Scratch) -> bool
    requires place { AllByRecursion (HasPlace place) rows.now }
    requires valued { AllByRecursion (AreBelow (length a.now)) rows.now }
    requires empty { scratch.old.values ≡ [] }
    requires room { length rows.now ≤ scratch.old.most }
    ensures value { result ≡ are_different [] (column (rows_of a.now rows.now) place) }
    ensures same { scratch.new ≡ scratch.old }
{
    put_column(rows, place, a, scratch);
    are_put_different(&[], scratch)
}

// Whether the values of each column differ.
fn are_columns_different(rows: &[Vars], a: &[i128], scratch: &mut Scratch) -> bool
    requires even { HaveLength (width rows.now) rows.now }
    requires valued { AllByRecursion (AreBelow (length a.now)) rows.now }
    requires empty { scratch.old.values ≡ [] }
    requires room { length rows.now ≤ scratch.old.most }
    ensures value { result ≡ all_below (λ j. are_different [] (column (rows_of a.now rows.now) j)) (width rows.now) }
    ensures same { scratch.new ≡ scratch.old }
{
    let mut left = width(rows);
    while left > 0 {
        left -= 1;
        if !is_column_different(rows, left, a, scratch) {
            return false;
        }
    }
    true
}

/// Whether two values of a list that are equal are among the exceptions. Takes no memory, and leaves the room as it is:
/// the list is sorted there.
///
/// Asks that each of its variables has a value, and that the room has no values, and is enough for the list.
pub fn holds_different(list: &[u32], except: &[i128], a: &[i128], scratch: &mut Scratch) -> bool
    requires valued { AreBelow (length a.now) list.now }
    requires empty { scratch.old.values ≡ [] }
    requires room { length list.now ≤ scratch.old.most }
    ensures value { (result ≡ true) ↔ AreDifferentBut except.now (values a.now list.now) }
    ensures same { scratch.new ≡ scratch.old }
{
    is_different(list, except, a, scratch)
}

// The same of rows and columns.
fn are_lines_different(rows: &[Vars], a: &[i128], scratch: &mut Scratch) -> bool
    requires even { HaveLength (width rows.now) rows.now }
    requires valued { AllByRecursion (AreBelow (length a.now)) rows.now }
    requires empty { scratch.old.values ≡ [] }
    requires room { longest_line rows.now ≤ scratch.old.most }
    ensures value { result ≡ (list_all (are_different []) (rows_of a.now rows.now) && all_below (λ j. are_different [] (column (rows_of a.now rows.now) j)) (width rows.now)) }
    ensures same { scratch.new ≡ scratch.old }
{
    are_rows_different(rows, a, scratch) && are_columns_different(rows, a, scratch)
}

/// Whether each row and each column of a matrix has different values. Takes no memory, and leaves the room as it is.
///
/// Asks that its rows are equally long, that each of its variables has a value, and that the room has no values, and is
/// enough for each line.
pub fn holds_different_matrix(rows: &[Vars], a: &[i128], scratch: &mut Scratch) -> bool
    requires even { HaveLength (width rows.now) rows.now }
    requires valued { AllByRecursion (AreBelow (length a.now)) rows.now }
    requires empty { scratch.old.values ≡ [] }
    requires room { longest_line rows.now ≤ scratch.old.most }
    ensures value { (result ≡ true) ↔ AreDifferentLines (rows_of a.now rows.now) }
    ensures same { scratch.new ≡ scratch.old }
{
    are_lines_different(rows, a, scratch)
}
