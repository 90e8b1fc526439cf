//! Values put into the room for tests.

ghost use Rattle.std.specs.Prelude.{◌≡◌, ◌<◌, ◌≤◌, [], length};
ghost use Rattle.std.specs.List.{AllByRecursion};
ghost use Rattle.xs_testing.specs.Rows.{AreBelow, HasPlace};
ghost use Rattle.xs_forms.specs.Room.{with_values};
ghost use Rattle.xs_model.specs.Instance.{rows_of, values};
ghost use Rattle.xs_model.specs.Lists.{column, width};
ghost use Rattle.xs_model.specs.Value.{at};

use xf_num::Vars;
use xs_forms::Scratch;

/// Puts the values of variables.
///
/// Asks that each has a value, and that the room has none, and is enough.
pub fn put_values(list: &[u32], a: &[i128], scratch: &mut Scratch)
    requires valued { AllByRecursion (λ v. v < length a.now) list.now }
    requires empty { scratch.old.values ≡ [] }
    requires room { length list.now ≤ scratch.old.most }
    ensures { scratch.new ≡ with_values scratch.old (values a.now list.now) }
{
    for variable in list {
        scratch.put(a[*variable as usize]);
    }
}

/// The value of the variable at a place of a row.
///
/// Asks that there is such a place, and that each variable has a value.
pub fn cell(row: &[u32], place: usize, a: &[i128]) -> i128
    requires place { place < length row.now }
    requires valued { AllByRecursion (λ v. v < length a.now) row.now }
    ensures { result ≡ at (values a.now row.now) place }
{
    a[row[place] as usize]
}

/// Puts the values of a column.
///
/// Asks that each row has such a place, that each variable has a value, and that the room has none, and is enough.
pub fn put_column(rows: &[Vars], place: usize, a: &[i128], scratch: &mut Scratch)
    requires place { AllByRecursion (HasPlace place) rows.now }
    requires valued { AllByRecursion (AreBelow (length a.now)) rows.now }
    requires empty { scratch.old.values ≡ [] }
    requires room { length rows.now ≤ scratch.old.most }
    ensures { scratch.new ≡ with_values scratch.old (column (rows_of a.now rows.now) place) }
{
    for row in rows {
        scratch.put(cell(row.as_slice(), place, a));
    }
}

/// How long the rows of a matrix are.
pub fn width(rows: &[Vars]) -> usize
    ensures { result ≡ width rows.now }
{
    match rows.first() {
        Some(row) => row.len(),
        None => 0,
    }
}
