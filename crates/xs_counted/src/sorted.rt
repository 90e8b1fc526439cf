//! Values found in a sorted list.

ghost use Rattle.std.specs.Prelude.{◌≡◌, ◌<◌, length};
ghost use Rattle.std.specs.List.Sorted.{IsSorted};
ghost use Rattle.std.specs.Ordering.{int_cmp};
ghost use Rattle.xs_counted.specs.Tests.{IsCut, precedes};
ghost use Rattle.xs_model.specs.Lists.{how_often, is_among};

// Whether a value of the list is less than the one that is looked for, or where that is passed, at most it.
fn precedes(value: &i128, due: &i128, past: bool) -> bool
    ensures { result ≡ precedes past due.now value.now }
{
    if past { value <= due } else { value < due }
}

// How many values of a sorted list are less than this one, or where it is passed, at most it.
fn cut(sorted: &[i128], value: &i128, past: bool) -> usize
    requires { IsSorted int_cmp sorted.now }
    ensures { IsCut past value.now sorted.now result }
{
    let mut low = 0;
    let mut high = sorted.len();
    while low < high {
        let middle = low + (high - low) / 2;
        if precedes(&sorted[middle], value, past) {
            low = middle + 1;
        } else {
            high = middle;
        }
    }
    low
}

/// How often a value occurs in a sorted list.
pub(crate) fn how_often(sorted: &[i128], value: &i128) -> usize
    requires { IsSorted int_cmp sorted.now }
    ensures { result ≡ how_often value.now sorted.now }
{
    let from = cut(sorted, value, false);
    let to = cut(sorted, value, true);
    to.saturating_sub(from)
}

/// Whether a value occurs in a sorted list.
pub(crate) fn is_among(sorted: &[i128], value: &i128) -> bool
    requires { IsSorted int_cmp sorted.now }
    ensures { result ≡ is_among sorted.now value.now }
{
    how_often(sorted, value) > 0
}
