//! `minimum` and `maximum`.

ghost use Rattle.std.specs.Prelude.{◌≡◌, ◌↔◌, ◌<◌, true, length, fold};
ghost use Rattle.std.specs.Int.{int_min, int_max};
ghost use Rattle.std.specs.List.{AllByRecursion};
ghost use Rattle.xs_model.specs.Conditions.{Meets};
ghost use Rattle.xs_model.specs.Fields.{cond_items};
ghost use Rattle.xs_model.specs.Formed.{IsFormedItem};
ghost use Rattle.xs_model.specs.Instance.{values};
ghost use Rattle.xs_model.specs.Value.{greatest_of, least_of};
ghost use Rattle.xs_testing.specs.Rows.{AreBelow};

use xs_model::Cond;
use xs_testing::meets;

// The least of a value and those of a list.
fn least_from(first: &i128, list: &[u32], a: &[i128]) -> i128
    requires { AreBelow (length a.now) list.now }
    ensures { result ≡ fold int_min first.now (values a.now list.now) }
{
    let mut least = *first;
    for variable in list {
        least = least.min(a[*variable as usize]);
    }
    least
}

// The least value of a list, 0 where it is empty.
fn least(list: &[u32], a: &[i128]) -> i128
    requires { AreBelow (length a.now) list.now }
    ensures { result ≡ least_of (values a.now list.now) }
{
    match list.split_first() {
        None => 0,
        Some((first, behind)) => least_from(&a[*first as usize], behind, a),
    }
}

/// Whether the least value of a list meets a condition. Takes no memory.
///
/// Asks that each variable has a value, and that integers are small.
pub fn holds_minimum(list: &[u32], cond: &Cond, a: &[i128]) -> bool
    requires valued { AreBelow (length a.now) list.now }
    requires condition { AllByRecursion (IsFormedItem (length a.now)) (cond_items cond.now) }
    ensures { (result ≡ true) ↔ Meets a.now cond.now (least_of (values a.now list.now)) }
{
    let number = least(list, a);
    meets(cond, &number, a)
}

// The greatest of a value and those of a list.
fn greatest_from(first: &i128, list: &[u32], a: &[i128]) -> i128
    requires { AreBelow (length a.now) list.now }
    ensures { result ≡ fold int_max first.now (values a.now list.now) }
{
    let mut greatest = *first;
    for variable in list {
        greatest = greatest.max(a[*variable as usize]);
    }
    greatest
}

// The greatest value of a list, 0 where it is empty.
fn greatest(list: &[u32], a: &[i128]) -> i128
    requires { AreBelow (length a.now) list.now }
    ensures { result ≡ greatest_of (values a.now list.now) }
{
    match list.split_first() {
        None => 0,
        Some((first, behind)) => greatest_from(&a[*first as usize], behind, a),
    }
}

/// Whether the greatest value of a list meets a condition. Takes no memory.
///
/// Asks that each variable has a value, and that integers are small.
pub fn holds_maximum(list: &[u32], cond: &Cond, a: &[i128]) -> bool
    requires valued { AreBelow (length a.now) list.now }
    requires condition { AllByRecursion (IsFormedItem (length a.now)) (cond_items cond.now) }
    ensures { (result ≡ true) ↔ Meets a.now cond.now (greatest_of (values a.now list.now)) }
{
    let number = greatest(list, a);
    meets(cond, &number, a)
}
