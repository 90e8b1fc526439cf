//! `count`.

ghost use Rattle.std.specs.Prelude.{◌≡◌, ◌↔◌, ◌<◌, ◌≤◌, ◌+◌, ◌++◌, [], pos, true, length, map, drop};
ghost use Rattle.std.specs.List.{AllByRecursion};
ghost use Rattle.std.specs.List.Sorted.{IsSorted};
ghost use Rattle.std.specs.Ordering.{int_cmp};
ghost use Rattle.xs_forms.specs.Room.{with_values};
ghost use Rattle.xs_model.specs.Conditions.{Meets};
ghost use Rattle.xs_model.specs.Counting.{places_among};
ghost use Rattle.xs_model.specs.Fields.{cond_items, item_of};
ghost use Rattle.xs_model.specs.Formed.{IsFormedItem};
ghost use Rattle.xs_model.specs.Instance.{term_values, values};
ghost use Rattle.xs_testing.specs.Rows.{AreBelow};

use crate::sorted::is_among;
use xs_forms::Scratch;
use xs_model::{Cond, Term};
use xs_testing::{meets, term_value};

// Puts the values of terms.
fn put_terms(terms: &[Term], a: &[i128], scratch: &mut Scratch)
    requires formed { AllByRecursion (IsFormedItem (length a.now)) (map item_of terms.now) }
    requires empty { scratch.old.values ≡ [] }
    requires room { length terms.now ≤ scratch.old.most }
    ensures { scratch.new ≡ with_values scratch.old (term_values a.now terms.now) }
{
    for term in terms {
        scratch.put(term_value(*term, a));
    }
}

// How many members of a list have a value of a sorted list.
fn count_among(list: &[u32], sorted: &[i128], a: &[i128]) -> usize
    requires valued { AreBelow (length a.now) list.now }
    requires sorted { IsSorted int_cmp sorted.now }
    ensures { result ≡ places_among sorted.now (values a.now list.now) }
{
    let mut count = 0;
    for variable in list {
        if is_among(sorted, &a[*variable as usize]) {
            count += 1;
        }
    }
    count
}

// How many members of a list have a value of given terms.
fn count(list: &[u32], terms: &[Term], a: &[i128], scratch: &mut Scratch) -> usize
    requires valued { AreBelow (length a.now) list.now }
    requires formed { AllByRecursion (IsFormedItem (length a.now)) (map item_of terms.now) }
    requires empty { scratch.old.values ≡ [] }
    requires room { length terms.now ≤ scratch.old.most }
    ensures value { result ≡ places_among (term_values a.now terms.now) (values a.now list.now) }
    ensures same { scratch.new ≡ scratch.old }
{
    put_terms(terms, a, scratch);
    scratch.sort();
    let count = count_among(list, scratch.values(), a);
    scratch.clear();
    count
}

/// Whether the number of members of a list whose value is among given ones meets a condition. Takes no memory, and leaves
/// the room as it is: the given values are sorted there.
///
/// Asks that each variable has a value, that integers are small, and that the room has no values, and is enough for the
/// given ones.
pub fn holds_count(
    list: &[u32],
    terms: &[Term],
    cond: &Cond,
    a: &[i128],
    scratch: &mut Scratch,
) -> bool
    requires valued { AreBelow (length a.now) list.now }
    requires formed { AllByRecursion (IsFormedItem (length a.now)) (map item_of terms.now) }
    requires condition { AllByRecursion (IsFormedItem (length a.now)) (cond_items cond.now) }
    requires empty { scratch.old.values ≡ [] }
    requires room { length terms.now ≤ scratch.old.most }
    ensures value { (result ≡ true) ↔ Meets a.now cond.now (pos (places_among (term_values a.now terms.now) (values a.now list.now))) }
    ensures same { scratch.new ≡ scratch.old }
{
    let number = count(list, terms, a, scratch) as i128;
    meets(cond, &number, a)
}
