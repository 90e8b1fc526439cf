//! `nValues`.

ghost use Rattle.std.specs.Prelude.{◌≡◌, ◌↔◌, ◌<◌, ◌≤◌, [], pos, true, length};
ghost use Rattle.std.specs.List.{AllByRecursion};
ghost use Rattle.xs_laws.specs.Ascending.{is_new, new_places};
ghost use Rattle.xs_model.specs.Conditions.{Meets};
ghost use Rattle.xs_model.specs.Counting.{distinct_count};
ghost use Rattle.xs_model.specs.Fields.{cond_items};
ghost use Rattle.xs_model.specs.Formed.{IsFormedItem};
ghost use Rattle.xs_model.specs.Instance.{values};
ghost use Rattle.xs_testing.specs.Rows.{AreBelow};

use xs_forms::Scratch;
use xs_model::Cond;
use xs_testing::{contains, meets, put_values};

// Whether the value at a place is no exception, and not that of the place before.
fn is_new(sorted: &[i128], place: usize, except: &[i128]) -> bool
    requires { place < length sorted.now }
    ensures { result ≡ is_new except.now sorted.now place }
{
    if place > 0 && sorted[place - 1] == sorted[place] {
        return false;
    }
    !contains(except, &sorted[place])
}

// How many places have such a value.
fn new_places(sorted: &[i128], except: &[i128]) -> usize
    ensures { result ≡ new_places except.now sorted.now }
{
    let mut count = 0;
    for place in 0..sorted.len() {
        if is_new(sorted, place, except) {
            count += 1;
        }
    }
    count
}

// How many distinct values of a list are no exceptions.
fn distinct_count(list: &[u32], except: &[i128], a: &[i128], scratch: &mut Scratch) -> usize
    requires valued { AreBelow (length a.now) list.now }
    requires empty { scratch.old.values ≡ [] }
    requires room { length list.now ≤ scratch.old.most }
    ensures value { result ≡ distinct_count except.now (values a.now list.now) }
    ensures same { scratch.new ≡ scratch.old }
{
    put_values(list, a, scratch);
    scratch.sort();
    let count = new_places(scratch.values(), except);
    scratch.clear();
    count
}

/// Whether the number of distinct values outside the exceptions meets a condition. Takes no memory, and leaves the room as
/// it is: the values are sorted there.
///
/// Asks that each variable has a value, that integers are small, and that the room has no values, and is enough for the
/// list.
pub fn holds_distinct(
    list: &[u32],
    except: &[i128],
    cond: &Cond,
    a: &[i128],
    scratch: &mut Scratch,
) -> bool
    requires valued { AreBelow (length a.now) list.now }
    requires condition { AllByRecursion (IsFormedItem (length a.now)) (cond_items cond.now) }
    requires empty { scratch.old.values ≡ [] }
    requires room { length list.now ≤ scratch.old.most }
    ensures value { (result ≡ true) ↔ Meets a.now cond.now (pos (distinct_count except.now (values a.now list.now))) }
    ensures same { scratch.new ≡ scratch.old }
{
    let number = distinct_count(list, except, a, scratch) as i128;
    meets(cond, &number, a)
}
