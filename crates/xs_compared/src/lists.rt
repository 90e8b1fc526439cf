//! `allDifferent` over lists, and `instantiation`.

ghost use Rattle.std.specs.Prelude.{◌≡◌, ◌↔◌, ◌<◌, true, length};
ghost use Rattle.std.specs.List.{AllByRecursion, list_all};
ghost use Rattle.xs_compared.specs.Tests.{all_pairs, is_other, is_same};
ghost use Rattle.xs_model.specs.Comparing.{AreDifferentLists};
ghost use Rattle.xs_model.specs.Instance.{rows_of, values};
ghost use Rattle.xs_testing.specs.Rows.{AreBelow};

use xf_num::Vars;

// Whether the variables of two lists have the same values.
fn is_same(first: &[u32], second: &[u32], a: &[i128]) -> bool
    requires first { AreBelow (length a.now) first.now }
    requires second { AreBelow (length a.now) second.now }
    ensures { result ≡ is_same (values a.now first.now) (values a.now second.now) }
{
    let mut ones = first;
    let mut others = second;
    while let Some((one, ones_left)) = ones.split_first() {
        match others.split_first() {
            None => return false,
            Some((other, others_left)) => {
                if a[*one as usize] != a[*other as usize] {
                    return false;
                }
                ones = ones_left;
                others = others_left;
            }
        }
    }
    others.is_empty()
}

// Whether a list has other values than each of others.
fn is_other(list: &[u32], others: &[Vars], a: &[i128]) -> bool
    requires list { AreBelow (length a.now) list.now }
    requires others { AllByRecursion (AreBelow (length a.now)) others.now }
    ensures { result ≡ list_all (is_other (values a.now list.now)) (rows_of a.now others.now) }
{
    for other in others {
        if is_same(list, other.as_slice(), a) {
            return false;
        }
    }
    true
}

// Whether each list has other values than each later one.
fn are_other(lists: &[Vars], a: &[i128]) -> bool
    requires { AllByRecursion (AreBelow (length a.now)) lists.now }
    ensures { result ≡ all_pairs is_other (rows_of a.now lists.now) }
{
    let mut rest = lists;
    while let Some((list, behind)) = rest.split_first() {
        if !is_other(list.as_slice(), behind, a) {
            return false;
        }
        rest = behind;
    }
    true
}

/// Whether lists of values differ pairwise. Takes no memory.
///
/// Asks that each of their variables has a value.
pub fn holds_different_lists(lists: &[Vars], a: &[i128]) -> bool
    requires { AllByRecursion (AreBelow (length a.now)) lists.now }
    ensures { (result ≡ true) ↔ AreDifferentLists (rows_of a.now lists.now) }
{
    are_other(lists, a)
}

// Whether each variable has its value, and there are as many.
fn is_given(list: &[u32], given: &[i128], a: &[i128]) -> bool
    requires { AreBelow (length a.now) list.now }
    ensures { result ≡ is_same (values a.now list.now) given.now }
{
    let mut variables = list;
    let mut values = given;
    while let Some((variable, variables_left)) = variables.split_first() {
        match values.split_first() {
            None => return false,
            Some((value, values_left)) => {
                if a[*variable as usize] != *value {
                    return false;
                }
                variables = variables_left;
                values = values_left;
            }
        }
    }
    values.is_empty()
}

/// Whether the variables of a list have these values. Takes no memory.
///
/// Asks that each of them has a value.
pub fn holds_given(list: &[u32], given: &[i128], a: &[i128]) -> bool
    requires { AreBelow (length a.now) list.now }
    ensures { (result ≡ true) ↔ (values a.now list.now ≡ given.now) }
{
    is_given(list, given, a)
}
