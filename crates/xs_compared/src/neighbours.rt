//! `allEqual` and `ordered`.

ghost use Rattle.std.specs.Prelude.{◌≡◌, ◌↔◌, ◌<◌, ◌+ℤ◌, true, length, map};
ghost use Rattle.std.specs.List.{AllByRecursion};
ghost use Rattle.std.specs.Ordering.{int_eq};
ghost use Rattle.xs_compared.specs.Tests.{all_next, behind_first, first_of, is_spaced, passes_next, past, related};
ghost use Rattle.xs_model.specs.Comparing.{AreEqual, IsOrdered};
ghost use Rattle.xs_model.specs.Fields.{item_of};
ghost use Rattle.xs_model.specs.Formed.{IsFormedItem};
ghost use Rattle.xs_model.specs.Instance.{term_values, values};
ghost use Rattle.xs_model.specs.Value.{at};
ghost use Rattle.xs_testing.specs.Rows.{AreBelow};

use xs_model::{Rel, Term};
use xs_testing::term_value;

// Whether a variable has the value of the next, where there is one.
fn is_equal(variable: u32, behind: &[u32], a: &[i128]) -> bool
    requires variable { variable < length a.now }
    requires behind { AreBelow (length a.now) behind.now }
    ensures { result ≡ passes_next int_eq (at a.now variable) (values a.now behind.now) }
{
    match behind.split_first() {
        None => true,
        Some((next, _)) => a[variable as usize] == a[*next as usize],
    }
}

// Whether each value is equal to the next.
fn are_equal(list: &[u32], a: &[i128]) -> bool
    requires { AreBelow (length a.now) list.now }
    ensures { result ≡ all_next int_eq (values a.now list.now) }
{
    let mut rest = list;
    while let Some((variable, behind)) = rest.split_first() {
        if !is_equal(*variable, behind, a) {
            return false;
        }
        rest = behind;
    }
    true
}

/// Whether all values of a list are equal. Takes no memory.
///
/// Asks that each of its variables has a value.
pub fn holds_equal(list: &[u32], a: &[i128]) -> bool
    requires { AreBelow (length a.now) list.now }
    ensures { (result ≡ true) ↔ AreEqual (values a.now list.now) }
{
    are_equal(list, a)
}

// A value, the length behind it, and the next value.
#[derive(Clone, Copy)]
struct Step {
    value: i128,
    length: i128,
    next: i128,
}

// Whether the first stands so to the second.
fn related(rel: Rel, step: Step) -> bool
    ensures { result ≡ related rel step.value step.next }
{
    match rel {
        Rel::Lt => step.value < step.next,
        Rel::Le => step.value <= step.next,
        Rel::Ge => step.value >= step.next,
        Rel::Gt => step.value > step.next,
    }
}

// Whether what is greater than every number stands so to a number; where not greater, what is less than every number.
fn is_past(rel: Rel, greater: bool) -> bool
    ensures { result ≡ past rel greater }
{
    match rel {
        Rel::Lt | Rel::Le => !greater,
        Rel::Ge | Rel::Gt => greater,
    }
}

// Whether a value plus a length stands so to the next value.
fn is_step(rel: Rel, step: Step) -> bool
    ensures { result ≡ related rel (step.value +ℤ step.length) step.next }
{
    match step.value.checked_add(step.length) {
        Some(value) => related(rel, Step { value, ..step }),
        None => is_past(rel, step.length > 0),
    }
}

// The value of the first of terms, 0 where there is none.
fn first_value(terms: &[Term], a: &[i128]) -> i128
    requires { AllByRecursion (IsFormedItem (length a.now)) (map item_of terms.now) }
    ensures { result ≡ first_of (term_values a.now terms.now) }
{
    match terms.split_first() {
        Some((first, _)) => term_value(*first, a),
        None => 0,
    }
}

// The terms behind the first.
fn behind_first(terms: &[Term]) -> &[Term]
    ensures { result.now ≡ behind_first terms.now }
{
    match terms.split_first() {
        Some((_, behind)) => behind,
        None => terms,
    }
}

// Whether a value plus the first length stands so to the next value, where there is one.
fn is_next(rel: Rel, variable: u32, behind: &[u32], lengths: &[Term], a: &[i128]) -> bool
    requires variable { variable < length a.now }
    requires behind { AreBelow (length a.now) behind.now }
    requires lengths { AllByRecursion (IsFormedItem (length a.now)) (map item_of lengths.now) }
    ensures { result ≡ passes_next (λ y z. related rel (y +ℤ first_of (term_values a.now lengths.now)) z) (at a.now variable) (values a.now behind.now) }
{
    match behind.split_first() {
        None => true,
        Some((next, _)) => is_step(
            rel,
            Step {
                value: a[variable as usize],
                length: first_value(lengths, a),
                next: a[*next as usize],
            },
        ),
    }
}

// Whether each value plus its length stands so to the next.
fn is_spaced(list: &[u32], lengths: &[Term], rel: Rel, a: &[i128]) -> bool
    requires valued { AreBelow (length a.now) list.now }
    requires lengths { AllByRecursion (IsFormedItem (length a.now)) (map item_of lengths.now) }
    ensures { result ≡ is_spaced rel (term_values a.now lengths.now) (values a.now list.now) }
{
    let mut rest = list;
    let mut spaces = lengths;
    while let Some((variable, behind)) = rest.split_first() {
        if !is_next(rel, *variable, behind, spaces, a) {
            return false;
        }
        rest = behind;
        spaces = behind_first(spaces);
    }
    true
}

/// Whether each value of a list plus its length stands so to the next value; where a length is absent, the value itself.
/// Takes no memory. A sum past 128 bits is compared all the same.
///
/// Asks that each variable of the list and of the lengths has a value.
pub fn holds_ordered(list: &[u32], lengths: &[Term], rel: Rel, a: &[i128]) -> bool
    requires valued { AreBelow (length a.now) list.now }
    requires lengths { AllByRecursion (IsFormedItem (length a.now)) (map item_of lengths.now) }
    ensures { (result ≡ true) ↔ IsOrdered rel (term_values a.now lengths.now) (values a.now list.now) }
{
    is_spaced(list, lengths, rel, a)
}
