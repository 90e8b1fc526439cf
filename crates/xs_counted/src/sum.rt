//! `sum`.

ghost use Rattle.std.specs.Prelude.{◌≡◌, ◌↔◌, ◌≤◌, ◌<◌, ◌+◌, ◌+ℤ◌, ◌*ℤ◌, FitsSigned, nat_abs, true, length, map};
ghost use Rattle.std.specs.Int.{w128};
ghost use Rattle.std.specs.List.{AllByRecursion};
ghost use Rattle.xs_counted.specs.Tests.{size_of_products};
ghost use Rattle.xs_model.specs.Conditions.{Meets, value_of};
ghost use Rattle.xs_model.specs.Counting.{weighted_sum};
ghost use Rattle.xs_model.specs.Fields.{cond_items, item_of};
ghost use Rattle.xs_model.specs.Formed.{IsFormedItem};
ghost use Rattle.xs_model.specs.Instance.{term_values, values};
ghost use Rattle.xs_model.specs.Sound.{magnitudes};
ghost use Rattle.xs_model.specs.Value.{at};
ghost use Rattle.xs_testing.specs.Rows.{AreBelow};

use xs_model::{Cond, Term};
use xs_testing::{meets, term_value};

// Two numbers.
#[derive(Clone, Copy)]
struct Pair {
    left: i128,
    right: i128,
}

fn product(pair: Pair) -> i128
    requires { FitsSigned w128 (pair.left *ℤ pair.right) }
    ensures { result ≡ pair.left *ℤ pair.right }
{
    pair.left * pair.right
}

fn total(pair: Pair) -> i128
    requires { FitsSigned w128 (pair.left +ℤ pair.right) }
    ensures { result ≡ pair.left +ℤ pair.right }
{
    pair.left + pair.right
}

// A sum so far.
#[derive(Clone, Copy)]
struct Sum {
    value: i128,
}

// With one more product.
fn plus(sum: Sum, factor: Term, variable: u32, a: &[i128]) -> Sum
    requires formed { IsFormedItem (length a.now) (item_of factor) }
    requires variable { variable < length a.now }
    requires small { nat_abs sum.value + nat_abs (value_of a.now factor *ℤ at a.now variable) ≤ magnitudes }
    ensures value { result.value ≡ sum.value +ℤ (value_of a.now factor *ℤ at a.now variable) }
    ensures small { nat_abs result.value ≤ nat_abs sum.value + nat_abs (value_of a.now factor *ℤ at a.now variable) }
{
    let factors = Pair {
        left: term_value(factor, a),
        right: a[variable as usize],
    };
    let terms = Pair {
        left: sum.value,
        right: product(factors),
    };
    Sum {
        value: total(terms),
    }
}

// The sum of the values of a list, each times its factor.
fn weighted_sum(list: &[u32], coeffs: &[Term], a: &[i128]) -> i128
    requires valued { AreBelow (length a.now) list.now }
    requires formed { AllByRecursion (IsFormedItem (length a.now)) (map item_of coeffs.now) }
    requires small { size_of_products (term_values a.now coeffs.now) (values a.now list.now) ≤ magnitudes }
    ensures { result ≡ weighted_sum (term_values a.now coeffs.now) (values a.now list.now) }
{
    let mut sum = Sum { value: 0 };
    let mut factors = coeffs;
    let mut variables = list;
    while let Some((factor, factors_left)) = factors.split_first() {
        match variables.split_first() {
            None => return sum.value,
            Some((variable, variables_left)) => {
                sum = plus(sum, *factor, *variable, a);
                factors = factors_left;
                variables = variables_left;
            }
        }
    }
    sum.value
}

/// Whether the sum of the values of a list, each times its factor, meets a condition. Takes no memory.
///
/// Asks that each variable has a value, that integers are small, and that the absolute values of the products together are
/// of at most the greatest magnitude.
pub fn holds_sum(list: &[u32], coeffs: &[Term], cond: &Cond, a: &[i128]) -> bool
    requires valued { AreBelow (length a.now) list.now }
    requires formed { AllByRecursion (IsFormedItem (length a.now)) (map item_of coeffs.now) }
    requires condition { AllByRecursion (IsFormedItem (length a.now)) (cond_items cond.now) }
    requires small { size_of_products (term_values a.now coeffs.now) (values a.now list.now) ≤ magnitudes }
    ensures { (result ≡ true) ↔ Meets a.now cond.now (weighted_sum (term_values a.now coeffs.now) (values a.now list.now)) }
{
    let number = weighted_sum(list, coeffs, a);
    meets(cond, &number, a)
}
