//! The sums and products of a call, at the values of all variables and over spans of them.

ghost use Rattle.std.specs.Prelude.{◌≡◌, ◌↔◌, ◌+ℤ◌, ◌*ℤ◌, pos, map, IsTrue};
ghost use Rattle.xf_num.specs.Span.{add_ends, mul_ends};
ghost use Rattle.fz_model.specs.Meaning.{number, numbers, dot, truth};
ghost use Rattle.fz_model.specs.Limits.{IsSmall, exactly};
ghost use Rattle.fz_calls.specs.Fits.{ends, SumsFit, ListsFit, ValuesFit};

use crate::worth::{members, number};
use fz_model::Arg;

/// The sum of two arguments.
pub fn plus(x: &Arg, y: &Arg, b: &[i128]) -> i128
    requires { IsSmall (add_ends (ends (map exactly b.now) x.now) (ends (map exactly b.now) y.now)) }
    ensures { result ≡ number b.now x.now +ℤ number b.now y.now }
{
    number(x, b) + number(y, b)
}

/// The product of two arguments.
pub fn times(x: &Arg, y: &Arg, b: &[i128]) -> i128
    requires { IsSmall (mul_ends (ends (map exactly b.now) x.now) (ends (map exactly b.now) y.now)) }
    ensures { result ≡ number b.now x.now *ℤ number b.now y.now }
{
    number(x, b) * number(y, b)
}

/// The sum of the products of two lists, place by place.
pub fn dot(coefficients: &Arg, items: &Arg, b: &[i128]) -> i128
    requires { ListsFit (map exactly b.now) coefficients.now items.now }
    ensures { result ≡ dot (numbers b.now coefficients.now) (numbers b.now items.now) }
{
    sum_of_products(members(coefficients), members(items), b)
}

fn sum_of_products(coefficients: &[Arg], items: &[Arg], b: &[i128]) -> i128
    requires { ValuesFit (pos 0) (map (number b.now) coefficients.now) (map (number b.now) items.now) }
    ensures { result ≡ dot (map (number b.now) coefficients.now) (map (number b.now) items.now) }
{
    let mut sum = 0;
    for at in 0..coefficients.len().min(items.len()) {
        sum += number(&coefficients[at], b) * number(&items[at], b);
    }
    sum
}
