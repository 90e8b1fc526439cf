//! Whether the sums and products of a call stay small, wherever the variables lie within their spans.

ghost use Rattle.std.specs.Prelude.{◌≡◌, ◌↔◌, IsTrue, SomeIff, pos, map, get_or};
ghost use Rattle.xf_num.specs.Span.{add_ends, mul_ends};
ghost use Rattle.fz_model.specs.Limits.{IsSmall, exactly};
ghost use Rattle.fz_calls.specs.Fits.{ends, SumsFit, ListsFit, WorkFits, work_of, CallFits};

use crate::worth::members;
use fz_model::{Arg, Builtin, Call};
use xf_num::{MAX_MAGNITUDE, Span};

/// The greatest magnitude of an integer of a model.
const LIMIT: i128 = MAX_MAGNITUDE as i128;

/// Whether each product and each partial sum of the call has magnitude at most 2^126 - 1, wherever variable `i` lies
/// within `spans[i]`; a variable without a span counts as 0.
pub fn call_fits(call: &Call, spans: &[Span]) -> bool
    ensures { IsTrue result ↔ CallFits spans.now call.now }
{
    work_fits(call.builtin, call.args.as_slice(), spans)
}

fn work_fits(builtin: Builtin, args: &[Arg], spans: &[Span]) -> bool
    ensures { IsTrue result ↔ WorkFits spans.now (work_of builtin) args.now }
{
    match (builtin, args) {
        (Builtin::IntPlus, [x, y, ..]) => small_sum(ends(x, spans), ends(y, spans)).is_some(),
        (Builtin::IntTimes, [x, y, ..]) => small_product(ends(x, spans), ends(y, spans)).is_some(),
        (
            Builtin::IntLinEq
            | Builtin::IntLinNe
            | Builtin::IntLinLe
            | Builtin::IntLinEqReif
            | Builtin::IntLinNeReif
            | Builtin::IntLinLeReif
            | Builtin::BoolLinEq
            | Builtin::BoolLinLe,
            [coefficients, items, ..],
        ) => sums_fit(members(coefficients), members(items), spans),
        _ => true,
    }
}

fn exactly(value: i128) -> Span
    ensures { result ≡ exactly value }
{
    Span::new(value, value).unwrap()
}

/// The ends between which an argument lies.
fn ends(arg: &Arg, spans: &[Span]) -> Span
    ensures { result ≡ ends spans.now arg.now }
{
    match arg {
        Arg::Int(value) => exactly(*value),
        Arg::Bool(flag) => exactly(i128::from(*flag)),
        Arg::Var(variable) => span_of(*variable, spans),
        Arg::Range(_) | Arg::Set(_) | Arg::List(_) => exactly(0),
    }
}

fn span_of(variable: u64, spans: &[Span]) -> Span
    ensures { result ≡ get_or spans.now variable (exactly (pos 0)) }
{
    spans.get(variable as usize).copied().unwrap_or(exactly(0))
}

fn is_small(span: Span) -> bool
    ensures { IsTrue result ↔ IsSmall span }
{
    span.lo() >= -LIMIT && span.hi() <= LIMIT
}

/// The span of the sums, where it is small.
fn small_sum(x: Span, y: Span) -> Option<Span>
    ensures { SomeIff result (IsSmall (add_ends x y)) (add_ends x y) }
{
    match x.add(y) {
        Some(sum) if is_small(sum) => Some(sum),
        _ => None,
    }
}

/// The span of the products, where it is small.
fn small_product(x: Span, y: Span) -> Option<Span>
    ensures { SomeIff result (IsSmall (mul_ends x y)) (mul_ends x y) }
{
    match x.mul(y) {
        Some(product) if is_small(product) => Some(product),
        _ => None,
    }
}

/// The span of a sum with one more product, where the product and the sum are small.
fn next_sum(sum: Span, coefficient: Span, item: Span) -> Option<Span>
    ensures { SomeIff result (IsSmall (mul_ends coefficient item) × IsSmall (add_ends sum (mul_ends coefficient item))) (add_ends sum (mul_ends coefficient item)) }
{
    match small_product(coefficient, item) {
        Some(product) => small_sum(sum, product),
        None => None,
    }
}

fn sums_fit(coefficients: &[Arg], items: &[Arg], spans: &[Span]) -> bool
    ensures { IsTrue result ↔ SumsFit (exactly (pos 0)) (map (ends spans.now) coefficients.now) (map (ends spans.now) items.now) }
{
    let mut sum = exactly(0);
    for at in 0..coefficients.len().min(items.len()) {
        match next_sum(sum, ends(&coefficients[at], spans), ends(&items[at], spans)) {
            Some(next) => sum = next,
            None => return false,
        }
    }
    true
}
