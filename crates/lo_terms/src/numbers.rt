//! The operators that give numbers.

ghost use Rattle.std.specs.Prelude.{◌≡◌, ◌+◌, ◌≤◌, ◌<◌, ◌^◌, ◌∷◌, [], length, pos, negsuc, map, true, false, IfOk, OnOk, OnErr, IsErrOf, SomeIff};
ghost use Rattle.xf_text.specs.Outside.{Rose};
ghost use Rattle.lo_base.specs.Item.{made};
ghost use Rattle.xf_num.specs.Span.{Bounds, EndsFit};
ghost use Rattle.lo_emit.specs.Emitted.{constants_of, after, integer_of_one, integer_of_list, integer_of_sum};
ghost use Rattle.lo_terms.specs.Emitted.{kept};
ghost use Rattle.xs_model.specs.Bounds.{truths};
ghost use Rattle.fz_model.specs.declared.builtin.Builtin.TheVariants.{Bool2Int};
ghost use Rattle.lo_terms.specs.Rules.{terms_of, sum_coefficients, difference, distance, product, product_of, powers, steps_of, steps_to, power_of, choice, choice_of, other_number, number_node};

use crate::term::{Operand, args_of, list_with, operand_at};
use fz_model::{Arg, Builtin, call_of_three, call_of_two};
use lo_base::{Emit, EmitStop, truth_values};
use lo_emit::{Term, integer_of_one, integer_of_place, integer_of_sum, integer_of_two};
use std::alloc::Global;
use xf_num::{MAX_MAGNITUDE, NoMemory, Row, Span};
use xs_model::Op;

/// The greatest magnitude of an integer.
const MAGNITUDE: i128 = MAX_MAGNITUDE as i128;

/// The bounds of a step, 0 where they are past the greatest magnitude.
fn kept(span: Option<Span>) -> Span
    ensures { (e : Bounds) → SomeIff span (EndsFit e) e → result ≡ kept e }
{
    match span {
        Some(span) if span.lo() >= -MAGNITUDE && span.hi() <= MAGNITUDE => span,
        _ => Span::new(0, 0).unwrap(),
    }
}

/// As many ones as there are operands, and -1.
fn sum_coefficients(alloc: Global, operands: &[Operand]) -> Result<Arg, NoMemory>
    ensures { IfOk result (λ a. a ≡ constants_of (sum_coefficients operands.now)) }
{
    let mut coefficients = Row::new(alloc);
    for _operand in operands {
        coefficients.push(Arg::Int(1))?;
    }
    coefficients.push(Arg::Int(-1))?;
    Ok(Arg::List(coefficients))
}

fn sum<E: Emit>(
    alloc: Global,
    span: Span,
    operands: &[Operand],
    out: &mut E,
) -> Result<Term, EmitStop>
    requires { E.count out.old < 2 ^ 61 }
    ensures value { IfOk result (λ t. t ≡ (integer_of_sum (E.count out.old) span (sum_coefficients operands.now) (terms_of operands.now) (pos 0)).term) }
    ensures ok { OnOk result (E.grew out.old out.new (integer_of_sum (E.count out.old) span (sum_coefficients operands.now) (terms_of operands.now) (pos 0)).items) }
    ensures count { OnOk result (E.count out.new ≡ E.count out.old + 1) }
    ensures stopped { OnErr result (E.began out.old out.new (integer_of_sum (E.count out.old) span (sum_coefficients operands.now) (terms_of operands.now) (pos 0)).items) }
    ensures cause { IsErrOf result EmitStop.Failed → Rose (E.faults out.old) (E.faults out.new) }
{
    let r = out.new_int(span)?;
    let coefficients = sum_coefficients(alloc, operands)?;
    let terms = list_with(alloc, operands, Term::Var(r))?;
    let zero = Arg::Int(0);
    out.post(call_of_three(alloc, Builtin::IntLinEq, coefficients, terms, zero)?)?;
    Ok(Term::Var(r))
}

fn difference<E: Emit>(
    alloc: Global,
    span: Span,
    x: Term,
    y: Term,
    out: &mut E,
) -> Result<Term, EmitStop>
    requires { E.count out.old < 2 ^ 61 }
    ensures value { IfOk result (λ t. t ≡ (difference (E.count out.old) span x y).term) }
    ensures ok { OnOk result (E.grew out.old out.new (difference (E.count out.old) span x y).items) }
    ensures count { OnOk result (E.count out.new ≡ E.count out.old + 1) }
    ensures stopped { OnErr result (E.began out.old out.new (difference (E.count out.old) span x y).items) }
    ensures cause { IsErrOf result EmitStop.Failed → Rose (E.faults out.old) (E.faults out.new) }
{
    integer_of_sum(alloc, span, &[1, -1, -1], &[x, y], 0, out)
}

fn distance<E: Emit>(
    alloc: Global,
    span: Span,
    x: Operand,
    y: Operand,
    out: &mut E,
) -> Result<Term, EmitStop>
    requires { E.count out.old + 2 ≤ 2 ^ 61 }
    ensures value { IfOk result (λ t. t ≡ (distance (E.count out.old) span x y).term) }
    ensures ok { OnOk result (E.grew out.old out.new (distance (E.count out.old) span x y).items) }
    ensures count { OnOk result (E.count out.new ≡ E.count out.old + 2) }
    ensures stopped { OnErr result (E.began out.old out.new (distance (E.count out.old) span x y).items) }
    ensures cause { IsErrOf result EmitStop.Failed → Rose (E.faults out.old) (E.faults out.new) }
{
    let difference = difference(alloc, kept(x.span.sub(y.span)), x.term, y.term, out)?;
    integer_of_one(alloc, span, Builtin::IntAbs, difference, out)
}

/// The product of what stands so far with each of these, from the left.
fn product<E: Emit>(
    alloc: Global,
    first: Operand,
    operands: &[Operand],
    out: &mut E,
) -> Result<Term, EmitStop>
    requires { E.count out.old + length operands.now ≤ 2 ^ 61 }
    ensures value { IfOk result (λ t. t ≡ (product (E.count out.old) first operands.now).term) }
    ensures ok { OnOk result (E.grew out.old out.new (product (E.count out.old) first operands.now).items) }
    ensures count { OnOk result (E.count out.new ≡ E.count out.old + length operands.now) }
    ensures stopped { OnErr result (E.began out.old out.new (product (E.count out.old) first operands.now).items) }
    ensures cause { IsErrOf result EmitStop.Failed → Rose (E.faults out.old) (E.faults out.new) }
{
    let mut so_far = first;
    for operand in operands {
        let span = kept(so_far.span.mul(operand.span));
        let term = integer_of_two(
            alloc,
            span,
            Builtin::IntTimes,
            so_far.term,
            operand.term,
            out,
        )?;
        so_far = Operand { term, span };
    }
    Ok(so_far.term)
}

fn product_of<E: Emit>(alloc: Global, operands: &[Operand], out: &mut E) -> Result<Term, EmitStop>
    requires { E.count out.old + length operands.now ≤ 2 ^ 61 }
    ensures value { IfOk result (λ t. t ≡ (product_of (E.count out.old) operands.now).term) }
    ensures ok { OnOk result (E.grew out.old out.new (product_of (E.count out.old) operands.now).items) }
    ensures count { OnOk result (E.count out.new ≡ E.count out.old + made (product_of (E.count out.old) operands.now).items) }
    ensures bound { OnOk result (E.count out.new ≤ E.count out.old + length operands.now) }
    ensures stopped { OnErr result (E.began out.old out.new (product_of (E.count out.old) operands.now).items) }
    ensures cause { IsErrOf result EmitStop.Failed → Rose (E.faults out.old) (E.faults out.new) }
{
    match operands {
        [first, others @ ..] => product(alloc, *first, others, out),
        _ => Ok(Term::Int(0)),
    }
}

/// How many steps there are to a power.
fn steps_of(exponent: i128) -> u32
    ensures value { result ≡ steps_of exponent }
    ensures most { result ≤ 63 }
{
    if exponent >= 1 && exponent <= 64 {
        (exponent - 1) as u32
    } else {
        0
    }
}

fn steps_to(exponent: Term) -> u32
    ensures value { result ≡ steps_to exponent }
    ensures most { result ≤ 63 }
{
    match exponent {
        Term::Int(value) => steps_of(value),
        Term::Truth(_) => 0,
        Term::Var(_) => 0,
    }
}

/// The powers of x from 2 on, so many of them; the last of them stands for it.
fn powers<E: Emit>(
    alloc: Global,
    span: Span,
    x: Term,
    steps: u32,
    out: &mut E,
) -> Result<Term, EmitStop>
    requires steps { steps ≤ 63 }
    requires room { E.count out.old + steps ≤ 2 ^ 61 }
    ensures value { IfOk result (λ t. t ≡ (powers (E.count out.old) span x x 2 steps).term) }
    ensures ok { OnOk result (E.grew out.old out.new (powers (E.count out.old) span x x 2 steps).items) }
    ensures count { OnOk result (E.count out.new ≡ E.count out.old + steps) }
    ensures stopped { OnErr result (E.began out.old out.new (powers (E.count out.old) span x x 2 steps).items) }
    ensures cause { IsErrOf result EmitStop.Failed → Rose (E.faults out.old) (E.faults out.new) }
{
    let mut so_far = x;
    let mut left = steps;
    let mut exponent = 2;
    while left > 0 {
        let bounds = kept(span.pow(exponent));
        so_far = integer_of_two(alloc, bounds, Builtin::IntTimes, so_far, x, out)?;
        exponent += 1;
        left -= 1;
    }
    Ok(so_far)
}

fn power_of<E: Emit>(
    alloc: Global,
    base: Operand,
    exponent: Term,
    out: &mut E,
) -> Result<Term, EmitStop>
    requires { E.count out.old + 63 ≤ 2 ^ 61 }
    ensures value { IfOk result (λ t. t ≡ (power_of (E.count out.old) base exponent).term) }
    ensures ok { OnOk result (E.grew out.old out.new (power_of (E.count out.old) base exponent).items) }
    ensures count { OnOk result (E.count out.new ≡ E.count out.old + made (power_of (E.count out.old) base exponent).items) }
    ensures bound { OnOk result (E.count out.new ≤ E.count out.old + 63) }
    ensures stopped { OnErr result (E.began out.old out.new (power_of (E.count out.old) base exponent).items) }
    ensures cause { IsErrOf result EmitStop.Failed → Rose (E.faults out.old) (E.faults out.new) }
{
    powers(alloc, base.span, base.term, steps_to(exponent), out)
}

/// The place in a list of two of what a truth value chooses.
fn place_of<E: Emit>(alloc: Global, truth: Term, out: &mut E) -> Result<Term, EmitStop>
    requires { E.count out.old + 2 ≤ 2 ^ 61 }
    ensures value { IfOk result (λ t. t ≡ (after (E.count out.old) (integer_of_one (E.count out.old) truths Bool2Int truth) (λ k z. integer_of_sum k (record { lo = pos 1; hi = pos 2 }) (pos 1 ∷ pos 1 ∷ []) (z ∷ []) (pos 2))).term) }
    ensures ok { OnOk result (E.grew out.old out.new (after (E.count out.old) (integer_of_one (E.count out.old) truths Bool2Int truth) (λ k z. integer_of_sum k (record { lo = pos 1; hi = pos 2 }) (pos 1 ∷ pos 1 ∷ []) (z ∷ []) (pos 2))).items) }
    ensures count { OnOk result (E.count out.new ≡ E.count out.old + 2) }
    ensures stopped { OnErr result (E.began out.old out.new (after (E.count out.old) (integer_of_one (E.count out.old) truths Bool2Int truth) (λ k z. integer_of_sum k (record { lo = pos 1; hi = pos 2 }) (pos 1 ∷ pos 1 ∷ []) (z ∷ []) (pos 2))).items) }
    ensures cause { IsErrOf result EmitStop.Failed → Rose (E.faults out.old) (E.faults out.new) }
{
    let number = integer_of_one(alloc, truth_values(), Builtin::Bool2Int, truth, out)?;
    let places = Span::new(1, 2).unwrap();
    integer_of_sum(alloc, places, &[1, 1], &[number], 2, out)
}

fn choice<E: Emit>(
    alloc: Global,
    span: Span,
    truth: Term,
    x: Term,
    y: Term,
    out: &mut E,
) -> Result<Term, EmitStop>
    requires { E.count out.old + 3 ≤ 2 ^ 61 }
    ensures value { IfOk result (λ t. t ≡ (choice (E.count out.old) span truth x y).term) }
    ensures ok { OnOk result (E.grew out.old out.new (choice (E.count out.old) span truth x y).items) }
    ensures count { OnOk result (E.count out.new ≡ E.count out.old + 3) }
    ensures stopped { OnErr result (E.began out.old out.new (choice (E.count out.old) span truth x y).items) }
    ensures cause { IsErrOf result EmitStop.Failed → Rose (E.faults out.old) (E.faults out.new) }
{
    let place = place_of(alloc, truth, out)?;
    integer_of_place(alloc, span, place, &[x, y], out)
}

fn choice_of<E: Emit>(
    alloc: Global,
    span: Span,
    operands: &[Operand],
    out: &mut E,
) -> Result<Term, EmitStop>
    requires { E.count out.old + 3 ≤ 2 ^ 61 }
    ensures value { IfOk result (λ t. t ≡ (choice_of (E.count out.old) span operands.now).term) }
    ensures ok { OnOk result (E.grew out.old out.new (choice_of (E.count out.old) span operands.now).items) }
    ensures count { OnOk result (E.count out.new ≡ E.count out.old + 3) }
    ensures stopped { OnErr result (E.began out.old out.new (choice_of (E.count out.old) span operands.now).items) }
    ensures cause { IsErrOf result EmitStop.Failed → Rose (E.faults out.old) (E.faults out.new) }
{
    let truth = operand_at(operands, 0).term;
    let x = operand_at(operands, 1).term;
    let y = operand_at(operands, 2).term;
    choice(alloc, span, truth, x, y, out)
}

/// The least or the greatest.
fn extreme<E: Emit>(
    alloc: Global,
    span: Span,
    builtin: Builtin,
    operands: &[Operand],
    out: &mut E,
) -> Result<Term, EmitStop>
    requires { E.count out.old < 2 ^ 61 }
    ensures value { IfOk result (λ t. t ≡ (integer_of_list (E.count out.old) span builtin (terms_of operands.now)).term) }
    ensures ok { OnOk result (E.grew out.old out.new (integer_of_list (E.count out.old) span builtin (terms_of operands.now)).items) }
    ensures count { OnOk result (E.count out.new ≡ E.count out.old + 1) }
    ensures stopped { OnErr result (E.began out.old out.new (integer_of_list (E.count out.old) span builtin (terms_of operands.now)).items) }
    ensures cause { IsErrOf result EmitStop.Failed → Rose (E.faults out.old) (E.faults out.new) }
{
    let r = out.new_int(span)?;
    let list = Arg::List(args_of(alloc, operands)?);
    out.post(call_of_two(alloc, builtin, Arg::Var(r), list)?)?;
    Ok(Term::Var(r))
}

fn other_number<E: Emit>(
    alloc: Global,
    op: Op,
    span: Span,
    operands: &[Operand],
    out: &mut E,
) -> Result<Term, EmitStop>
    requires { E.count out.old + 3 ≤ 2 ^ 61 }
    ensures value { IfOk result (λ t. t ≡ (other_number op span (E.count out.old) operands.now).term) }
    ensures ok { OnOk result (E.grew out.old out.new (other_number op span (E.count out.old) operands.now).items) }
    ensures count { OnOk result (E.count out.new ≡ E.count out.old + made (other_number op span (E.count out.old) operands.now).items) }
    ensures bound { OnOk result (E.count out.new ≤ E.count out.old + 3) }
    ensures stopped { OnErr result (E.began out.old out.new (other_number op span (E.count out.old) operands.now).items) }
    ensures cause { IsErrOf result EmitStop.Failed → Rose (E.faults out.old) (E.faults out.new) }
{
    let x = operand_at(operands, 0).term;
    let y = operand_at(operands, 1).term;
    match op {
        Op::Div => integer_of_two(alloc, span, Builtin::IntDiv, x, y, out),
        Op::Mod => integer_of_two(alloc, span, Builtin::IntMod, x, y, out),
        Op::Min => extreme(alloc, span, Builtin::ArrayIntMinimum, operands, out),
        Op::Max => extreme(alloc, span, Builtin::ArrayIntMaximum, operands, out),
        Op::If => choice_of(alloc, span, operands, out),
        _ => Ok(Term::Int(0)),
    }
}

/// What an operator that gives a number makes of its operands.
pub(crate) fn number_node<E: Emit>(
    alloc: Global,
    op: Op,
    span: Span,
    operands: &[Operand],
    out: &mut E,
) -> Result<Term, EmitStop>
    requires { E.count out.old + (63 + length operands.now) ≤ 2 ^ 61 }
    ensures value { IfOk result (λ t. t ≡ (number_node op span (E.count out.old) operands.now).term) }
    ensures ok { OnOk result (E.grew out.old out.new (number_node op span (E.count out.old) operands.now).items) }
    ensures count { OnOk result (E.count out.new ≡ E.count out.old + made (number_node op span (E.count out.old) operands.now).items) }
    ensures bound { OnOk result (E.count out.new ≤ E.count out.old + (63 + length operands.now)) }
    ensures stopped { OnErr result (E.began out.old out.new (number_node op span (E.count out.old) operands.now).items) }
    ensures cause { IsErrOf result EmitStop.Failed → Rose (E.faults out.old) (E.faults out.new) }
{
    let first = operand_at(operands, 0);
    let x = first.term;
    let second = operand_at(operands, 1);
    let y = second.term;
    match op {
        Op::Neg => integer_of_sum(alloc, span, &[1, 1], &[x], 0, out),
        Op::Abs => integer_of_one(alloc, span, Builtin::IntAbs, x, out),
        Op::Sqr => integer_of_two(alloc, span, Builtin::IntTimes, x, x, out),
        Op::Add => sum(alloc, span, operands, out),
        Op::Sub => difference(alloc, span, x, y, out),
        Op::Dist => distance(alloc, span, first, second, out),
        Op::Mul => product_of(alloc, operands, out),
        Op::Pow => power_of(alloc, first, y, out),
        _ => other_number(alloc, op, span, operands, out),
    }
}
