//! New variables, each with the call that gives it its value.

ghost use Rattle.std.specs.Prelude.{◌≡◌, ◌+◌, ◌≤◌, ◌<◌, ◌^◌, ◌∷◌, ◌++◌, [], length, pos, negsuc, map, true, false, IfOk, OnOk, OnErr, IsErrOf, SomeIff};
ghost use Rattle.xf_text.specs.Outside.{Rose};
ghost use Rattle.lo_base.specs.Item.{made};
ghost use Rattle.lo_emit.specs.Emitted.{integer_of_truth, integer_of_constants, integer_of_value, truth_of_range, truth_of_sum, integer_of_one, integer_of_two, integer_of_list, integer_of_sum, integer_of_place, truth_of_one, truth_of_two, truth_of_list, truth_of_set, truth_of_number};

use crate::term::{Term, arg_of, constants_of, list_of, list_with, set_of};
use fz_model::{Arg, Builtin, call_of_four, call_of_three, call_of_two};
use lo_base::{Emit, EmitStop, truth_values};
use std::alloc::Global;
use xf_num::Span;

/// The integer that the builtin makes of one argument.
pub fn integer_of_one<E: Emit>(
    alloc: Global,
    span: Span,
    builtin: Builtin,
    x: Term,
    out: &mut E,
) -> Result<Term, EmitStop>
    requires { E.count out.old < 2 ^ 61 }
    ensures value { IfOk result (λ t. t ≡ (integer_of_one (E.count out.old) span builtin x).term) }
    ensures ok { OnOk result (E.grew out.old out.new (integer_of_one (E.count out.old) span builtin x).items) }
    ensures count { OnOk result (E.count out.new ≡ E.count out.old + 1) }
    ensures stopped { OnErr result (E.began out.old out.new (integer_of_one (E.count out.old) span builtin x).items) }
    ensures cause { IsErrOf result EmitStop.Failed → Rose (E.faults out.old) (E.faults out.new) }
{
    let r = out.new_int(span)?;
    out.post(call_of_two(alloc, builtin, arg_of(x), Arg::Var(r))?)?;
    Ok(Term::Var(r))
}

/// The integer that the builtin makes of two arguments.
pub fn integer_of_two<E: Emit>(
    alloc: Global,
    span: Span,
    builtin: Builtin,
    x: Term,
    y: Term,
    out: &mut E,
) -> Result<Term, EmitStop>
    requires { E.count out.old < 2 ^ 61 }
    ensures value { IfOk result (λ t. t ≡ (integer_of_two (E.count out.old) span builtin x y).term) }
    ensures ok { OnOk result (E.grew out.old out.new (integer_of_two (E.count out.old) span builtin x y).items) }
    ensures count { OnOk result (E.count out.new ≡ E.count out.old + 1) }
    ensures stopped { OnErr result (E.began out.old out.new (integer_of_two (E.count out.old) span builtin x y).items) }
    ensures cause { IsErrOf result EmitStop.Failed → Rose (E.faults out.old) (E.faults out.new) }
{
    let r = out.new_int(span)?;
    out.post(call_of_three(alloc, builtin, arg_of(x), arg_of(y), Arg::Var(r))?)?;
    Ok(Term::Var(r))
}

/// The integer that the builtin makes of a list, and that stands before it.
pub fn integer_of_list<E: Emit>(
    alloc: Global,
    span: Span,
    builtin: Builtin,
    terms: &[Term],
    out: &mut E,
) -> Result<Term, EmitStop>
    requires { E.count out.old < 2 ^ 61 }
    ensures value { IfOk result (λ t. t ≡ (integer_of_list (E.count out.old) span builtin terms.now).term) }
    ensures ok { OnOk result (E.grew out.old out.new (integer_of_list (E.count out.old) span builtin terms.now).items) }
    ensures count { OnOk result (E.count out.new ≡ E.count out.old + 1) }
    ensures stopped { OnErr result (E.began out.old out.new (integer_of_list (E.count out.old) span builtin terms.now).items) }
    ensures cause { IsErrOf result EmitStop.Failed → Rose (E.faults out.old) (E.faults out.new) }
{
    let r = out.new_int(span)?;
    out.post(call_of_two(alloc, builtin, Arg::Var(r), list_of(alloc, terms)?)?)?;
    Ok(Term::Var(r))
}

/// The integer with which a sum is the constant; the last coefficient is its own.
pub fn integer_of_sum<E: Emit>(
    alloc: Global,
    span: Span,
    coefficients: &[i128],
    terms: &[Term],
    constant: i128,
    out: &mut E,
) -> Result<Term, EmitStop>
    requires { E.count out.old < 2 ^ 61 }
    ensures value { IfOk result (λ t. t ≡ (integer_of_sum (E.count out.old) span coefficients.now terms.now constant).term) }
    ensures ok { OnOk result (E.grew out.old out.new (integer_of_sum (E.count out.old) span coefficients.now terms.now constant).items) }
    ensures count { OnOk result (E.count out.new ≡ E.count out.old + 1) }
    ensures stopped { OnErr result (E.began out.old out.new (integer_of_sum (E.count out.old) span coefficients.now terms.now constant).items) }
    ensures cause { IsErrOf result EmitStop.Failed → Rose (E.faults out.old) (E.faults out.new) }
{
    let r = out.new_int(span)?;
    let sum = call_of_three(
        alloc,
        Builtin::IntLinEq,
        constants_of(alloc, coefficients)?,
        list_with(alloc, terms, Term::Var(r))?,
        Arg::Int(constant),
    )?;
    out.post(sum)?;
    Ok(Term::Var(r))
}

/// The member of the list at the place.
pub fn integer_of_place<E: Emit>(
    alloc: Global,
    span: Span,
    place: Term,
    terms: &[Term],
    out: &mut E,
) -> Result<Term, EmitStop>
    requires { E.count out.old < 2 ^ 61 }
    ensures value { IfOk result (λ t. t ≡ (integer_of_place (E.count out.old) span place terms.now).term) }
    ensures ok { OnOk result (E.grew out.old out.new (integer_of_place (E.count out.old) span place terms.now).items) }
    ensures count { OnOk result (E.count out.new ≡ E.count out.old + 1) }
    ensures stopped { OnErr result (E.began out.old out.new (integer_of_place (E.count out.old) span place terms.now).items) }
    ensures cause { IsErrOf result EmitStop.Failed → Rose (E.faults out.old) (E.faults out.new) }
{
    let r = out.new_int(span)?;
    let element = call_of_three(
        alloc,
        Builtin::ArrayVarIntElement,
        arg_of(place),
        list_of(alloc, terms)?,
        Arg::Var(r),
    )?;
    out.post(element)?;
    Ok(Term::Var(r))
}

/// The truth value that the builtin makes of one argument.
pub fn truth_of_one<E: Emit>(
    alloc: Global,
    builtin: Builtin,
    x: Term,
    out: &mut E,
) -> Result<Term, EmitStop>
    requires { E.count out.old < 2 ^ 61 }
    ensures value { IfOk result (λ t. t ≡ (truth_of_one (E.count out.old) builtin x).term) }
    ensures ok { OnOk result (E.grew out.old out.new (truth_of_one (E.count out.old) builtin x).items) }
    ensures count { OnOk result (E.count out.new ≡ E.count out.old + 1) }
    ensures stopped { OnErr result (E.began out.old out.new (truth_of_one (E.count out.old) builtin x).items) }
    ensures cause { IsErrOf result EmitStop.Failed → Rose (E.faults out.old) (E.faults out.new) }
{
    let b = out.new_bool()?;
    out.post(call_of_two(alloc, builtin, arg_of(x), Arg::Var(b))?)?;
    Ok(Term::Var(b))
}

/// The truth value that the builtin makes of two arguments.
pub fn truth_of_two<E: Emit>(
    alloc: Global,
    builtin: Builtin,
    x: Term,
    y: Term,
    out: &mut E,
) -> Result<Term, EmitStop>
    requires { E.count out.old < 2 ^ 61 }
    ensures value { IfOk result (λ t. t ≡ (truth_of_two (E.count out.old) builtin x y).term) }
    ensures ok { OnOk result (E.grew out.old out.new (truth_of_two (E.count out.old) builtin x y).items) }
    ensures count { OnOk result (E.count out.new ≡ E.count out.old + 1) }
    ensures stopped { OnErr result (E.began out.old out.new (truth_of_two (E.count out.old) builtin x y).items) }
    ensures cause { IsErrOf result EmitStop.Failed → Rose (E.faults out.old) (E.faults out.new) }
{
    let b = out.new_bool()?;
    out.post(call_of_three(alloc, builtin, arg_of(x), arg_of(y), Arg::Var(b))?)?;
    Ok(Term::Var(b))
}

/// The truth value that the builtin makes of a list.
pub fn truth_of_list<E: Emit>(
    alloc: Global,
    builtin: Builtin,
    terms: &[Term],
    out: &mut E,
) -> Result<Term, EmitStop>
    requires { E.count out.old < 2 ^ 61 }
    ensures value { IfOk result (λ t. t ≡ (truth_of_list (E.count out.old) builtin terms.now).term) }
    ensures ok { OnOk result (E.grew out.old out.new (truth_of_list (E.count out.old) builtin terms.now).items) }
    ensures count { OnOk result (E.count out.new ≡ E.count out.old + 1) }
    ensures stopped { OnErr result (E.began out.old out.new (truth_of_list (E.count out.old) builtin terms.now).items) }
    ensures cause { IsErrOf result EmitStop.Failed → Rose (E.faults out.old) (E.faults out.new) }
{
    let b = out.new_bool()?;
    out.post(call_of_two(alloc, builtin, list_of(alloc, terms)?, Arg::Var(b))?)?;
    Ok(Term::Var(b))
}

/// Whether a term is in a set.
pub fn truth_of_set<E: Emit>(
    alloc: Global,
    x: Term,
    values: &[i128],
    out: &mut E,
) -> Result<Term, EmitStop>
    requires { E.count out.old < 2 ^ 61 }
    ensures value { IfOk result (λ t. t ≡ (truth_of_set (E.count out.old) x values.now).term) }
    ensures ok { OnOk result (E.grew out.old out.new (truth_of_set (E.count out.old) x values.now).items) }
    ensures count { OnOk result (E.count out.new ≡ E.count out.old + 1) }
    ensures stopped { OnErr result (E.began out.old out.new (truth_of_set (E.count out.old) x values.now).items) }
    ensures cause { IsErrOf result EmitStop.Failed → Rose (E.faults out.old) (E.faults out.new) }
{
    let b = out.new_bool()?;
    let set_in = call_of_three(
        alloc,
        Builtin::SetInReif,
        arg_of(x),
        set_of(alloc, values)?,
        Arg::Var(b),
    )?;
    out.post(set_in)?;
    Ok(Term::Var(b))
}

/// The truth value that a number is.
pub fn truth_of_number<E: Emit>(alloc: Global, x: Term, out: &mut E) -> Result<Term, EmitStop>
    requires { E.count out.old < 2 ^ 61 }
    ensures value { IfOk result (λ t. t ≡ (truth_of_number (E.count out.old) x).term) }
    ensures ok { OnOk result (E.grew out.old out.new (truth_of_number (E.count out.old) x).items) }
    ensures count { OnOk result (E.count out.new ≡ E.count out.old + 1) }
    ensures stopped { OnErr result (E.began out.old out.new (truth_of_number (E.count out.old) x).items) }
    ensures cause { IsErrOf result EmitStop.Failed → Rose (E.faults out.old) (E.faults out.new) }
{
    let b = out.new_bool()?;
    out.post(call_of_two(alloc, Builtin::Bool2Int, Arg::Var(b), arg_of(x))?)?;
    Ok(Term::Var(b))
}

/// The member of these constants at the place.
pub fn integer_of_constants<E: Emit>(
    alloc: Global,
    span: Span,
    place: Term,
    values: &[i128],
    out: &mut E,
) -> Result<Term, EmitStop>
    requires { E.count out.old < 2 ^ 61 }
    ensures value { IfOk result (λ t. t ≡ (integer_of_constants (E.count out.old) span place values.now).term) }
    ensures ok { OnOk result (E.grew out.old out.new (integer_of_constants (E.count out.old) span place values.now).items) }
    ensures count { OnOk result (E.count out.new ≡ E.count out.old + 1) }
    ensures stopped { OnErr result (E.began out.old out.new (integer_of_constants (E.count out.old) span place values.now).items) }
    ensures cause { IsErrOf result EmitStop.Failed → Rose (E.faults out.old) (E.faults out.new) }
{
    let r = out.new_int(span)?;
    let element = call_of_three(
        alloc,
        Builtin::ArrayIntElement,
        arg_of(place),
        constants_of(alloc, values)?,
        Arg::Var(r),
    )?;
    out.post(element)?;
    Ok(Term::Var(r))
}

/// The integer that a truth value is.
pub fn integer_of_truth<E: Emit>(alloc: Global, truth: Term, out: &mut E) -> Result<Term, EmitStop>
    requires { E.count out.old < 2 ^ 61 }
    ensures value { IfOk result (λ t. t ≡ (integer_of_truth (E.count out.old) truth).term) }
    ensures ok { OnOk result (E.grew out.old out.new (integer_of_truth (E.count out.old) truth).items) }
    ensures count { OnOk result (E.count out.new ≡ E.count out.old + 1) }
    ensures stopped { OnErr result (E.began out.old out.new (integer_of_truth (E.count out.old) truth).items) }
    ensures cause { IsErrOf result EmitStop.Failed → Rose (E.faults out.old) (E.faults out.new) }
{
    integer_of_one(alloc, truth_values(), Builtin::Bool2Int, truth, out)
}

/// Whether a term lies in a range.
pub fn truth_of_range<E: Emit>(
    alloc: Global,
    x: Term,
    span: Span,
    out: &mut E,
) -> Result<Term, EmitStop>
    requires { E.count out.old < 2 ^ 61 }
    ensures value { IfOk result (λ t. t ≡ (truth_of_range (E.count out.old) x span).term) }
    ensures ok { OnOk result (E.grew out.old out.new (truth_of_range (E.count out.old) x span).items) }
    ensures count { OnOk result (E.count out.new ≡ E.count out.old + 1) }
    ensures stopped { OnErr result (E.began out.old out.new (truth_of_range (E.count out.old) x span).items) }
    ensures cause { IsErrOf result EmitStop.Failed → Rose (E.faults out.old) (E.faults out.new) }
{
    let b = out.new_bool()?;
    let set_in = call_of_three(
        alloc,
        Builtin::SetInReif,
        arg_of(x),
        Arg::Range(span),
        Arg::Var(b),
    )?;
    out.post(set_in)?;
    Ok(Term::Var(b))
}

/// Whether a sum of products is at most a constant.
pub fn truth_of_sum<E: Emit>(
    alloc: Global,
    coefficients: &[i128],
    terms: &[Term],
    constant: i128,
    out: &mut E,
) -> Result<Term, EmitStop>
    requires { E.count out.old < 2 ^ 61 }
    ensures value { IfOk result (λ t. t ≡ (truth_of_sum (E.count out.old) coefficients.now terms.now constant).term) }
    ensures ok { OnOk result (E.grew out.old out.new (truth_of_sum (E.count out.old) coefficients.now terms.now constant).items) }
    ensures count { OnOk result (E.count out.new ≡ E.count out.old + 1) }
    ensures stopped { OnErr result (E.began out.old out.new (truth_of_sum (E.count out.old) coefficients.now terms.now constant).items) }
    ensures cause { IsErrOf result EmitStop.Failed → Rose (E.faults out.old) (E.faults out.new) }
{
    let b = out.new_bool()?;
    let sum = call_of_four(
        alloc,
        Builtin::IntLinLeReif,
        constants_of(alloc, coefficients)?,
        list_of(alloc, terms)?,
        Arg::Int(constant),
        Arg::Var(b),
    )?;
    out.post(sum)?;
    Ok(Term::Var(b))
}

/// A new integer of one value.
pub fn integer_of_value<E: Emit>(value: i128, out: &mut E) -> Result<Term, EmitStop>
    requires { E.count out.old < 2 ^ 61 }
    ensures value { IfOk result (λ t. t ≡ (integer_of_value (E.count out.old) value).term) }
    ensures ok { OnOk result (E.grew out.old out.new (integer_of_value (E.count out.old) value).items) }
    ensures count { OnOk result (E.count out.new ≡ E.count out.old + 1) }
    ensures stopped { OnErr result (E.began out.old out.new (integer_of_value (E.count out.old) value).items) }
    ensures cause { IsErrOf result EmitStop.Failed → Rose (E.faults out.old) (E.faults out.new) }
{
    Ok(Term::Var(out.new_int(Span::new(value, value).unwrap())?))
}
