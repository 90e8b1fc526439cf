//! One node, literal or variable, in the mode that is asked.

ghost use Rattle.std.specs.Prelude.{◌≡◌, ◌+◌, ◌≤◌, ◌<◌, ◌^◌, ◌∷◌, [], length, pos, negsuc, map, true, false, IfOk, OnOk, OnErr, IsErrOf, SomeIff};
ghost use Rattle.xf_text.specs.Outside.{Rose};
ghost use Rattle.lo_base.specs.Item.{made};
ghost use Rattle.lo_emit.specs.Emitted.{truth_of_number};
ghost use Rattle.lo_terms.specs.Rules.{tested, stated_node, truth_node, number_node, gives_truth, counted, as_number, as_truth, asserted, node, literal_truth, literal, variable};

use crate::numbers::number_node;
use crate::stated::{posting_clause, stated_node};
use crate::term::{Mode, Operand};
use crate::truths::truth_node;
use fz_model::Builtin;
use lo_base::{Emit, EmitStop, truth_values};
use lo_emit::{Term, integer_of_one, truth_of_number};
use std::alloc::Global;
use xf_num::Span;
use xs_model::Op;

/// Whether the operator gives a truth value.
fn gives_truth(op: Op) -> bool
    ensures { result ≡ gives_truth op }
{
    match op {
        Op::Neg | Op::Abs | Op::Sqr | Op::Add | Op::Mul | Op::Sub | Op::Dist => false,
        Op::Div | Op::Mod | Op::Pow | Op::Min | Op::Max | Op::If | Op::Set => false,
        _ => true,
    }
}

/// The number that a truth value is.
#[tactic(auto, using(crate::proofs::Made::made_joined))]
fn counted<E: Emit>(
    alloc: Global,
    op: Op,
    written: bool,
    operands: &[Operand],
    out: &mut E,
) -> Result<Term, EmitStop>
    requires { E.count out.old + (length operands.now + 2) ≤ 2 ^ 61 }
    ensures value { IfOk result (λ t. t ≡ (counted (E.count out.old) (truth_node op written (E.count out.old) operands.now)).term) }
    ensures ok { OnOk result (E.grew out.old out.new (counted (E.count out.old) (truth_node op written (E.count out.old) operands.now)).items) }
    ensures count { OnOk result (E.count out.new ≡ E.count out.old + made (counted (E.count out.old) (truth_node op written (E.count out.old) operands.now)).items) }
    ensures bound { OnOk result (E.count out.new ≤ E.count out.old + (length operands.now + 2)) }
    ensures stopped { OnErr result (E.began out.old out.new (counted (E.count out.old) (truth_node op written (E.count out.old) operands.now)).items) }
    ensures cause { IsErrOf result EmitStop.Failed → Rose (E.faults out.old) (E.faults out.new) }
{
    let truth = truth_node(alloc, op, written, operands, out)?;
    integer_of_one(alloc, truth_values(), Builtin::Bool2Int, truth, out)
}

/// The truth value that a number is.
#[tactic(auto, using(crate::proofs::Made::made_joined))]
fn tested<E: Emit>(
    alloc: Global,
    op: Op,
    span: Span,
    operands: &[Operand],
    out: &mut E,
) -> Result<Term, EmitStop>
    requires { E.count out.old + (64 + length operands.now) ≤ 2 ^ 61 }
    ensures value { IfOk result (λ t. t ≡ (tested (E.count out.old) (number_node op span (E.count out.old) operands.now)).term) }
    ensures ok { OnOk result (E.grew out.old out.new (tested (E.count out.old) (number_node op span (E.count out.old) operands.now)).items) }
    ensures count { OnOk result (E.count out.new ≡ E.count out.old + made (tested (E.count out.old) (number_node op span (E.count out.old) operands.now)).items) }
    ensures bound { OnOk result (E.count out.new ≤ E.count out.old + (64 + length operands.now)) }
    ensures stopped { OnErr result (E.began out.old out.new (tested (E.count out.old) (number_node op span (E.count out.old) operands.now)).items) }
    ensures cause { IsErrOf result EmitStop.Failed → Rose (E.faults out.old) (E.faults out.new) }
{
    let number = number_node(alloc, op, span, operands, out)?;
    truth_of_number(alloc, number, out)
}

fn as_number<E: Emit>(
    alloc: Global,
    op: Op,
    span: Span,
    written: bool,
    operands: &[Operand],
    out: &mut E,
) -> Result<Term, EmitStop>
    requires { E.count out.old + (64 + length operands.now) ≤ 2 ^ 61 }
    ensures value { IfOk result (λ t. t ≡ (as_number op span written (E.count out.old) operands.now).term) }
    ensures ok { OnOk result (E.grew out.old out.new (as_number op span written (E.count out.old) operands.now).items) }
    ensures count { OnOk result (E.count out.new ≡ E.count out.old + made (as_number op span written (E.count out.old) operands.now).items) }
    ensures bound { OnOk result (E.count out.new ≤ E.count out.old + (64 + length operands.now)) }
    ensures stopped { OnErr result (E.began out.old out.new (as_number op span written (E.count out.old) operands.now).items) }
    ensures cause { IsErrOf result EmitStop.Failed → Rose (E.faults out.old) (E.faults out.new) }
{
    if gives_truth(op) {
        counted(alloc, op, written, operands, out)
    } else {
        number_node(alloc, op, span, operands, out)
    }
}

pub(crate) fn as_truth<E: Emit>(
    alloc: Global,
    op: Op,
    span: Span,
    written: bool,
    operands: &[Operand],
    out: &mut E,
) -> Result<Term, EmitStop>
    requires { E.count out.old + (64 + length operands.now) ≤ 2 ^ 61 }
    ensures value { IfOk result (λ t. t ≡ (as_truth op span written (E.count out.old) operands.now).term) }
    ensures ok { OnOk result (E.grew out.old out.new (as_truth op span written (E.count out.old) operands.now).items) }
    ensures count { OnOk result (E.count out.new ≡ E.count out.old + made (as_truth op span written (E.count out.old) operands.now).items) }
    ensures bound { OnOk result (E.count out.new ≤ E.count out.old + (64 + length operands.now)) }
    ensures stopped { OnErr result (E.began out.old out.new (as_truth op span written (E.count out.old) operands.now).items) }
    ensures cause { IsErrOf result EmitStop.Failed → Rose (E.faults out.old) (E.faults out.new) }
{
    if gives_truth(op) {
        truth_node(alloc, op, written, operands, out)
    } else {
        tested(alloc, op, span, operands, out)
    }
}

fn stated_truth<E: Emit>(
    alloc: Global,
    op: Op,
    span: Span,
    written: bool,
    operands: &[Operand],
    out: &mut E,
) -> Result<Term, EmitStop>
    requires { E.count out.old + (64 + length operands.now) ≤ 2 ^ 61 }
    ensures value { IfOk result (λ t. t ≡ (stated_node op span written (E.count out.old) operands.now).term) }
    ensures ok { OnOk result (E.grew out.old out.new (stated_node op span written (E.count out.old) operands.now).items) }
    ensures count { OnOk result (E.count out.new ≡ E.count out.old + made (stated_node op span written (E.count out.old) operands.now).items) }
    ensures bound { OnOk result (E.count out.new ≤ E.count out.old + (64 + length operands.now)) }
    ensures stopped { OnErr result (E.began out.old out.new (stated_node op span written (E.count out.old) operands.now).items) }
    ensures cause { IsErrOf result EmitStop.Failed → Rose (E.faults out.old) (E.faults out.new) }
{
    stated_node(alloc, op, span, written, operands, out)?;
    Ok(Term::Truth(true))
}

/// What an operator makes of its operands.
pub(crate) fn node<E: Emit>(
    alloc: Global,
    op: Op,
    mode: Mode,
    span: Span,
    written: bool,
    operands: &[Operand],
    out: &mut E,
) -> Result<Term, EmitStop>
    requires { E.count out.old + (64 + length operands.now) ≤ 2 ^ 61 }
    ensures value { IfOk result (λ t. t ≡ (node op mode span written (E.count out.old) operands.now).term) }
    ensures ok { OnOk result (E.grew out.old out.new (node op mode span written (E.count out.old) operands.now).items) }
    ensures count { OnOk result (E.count out.new ≡ E.count out.old + made (node op mode span written (E.count out.old) operands.now).items) }
    ensures bound { OnOk result (E.count out.new ≤ E.count out.old + (64 + length operands.now)) }
    ensures stopped { OnErr result (E.began out.old out.new (node op mode span written (E.count out.old) operands.now).items) }
    ensures cause { IsErrOf result EmitStop.Failed → Rose (E.faults out.old) (E.faults out.new) }
{
    match mode {
        Mode::Number => as_number(alloc, op, span, written, operands, out),
        Mode::Logic => as_truth(alloc, op, span, written, operands, out),
        Mode::Stated => stated_truth(alloc, op, span, written, operands, out),
    }
}

fn literal_truth<E: Emit>(alloc: Global, value: i128, out: &mut E) -> Result<Term, EmitStop>
    requires { E.count out.old < 2 ^ 61 }
    ensures value { IfOk result (λ t. t ≡ (literal_truth (E.count out.old) value).term) }
    ensures ok { OnOk result (E.grew out.old out.new (literal_truth (E.count out.old) value).items) }
    ensures count { OnOk result (E.count out.new ≡ E.count out.old + made (literal_truth (E.count out.old) value).items) }
    ensures bound { OnOk result (E.count out.new ≤ E.count out.old + 1) }
    ensures stopped { OnErr result (E.began out.old out.new (literal_truth (E.count out.old) value).items) }
    ensures cause { IsErrOf result EmitStop.Failed → Rose (E.faults out.old) (E.faults out.new) }
{
    if value == 0 {
        return Ok(Term::Truth(false));
    }
    if value == 1 {
        return Ok(Term::Truth(true));
    }
    truth_of_number(alloc, Term::Int(value), out)
}

fn stated_literal<E: Emit>(alloc: Global, value: i128, out: &mut E) -> Result<Term, EmitStop>
    requires { E.count out.old < 2 ^ 61 }
    ensures value { IfOk result (λ t. t ≡ (asserted (E.count out.old) (literal_truth (E.count out.old) value)).term) }
    ensures ok { OnOk result (E.grew out.old out.new (asserted (E.count out.old) (literal_truth (E.count out.old) value)).items) }
    ensures count { OnOk result (E.count out.new ≡ E.count out.old + made (asserted (E.count out.old) (literal_truth (E.count out.old) value)).items) }
    ensures bound { OnOk result (E.count out.new ≤ E.count out.old + 1) }
    ensures stopped { OnErr result (E.began out.old out.new (asserted (E.count out.old) (literal_truth (E.count out.old) value)).items) }
    ensures cause { IsErrOf result EmitStop.Failed → Rose (E.faults out.old) (E.faults out.new) }
{
    let truth = literal_truth(alloc, value, out)?;
    posting_clause(alloc, &[truth], &[], out)?;
    Ok(Term::Truth(true))
}

pub(crate) fn literal<E: Emit>(
    alloc: Global,
    mode: Mode,
    value: i128,
    out: &mut E,
) -> Result<Term, EmitStop>
    requires { E.count out.old < 2 ^ 61 }
    ensures value { IfOk result (λ t. t ≡ (literal mode (E.count out.old) value).term) }
    ensures ok { OnOk result (E.grew out.old out.new (literal mode (E.count out.old) value).items) }
    ensures count { OnOk result (E.count out.new ≡ E.count out.old + made (literal mode (E.count out.old) value).items) }
    ensures bound { OnOk result (E.count out.new ≤ E.count out.old + 1) }
    ensures stopped { OnErr result (E.began out.old out.new (literal mode (E.count out.old) value).items) }
    ensures cause { IsErrOf result EmitStop.Failed → Rose (E.faults out.old) (E.faults out.new) }
{
    match mode {
        Mode::Number => Ok(Term::Int(value)),
        Mode::Logic => literal_truth(alloc, value, out),
        Mode::Stated => stated_literal(alloc, value, out),
    }
}

fn stated_variable<E: Emit>(alloc: Global, number: u64, out: &mut E) -> Result<Term, EmitStop>
    requires { E.count out.old < 2 ^ 61 }
    ensures value { IfOk result (λ t. t ≡ (asserted (E.count out.old) (truth_of_number (E.count out.old) (Term.Var number))).term) }
    ensures ok { OnOk result (E.grew out.old out.new (asserted (E.count out.old) (truth_of_number (E.count out.old) (Term.Var number))).items) }
    ensures count { OnOk result (E.count out.new ≡ E.count out.old + 1) }
    ensures stopped { OnErr result (E.began out.old out.new (asserted (E.count out.old) (truth_of_number (E.count out.old) (Term.Var number))).items) }
    ensures cause { IsErrOf result EmitStop.Failed → Rose (E.faults out.old) (E.faults out.new) }
{
    let truth = truth_of_number(alloc, Term::Var(number), out)?;
    posting_clause(alloc, &[truth], &[], out)?;
    Ok(Term::Truth(true))
}

pub(crate) fn variable<E: Emit>(
    alloc: Global,
    mode: Mode,
    number: u64,
    out: &mut E,
) -> Result<Term, EmitStop>
    requires { E.count out.old < 2 ^ 61 }
    ensures value { IfOk result (λ t. t ≡ (variable mode (E.count out.old) number).term) }
    ensures ok { OnOk result (E.grew out.old out.new (variable mode (E.count out.old) number).items) }
    ensures count { OnOk result (E.count out.new ≡ E.count out.old + made (variable mode (E.count out.old) number).items) }
    ensures bound { OnOk result (E.count out.new ≤ E.count out.old + 1) }
    ensures stopped { OnErr result (E.began out.old out.new (variable mode (E.count out.old) number).items) }
    ensures cause { IsErrOf result EmitStop.Failed → Rose (E.faults out.old) (E.faults out.new) }
{
    match mode {
        Mode::Number => Ok(Term::Var(number)),
        Mode::Logic => truth_of_number(alloc, Term::Var(number), out),
        Mode::Stated => stated_variable(alloc, number, out),
    }
}
