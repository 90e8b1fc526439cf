//! Expressions, from their operands up.

ghost use Rattle.std.specs.Prelude.{◌∷◌, [], ◌++◌, ◌≡◌, ◌+◌, ◌*◌, ◌≤◌, ◌<◌, ◌^◌, All, length, map, IfOk, OnOk, OnErr, IsErrOf};
ghost use Rattle.std.specs.List.{list_all};
ghost use Rattle.xf_text.specs.Outside.{Rose};
ghost use Rattle.lo_base.specs.Item.{made};
ghost use Rattle.lo_terms.specs.Emitted.{ends};
ghost use Rattle.lo_terms.specs.Lowering.{single, own_low, is_literal, is_written, has_written, low_expr, low_operands, low_intension};
ghost use Rattle.xs_model.specs.Formed.{nodes, nodes_of};
ghost use Rattle.lo_terms.specs.Rules.{literal, variable, own_mode, operand_mode};
ghost use Rattle.xs_expr.specs.Operands.{gathered_of, none};
ghost use Rattle.xs_model.specs.Bounds.{all_ok, bounds, exactly, limited, HasSpans};
ghost use Rattle.xs_model.specs.Shape.{IsShaped, is_set_operator};

use crate::gathered::{ends, own_bounds, with_next};
use crate::node::{literal, node, variable};
use crate::term::{Mode, Operand};
use lo_base::{Emit, EmitStop};
use std::alloc::Global;
use xf_num::{Row, Span};
use xf_text::Kind;
use xs_expr::{Operands, limited, only};
use xs_model::{Expr, Op};

/// Whether it is an integer as written.
fn is_literal(e: &Expr) -> bool
    ensures { result ≡ is_literal e.now }
{
    match e {
        Expr::Int(_) => true,
        Expr::Var(_) => false,
        Expr::Node(_, _) => false,
    }
}

fn are_literals(items: &[Expr]) -> bool
    ensures { result ≡ list_all is_literal items.now }
{
    for item in items {
        if !is_literal(item) {
            return false;
        }
    }
    true
}

/// Whether its operands are all integers as written.
fn is_written(e: &Expr) -> bool
    ensures { result ≡ is_written e.now }
{
    match e {
        Expr::Int(_) => false,
        Expr::Var(_) => false,
        Expr::Node(_, items) => are_literals(items.as_slice()),
    }
}

/// Whether the second operand is a set of integers as written.
fn has_written(items: &[Expr]) -> bool
    ensures { result ≡ has_written items.now }
{
    match items {
        [_, set, ..] => is_written(set),
        _ => false,
    }
}

fn own_mode(op: Op, place: usize) -> Mode
    ensures { result ≡ own_mode op place }
{
    match op {
        Op::Not | Op::And | Op::Or | Op::Xor | Op::Iff | Op::Imp => Mode::Logic,
        Op::If if place == 0 => Mode::Logic,
        _ => Mode::Number,
    }
}

/// What is asked of the operand at a place.
fn operand_mode(op: Op, mode: Mode, place: usize) -> Mode
    ensures { result ≡ operand_mode op mode place }
{
    match (op, mode) {
        (Op::And, Mode::Stated) => Mode::Stated,
        _ => own_mode(op, place),
    }
}

fn is_set_operator(op: Op) -> bool
    ensures { result ≡ is_set_operator op }
{
    match op {
        Op::Set => true,
        _ => false,
    }
}

/// A literal, whose operand goes behind the others.
fn lower_literal<E: Emit>(
    alloc: Global,
    mode: Mode,
    value: i128,
    operands: &mut Row<Operand>,
    out: &mut E,
) -> Result<Result<Span, Kind>, EmitStop>
    requires { E.count out.old < 2 ^ 61 }
    ensures value { IfOk result (λ b. b ≡ limited (exactly value)) }
    ensures told { OnOk result (operands.new ≡ operands.old ++ (single (ends (limited (exactly value))) (literal mode (E.count out.old) value)).operands) }
    ensures ok { OnOk result (E.grew out.old out.new (single (ends (limited (exactly value))) (literal mode (E.count out.old) value)).items) }
    ensures count { OnOk result (E.count out.new ≡ E.count out.old + made (single (ends (limited (exactly value))) (literal mode (E.count out.old) value)).items) }
    ensures bound { OnOk result (E.count out.new + length operands.new ≤ E.count out.old + length operands.old + 2) }
    ensures stopped { OnErr result (E.began out.old out.new (single (ends (limited (exactly value))) (literal mode (E.count out.old) value)).items) }
    ensures cause { IsErrOf result EmitStop.Failed → Rose (E.faults out.old) (E.faults out.new) }
{
    let bounds = limited(only(value));
    let span = ends(&bounds);
    let term = literal(alloc, mode, value, out)?;
    operands.push(Operand { term, span })?;
    Ok(bounds)
}

/// A variable of these bounds, whose operand goes behind the others.
fn lower_variable<E: Emit>(
    alloc: Global,
    mode: Mode,
    number: u32,
    given: Span,
    operands: &mut Row<Operand>,
    out: &mut E,
) -> Result<Result<Span, Kind>, EmitStop>
    requires { E.count out.old < 2 ^ 61 }
    ensures value { IfOk result (λ b. b ≡ limited given) }
    ensures told { OnOk result (operands.new ≡ operands.old ++ (single (ends (limited given)) (variable mode (E.count out.old) number)).operands) }
    ensures ok { OnOk result (E.grew out.old out.new (single (ends (limited given)) (variable mode (E.count out.old) number)).items) }
    ensures count { OnOk result (E.count out.new ≡ E.count out.old + made (single (ends (limited given)) (variable mode (E.count out.old) number)).items) }
    ensures bound { OnOk result (E.count out.new + length operands.new ≤ E.count out.old + length operands.old + 2) }
    ensures stopped { OnErr result (E.began out.old out.new (single (ends (limited given)) (variable mode (E.count out.old) number)).items) }
    ensures cause { IsErrOf result EmitStop.Failed → Rose (E.faults out.old) (E.faults out.new) }
{
    let bounds = limited(given);
    let span = ends(&bounds);
    let term = variable(alloc, mode, u64::from(number), out)?;
    operands.push(Operand { term, span })?;
    Ok(bounds)
}

/// The operator, behind its own operands; what stands for it goes behind the other operands.
fn finish<E: Emit>(
    alloc: Global,
    op: Op,
    mode: Mode,
    bounds: Result<Span, Kind>,
    written: bool,
    own: Row<Operand>,
    operands: &mut Row<Operand>,
    out: &mut E,
) -> Result<Result<Span, Kind>, EmitStop>
    requires { E.count out.old + (64 + length own) ≤ 2 ^ 61 }
    ensures value { IfOk result (λ b. b ≡ bounds) }
    ensures told { OnOk result (operands.new ≡ operands.old ++ (own_low op mode (ends bounds) written (E.count out.old) own).operands) }
    ensures ok { OnOk result (E.grew out.old out.new (own_low op mode (ends bounds) written (E.count out.old) own).items) }
    ensures count { OnOk result (E.count out.new ≡ E.count out.old + made (own_low op mode (ends bounds) written (E.count out.old) own).items) }
    ensures bound { OnOk result (E.count out.new + length operands.new ≤ E.count out.old + length operands.old + (65 + length own)) }
    ensures stopped { OnErr result (E.began out.old out.new (own_low op mode (ends bounds) written (E.count out.old) own).items) }
    ensures cause { IsErrOf result EmitStop.Failed → Rose (E.faults out.old) (E.faults out.new) }
{
    if is_set_operator(op) {
        operands.extend(own.as_slice())?;
        return Ok(bounds);
    }
    let span = ends(&bounds);
    let term = node(alloc, op, mode, span, written, own.as_slice(), out)?;
    operands.push(Operand { term, span })?;
    Ok(bounds)
}

/// Lowers an expression in a mode, puts what stands for it behind the operands, and answers its bounds, or the fault of
/// the first of its nodes that is at fault.
#[cycle(lowering)]
fn lower_expr<E: Emit>(
    alloc: Global,
    mode: Mode,
    e: &Expr,
    spans: &[Span],
    operands: &mut Row<Operand>,
    out: &mut E,
) -> Result<Result<Span, Kind>, EmitStop>
    requires shaped { IsShaped e.now }
    requires variables { HasSpans spans.now e.now }
    requires room { E.count out.old + 68 * nodes e.now ≤ 2 ^ 61 }
    ensures value { IfOk result (λ b. b ≡ bounds spans.now e.now) }
    ensures told { OnOk result (operands.new ≡ operands.old ++ (low_expr spans.now e.now mode (E.count out.old)).operands) }
    ensures ok { OnOk result (E.grew out.old out.new (low_expr spans.now e.now mode (E.count out.old)).items) }
    ensures count { OnOk result (E.count out.new ≡ E.count out.old + made (low_expr spans.now e.now mode (E.count out.old)).items) }
    ensures bound { OnOk result (E.count out.new + length operands.new ≤ E.count out.old + length operands.old + 68 * nodes e.now) }
    ensures stopped { OnErr result (E.began out.old out.new (low_expr spans.now e.now mode (E.count out.old)).items) }
    ensures cause { IsErrOf result EmitStop.Failed → Rose (E.faults out.old) (E.faults out.new) }
{
    match e {
        Expr::Int(value) => lower_literal(alloc, mode, *value, operands, out),
        Expr::Var(number) => {
            let given = spans[*number as usize];
            lower_variable(alloc, mode, *number, given, operands, out)
        }
        Expr::Node(op, items) => {
            let written = has_written(items.as_slice());
            let mut own = Row::new(alloc);
            let gathered = lower_operands(
                alloc,
                *op,
                mode,
                items.as_slice(),
                spans,
                &mut own,
                out,
            )?;
            let bounds = own_bounds(*op, gathered);
            finish(alloc, *op, mode, bounds, written, own, operands, out)
        }
    }
}

/// Lowers the operands of an operator, one after the other, and answers what is gathered of their bounds.
#[cycle(lowering)]
fn lower_operands<E: Emit>(
    alloc: Global,
    op: Op,
    mode: Mode,
    items: &[Expr],
    spans: &[Span],
    operands: &mut Row<Operand>,
    out: &mut E,
) -> Result<Result<Operands, Kind>, EmitStop>
    requires shaped { All IsShaped items.now }
    requires variables { All (HasSpans spans.now) items.now }
    requires room { E.count out.old + 68 * nodes_of items.now ≤ 2 ^ 61 }
    ensures value { IfOk result (λ g. g ≡ gathered_of op 0 none (all_ok (map (bounds spans.now) items.now))) }
    ensures told { OnOk result (operands.new ≡ operands.old ++ (low_operands spans.now op mode 0 (E.count out.old) items.now).operands) }
    ensures ok { OnOk result (E.grew out.old out.new (low_operands spans.now op mode 0 (E.count out.old) items.now).items) }
    ensures count { OnOk result (E.count out.new ≡ E.count out.old + made (low_operands spans.now op mode 0 (E.count out.old) items.now).items) }
    ensures bound { OnOk result (E.count out.new + length operands.new ≤ E.count out.old + length operands.old + 68 * nodes_of items.now) }
    ensures stopped { OnErr result (E.began out.old out.new (low_operands spans.now op mode 0 (E.count out.old) items.now).items) }
    ensures cause { IsErrOf result EmitStop.Failed → Rose (E.faults out.old) (E.faults out.new) }
{
    let mut gathered = Ok(Operands::none());
    for (place, item) in items.iter().enumerate() {
        let asked = operand_mode(op, mode, place);
        let next = lower_expr(alloc, asked, item, spans, operands, out)?;
        gathered = with_next(op, place, gathered, next);
    }
    Ok(gathered)
}

/// Appends what states an expression that is well formed. `spans` are the bounds of the variables. The expression
/// has fewer than 2^40 nodes, and there are at most 2^60 variables before it. On an `Err` it began the items. Where
/// a node of the expression is at fault at these bounds, 0 stands for both of its bounds, and the items mean nothing.
pub fn lower_intension<E: Emit>(
    alloc: Global,
    e: &Expr,
    spans: &[Span],
    out: &mut E,
) -> Result<(), EmitStop>
    requires shaped { IsShaped e.now }
    requires variables { HasSpans spans.now e.now }
    requires few { nodes e.now < 2 ^ 40 }
    requires room { E.count out.old ≤ 2 ^ 60 }
    ensures ok { OnOk result (E.grew out.old out.new (low_intension spans.now (E.count out.old) e.now)) }
    ensures count { OnOk result (E.count out.new ≡ E.count out.old + made (low_intension spans.now (E.count out.old) e.now)) }
    ensures stopped { OnErr result (E.began out.old out.new (low_intension spans.now (E.count out.old) e.now)) }
    ensures cause { IsErrOf result EmitStop.Failed → Rose (E.faults out.old) (E.faults out.new) }
{
    let mut operands = Row::new(alloc);
    let _ = lower_expr(alloc, Mode::Stated, e, spans, &mut operands, out)?;
    Ok(())
}
