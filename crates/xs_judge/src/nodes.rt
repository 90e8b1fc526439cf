//! The nodes of expressions, counted.

ghost use Rattle.std.specs.Prelude.{List, All, IsOk, IfOk, IfErr, Ok, Err, ◌≡◌, ℕ, map};
ghost use Rattle.xs_model.specs.Bounds.{bounds, all_ok, HasSpans};
ghost use Rattle.xs_model.specs.Magnitude.{weight, weighed, bounds_below, nodes_below};
ghost use Rattle.xs_model.specs.Shape.{IsShaped};
ghost use Rattle.xs_expr.specs.Operands.{gathered_of, none};
ghost use Rattle.xs_judge.specs.Weights.{totalled, counted_of};

use crate::total::Total;
use xf_num::Span;
use xf_text::Kind;
use xs_expr::{Operands, limited, only};
use xs_model::{Expr, Op};

/// An expression's bounds, and its nodes counted.
#[derive(Clone, Copy)]
pub(crate) struct Counted {
    pub(crate) span: Span,
    pub(crate) total: Total,
}

/// A node counted with those below it, where its bounds are in order.
fn with_node(span: Result<Span, Kind>, below: Total) -> Result<Counted, Kind>
    ensures { (ms : List ℕ) → below ≡ totalled ms → result ≡ counted_of (weight span ms) }
{
    match span {
        Ok(span) => Ok(Counted {
            span,
            total: below.with(span),
        }),
        Err(kind) => Err(kind),
    }
}

#[cycle(count)]
pub(crate) fn count_nodes(e: &Expr, spans: &[Span]) -> Result<Counted, Kind>
    requires shaped { IsShaped e.now }
    requires variables { HasSpans spans.now e.now }
    ensures { result ≡ counted_of (weighed spans.now e.now) }
{
    match e {
        Expr::Int(value) => with_node(limited(only(*value)), Total::none()),
        Expr::Var(variable) => with_node(limited(spans[*variable as usize]), Total::none()),
        Expr::Node(op, items) => {
            let (operands, below) = count_operands(*op, items.as_slice(), spans)?;
            with_node(operands.node(*op), below)
        }
    }
}

#[cycle(count)]
fn count_operands(op: Op, items: &[Expr], spans: &[Span]) -> Result<(Operands, Total), Kind>
    requires shaped { All IsShaped items.now }
    requires variables { All (HasSpans spans.now) items.now }
    ensures operands { IfOk result (λ r. gathered_of op 0 none (all_ok (bounds_below (map (weighed spans.now) items.now))) ≡ Ok r.0) }
    ensures total { IfOk result (λ r. r.1 ≡ totalled (nodes_below (map (weighed spans.now) items.now))) }
    ensures fault { IfErr result (λ k. all_ok (bounds_below (map (weighed spans.now) items.now)) ≡ Err k) }
{
    let mut operands = Operands::none();
    let mut total = Total::none();
    for (at, item) in items.iter().enumerate() {
        let next = count_nodes(item, spans)?;
        operands = operands.push(op, at, next.span);
        total = total.both(next.total);
    }
    Ok((operands, total))
}

/// The items of an expression of which no node is at fault.
pub(crate) fn weight_of_expr(e: &Expr, spans: &[Span]) -> Total
    requires shaped { IsShaped e.now }
    requires variables { HasSpans spans.now e.now }
    requires bounded { IsOk (bounds spans.now e.now) }
    ensures { result ≡ totalled (weighed spans.now e.now).nodes }
{
    match count_nodes(e, spans) {
        Ok(counted) => counted.total,
        Err(_) => Total::none(),
    }
}
