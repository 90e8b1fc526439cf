//! `intension`.

ghost use Rattle.std.specs.Prelude.{◌≡◌, ◌↔◌, IsOk, pos, true};
ghost use Rattle.xs_model.specs.Bounds.{HasSpans, bounds, points};
ghost use Rattle.xs_model.specs.Shape.{IsShaped};
ghost use Rattle.xs_model.specs.Value.{val};

use xs_expr::value;
use xs_model::Expr;

/// Whether the value of an expression is 1. Takes no memory.
///
/// Asks that it is well formed, that each of its variables has a value, and that no node of it is at fault there.
pub fn holds_expression(expr: &Expr, a: &[i128]) -> bool
    requires shaped { IsShaped expr.now }
    requires variables { HasSpans (points a.now) expr.now }
    requires bounded { IsOk (bounds (points a.now) expr.now) }
    ensures { (result ≡ true) ↔ (val a.now expr.now ≡ pos 1) }
{
    value(expr, a) == 1
}
