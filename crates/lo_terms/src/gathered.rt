//! The bounds of a node, from those of its operands.

ghost use Rattle.std.specs.Prelude.{◌≡◌, Ok};
ghost use Rattle.lo_terms.specs.Emitted.{ends};
ghost use Rattle.lo_terms.specs.Gathered.{with_next};
ghost use Rattle.xs_expr.specs.declared.limits.Operands as gathered;
ghost use Rattle.xs_expr.specs.Operands.{node_of};
ghost use Rattle.xs_model.specs.Bounds.{and_then};
ghost use Rattle.xs_model.specs.Shape.{IsExponent};

use xf_num::Span;
use xf_text::Kind;
use xs_expr::Operands;
use xs_model::Op;

/// The bounds, 0 where there is a fault.
pub(crate) fn ends(bounds: &Result<Span, Kind>) -> Span
    ensures { result ≡ ends bounds.now }
{
    match bounds {
        Ok(span) => *span,
        Err(_) => Span::new(0, 0).unwrap(),
    }
}

/// What is gathered of the operands' bounds, with those of the next operand, or the first fault.
pub(crate) fn with_next(
    op: Op,
    place: usize,
    so_far: Result<Operands, Kind>,
    next: Result<Span, Kind>,
) -> Result<Operands, Kind>
    ensures { result ≡ with_next op place so_far next }
{
    match (so_far, next) {
        (Ok(operands), Ok(span)) => Ok(operands.push(op, place, span)),
        (Ok(_), Err(kind)) => Err(kind),
        (Err(kind), _) => Err(kind),
    }
}

/// The bounds of a node over these operands, or the first fault.
pub(crate) fn own_bounds(op: Op, operands: Result<Operands, Kind>) -> Result<Span, Kind>
    requires { (s : gathered.Operands) → operands ≡ Ok s → op ≡ Op.Pow → IsExponent s.second.lo }
    ensures { result ≡ and_then operands (node_of op) }
{
    match operands {
        Ok(operands) => operands.node(op),
        Err(kind) => Err(kind),
    }
}
