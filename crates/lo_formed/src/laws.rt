//! The laws of the kinds of lowered expressions.

ghost use Rattle.lo_formed.specs.Laws.{ExpressionFormed, IntensionFormed};

/// What an expression without fault is lowered to is well formed, and stands for a term of the kind that is asked: an
/// integer, or a truth value.
pub fn expression_formed()
    ensures { ExpressionFormed }
{}

/// What states an expression without fault is well formed.
pub fn intension_formed()
    ensures { IntensionFormed }
{}
