//! The laws of lowered expressions.

ghost use Rattle.lo_terms_laws.specs.Laws.{IntensionLowered, NumberLowered};

/// What states an expression without fault means that its value is 1, among values of the variables before within their
/// bounds; it leaves its new variables one list of values at most; its calls speak of the variables before and of the new
/// ones alone; it is at most 64 times the square of one more than its nodes, new variables and leaves of calls together;
/// and it is well formed.
pub fn intension_lowered()
    ensures { IntensionLowered }
{}

/// What an expression without fault is lowered to as a number is one operand, which stands for the value of the
/// expression, and states nothing.
pub fn number_lowered()
    ensures { NumberLowered }
{}
