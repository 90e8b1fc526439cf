//! What objectives are lowered to, and what that means.

ghost use Rattle.lo_goals.specs.Laws.{BodyLowered};

/// What a sound objective is lowered to can always be met, among values of the variables before within their bounds, by one
/// list of values of its new variables, in which the variable that is named has the value of the objective. Its calls speak
/// of the variables before and of the new ones alone; it is at most 64 times the square of one more than the objective's
/// items, new variables and leaves of calls together; and it is well formed, the named variable an integer.
pub fn body_lowered()
    ensures { BodyLowered }
{}
