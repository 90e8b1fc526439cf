//! What `allDifferent` is lowered to, and what that means.

ghost use Rattle.lo_forms.specs.Laws.{DifferentLowered};

/// What a list of integers is lowered to means that their numbers differ pairwise; it leaves its new variables one list of
/// values at most; its calls speak of the variables before alone; it is at most 64 times the square of one more than the
/// length, new variables and leaves of calls together; and its calls are of the right kinds.
pub fn different_lowered()
    ensures { DifferentLowered }
{}
