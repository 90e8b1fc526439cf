//! What constraints are lowered to, and what that means.

ghost use Rattle.lo_instance.specs.Laws.{AllLowered, FormLowered};

/// What a sound constraint is lowered to means that it holds: values of the variables before, within their bounds, meet
/// the calls, by some values of the new variables, exactly where the constraint holds of them. It leaves its new variables
/// one list of values at most; its calls speak of the variables before and of the new ones alone; it is at most 64 times
/// the square of one more than the constraint's items, new variables and leaves of calls together; and it is well formed:
/// new domains are ranges of small integers with members, and calls have arguments of the right number and kinds.
pub fn form_lowered()
    ensures { FormLowered }
{}

/// The same of sound constraints, one after the other: what they are lowered to means that all of them hold, and is at
/// most 64 times the sum of these squares.
pub fn all_lowered()
    ensures { AllLowered }
{}
