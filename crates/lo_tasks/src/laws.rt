//! What `cumulative` is lowered to, and what that means.

ghost use Rattle.lo_tasks.specs.Laws.{CumulativeLowered, SoundCumulativeLowered};

/// What `cumulative` is lowered to means that it holds, among values within the bounds of the variables; it leaves its new
/// variables one list of values at most; its calls speak of the variables before and of the new ones alone; it is at most
/// 64 times the square of one more than the items of the constraint, new variables and leaves of calls together; and its
/// calls are of the right kinds.
pub fn cumulative_lowered()
    ensures { CumulativeLowered }
{}

/// The same where it is a sound constraint.
pub fn sound_cumulative_lowered()
    ensures { SoundCumulativeLowered }
{}
