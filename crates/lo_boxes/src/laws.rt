//! What `noOverlap` is lowered to, and what that means.

ghost use Rattle.lo_boxes.specs.Laws.{NoOverlapLowered, SoundNoOverlapLowered};

/// What `noOverlap` is lowered to means that it holds; it leaves its new variables one list of values at most; its calls
/// speak of the variables before and of the new ones alone; it is at most 64 times the square of one more than the items of
/// the constraint, new variables and leaves of calls together; and its calls are of the right kinds.
pub fn no_overlap_lowered()
    ensures { NoOverlapLowered }
{}

/// The laws of a sound constraint, among values within the bounds of the variables.
pub fn sound_no_overlap_lowered()
    ensures { SoundNoOverlapLowered }
{}
