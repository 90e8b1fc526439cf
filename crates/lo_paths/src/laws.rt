//! What automata and diagrams are lowered to, and what that means.

ghost use Rattle.lo_paths.specs.Laws.{MddLowered, RegularLowered, SoundMddLowered, SoundRegularLowered};

/// What `regular` is lowered to means that it holds; it leaves its new variables one list of values at most; its calls speak
/// of the variables before and of the new ones alone; it is at most 64 times the square of one more than the items of the
/// constraint, new variables and leaves of calls together; and its calls are of the right kinds.
pub fn regular_lowered()
    ensures { RegularLowered }
{}

/// The same of `mdd`.
pub fn mdd_lowered()
    ensures { MddLowered }
{}

/// The laws of `regular` where it is a sound constraint, among values within the bounds of the variables.
pub fn sound_regular_lowered()
    ensures { SoundRegularLowered }
{}

/// The same of `mdd`.
pub fn sound_mdd_lowered()
    ensures { SoundMddLowered }
{}
