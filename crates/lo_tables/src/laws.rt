//! What tables are lowered to, and what that means.

ghost use Rattle.lo_tables.specs.Laws.{ExtensionLowered, SoundExtensionLowered, SoundUnaryLowered, UnaryLowered};

/// What a table of tuples is lowered to means that it holds; it leaves its new variables one list of values at most; its
/// calls speak of the variables before and of the new ones alone; it is at most 64 times the square of one more than the
/// items of the constraint, new variables and leaves of calls together; and its calls are of the right kinds.
pub fn extension_lowered()
    ensures { ExtensionLowered }
{}

/// The same of a table of the values of one variable.
pub fn unary_lowered()
    ensures { UnaryLowered }
{}

/// The laws of a table of tuples that is a sound constraint, among values within the bounds of the variables.
pub fn sound_extension_lowered()
    ensures { SoundExtensionLowered }
{}

/// The same of a table of the values of one variable.
pub fn sound_unary_lowered()
    ensures { SoundUnaryLowered }
{}
