//! The laws of stepwise and of well-formed lists of items.

ghost use Rattle.lo_base.specs.Formed.{FormedBits};
ghost use Rattle.lo_base.specs.Stepwise.{OneExtension, Joins};

/// The values before a stepwise list of items leave its new variables one list of values at most, where the arguments
/// that have to be truth values are 0 or 1.
pub fn one_extension()
    ensures { OneExtension }
{}

/// Two stepwise lists of items in a row are one.
pub fn joins()
    ensures { Joins }
{}

/// Where the Boolean variables before are 0 or 1, the arguments of well-formed items that have to be truth values are 0 or
/// 1 in all values that meet the items.
pub fn formed_bits()
    ensures { FormedBits }
{}
