//! Laws of the definitions.

ghost use Rattle.fz_model.specs.Fixing.{FixedByCalls};

/// What a call fixes has one value, where the variables before it have theirs.
pub fn fixing_law()
    ensures { FixedByCalls }
{}
