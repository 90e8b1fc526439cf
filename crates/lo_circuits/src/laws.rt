//! What `circuit` is lowered to, and what that means.

ghost use Rattle.lo_circuits.specs.Laws.{CircuitLowered, SoundCircuitLowered};

/// What `circuit` is lowered to means that it holds; it leaves its new variables one list of values at most; its calls speak
/// of the variables before and of the new ones alone; it is at most 64 times the square of one more than the items of the
/// constraint, new variables and leaves of calls together; and its calls are of the right kinds.
pub fn circuit_lowered()
    ensures { CircuitLowered }
{}

/// The law of `circuit` where it is a sound constraint, among values within the bounds of the variables.
pub fn sound_circuit_lowered()
    ensures { SoundCircuitLowered }
{}
