ghost use Rattle.xs_circuits.specs.Law.{WrittenAgain};

/// Does nothing: its clause is the law of what `write_circuit` writes. The element of a circuit of the shape that it asks for
/// misses no condition but the limits on what is read, and denotes it again.
pub fn written_again()
    ensures { WrittenAgain }
{}
