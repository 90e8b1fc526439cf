ghost use Rattle.xs_objectives.specs.Law.{WrittenAgain};

/// Does nothing: its clause is the law of what `write_objective` writes. The element of an objective of the shape that it asks
/// for misses no condition but the limits on what is read, and denotes it again.
pub fn written_again()
    ensures { WrittenAgain }
{}
