ghost use Rattle.xs_boxes.specs.Law.{WrittenAgain};

/// Does nothing: its clause is the law of what `write_no_overlap` writes. The element of a constraint of the shape of its form
/// misses no condition but the limits on what is read, and denotes it again.
pub fn written_again()
    ensures { WrittenAgain }
{}
