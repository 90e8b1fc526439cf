ghost use Rattle.xs_language.specs.Law.{WrittenAgain};

/// Does nothing: its clause is the law of what `write_form` writes. The element whose text is written of a constraint of the
/// shape of its form misses no condition but the limit on counts, nor that where the constraint's items are allowed, and
/// denotes the constraint again.
pub fn written_again()
    ensures { WrittenAgain }
{}
