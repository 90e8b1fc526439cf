ghost use Rattle.xs_tasks.specs.Law.{WrittenAgain};

/// Does nothing: its clause is the law of what `write_cumulative` writes. The element of a `cumulative` of the shape of its
/// form misses no condition but the limit on items, and denotes it again.
pub fn written_again()
    ensures { WrittenAgain }
{}
