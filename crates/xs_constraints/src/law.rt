ghost use Rattle.xs_constraints.specs.Law.{AreGoodForms};

/// Does nothing: its clause says that what a constraint denotes which misses nothing is of the shape of its form, over declared
/// variables, and has no more items than may still come; and that each is of a form that is built.
pub fn good_forms()
    ensures { AreGoodForms }
{}
