//! What the lowered model of an instance states.

ghost use Rattle.xf_carry.specs.Lowered.{LowExtends, LowExtendsOnce, LowSize, LowSound};

/// The model that a sound instance is lowered to extends the instance: its first variables are those of the
/// instance, an assignment of these solves the instance exactly when it extends to a solution of the model, and
/// that solution is the only one that extends it. Its variables and the leaves of its calls are at most 64 times the
/// weight of the instance: its variables, and the square of one more than the items of each constraint.
pub fn low_extends()
    ensures extends { LowExtends }
    ensures once { LowExtendsOnce }
    ensures size { LowSize }
{}

/// The model that an accepted instance is lowered to is a sound model of FlatZinc: its names are identifiers that differ
/// and are no words of the grammar, its domains have members, its integers are of at most the greatest magnitude, and its
/// calls have arguments of the right number and kinds, of the variables that it has.
pub fn low_sound()
    ensures { LowSound }
{}
