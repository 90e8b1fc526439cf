ghost use Rattle.xs_fields.specs.Law.{OneDenotation};

/// The law of direct words: a word that denotes a variable by `Names::find` misses nothing as a word of a list, and there
/// it denotes that variable alone.
pub fn one_denotation()
    ensures { OneDenotation }
{}
