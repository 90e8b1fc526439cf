ghost use Rattle.xs_vars.specs.Law.{AreSoundOutcomes};

/// Does nothing: its clause says that what `variables` declares is sound, where none of its units is at fault.
pub fn sound_outcomes()
    ensures { AreSoundOutcomes }
{}
