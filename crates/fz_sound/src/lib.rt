//! What holds of each FlatZinc model that is read.
//!
//! It stands on `fz_items`. `specs/Laws.antt` has the law; `sound_law` does nothing, and its clause is the law: what is
//! read is sound and within the counts.
#![tactic(auto)]

ghost use Rattle.fz_sound.specs.Laws.{SoundLaw};

/// Does nothing: its clause is a law. A model that is read is sound and within the counts.
pub fn sound_law()
    ensures { SoundLaw }
{}
