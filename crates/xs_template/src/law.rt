//! The law of places.

ghost use Rattle.xs_template.specs.Alike.{AreAlikePlaces};

/// Does nothing: its clause says that places past the limit on words need not be told apart.
#[tactic(auto, using(crate::proofs::AlikeLemmas::alike_places))]
pub fn alike_places()
    ensures { AreAlikePlaces }
{}
