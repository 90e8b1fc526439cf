//! The laws.

ghost use Rattle.fz_again.specs.Counts.{ReadAgain};
ghost use Rattle.fz_again.specs.Tree.{HasItems, OneLayout, ReadsAsTree, WrittenAgain, WrittenAlone};

/// The tokens of what is written of a sound model spell its tree by the grammar, and its items stand one after the other
/// in the text.
pub fn reads_as_tree()
    ensures tree { ReadsAsTree }
    ensures items { HasItems }
{}

/// Does nothing: its clause is a law. What is written of a sound model denotes that model.
pub fn written_again()
    ensures { WrittenAgain }
{}

/// Does nothing: its clauses are laws. What is written of a sound model denotes no other model, but for the places of
/// calls; so sound models of which the same text is written are the same, but for these.
pub fn one_layout()
    ensures alone { WrittenAlone }
    ensures layouts { OneLayout }
{}

/// Does nothing: its clause is a law. What is written of a sound model within the counts of models that are read is read
/// as that model with any bound, but for the places of calls.
pub fn read_again()
    ensures { ReadAgain }
{}
