//! What is written of a FlatZinc model is read again as it.
//!
//! It stands on `fz_tokens` and `fz_grammar`, which say what the tokens and the tree of a text are, on `fz_model` and
//! `fz_file`, which say what is written of a model, and on `fz_values`, `fz_items` and `fz_read`, which say what a text
//! is read as. `specs/Tree.antt` gives the tree of a model. Of the text of a sound model `reads_as_tree` states that it
//! has this tree, `written_again` that it denotes the model, `one_layout` that it denotes no other, and `read_again`
//! that it is read as the model where the counts of models that are read hold; each but for the places of calls. The
//! crate has laws alone, and no code.
#![tactic(auto)]

mod laws;

pub use laws::{one_layout, read_again, reads_as_tree, written_again};
