//! `regular` and `mdd` lowered to calls.
//!
//! It stands on `xf_num`, `xf_text`, `xs_model`, `xs_laws`, `xs_paths`, `fz_model`, `lo_base`, `lo_emit`, `lo_literals` and
//! `lo_rules`. `lower_regular` and `lower_mdd` append what an automaton and a diagram are lowered to (`specs/Path.antt`) to any
//! `Emit`: layer by layer, what tells of each live state whether the values lead to it; `lower_path` does for a constraint
//! of either form (`specs/Form.antt`). States are found by their numbers (`specs/Places.antt`), and the transitions of a
//! layer are put to the states that they lead to (`specs/Groups.antt`), so that a layer takes as long as there are
//! transitions and numbers of states. `regular_lowered` and `mdd_lowered` have the laws of what is appended: it means that
//! the constraint holds, its new variables follow from those before, its calls speak of the variables before and of the new
//! ones alone and are of the right kinds, and how much it is. The laws that begin with `sound` say it of a constraint that
//! is sound over variables of some bounds.
#![tactic(auto)]

mod form;
mod groups;
mod laws;
mod path;
mod states;
#[cfg(test)]
mod tests;

pub use form::lower_path;
pub use laws::{mdd_lowered, regular_lowered, sound_mdd_lowered, sound_regular_lowered};
pub use path::{lower_mdd, lower_regular};
