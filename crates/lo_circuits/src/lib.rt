//! `circuit` lowered to calls.
//!
//! It stands on `xf_num`, `xf_text`, `xs_model`, `xs_laws`, `xs_paths`, `fz_model`, `lo_base`, `lo_emit`, `lo_rules`,
//! `lo_forms` and `lo_conditions`. `lower_circuit` appends what a circuit is lowered to (`specs/Circuit.antt`) to any
//! `Emit`: checks of its values, which places are moved, and the walk from the first of them, which has to meet them all.
//! `circuit_lowered` has the laws of what is appended: it means that the constraint holds, its new variables follow from
//! those before, its calls speak of the variables before and of the new ones alone and are of the right kinds, and how much
//! it is. `sound_circuit_lowered` says it of a constraint that is sound over variables of some bounds.
#![tactic(auto)]

mod circuit;
mod laws;
mod nodes;
mod places;
#[cfg(test)]
mod tests;
mod walk;

pub use circuit::lower_circuit;
pub use laws::{circuit_lowered, sound_circuit_lowered};
pub use nodes::Nodes;
