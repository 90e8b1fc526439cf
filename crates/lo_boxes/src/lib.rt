//! `noOverlap` lowered to calls: each two boxes are apart in some dimension, or one of them is passed over.
//!
//! It stands on `xf_num`, `xf_text`, `xs_model`, `xs_laws`, `fz_model`, `lo_base`, `lo_emit`, `lo_conditions` and
//! `lo_rules`. `lower_no_overlap` appends what the constraint is lowered to (`specs/Boxes.antt`) to any `Emit`.
//! `no_overlap_lowered` has the laws of what is appended: it means that the constraint holds, its new variables follow
//! from those before, its calls speak of the variables before and of the new ones alone and are of the right kinds, and
//! how much it is. `sound_no_overlap_lowered` says it of a constraint that is sound over variables of some bounds.
#![tactic(auto)]

mod boxes;
mod laws;
mod placed;
#[cfg(test)]
mod tests;

pub use boxes::lower_no_overlap;
pub use laws::{no_overlap_lowered, sound_no_overlap_lowered};
