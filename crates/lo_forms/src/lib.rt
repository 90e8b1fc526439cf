//! `allDifferent` lowered to calls.
//!
//! It stands on `xf_num`, `xf_text`, `xs_model`, `fz_model`, `lo_base`, `lo_emit` and `lo_rules`. `lower_different` appends
//! what a list of terms is lowered to (`specs/Different.antt`) to any `Emit`. `different_lowered` has the laws of what is
//! appended: it means that the numbers of the terms differ, its new variables follow from those before, its calls speak of
//! the variables before alone and are of the right kinds, and how much it is.
#![tactic(auto)]

mod different;
mod laws;

pub use different::lower_different;
pub use laws::different_lowered;
