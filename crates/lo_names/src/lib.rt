//! The FlatZinc variables of an XCSP3-core instance.
//!
//! It stands on `xf_num`, `xf_text`, `xf_problem`, `xs_model` and `fz_model`, and prints indices by `itoa`.
//! `specs/Spelling.antt` says how a direct word is spelled as a FlatZinc name, and `specs/Shown.antt` which
//! variables declarations have. `named_vars` makes exactly these; `distinct_names` states that words which differ
//! have names which differ, and that no name is that of an auxiliary; `low_names` that these names and those of auxiliaries
//! are names that a model may have (`specs/LowNames.antt`).
#![tactic(auto)]

mod names;
#[cfg(test)]
mod tests;
mod vars;

pub use names::{distinct_names, low_names};
pub use vars::{all_shown, named_vars};
