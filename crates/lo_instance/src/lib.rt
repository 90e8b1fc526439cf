//! The constraints of an instance, lowered form by form.
//!
//! It stands on `xf_num`, `xf_text`, `xs_model`, `fz_model`, `lo_base`, `lo_rules` and the crates that lower one family of
//! forms each: `lo_forms` lowers `allDifferent`, `lo_tables` `extension`, `lo_paths` `regular` and `mdd`, and `lo_terms`
//! lowers `intension`, whose laws are those of `lo_terms_laws`. `lower_constraint` appends what a constraint of any form
//! that is lowered so far is lowered to (`specs/Form.antt`) to any `Emit`. `form_lowered` and `all_lowered` are the laws
//! (`specs/Laws.antt`) of one constraint and of constraints one after the other: each form adds one case, and the second
//! follows from the first.
#![tactic(auto)]

mod constraint;
mod laws;

pub use constraint::lower_constraint;
pub use laws::{all_lowered, form_lowered};
