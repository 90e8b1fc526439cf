//! The objective of an instance, lowered to a variable.
//!
//! It stands on `xf_num`, `xf_text`, `xs_model`, `xs_expr`, `fz_model`, `lo_base`, `lo_emit`, `lo_rules`, `lo_terms`,
//! `lo_formed` and `lo_terms_laws`. What an objective is lowered to stands in `specs/Goal.antt`; so far it is an expression.
//! `body_lowered` is the law (`specs/Laws.antt`): what is appended can always be met, by values that are one, and in them the
//! variable that is named has the value of the objective.
#![tactic(auto)]

mod laws;

pub use laws::body_lowered;
