//! That lowered expressions are well formed.
//!
//! It stands on `xf_num`, `xf_text`, `xs_model`, `xs_expr`, `fz_model`, `lo_base`, `lo_emit`, `lo_rules` and `lo_terms`. It
//! holds no code: its functions are laws of what `lo_terms` lowers expressions to. Behind variables of
//! integer kind, the new variables have ranges of small integers that are not empty, and the calls have arguments of the
//! right number and kinds, in each mode.
#![tactic(auto)]

mod laws;

pub use laws::{expression_formed, intension_formed};
