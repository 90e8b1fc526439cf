//! The laws of what expressions are lowered to.
//!
//! It stands on `xf_num`, `xf_text`, `xs_model`, `xs_expr`, `fz_model`, `lo_base`, `lo_emit`, `lo_rules`, `lo_terms` and
//! `lo_formed`. It holds no code: its functions are the laws (`specs/Laws.antt`) that the crates above cite. What states an expression is lowered in the sense of `lo_rules`, by one law; and what an expression is
//! lowered to as a number yields its value.
#![tactic(auto)]

mod laws;

pub use laws::{intension_lowered, number_lowered};
