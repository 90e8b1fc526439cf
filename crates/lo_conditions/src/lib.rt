//! Conditions, lowered over any `Emit`.
//!
//! It stands on `xf_num`, `xf_text`, `xs_model`, `fz_model`, `lo_base` and `lo_emit`. A condition is stated of a term or of a
//! sum, or told by a truth value. Each function appends exactly what its definition says, which stands among those of
//! `lo_emit` (`specs/Conditions.antt` there), and on an `Err` began that. What is appended means is said in `lo_rules`.
#![tactic(auto)]

mod condition;
#[cfg(test)]
mod tests;

pub use condition::{
    integer_sum, lower_condition, lower_sum, term_of, terms_of, truth_of_condition,
};
