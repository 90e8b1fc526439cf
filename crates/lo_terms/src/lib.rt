//! Expressions lowered to items: new variables, and calls that define them or state the expression.
//!
//! It stands on `xf_num`, `xf_text`, `xs_model`, `xs_expr`, `fz_model` and `lo_base`. `lower_intension` appends what
//! states an expression (`specs/Lowering.antt`) to any `Emit`, in one walk: an operand gives what stands for it and its
//! bounds together, and the bounds of a node are one step over those of its operands. `lower` does so for an intension of
//! an accepted instance; what each operator is lowered to stands in `specs/Rules.antt`. They say exactly which items are
//! appended.
//! `lo_formed` and `lo_terms_laws` have the laws of what is appended.
#![tactic(auto)]

mod constraint;
mod expression;
mod gathered;
mod node;
mod numbers;
mod stated;
mod term;
#[cfg(test)]
mod tests;
mod truths;

pub use constraint::lower;
pub use expression::lower_intension;
pub use lo_emit::Term;
pub use term::{Mode, Operand};
