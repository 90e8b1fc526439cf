//! What shows of a constraint or an objective in the bounds of its variables alone: whether its expressions and tasks
//! are in order, and how great the numbers are that it leads to.
//!
//! It stands on `xf_num`, `xf_text`, `xf_problem`, `xs_model`, `xs_forms`, `xs_fields` and `xs_expr`. `xs_model` says
//! what the magnitude of a constraint is and which fault comes first (`specs/Magnitude.antt`); `mag`, `judge` and
//! `judge_goal` answer exactly these. What `judge` and `judge_goal` pass is without fault and of a magnitude of at most
//! 2^126 - 1, as an accepted instance asks.
#![tactic(auto)]

mod judging;
mod measure;
mod nodes;
#[cfg(test)]
mod tests;
mod total;

pub use judging::{judge, judge_goal, mag};
