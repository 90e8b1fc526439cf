//! Summaries of instances and of models: how many variables and constraints they have, the goal, and how many
//! constraints of each form or of each builtin.
//!
//! It stands on the crates of both formats. `specs/Summary.antt` says which lines a summary has.
#![tactic(auto)]

mod instance;
mod lines;
mod model;
#[cfg(test)]
mod tests;

pub use instance::instance_summary;
pub use model::model_summary;
