//! FlatZinc text: the layout in which a model is written, and printers of its lines.
//!
//! It stands on `xf_num`, `xf_text` and `fz_model`, and prints numbers by `itoa`. `specs/Layout.antt` says which
//! bytes the lines of a model are; each printer appends exactly those of its line.
#![tactic(auto)]

mod argument;
mod line;
mod model;
mod number;
#[cfg(test)]
mod tests;

pub use line::{push_call, push_goal, push_output, push_var};
pub use model::{call_line, goal_line, var_line, write_model};
