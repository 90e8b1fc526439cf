//! Problems carried from one format to the other.
//!
//! It stands on the crates of both formats and on the lowering of constraints. `specs/Lowered.antt` says which
//! FlatZinc model an XCSP3 instance is lowered to; `low_extends` states that the model extends the instance, and
//! that each solution has one extension, and `low_sound` that it is a sound model. `write_lowered` writes the model's text in two passes over the
//! constraints, first the variables and then the calls, and keeps neither.
#![tactic(auto)]

mod held;
mod laws;
mod lower;
mod passes;
#[cfg(test)]
mod tests;
mod write;

pub use held::held_for;
pub use laws::{low_extends, low_sound};
pub use lower::lower_all;
pub use passes::{CallEmit, DeclEmit};
pub use write::write_lowered;
