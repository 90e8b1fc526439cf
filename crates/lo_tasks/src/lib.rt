//! `cumulative` lowered to calls.
//!
//! It stands on `xf_num`, `xf_text`, `xs_model`, `xs_laws`, `fz_model`, `lo_base`, `lo_emit`, `lo_conditions` and `lo_rules`.
//! `specs/Cumulative.antt` says what the tasks are lowered to: the end of each, and, at the start of each and where none
//! runs, that the heights of those that run sum to a number within the limit. `lower_cumulative` appends exactly this to any
//! `Emit`, and on an `Err` began it; `lower_form` does for a constraint of this form. `cumulative_lowered` has the laws of
//! what is appended: it means that the constraint holds, its new variables follow from those before, its calls speak of the
//! variables before and of the new ones alone and are of the right kinds, and how much it is. `sound_cumulative_lowered`
//! says it of a constraint that is sound over variables of some bounds.
#![tactic(auto)]

mod cumulative;
mod form;
mod laws;
mod task;
#[cfg(test)]
mod tests;

pub use cumulative::lower_cumulative;
pub use form::lower_form;
pub use laws::{cumulative_lowered, sound_cumulative_lowered};
pub use task::{Limit, Task};
