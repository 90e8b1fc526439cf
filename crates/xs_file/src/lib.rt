//! Instances of XCSP3-core, read from files.
//!
//! It stands on `xf_markup`, `xs_vars`, `xs_expand`, `xs_constraints` and `xs_objectives`. `specs/Sections.antt` says which units an instance has,
//! in document order, and what each has to meet; `specs/Reading.antt` what a text is read as. `read_instance` answers
//! exactly the instance of a text without a fault, else that fault: of its markup, or of the first unit that misses a
//! condition, by its first missed one. Each constraint is read, judged and let go before the next is made. `one_reading` says
//! that a text has one of these answers.
#![tactic(auto)]

mod constraint;
mod held;
mod judge;
mod lent;
mod objective;
mod read;
mod sections;
#[cfg(test)]
mod tests;

pub use read::{one_denoted, one_reading, read_instance, spelt_is_accepted};
