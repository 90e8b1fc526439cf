//! The declarations of an instance, read from its `variables`.
//!
//! It stands on `xs_var` and `xs_array`. `specs/Declarations.antt` says which units `variables` has and what they
//! declare. `read_declarations` answers exactly what is declared, else the fault of the first unit, in document
//! order, that misses a condition; `read_variables` answers the same of an element that stays. The readers of lists of
//! variables, integers and terms stand in `xs_fields`.
#![tactic(auto)]

mod children;
mod declarations;
mod law;
mod taking;
#[cfg(test)]
mod tests;
mod variable;

pub use declarations::{Declarations, read_declarations, read_variables};
pub use law::sound_outcomes;
pub use xs_fields::{read_ints, read_terms, read_vars};
