//! The forms of XCSP3-core that compare values, and `intension`: their tests.
//!
//! It stands on `xs_testing`, `xs_forms`, `xs_laws` and `xs_expr`. `holds` answers exactly whether a constraint holds under an
//! assignment, takes no memory, and leaves the room for tests as it is. `specs/Tests.antt` says which tests of single
//! values, pairs and neighbours are made, and the laws of `xs_laws` that these are what the forms mean. A list has
//! different values where no neighbours of its sorted copy are equal, so a long list is sorted in the room and walked
//! once.
#![tactic(auto)]

mod different;
mod expression;
mod form;
mod lists;
mod neighbours;
mod orders;
#[cfg(test)]
mod tests;

pub use different::{holds_different, holds_different_matrix};
pub use expression::holds_expression;
pub use form::{holds, is_form};
pub use lists::{holds_different_lists, holds_given};
pub use neighbours::{holds_equal, holds_ordered};
pub use orders::{holds_lex, holds_lex_matrix};
