//! The forms of XCSP3-core that count and sum values: their tests.
//!
//! It stands on `xs_testing`, `xs_forms` and `xs_laws`. `holds` answers exactly whether a constraint holds under an
//! assignment, takes no memory, and leaves the room for tests as it is. Values are counted in a sorted copy, which stands
//! in the room: how often a value occurs there is found by halving. `specs/Tests.antt` says which tests are made, and the
//! laws of `xs_laws` that these are what the forms mean.
#![tactic(auto)]

mod cardinality;
mod count;
mod distinct;
mod extremes;
mod form;
mod sorted;
mod sum;
#[cfg(test)]
mod tests;

pub use cardinality::holds_cardinality;
pub use count::holds_count;
pub use distinct::holds_distinct;
pub use extremes::{holds_maximum, holds_minimum};
pub use form::{holds, is_form};
pub use sum::holds_sum;
