//! What the tests of constraints share: the values of terms, conditions, and values put into the room for tests.
//!
//! It stands on `xs_forms` and `xs_laws`. No call takes memory. `put_values` and `put_column` put values into a room that
//! has none, where they can be sorted.
#![tactic(auto)]

mod conditions;
mod put;

pub use conditions::{contains, meets, term_value};
pub use put::{cell, put_column, put_values, width};
