//! Lists, spans and domains of integers: the values that every other crate is made of.
//!
//! It stands on nothing but the standard library. A `Row` is seen as the list of its items, a `Stack` as the
//! list of its items from the last to the first, a `Span` as its two ends, and a `Domain` as the ascending
//! list of its ranges.
#![tactic(auto)]

mod domain;
mod limits;
mod memory;
mod row;
mod span;
mod stack;
#[cfg(test)]
mod tests;

pub use domain::{Domain, DomainFault};
pub use limits::{MAX_BYTES, MAX_CONSTRAINTS, MAX_ITEMS, MAX_MAGNITUDE, MAX_VARIABLES};
pub use memory::NoMemory;
pub use row::{Ints, Row, Text, Vars};
pub use span::{Span, Spans};
pub use stack::Stack;
