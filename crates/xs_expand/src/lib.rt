//! What `block`, `group` and `slide` of XCSP3-core stand for.
//!
//! It stands on `xs_units`, which says what a tree stands for. `walk_section` hands the constraints on one after the other,
//! up to the first unit that misses a condition, or the first constraint that is at fault itself; no constraint is kept.
//! `expand` is the same where each is kept. By the law of `one_order` it is all one whether each constraint is judged as it
//! is made, or all are made first.
#![tactic(auto)]

mod law;
mod slide;
#[cfg(test)]
mod tests;
mod walk;

pub use law::{by_children, one_order};
pub use walk::{expand, walk_section};
