//! `regular` and `mdd` of XCSP3-core: their readers and their tests.
//!
//! It stands on `xs_tables`, `xs_parts`, `xs_fields`, `xs_forms` and `xs_paths`. `specs/Transitions.antt` says what a transition
//! and a state are, `specs/Numbers.antt` how states are numbered, `specs/Ends.antt` what the root and the leaf of a diagram
//! are, and `specs/Regular.antt` and `specs/Mdd.antt` what each form meets and denotes. A reader answers exactly the
//! constraint of one that misses nothing, else the kind of fault of the first condition that it misses. Which children and
//! attributes a form knows is asked where the constraint is made.
#![tactic(auto)]

mod ends;
mod holds;
mod mdd;
mod regular;
mod states;
mod transitions;

pub use holds::{holds_mdd, holds_regular};
pub use mdd::read_mdd;
pub use regular::read_regular;

#[cfg(test)]
mod tests;
