//! `extension`, `regular` and `mdd` of XCSP3-core: read, written and tested.
//!
//! It is the public face of `xs_tables` and `xs_automata`, which read and test, and writes what they read again.
//! `specs/Language.antt` says what a form meets and denotes by its name, `specs/Written.antt` which element stands for a
//! constraint and which text that element has, and `specs/Law.antt` that the element misses nothing and denotes the constraint.
//! Which attributes and children are known is asked before, by `xs_units`.
#![tactic(auto)]

mod automata;
mod form;
mod law;
mod write;

pub use form::{holds, is_form, read_form};
pub use law::written_again;
pub use write::write_form;

#[cfg(test)]
mod tests;
