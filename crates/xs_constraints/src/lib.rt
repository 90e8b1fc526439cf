//! Constraints of XCSP3-core, each by the crate of its family.
//!
//! It stands on `xs_language` and `xs_relate`. `specs/Forms.antt` says what a constraint meets and is, by the name of its
//! form. A family has one arm in each definition here, and the same arm in each function: `read_form` answers exactly the
//! constraint of one that misses nothing, else the kind of fault of the first condition that it misses.
#![tactic(auto)]

mod form;
mod law;

pub use form::{is_form, read_form};
pub use law::good_forms;
