//! The forms of XCSP3-core that compare values, and `intension`: their readers.
//!
//! It stands on `xs_parts`, `xs_fields` and `xs_notation`. A form is read from a constraint after expansion.
//! `specs/Different.antt` says what an `allDifferent` over one list meets and is, and `specs/Intension.antt` what an
//! `intension`. `read_form` answers exactly the constraint of one that misses nothing, else the kind of fault of the first
//! condition that it misses. Which children and attributes a form knows is asked where the constraint is made, and what
//! shows in the bounds of variables alone is not asked here.
#![tactic(auto)]

mod different;
mod form;
mod intension;
#[cfg(test)]
mod tests;
mod unit;

pub use different::read_different;
pub use form::{is_form, read_form};
pub use intension::read_intension;
