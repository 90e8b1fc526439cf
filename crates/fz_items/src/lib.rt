//! The items of a FlatZinc model.
//!
//! It stands on `fz_values`, which says what expressions stand for, and on `fz_grammar`, whose trees it reads.
//! `specs/Conditions.antt` has the conditions on an item in their order, `specs/Items.antt` what each item meets and what
//! is read behind it, and `specs/Outcome.antt` what a whole text is read as. `read_syntax_items` answers exactly that.
#![tactic(auto)]

mod array;
mod builtin;
mod call;
mod condition;
mod goal;
mod items;
mod notes;
mod param;
mod predicate;
mod progress;
#[cfg(test)]
mod tests;
mod variable;

pub use items::read_syntax_items;
