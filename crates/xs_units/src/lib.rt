//! The units of a tree of `block`, `group`, `slide` and constraints of XCSP3-core: what each misses by itself.
//!
//! It stands on `xf_markup`, `xs_var`, `xs_words` and `xs_template`. `specs/Units.antt` says what a tree stands for: a list of
//! units in document order, each with what it meets by itself and the constraints that it makes, and what comes of taking
//! these constraints one after the other. `specs/Forms.antt` is the table of the forms that are known: which children and
//! which attributes each has. Each judge answers exactly the first condition that its unit misses.
#![tactic(auto)]

mod child;
mod forms;
mod judge;
mod known;
mod slides;
#[cfg(test)]
mod tests;

pub use child::next_child;
pub use forms::{Attribute, is_form, is_form_known};
pub use judge::{judge_args, judge_container, judge_group};
pub use known::{Expansion, Known, Take};
pub use slides::{is_circular, judge_pair, judge_slide, list_in, offset_text, template_in};
