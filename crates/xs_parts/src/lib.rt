//! The parts of a constraint of XCSP3-core after expansion: what the readers of its forms share.
//!
//! It stands on `xs_model`, `xs_fields` and `xs_notation`. `specs/Parts.antt` says which text, which part and which attribute
//! a name stands for; `specs/Nesting.antt` how deep a text is nested. Which children and attributes a form knows is asked
//! where the constraint is made.
#![tactic(auto)]

mod answer;
mod nesting;
mod parts;

pub use answer::answered;
pub use nesting::{are_parts_shallow, are_words_shallow, is_shallow, judge_nesting};
pub use parts::{is_single, one_text, or_else, part_in, text_of_one, value_among};
