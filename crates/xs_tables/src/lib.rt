//! `extension` of XCSP3-core: its reader and its test.
//!
//! It stands on `xs_parts`, `xs_fields`, `xs_forms` and `xs_laws`. `specs/Groups.antt` says how a list of tuples is cut,
//! `specs/Tuples.antt` what a tuple is, `specs/Tables.antt` what a list and a table meet and denote, and
//! `specs/Extension.antt` the same of the whole form. `read_extension` answers exactly the constraint of one that misses
//! nothing, else the kind of fault of the first condition that it misses. Which children and attributes a form knows is
//! asked where the constraint is made.
#![tactic(auto)]

mod extension;
mod groups;
mod holds;
mod sizes;
mod tables;
mod tuples;

pub use extension::{read_extension, text_in, two_texts};
pub use groups::{has_room, inner, is_empty_text, joined, judge_behind, next_group};
pub use holds::{holds_ranges, holds_table, value_of};
pub use sizes::judge_sizes;
pub use tuples::scan_tuples;

#[cfg(test)]
mod tests;
