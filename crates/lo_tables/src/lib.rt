//! `extension` lowered to calls: tuples of the values of variables, and values of one variable.
//!
//! It stands on `xf_num`, `xf_text`, `xf_merged`, `xs_model`, `xs_laws`, `fz_model`, `lo_base`, `lo_emit`, `lo_literals` and
//! `lo_rules`. `lower_extension` and `lower_unary` append what a table is lowered to (`specs/Table.antt`, `specs/Unary.antt`)
//! to any `Emit`, and `lower_table` does for a constraint of either form (`specs/Form.antt`). The other functions have the
//! laws of what is appended: it means that the constraint holds, its new variables follow from those before, its calls
//! speak of the variables before and of the new ones alone and are of the right kinds, and how much it is. The laws that
//! begin with `sound` say it of a constraint that is sound over variables of some bounds.
#![tactic(auto)]

mod form;
mod laws;
mod table;
#[cfg(test)]
mod tests;
mod unary;

pub use form::lower_table;
pub use laws::{extension_lowered, sound_extension_lowered, sound_unary_lowered, unary_lowered};
pub use table::lower_extension;
pub use unary::lower_unary;
