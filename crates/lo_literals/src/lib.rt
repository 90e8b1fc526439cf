//! Literals that are found in constant time.
//!
//! It stands on `xf_num`, `xf_text`, `fz_model`, `lo_base` and `lo_emit`. `Literals` is a table of literals, which contracts
//! see as the list of them in the order in which they were made. `literal_of` and `literals_of` append what the definitions of
//! the same names in `lo_emit` say (`specs/Literals.antt` there).
#![tactic(auto)]

mod literal;
mod table;
#[cfg(test)]
mod tests;

pub use literal::{literal_of, literals_of};
pub use table::Literals;
