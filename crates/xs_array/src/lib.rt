//! Arrays of variables: what an `array` with its `domain` children has to meet, and its cells.
//!
//! It stands on `xs_fields` and `xs_var`. `specs/DomainChild.antt` says which cells a `domain` child names,
//! `specs/Cells.antt` which domain each cell has, and `specs/ArrayUnit.antt` what an array has to meet in all.
//! `read_array` answers exactly the declaration of an array that misses nothing, else the first condition that it
//! misses.
#![tactic(auto)]

mod cells;
mod child;
mod fields;
mod owners;
#[cfg(test)]
mod tests;
mod unit;

pub use unit::read_array;
