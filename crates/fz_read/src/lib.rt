//! FlatZinc models, read from files.
//!
//! It stands on `fz_grammar`, `fz_items` and `fz_sound`. `specs/Reading.antt` says what a text is read as and what it denotes.
//! `read_model` answers exactly the model of a text without a fault, else that fault: of its grammar, of its levels, or
//! of the first item that misses a condition, by its first missed one. What it answers is sound and within the counts.
//! `one_reading` says that a text has one of these answers, `denotes_law` that what is read without a bound is denoted.
#![tactic(auto)]

mod read;
#[cfg(test)]
mod tests;

pub use read::{denotes_law, one_reading, read_model, sound_reading};
