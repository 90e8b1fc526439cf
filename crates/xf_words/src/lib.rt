//! The words of the program: which of them are a command, and which files and numbers stand among them.
//!
//! It stands on nothing. A row of the table is a list of slots, one for each word: a name that is asked for as it is, a
//! file, or a number within limits. `specs/Words.antt` has the rows and what each slot takes, `specs/Files.antt` which
//! words are those of files. `read_call` answers exactly the call of the words, and takes no memory; `rows_alone`
//! states that words are a call exactly where they are a row.
#![tactic(auto)]

mod call;
mod numbers;
mod rows;
#[cfg(test)]
mod tests;

pub use call::{Call, Command, Numbers, Which, file_word, pick};
pub use rows::{read_call, rows_alone};
