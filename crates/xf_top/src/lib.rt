//! All that the program does: words, files, and a text.
//!
//! It stands on all other crates. `run` does what the words say, over whatever is read from and written to, and its
//! contract says what it answers and why. To decide and to write are two steps: deciding reads files, and answers what
//! is due or why nothing is; writing alone touches what takes the text. `specs/Commands.antt` has what each command
//! reads and what is due, one row a command, `specs/Promises.antt` what is promised of it, and `specs/Texts.antt` the
//! texts. A command is a file of `src/commands/`.
#![tactic(auto)]

mod commands;
mod due;
mod engine;
mod formats;
#[cfg(test)]
mod tests;
mod writing;

pub use engine::run;
