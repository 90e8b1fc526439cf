//! The courses of commands, whatever the command: what a command reads, refuses and owes, and how a run of it ends.
//!
//! It stands on files, faults and the words of the program, and knows no command and no format. `specs/Course.antt`
//! says what a course is and how one reads a file and goes on, `specs/Files.antt` what the bytes of a named file are
//! read as, `specs/Answers.antt` the status and the line of each answer, and `specs/Ends.antt` how a run ends.
//! `read_as` reads a file in its format, which a `Format` says; `tell` writes the line of an answer.
//! `proofs/EndLemmas.antt` has what the end of a run says of it, over any course.
#![tactic(auto)]

mod answers;
mod course;
mod reading;
#[cfg(test)]
mod tests;

pub use answers::{Answer, tell};
pub use course::{Halt, Standing};
pub use reading::{Format, read_as};
