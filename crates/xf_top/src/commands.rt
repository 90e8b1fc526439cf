//! The commands, each in a file of its own.

pub mod show;
pub mod to_fzn;
