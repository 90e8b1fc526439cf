//! What the program reads and writes: files, sinks, whole texts, numbers, and the faults of a text.
//!
//! It stands on `xf_num`. The kinds of fault F1 to F15 are the program's own; a place is an offset in bytes.
#![tactic(auto)]

mod fault;
mod memory;
mod number;
mod outside;
#[cfg(test)]
mod tests;
mod whole;

pub use fault::{Fault, FieldStop, Kind, Stop};
pub use memory::{MemShelf, MemSink, SureShelf, SureSink};
pub use number::{NumberStop, read_int};
pub use outside::{Failed, Files, Shelf, Sink, Stored};
pub use whole::{ReadStop, read_file, write_whole};
