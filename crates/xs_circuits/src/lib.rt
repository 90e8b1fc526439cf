//! The form `circuit` of XCSP3-core: its reader, its writer and its test.
//!
//! It stands on `xs_parts`, `xs_conditions`, `xs_paths` and `xs_testing`. `specs/Circuit.antt` says what a `circuit` meets
//! and is. `read_circuit` answers exactly the constraint of one that misses nothing, else the kind of fault of the first
//! condition that it misses. Which children and attributes it knows is asked where the constraint is made, and what shows in
//! the bounds of variables alone is not asked here. `specs/Written.antt` says how a `circuit` is written, and
//! `specs/Law.antt` that it is read again. `holds_circuit` tells in linear time, and without memory, whether one holds.
#![tactic(auto)]

mod circuit;
mod holds;
mod law;
mod parts;
#[cfg(test)]
mod tests;
mod write;

pub use circuit::read_circuit;
pub use holds::holds_circuit;
pub use law::written_again;
pub use write::write_circuit;
