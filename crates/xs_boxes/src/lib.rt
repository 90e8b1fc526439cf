//! `noOverlap` of XCSP3-core: its reader, its test and its writer.
//!
//! It stands on `xs_tables`, `xs_conditions`, `xs_testing` and `xs_language`. `specs/Tuples.antt` says what a tuple of origins or
//! of lengths is, `specs/Boxes.antt` what two texts meet and which boxes they denote, and `specs/NoOverlap.antt` the same of the
//! whole form. `read_no_overlap` answers exactly the constraint of one that misses nothing, else the kind of fault of the first
//! condition that it misses. Which children and attributes it knows is asked where the constraint is made.
//! `holds_no_overlap` answers exactly whether the boxes do not overlap, for all values, and takes no memory: it looks at
//! each pair (`specs/Tests.antt`). `specs/Written.antt` says how a constraint is written, and `specs/Law.antt` that it is read
//! again.
#![tactic(auto)]

mod boxes;
mod holds;
mod law;
mod lengths;
mod no_overlap;
mod origins;
mod rows;
mod widths;
mod write;

pub use holds::holds_no_overlap;
pub use law::written_again;
pub use no_overlap::read_no_overlap;
pub use write::write_no_overlap;

#[cfg(test)]
mod tests;
