//! Objectives of XCSP3-core: read and written.
//!
//! It stands on `xs_parts`, `xs_fields`, `xs_notation` and `xs_tables`. `specs/Known.antt` says which attributes and children
//! an objective knows by its type, `specs/Lists.antt` what its lists meet, and `specs/Objective.antt` what an objective meets
//! and is. `read_objective` answers exactly the objective of one that misses nothing, else the kind of fault of the first
//! condition that it misses. What is known is asked of the element by `is_objective_known`, and what shows in the bounds of
//! variables alone is not asked here. `specs/Written.antt` says how an objective is written, and `specs/Law.antt` that it is
//! read again.
#![tactic(auto)]

mod count;
mod known;
mod law;
mod lists;
mod measure;
mod objective;
#[cfg(test)]
mod tests;
mod write;

pub use count::count_goal;
pub use known::is_objective_known;
pub use law::written_again;
pub use measure::Measure;
pub use objective::read_objective;
pub use write::write_objective;
