//! FlatZinc models: variables, output arrays, calls of builtins and the goal, and the table of builtins.
//!
//! It stands on `xf_num`, `xf_problem` and `xf_text`. `specs/Solved.antt` says which problem a model states,
//! `specs/Sound.antt` which models a text can state, `specs/Meaning.antt` when a call is true, `specs/Kinds.antt` what
//! a builtin asks of its arguments, `specs/Fixing.antt` which variable a call fixes, `specs/Size.antt` how large a model
//! is, and `specs/Limits.antt` has the limits. `Builtin` is the table; `fixing_law` states that what a call fixes has
//! one value.
#![tactic(auto)]

mod build;
mod builtin;
mod kind;
mod laws;
mod measure;
mod model;
#[cfg(test)]
mod tests;

pub use build::{call_of, call_of_four, call_of_one, call_of_three, call_of_two, int_ne};
pub use builtin::Builtin;
pub use kind::{Asked, Kind};
pub use laws::fixing_law;
pub use measure::size;
pub use model::{Arg, Args, Call, Calls, FzVar, FzVars, Goal, Model, Output, Outputs};
