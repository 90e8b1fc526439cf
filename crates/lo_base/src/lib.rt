//! What a lowering writes to: variables are made and calls are posted, one after the other.
//!
//! It stands on `xf_num`, `xf_text` and `fz_model`. `Emit` is what takes variables and calls; its meanings
//! `grew` and `began` say what was appended, as one list of items in the order in which they came
//! (`specs/Item.antt`, `specs/Emit.antt`). `Held` is the `Emit` that keeps its items, and makes a model of them.
//! `specs/Solved.antt` says when values meet items and what items mean, `specs/Before.antt` which variables calls
//! speak of, `specs/Stepwise.antt` when the values of the new variables follow from those before, and
//! `specs/Formed.antt` when domains are ranges of small integers and calls have arguments of the right kinds;
//! `one_extension`, `joins` and `formed_bits` are the laws on that.
#![tactic(auto)]

mod emit;
mod held;
mod laws;

pub use emit::{Emit, EmitStop};
pub use held::{Held, auxiliary, truth_values};
pub use laws::{formed_bits, joins, one_extension};
