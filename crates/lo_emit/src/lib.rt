//! The pieces of which lowerings are made, over any `Emit`.
//!
//! It stands on `xf_num`, `xf_text`, `xs_model`, `fz_model` and `lo_base`. A `Term` is what stands for a number in a call.
//! A new variable is made with the call that gives it its value (`specs/Emitted.antt`); relations and sums are stated, or
//! told by a truth value (`specs/Compare.antt`, `specs/Sums.antt`); and a literal, which says whether a variable has a value,
//! is made where it is first needed (`specs/Literals.antt`). Each function appends exactly what its definition says, and on
//! an `Err` began that. `specs/Loops.antt` has the loops with which forms say what they append, and
//! `specs/Conditions.antt` what states a condition, which `lo_conditions` appends. What the pieces mean is said in
//! `lo_rules`.
#![tactic(auto)]

mod compare;
mod define;
mod literal;
mod sums;
mod term;
#[cfg(test)]
mod tests;

pub use compare::{Relation, compare_call, truth_of_relation};
pub use define::{
    integer_of_constants, integer_of_list, integer_of_one, integer_of_place, integer_of_sum,
    integer_of_truth, integer_of_two, integer_of_value, truth_of_list, truth_of_number,
    truth_of_one, truth_of_range, truth_of_set, truth_of_sum, truth_of_two,
};
pub use literal::{Cell, Literal, find, literal_of, literals_of};
pub use sums::sum_call;
pub use term::{
    Term, arg_of, args_of, clause, constants_of, list_of, list_with, set_of, variables_of,
};
