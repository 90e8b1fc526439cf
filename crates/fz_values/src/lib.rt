//! The values of expressions of FlatZinc: integers, what a name stands for, and the kinds that are asked.
//!
//! It stands on `fz_grammar`, whose expressions it reads, and on `fz_model`, whose arguments it makes. Parameters and
//! arrays are replaced by their values. Each function answers what its definition in `specs/` says of any expression.
#![tactic(auto)]

mod arguments;
mod fitting;
mod integer;
mod meaning;
mod names;
#[cfg(test)]
mod tests;
mod value;

pub use arguments::{
    arg_in, arg_of, args_in, args_of, count_in, ints_of, leaves_in, members_in, room_behind,
    set_in, set_leaves_in, single_in,
};
pub use fitting::{all_fit, all_reach, fits, is_within, reaches};
pub use integer::{int_of, is_small};
pub use meaning::{Found, Meaning, SetOf, Single, Sort};
pub use names::Names;
pub use value::{
    are_all_small, are_known, are_small, are_small_digits, indexed, is_declared, is_known, named,
    one_in,
};
