//! Whether a call of a FlatZinc model is true, and whether its sums and products stay small.
//!
//! It stands on `xf_num` and `fz_model`, whose `specs/Meaning.antt` says what a call of each builtin means.
//! `specs/Fits.antt` says when no sum and no product of a call passes the greatest magnitude, so that all can be
//! reckoned in an `i128`. `call_holds` decides the one, `call_fits` the other.
#![tactic(auto)]

mod fits;
mod rows;
mod sums;
#[cfg(test)]
mod tests;
mod worth;

pub use fits::call_fits;
pub use rows::call_holds;
