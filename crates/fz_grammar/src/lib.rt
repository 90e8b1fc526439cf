//! The grammar of FlatZinc, read exactly.
//!
//! It stands on `fz_tokens` and `xf_num`. `specs/Items.antt` and `specs/Expressions.antt` are the grammar, one definition
//! for each production; `specs/Fits.antt` says where a text stops to fit and where it is nested too deep, and
//! `specs/Placing.antt` where its items stand. `read_syntax` answers exactly the one tree and the places of a text of
//! the grammar, else that fault.
#![tactic(auto)]

mod expr;
mod halt;
mod head;
mod item;
mod syntax;
#[cfg(test)]
mod tests;
mod tree;

pub use halt::{Fault, Halt};
pub use syntax::read_syntax;
pub use tree::{Access, Expr, Goal, Item, Note, ParamType, Reading, Solve, Syntax, VarType};
