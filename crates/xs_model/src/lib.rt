//! XCSP3-core instances: declarations, expressions, constraints, and which problem an instance is.
//!
//! It stands on `xf_num`, `xf_text` and `xf_problem`. Its definitions say what an instance means: the names and
//! the domains of its variables (`specs/Names.antt`, `specs/Instance.antt`), the value of an expression
//! (`specs/Value.antt`) and when a constraint holds (`specs/Instance.antt`). `problem_of` is the problem that
//! the other crates cite. What a constraint of each form consists of is one table (`specs/Fields.antt`), and so is
//! what a form asks beside that (`specs/Fitting.antt`). They also say which expressions are well formed (`specs/Shape.antt`), what their bounds are
//! (`specs/Bounds.antt`), how great the numbers of a constraint are (`specs/Magnitude.antt`), and which instances are
//! sound and accepted (`specs/Accepted.antt`). `xs_forms` has what the code knows of all forms.
#![tactic(auto)]

mod brackets;
mod concrete;
mod decl;
mod expr;
mod hulls;
mod instance;
mod names;
mod table;
mod term;
mod words;

pub use concrete::{Concrete, Concretes, Pair, Pairs, Part, Parts};
pub use decl::{Cells, Decl, Decls};
pub use expr::{Expr, Exprs, Op};
pub use hulls::spans;
pub use instance::{
    Body, Constraint, Constraints, Direction, Edge, Edges, Instance, Objective, Tuple,
};
pub use names::{NameStop, Names};
pub use term::{Cond, Occurrence, Occurrences, Rel, Term, Terms};
pub use words::{push_brackets, word};

#[cfg(test)]
mod tests;
