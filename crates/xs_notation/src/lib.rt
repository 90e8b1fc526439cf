//! Expressions of XCSP3-core in functional notation, read from a text.
//!
//! It stands on `xf_num`, `xf_text`, `xs_model`, `xs_fields` and `xs_expr`. `specs/Notation.antt` says which tokens an
//! expression has and `specs/Parse.antt` how tokens are read; `one_notation` says that nothing else is read and
//! nothing in another way. `specs/Terms.antt` says what a word has to meet and which operand it is,
//! `specs/Forms.antt` which operands an operator takes, `specs/Nesting.antt` how deep a text may be, and
//! `specs/Reading.antt` what a text has to meet in all and which expression it denotes. `scan_expr` answers
//! exactly the first condition that a text misses, and where it misses none exactly its expression, which is one that an
//! instance may hold (`IsFormedExpr` of `xs_model`). `written_again` says that the text that `write_expr` of
//! `xs_expr` writes is read again as the same expression.
//!
//! `specs/Count.antt` says how many nodes an expression has: `count_nodes` counts them in the text, and `one_count` says
//! that they are those of the expression that is read.
//!
//! A text is read in one pass over its tokens, with a stack of open calls. Its depth is asked first, so the functions
//! that call themselves on operands go no more than 200 calls deep.
#![tactic(auto)]

mod build;
mod count;
mod form;
mod growing;
mod law;
mod nesting;
mod raw;
mod reader;
mod term;
#[cfg(test)]
mod tests;
mod text;
mod word;

pub use count::{count_nodes, one_count};
pub use law::{one_notation, written_again};
pub use nesting::is_deeper;
pub use raw::Raw;
pub use text::{read_expr, scan_expr};
