//! Expressions of XCSP3-core: their bounds, their values, how they are written, and the parts from which a text is read.
//!
//! It stands on `xf_num`, `xf_text`, `xf_problem`, `xs_model`, `xs_fields` and `itoa`. `xs_model` says which expressions
//! are well formed, what the bounds of one are and which node of it is at fault; `specs/Text.antt` says how an expression
//! is written. The calls answer exactly these. `Operands` gathers the bounds of a node's operands one after the other,
//! for a caller that walks an expression itself. `value` is the value that `xs_model` defines, for
//! every expression of which no node is at fault at the given values, and `values_are_bounded` says that this is so
//! at all values within bounds at which no node is at fault, and that the value then lies within the expression's
//! bounds.
//!
//! Of a text it says whether its parentheses are too deep (`specs/Depth.antt`), which operator a name is
//! (`specs/Text.antt`), what its tokens are (`specs/Tokens.antt`), and which words are exponents (`specs/Words.antt`).
//! `xs_notation` reads an expression from them.
#![tactic(auto)]

mod depth;
mod limits;
mod operators;
mod shape;
#[cfg(test)]
mod tests;
mod text;
mod tokens;
mod words;
mod worth;

pub use depth::is_too_deep;
pub use limits::{Operands, bounds, is_truth, limited, only};
pub use operators::operator;
pub use shape::is_shaped;
pub use text::write_expr;
pub use tokens::next_token;
pub use words::is_exponent_word;
pub use worth::{value, values_are_bounded};
