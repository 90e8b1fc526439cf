//! The tokens of a FlatZinc text.
//!
//! It stands on no other crate. `specs/Cutting.antt` says what stands at the front of some bytes, `specs/Tokens.antt` which
//! tokens a text has: from the left, each as long as possible, without whitespace and comments. `next` answers the first
//! one and the bytes behind it, so that each token is cut once. What is no token counts as one that ends the text.
#![tactic(auto)]

mod cut;
mod stream;
#[cfg(test)]
mod tests;

pub use cut::{Cut, Sort};
pub use stream::{Lexeme, next};
