//! Markup of elements, attributes and texts, read as a tree and written from one.
//!
//! It stands on `xf_num`, `xf_text` and `memchr`. The markup is a part of XML: a byte order mark and a declaration
//! `<?xml ..?>` at the very start, comments, open, empty and end tags, and texts. There are no document types, no
//! CDATA, no further processing instructions and no entity references in texts.
//!
//! `read_tree` answers the tree of a text exactly where it has one of at most 200 levels. Else it answers F2 at the
//! first byte of the first token that is none or does not fit, or at the length of a text that ends too early, or F7
//! at the tag that opens level 201. `one_outcome` says that a text has only one of these answers.
//! What `write_tree` writes has the tree that it was made from, but for places.
#![tactic(auto)]

mod cut;
mod distinct;
mod fault;
mod growing;
mod head;
mod names;
mod read;
mod tag;
#[cfg(test)]
mod tests;
mod tree;
mod write;

pub use read::{one_outcome, read_tree};
pub use tree::{Attr, Node, Piece};
pub use write::write_tree;
