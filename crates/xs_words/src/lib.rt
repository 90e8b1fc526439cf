//! The words of an `args` and of the list of a slide of XCSP3-core, after expansion.
//!
//! It stands on `xs_model` and `xs_fields`. `specs/Args.antt` says which words a text stands for: `k` copies of `v` for a
//! word `vxk`, the direct words of its defined cells for a compact word of variables (`specs/Compact.antt`), and each
//! other word for itself. `count_args` counts them without making them, and `expand_args` makes exactly these, or
//! answers want of memory. `are_few`, `are_named` and `are_spelt` say what the text meets before it is expanded.
#![tactic(auto)]

mod args;
mod cells;
mod compact;
#[cfg(test)]
mod tests;

pub use args::{Words, are_few, count_args, expand_args, is_count};
pub use compact::{are_named, are_spelt, is_compact};
