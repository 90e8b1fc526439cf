//! The variables of an instance: what a `var` has to meet, and its domain.
//!
//! It stands on `xf_markup`, `xs_model` and `xs_fields`. `specs/Elements.antt` says what an element's attributes and
//! text are, `specs/Units.antt` which fault units have, `specs/Merged.antt` which domain ranges have,
//! `specs/Like.antt` which domain is taken by `as`, and `specs/VarUnit.antt` what a `var` has to meet in all.
//! `judge_var` answers exactly the first condition that a `var` misses, and `judge_variables` that of `variables`.
#![tactic(auto)]

mod container;
mod counted;
mod domain;
mod element;
mod like;
#[cfg(test)]
mod tests;
mod unit;
mod values;
mod var;

pub use container::{are_children_known, judge_variables};
pub use counted::Counted;
pub use domain::domain_of;
pub use element::{attribute, has_only, is_one_of, one_text, text_of};
pub use like::{like_domain, single_domain};
pub use unit::{judge_var, read_var, scan_var};
pub use values::{
    judge_counting, judge_counts, judge_fitting, scan_content, scan_domain, text_domain, values_of,
};
pub use var::{
    has_no_child, is_integer_type, judge_as, judge_id, judge_known, judge_names, judge_naming,
    judge_spelling,
};
