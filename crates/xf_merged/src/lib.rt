//! The domain of ranges that come in any order, touch and overlap.
//!
//! It stands on `xf_num`. `specs/Merged.antt` says which ascending ranges, no two of which touch, have the integers of
//! given ones; `domain_of` answers exactly these.
#![tactic(auto)]

mod domain;

pub use domain::domain_of;
