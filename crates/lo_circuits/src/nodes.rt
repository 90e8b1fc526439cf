//! The list of a `circuit`.

use lo_emit::Term;
use xf_num::Row;

/// A list, the index of its first place, and how many nodes the circuit is to have, where that is asked.
#[derive(Drop)]
pub struct Nodes {
    pub start: i128,
    pub list: Row<Term>,
    pub size: Option<xs_model::Term>,
}
