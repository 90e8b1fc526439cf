//! Tasks, and the limit on their heights.

use lo_emit::{Relation, Term};

/// A task, by what stands for its start, its end and its height.
#[derive(Clone, Copy)]
pub struct Task {
    pub start: Term,
    pub end: Term,
    pub height: xs_model::Term,
}

/// What the heights of the tasks that run sum to: how that is related to a term.
#[derive(Clone, Copy)]
pub struct Limit {
    pub relation: Relation,
    pub bound: Term,
}
