//! Boxes of terms.

use lo_emit::Term;
use xf_num::Row;

/// One dimension of a box.
#[derive(Clone, Copy)]
pub struct Side {
    /// Where the box begins.
    pub origin: Term,
    /// How long it is.
    pub extent: Term,
}

/// A box.
#[derive(Drop)]
pub struct Placed {
    /// Its dimensions.
    pub sides: Row<Side>,
    /// For each of its lengths that may be 0 the truth value that tells whether it is, where boxes with a length of 0
    /// are passed over.
    pub zeros: Row<Term>,
}
