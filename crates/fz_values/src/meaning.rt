//! What names stand for.

use xf_num::{Ints, Row, Span};

/// One value: a constant, or a variable with its number.
#[derive(Clone, Copy, Debug, PartialEq, Eq)]
pub enum Single {
    Int(i128),
    Bool(bool),
    IntVar(u64),
    BoolVar(u64),
}

/// The kind of one value.
#[derive(Clone, Copy, Debug, PartialEq, Eq)]
pub enum Sort {
    Int,
    Bool,
    IntVar,
    BoolVar,
}

/// A set of constants.
#[derive(Drop)]
pub enum SetOf {
    /// The integers between two ends.
    Range(Span),
    /// These integers, in this order and with repeats.
    Members(Ints),
}

/// What a declared name stands for.
#[derive(Drop)]
pub enum Meaning {
    One(Single),
    Set(SetOf),
    /// An array whose members are declared to be of this kind. Those of an array of variables may be constants.
    Array(Sort, Row<Single>),
}

/// What stands where one value may stand.
#[derive(Clone, Copy, Debug, PartialEq, Eq)]
pub enum Found {
    /// This value.
    Here(Single),
    /// A member past the end of an array whose members are declared to be of this kind.
    Past(Sort),
    /// No one value: an array, a set, a list, or a name that is not declared.
    Other,
}
