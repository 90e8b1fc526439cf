use xf_num::{Ints, Row, Span};

/// A term of a list: an integer or a variable.
#[derive(Clone, Copy, Debug, PartialEq, Eq)]
pub enum Term {
    /// An integer.
    Int(i128),
    /// The variable with this number.
    Var(u32),
}

/// A list of terms.
pub type Terms = Row<Term>;

/// How neighbours of an ordered list stand to each other.
#[derive(Clone, Copy, Debug, PartialEq, Eq)]
pub enum Rel {
    Lt,
    Le,
    Ge,
    Gt,
}

/// A condition on a number.
#[derive(Debug, Drop)]
pub enum Cond {
    /// Less than the operand.
    Lt(Term),
    /// At most the operand.
    Le(Term),
    /// At least the operand.
    Ge(Term),
    /// Greater than the operand.
    Gt(Term),
    /// Other than the operand.
    Ne(Term),
    /// Equal to the operand.
    Eq(Term),
    /// Within a range.
    InSpan(Span),
    /// Outside a range.
    OutSpan(Span),
    /// A member of a set.
    InSet(Ints),
    /// No member of a set.
    OutSet(Ints),
}

/// How often a value is to occur.
#[derive(Clone, Copy, Debug)]
pub enum Occurrence {
    /// As often as the term says.
    Term(Term),
    /// As often as some number within the range.
    Span(Span),
}

/// How often each value is to occur.
pub type Occurrences = Row<Occurrence>;
