use crate::builtin::Builtin;
use xf_num::{Domain, Ints, Row, Span, Spans, Text};

/// What a call is given: a constant, a variable by its number, a set, or a list of these.
#[derive(Drop)]
pub enum Arg {
    /// An integer.
    Int(i128),
    /// A truth value.
    Bool(bool),
    /// The variable with this number.
    Var(u64),
    /// The set of the integers between two ends.
    Range(Span),
    /// The set of these integers, in any order, with or without repeats.
    Set(Ints),
    /// A list; no member of it is a list.
    List(Row<Arg>),
}

pub type Args = Row<Arg>;

/// A constraint of a model.
#[derive(Drop)]
pub struct Call {
    pub builtin: Builtin,
    pub args: Args,
    /// The byte of the file at which the call begins, 0 for a call that was read from no file.
    pub place: u64,
}

pub type Calls = Row<Call>;

/// A variable, numbered by its place in the list.
#[derive(Drop)]
pub struct FzVar {
    pub name: Text,
    /// Whether it is a Boolean variable; its values are then 0 and 1.
    pub boolean: bool,
    pub domain: Domain,
    /// The constant or the earlier variable that its declaration says it equals.
    pub equal: Option<Arg>,
    /// Whether solvers print its value.
    pub shown: bool,
}

pub type FzVars = Row<FzVar>;

/// An array that solvers print: its members, and the ranges of its indices.
#[derive(Drop)]
pub struct Output {
    pub name: Text,
    /// Whether its members are Booleans.
    pub boolean: bool,
    /// One range for each dimension. Their sizes multiply to the number of members.
    pub dims: Spans,
    pub members: Args,
}

pub type Outputs = Row<Output>;

/// What a solution is searched for: any, or one with the least or the greatest value of a variable.
#[derive(Clone, Copy, Debug, PartialEq, Eq)]
pub enum Goal {
    Satisfy,
    Minimize(u64),
    Maximize(u64),
}

/// A FlatZinc model.
#[derive(Drop)]
pub struct Model {
    pub vars: FzVars,
    pub outputs: Outputs,
    pub calls: Calls,
    pub goal: Goal,
}
