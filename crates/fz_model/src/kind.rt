//! What a builtin asks of its arguments.

/// What is asked where one value may stand.
#[derive(Clone, Copy, Debug, PartialEq, Eq)]
pub enum Asked {
    /// An integer constant or an integer variable.
    Int,
    /// A Boolean constant or a Boolean variable.
    Bool,
    IntConstant,
    BoolConstant,
}

/// What is asked of an argument.
#[derive(Clone, Copy, Debug, PartialEq, Eq)]
pub enum Kind {
    One(Asked),
    /// An array of such values.
    Many(Asked),
    /// A constant set of integers.
    Set,
}
