use xf_num::Row;

/// The operators of expressions (XCSP3-core, "Intensional constraints"). A truth value is 0 or 1.
#[derive(Clone, Copy, Debug, PartialEq, Eq)]
pub enum Op {
    /// The negative.
    Neg,
    /// The absolute value.
    Abs,
    /// The square.
    Sqr,
    /// The sum of two or more.
    Add,
    /// The product of two or more.
    Mul,
    /// The difference.
    Sub,
    /// The absolute value of the difference.
    Dist,
    /// The quotient, rounded down; its operands are not negative.
    Div,
    /// The remainder; its operands are not negative.
    Mod,
    /// The power, its exponent a literal from 1 to 64.
    Pow,
    /// The least of two or more.
    Min,
    /// The greatest of two or more.
    Max,
    /// Whether the first is less than the second.
    Lt,
    /// Whether the first is at most the second.
    Le,
    /// Whether the first is greater than the second.
    Gt,
    /// Whether the first is at least the second.
    Ge,
    /// Whether the two differ.
    Ne,
    /// Whether two or more are all equal.
    Eq,
    /// A set, as the second operand of `In` and `NotIn` alone.
    Set,
    /// Whether the first equals a member of the set.
    In,
    /// Whether the first equals no member of the set.
    NotIn,
    /// Whether the truth value is 0.
    Not,
    /// Whether all of two or more truth values are 1.
    And,
    /// Whether some of two or more truth values is 1.
    Or,
    /// Whether an odd number of two or more truth values is 1.
    Xor,
    /// Whether two truth values are equal.
    Iff,
    /// Whether the second truth value is 1 or the first is 0.
    Imp,
    /// The second where the first, a truth value, is 1, else the third.
    If,
}

/// An expression over the variables of an instance.
#[derive(Debug, Drop)]
pub enum Expr {
    /// A literal.
    Int(i128),
    /// The variable with this number.
    Var(u32),
    /// An operator and its operands.
    Node(Op, Row<Expr>),
}

/// A list of expressions.
pub type Exprs = Row<Expr>;
