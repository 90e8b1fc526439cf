use crate::decl::Decls;
use crate::expr::Expr;
use crate::term::{Cond, Occurrences, Rel, Term, Terms};
use xf_num::{Ints, Row, Spans, Vars};

/// A transition: from a state by a value to a state.
#[derive(Clone, Copy, Debug, PartialEq, Eq)]
pub struct Edge {
    pub from: u32,
    pub value: i128,
    pub to: u32,
}

/// Transitions in order.
pub type Edges = Row<Edge>;

/// A tuple of a table. An entry that is none agrees with every value.
pub type Tuple = Row<Option<i128>>;

/// A constraint of one of the forms of XCSP3-core.
#[derive(Drop)]
pub enum Constraint {
    /// The value of the expression is 1.
    Intension {
        expr: Expr,
    },
    /// Some tuple agrees with the values; where not positive, none does.
    Extension {
        list: Vars,
        tuples: Row<Tuple>,
        positive: bool,
    },
    /// The value is within some span; where not positive, within none.
    Unary {
        var: u32,
        spans: Spans,
        positive: bool,
    },
    /// A path of transitions spells the values, from the start to a final state.
    Regular {
        list: Vars,
        edges: Edges,
        start: u32,
        finals: Row<u32>,
    },
    /// A path of transitions spells the values, from the root to the leaf.
    Mdd {
        list: Vars,
        edges: Edges,
        root: u32,
        leaf: u32,
    },
    /// Two equal values are among the exceptions.
    AllDifferent {
        list: Vars,
        except: Ints,
    },
    /// The lists of values differ pairwise.
    DifferentLists {
        lists: Row<Vars>,
    },
    /// Each row and each column has different values.
    DifferentMatrix {
        rows: Row<Vars>,
    },
    /// All values are equal.
    AllEqual {
        list: Vars,
    },
    /// Each value plus its length stands so to the next value.
    Ordered {
        list: Vars,
        lengths: Terms,
        rel: Rel,
    },
    /// Consecutive lists are in lexicographic order.
    Lex {
        lists: Row<Vars>,
        rel: Rel,
    },
    /// The rows are in lexicographic order, and so are the columns.
    LexMatrix {
        rows: Row<Vars>,
        rel: Rel,
    },
    /// The sum of the products meets the condition.
    Sum {
        list: Vars,
        coeffs: Terms,
        cond: Cond,
    },
    /// The number of members whose value is among the given ones meets the condition.
    Count {
        list: Vars,
        values: Terms,
        cond: Cond,
    },
    /// The number of distinct values outside the exceptions meets the condition.
    NValues {
        list: Vars,
        except: Ints,
        cond: Cond,
    },
    /// Each of the values occurs as often as is said; where closed, no other value occurs.
    Cardinality {
        list: Vars,
        values: Ints,
        occurs: Occurrences,
        closed: bool,
    },
    /// The least value meets the condition.
    Minimum {
        list: Vars,
        cond: Cond,
    },
    /// The greatest value meets the condition.
    Maximum {
        list: Vars,
        cond: Cond,
    },
    /// The index is one of the list, and its member meets the condition; without an index, some member does.
    Element {
        list: Terms,
        start: i128,
        index: Option<Term>,
        cond: Cond,
    },
    /// Both indices are in range, and their member meets the condition.
    ElementMatrix {
        rows: Row<Terms>,
        row_start: i128,
        col_start: i128,
        row: Term,
        col: Term,
        cond: Cond,
    },
    /// Where one index has another as its value, that one has the first.
    Channel {
        list: Vars,
        start: i128,
    },
    /// The same between two lists, both ways where they are equally long.
    ChannelTwo {
        first: Vars,
        first_start: i128,
        second: Vars,
        second_start: i128,
    },
    /// Exactly one member is 1, at the index that is the value; the others are 0.
    ChannelValue {
        list: Vars,
        start: i128,
        value: Term,
    },
    /// Each two boxes, a row of origins and of lengths each, are apart in some dimension: the origin and the length of
    /// one are together at most the origin of the other. Where zeros are ignored, a box with a length of 0 is passed
    /// over.
    NoOverlap {
        origins: Row<Vars>,
        lengths: Row<Terms>,
        zero_ignored: bool,
    },
    /// At every time the heights of the running tasks sum to a number that meets the condition, also where none runs.
    /// A task runs from its origin on, for its length. Where ends are given, each is the origin plus the length.
    Cumulative {
        origins: Vars,
        lengths: Terms,
        heights: Terms,
        ends: Option<Vars>,
        cond: Cond,
    },
    /// Every value is an index, counted from the start. The places that do not lead to themselves form one circuit of
    /// at least two nodes, of so many as the size says where one is given.
    Circuit {
        list: Vars,
        start: i128,
        size: Option<Term>,
    },
    /// Each variable has its value.
    Instantiation {
        list: Vars,
        values: Ints,
    },
}

/// Constraints in order.
pub type Constraints = Row<Constraint>;

/// Whether the least or the greatest value is asked.
#[derive(Clone, Copy, Debug, PartialEq, Eq)]
pub enum Direction {
    Minimize,
    Maximize,
}

/// What an objective is the value of.
#[derive(Drop)]
pub enum Body {
    /// An expression.
    Value(Expr),
    /// The sum of products of list members with coefficients.
    Sum(Vars, Terms),
    /// The least value.
    Least(Vars),
    /// The greatest value.
    Greatest(Vars),
    /// The number of distinct values.
    Distinct(Vars),
}

/// What is to be least or greatest.
#[derive(Drop)]
pub struct Objective {
    pub direction: Direction,
    pub body: Body,
}

/// An instance: its declarations, its constraints and its objective.
#[derive(Drop)]
pub struct Instance {
    pub decls: Decls,
    pub constraints: Constraints,
    pub objective: Option<Objective>,
}
