//! The fields of constraints, borrowed.

ghost use Rattle.std.specs.Prelude.{◌≡◌, ◌∷◌, []};
ghost use Rattle.std.specs.List.{flat_map};
ghost use Rattle.xs_model.specs.Fields.{body_fields, fields_of, optional, term, condition, members};
ghost use Rattle.xs_forms.specs.Seen.{seen};

use xf_num::{Span, Vars};
use xs_model::{Body, Cond, Constraint, Edge, Expr, Objective, Occurrence, Term, Terms, Tuple};

/// A field of a constraint, or several of one kind.
#[derive(Clone, Copy)]
pub enum FieldView<'a> {
    /// No field.
    Nothing,
    /// A list of variables.
    Members(&'a [u32]),
    /// A list of variables for each row.
    MemberRows(&'a [Vars]),
    /// A list of terms.
    Terms(&'a [Term]),
    /// A list of terms for each row.
    TermRows(&'a [Terms]),
    /// A list of integers.
    Integers(&'a [i128]),
    /// One integer.
    Integer(i128),
    /// One variable.
    Variable(u32),
    /// One term.
    Term(Term),
    /// The ends of ranges.
    Ranges(&'a [Span]),
    /// The ends of a range.
    Range(Span),
    /// Tuples.
    Tuples(&'a [Tuple]),
    /// Transitions.
    Edges(&'a [Edge]),
    /// States.
    States(&'a [u32]),
    /// One state.
    State,
    /// How often values are to occur.
    Occurrences(&'a [Occurrence]),
    /// An expression.
    Expression(&'a Expr),
    /// Coefficients and the list members that they are factors of.
    Products(&'a [Term], &'a [u32]),
}

/// The fields of a constraint in order, with `Nothing` behind them.
pub type Fields<'a> = [FieldView<'a>; 6];

fn condition(cond: &Cond) -> FieldView<'_>
    ensures { seen result ≡ condition cond.now ∷ [] }
{
    match cond {
        Cond::Lt(t) | Cond::Le(t) | Cond::Ge(t) | Cond::Gt(t) | Cond::Ne(t) | Cond::Eq(t) => {
            FieldView::Term(*t)
        }
        Cond::InSpan(span) | Cond::OutSpan(span) => FieldView::Range(*span),
        Cond::InSet(set) | Cond::OutSet(set) => FieldView::Integers(set.as_slice()),
    }
}

fn optional_term(option: &Option<Term>) -> FieldView<'_>
    ensures { seen result ≡ optional term option.now }
{
    match option {
        Some(term) => FieldView::Term(*term),
        None => FieldView::Nothing,
    }
}

fn optional_list(option: &Option<Vars>) -> FieldView<'_>
    ensures { seen result ≡ optional members option.now }
{
    match option {
        Some(list) => FieldView::Members(list.as_slice()),
        None => FieldView::Nothing,
    }
}

// Fields, with `Nothing` behind them.
macro_rules! padded {
    ($a:expr) => {
        padded!($a, FieldView::Nothing)
    };
    ($a:expr, $b:expr) => {
        padded!($a, $b, FieldView::Nothing)
    };
    ($a:expr, $b:expr, $c:expr) => {
        padded!($a, $b, $c, FieldView::Nothing)
    };
    ($a:expr, $b:expr, $c:expr, $d:expr) => {
        padded!($a, $b, $c, $d, FieldView::Nothing)
    };
    ($a:expr, $b:expr, $c:expr, $d:expr, $e:expr) => {
        padded!($a, $b, $c, $d, $e, FieldView::Nothing)
    };
    ($a:expr, $b:expr, $c:expr, $d:expr, $e:expr, $f:expr) => {
        [$a, $b, $c, $d, $e, $f]
    };
}

/// The fields of a constraint, form by form.
pub fn fields(c: &Constraint) -> Fields<'_>
    ensures { flat_map seen result ≡ fields_of c.now }
{
    use FieldView::{
        Edges, Expression, Integer, Integers, MemberRows, Members, Occurrences, Products, Ranges,
        State, States, TermRows, Terms, Tuples, Variable,
    };
    match c {
        Constraint::Intension { expr } => padded!(Expression(expr)),
        Constraint::Extension { list, tuples, .. } => padded!(
            Members(list.as_slice()),
            Tuples(tuples.as_slice())
        ),
        Constraint::Unary { var, spans, .. } => padded!(Variable(*var), Ranges(spans.as_slice())),
        Constraint::Regular {
            list,
            edges,
            finals,
            ..
        } => padded!(
            Members(list.as_slice()),
            Edges(edges.as_slice()),
            State,
            States(finals.as_slice())
        ),
        Constraint::Mdd { list, edges, .. } => padded!(
            Members(list.as_slice()),
            Edges(edges.as_slice())
        ),
        Constraint::AllDifferent { list, except } => padded!(
            Members(list.as_slice()),
            Integers(except.as_slice())
        ),
        Constraint::DifferentLists { lists } => padded!(MemberRows(lists.as_slice())),
        Constraint::DifferentMatrix { rows } => padded!(MemberRows(rows.as_slice())),
        Constraint::AllEqual { list } => padded!(Members(list.as_slice())),
        Constraint::Ordered { list, lengths, .. } => padded!(
            Members(list.as_slice()),
            Terms(lengths.as_slice())
        ),
        Constraint::Lex { lists, .. } => padded!(MemberRows(lists.as_slice())),
        Constraint::LexMatrix { rows, .. } => padded!(MemberRows(rows.as_slice())),
        Constraint::Sum { list, coeffs, cond } => padded!(
            Products(coeffs.as_slice(), list.as_slice()),
            condition(cond)
        ),
        Constraint::Count { list, values, cond } => padded!(
            Members(list.as_slice()),
            Terms(values.as_slice()),
            condition(cond)
        ),
        Constraint::NValues { list, except, cond } => padded!(
            Members(list.as_slice()),
            Integers(except.as_slice()),
            condition(cond)
        ),
        Constraint::Cardinality {
            list,
            values,
            occurs,
            ..
        } => padded!(
            Members(list.as_slice()),
            Integers(values.as_slice()),
            Occurrences(occurs.as_slice())
        ),
        Constraint::Minimum { list, cond } => padded!(Members(list.as_slice()), condition(cond)),
        Constraint::Maximum { list, cond } => padded!(Members(list.as_slice()), condition(cond)),
        Constraint::Element {
            list,
            start,
            index,
            cond,
        } => padded!(
            Terms(list.as_slice()),
            Integer(*start),
            optional_term(index),
            condition(cond)
        ),
        Constraint::ElementMatrix {
            rows,
            row_start,
            col_start,
            row,
            col,
            cond,
        } => padded!(
            TermRows(rows.as_slice()),
            Integer(*row_start),
            Integer(*col_start),
            FieldView::Term(*row),
            FieldView::Term(*col),
            condition(cond)
        ),
        Constraint::Channel { list, start } => padded!(Members(list.as_slice()), Integer(*start)),
        Constraint::ChannelTwo {
            first,
            first_start,
            second,
            second_start,
        } => padded!(
            Members(first.as_slice()),
            Integer(*first_start),
            Members(second.as_slice()),
            Integer(*second_start)
        ),
        Constraint::ChannelValue { list, start, value } => padded!(
            Members(list.as_slice()),
            Integer(*start),
            FieldView::Term(*value)
        ),
        Constraint::NoOverlap {
            origins,
            lengths,
            ..
        } => padded!(MemberRows(origins.as_slice()), TermRows(lengths.as_slice())),
        Constraint::Cumulative {
            origins,
            lengths,
            heights,
            ends,
            cond,
        } => padded!(
            Members(origins.as_slice()),
            Terms(lengths.as_slice()),
            Terms(heights.as_slice()),
            optional_list(ends),
            condition(cond)
        ),
        Constraint::Circuit { list, start, size } => padded!(
            Members(list.as_slice()),
            Integer(*start),
            optional_term(size)
        ),
        Constraint::Instantiation { list, values } => padded!(
            Members(list.as_slice()),
            Integers(values.as_slice())
        ),
    }
}

/// The field of an objective.
pub fn goal_fields(o: &Objective) -> [FieldView<'_>; 1]
    ensures { flat_map seen result ≡ body_fields o.now.body }
{
    match &o.body {
        Body::Value(expr) => [FieldView::Expression(expr)],
        Body::Sum(list, coeffs) => [FieldView::Products(coeffs.as_slice(), list.as_slice())],
        Body::Least(list) | Body::Greatest(list) | Body::Distinct(list) => [FieldView::Members(
            list.as_slice(),
        )],
    }
}
