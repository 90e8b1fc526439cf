//! The operators of a condition.

ghost use Rattle.std.specs.Prelude.{◌≡◌};
ghost use Rattle.xs_conditions.specs.Conditions.{listed, membership_of, related, relation_of, spanned};

use xf_num::{Ints, Span};
use xs_model::{Cond, Term};

/// How a number is to stand to an operand.
#[derive(Clone, Copy, Debug, PartialEq, Eq)]
pub enum Relation {
    Lt,
    Le,
    Ge,
    Gt,
    Ne,
    Eq,
}

/// The relation that an operator names.
pub(crate) fn relation_of(op: &[u8]) -> Option<Relation>
    ensures { result ≡ relation_of op.now }
{
    if op == b"lt".as_slice() {
        Some(Relation::Lt)
    } else if op == b"le".as_slice() {
        Some(Relation::Le)
    } else if op == b"ge".as_slice() {
        Some(Relation::Ge)
    } else if op == b"gt".as_slice() {
        Some(Relation::Gt)
    } else if op == b"ne".as_slice() {
        Some(Relation::Ne)
    } else if op == b"eq".as_slice() {
        Some(Relation::Eq)
    } else {
        None
    }
}

/// Whether an operator asks for a member, or for none.
pub(crate) fn membership_of(op: &[u8]) -> Option<bool>
    ensures { result ≡ membership_of op.now }
{
    if op == b"in".as_slice() {
        Some(true)
    } else if op == b"notin".as_slice() {
        Some(false)
    } else {
        None
    }
}

/// The condition to stand so to a term.
pub(crate) fn related(relation: Relation, term: Term) -> Cond
    ensures { result ≡ related relation term }
{
    match relation {
        Relation::Lt => Cond::Lt(term),
        Relation::Le => Cond::Le(term),
        Relation::Ge => Cond::Ge(term),
        Relation::Gt => Cond::Gt(term),
        Relation::Ne => Cond::Ne(term),
        Relation::Eq => Cond::Eq(term),
    }
}

/// The condition to be within a range, or outside.
pub(crate) fn spanned(inside: bool, span: Span) -> Cond
    ensures { result ≡ spanned inside span }
{
    if inside {
        Cond::InSpan(span)
    } else {
        Cond::OutSpan(span)
    }
}

/// The condition to be a member of a set, or none.
pub(crate) fn listed(inside: bool, set: Ints) -> Cond
    ensures { result ≡ listed inside set }
{
    if inside {
        Cond::InSet(set)
    } else {
        Cond::OutSet(set)
    }
}
