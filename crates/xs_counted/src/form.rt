//! The constraints of these forms.

ghost use Rattle.std.specs.Prelude.{◌≡◌, ◌↔◌, [], true, length};
ghost use Rattle.xs_counted.specs.Counted.{IsMeasuredAt, is_counted, is_form};
ghost use Rattle.xs_forms.specs.Room.{IsRoomFor};
ghost use Rattle.xs_model.specs.Accepted.{IsFormed};
ghost use Rattle.xs_model.specs.Instance.{Holds};

use crate::cardinality::holds_cardinality;
use crate::count::holds_count;
use crate::distinct::holds_distinct;
use crate::extremes::{holds_maximum, holds_minimum};
use crate::sum::holds_sum;
use xs_forms::{Form, Scratch};
use xs_model::Constraint;

/// Whether a form is tested here.
pub fn is_form(form: Form) -> bool
    ensures { result ≡ is_form form }
{
    match form {
        Form::Sum | Form::Count | Form::NValues => true,
        Form::Cardinality | Form::Minimum | Form::Maximum => true,
        _ => false,
    }
}

/// Whether a constraint holds under an assignment. Takes no memory, and leaves the room as it is.
///
/// Asks that the constraint is of a form that is tested here, and of the shape of its form over the variables that have a
/// value, that its magnitude is at most the greatest within bounds of these values, and that there is room for its test,
/// without values.
pub fn holds(c: &Constraint, a: &[i128], scratch: &mut Scratch) -> bool
    requires form { is_counted c.now ≡ true }
    requires formed { IsFormed (length a.now) c.now }
    requires measured { IsMeasuredAt a.now c.now }
    requires room { IsRoomFor c.now scratch.old }
    requires empty { scratch.old.values ≡ [] }
    ensures value { (result ≡ true) ↔ Holds c.now a.now }
    ensures same { scratch.new ≡ scratch.old }
{
    match c {
        Constraint::Sum { list, coeffs, cond } => {
            holds_sum(list.as_slice(), coeffs.as_slice(), cond, a)
        }
        Constraint::Count { list, values, cond } => {
            holds_count(list.as_slice(), values.as_slice(), cond, a, scratch)
        }
        Constraint::NValues { list, except, cond } => {
            holds_distinct(list.as_slice(), except.as_slice(), cond, a, scratch)
        }
        Constraint::Cardinality {
            list,
            values,
            occurs,
            closed,
        } => holds_cardinality(
            list.as_slice(),
            values.as_slice(),
            occurs.as_slice(),
            *closed,
            a,
            scratch,
        ),
        Constraint::Minimum { list, cond } => holds_minimum(list.as_slice(), cond, a),
        Constraint::Maximum { list, cond } => holds_maximum(list.as_slice(), cond, a),
        _ => false,
    }
}
