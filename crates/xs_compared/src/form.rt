//! The constraints of these forms.

ghost use Rattle.std.specs.Prelude.{◌≡◌, ◌↔◌, [], true, length};
ghost use Rattle.xs_compared.specs.Compared.{IsFaultlessAt, is_compared, is_form};
ghost use Rattle.xs_forms.specs.Room.{IsRoomFor};
ghost use Rattle.xs_model.specs.Accepted.{IsFormed};
ghost use Rattle.xs_model.specs.Instance.{Holds};

use crate::different::{holds_different, holds_different_matrix};
use crate::expression::holds_expression;
use crate::lists::{holds_different_lists, holds_given};
use crate::neighbours::{holds_equal, holds_ordered};
use crate::orders::{holds_lex, holds_lex_matrix};
use xs_forms::{Form, Scratch};
use xs_model::Constraint;

/// Whether a form is tested here.
pub fn is_form(form: Form) -> bool
    ensures { result ≡ is_form form }
{
    match form {
        Form::Intension | Form::AllDifferent | Form::AllEqual => true,
        Form::Ordered | Form::Lex | Form::Instantiation => true,
        _ => false,
    }
}

/// Whether a constraint holds under an assignment. Takes no memory, and leaves the room as it is.
///
/// Asks that the constraint is of a form that is tested here, and of the shape of its form over the variables that have a
/// value, that no expression is at fault within bounds of these values, and that there is room for its test, without
/// values.
pub fn holds(c: &Constraint, a: &[i128], scratch: &mut Scratch) -> bool
    requires form { is_compared c.now ≡ true }
    requires formed { IsFormed (length a.now) c.now }
    requires faultless { IsFaultlessAt a.now c.now }
    requires room { IsRoomFor c.now scratch.old }
    requires empty { scratch.old.values ≡ [] }
    ensures value { (result ≡ true) ↔ Holds c.now a.now }
    ensures same { scratch.new ≡ scratch.old }
{
    match c {
        Constraint::Intension { expr } => holds_expression(expr, a),
        Constraint::AllDifferent { list, except } => {
            holds_different(list.as_slice(), except.as_slice(), a, scratch)
        }
        Constraint::DifferentLists { lists } => holds_different_lists(lists.as_slice(), a),
        Constraint::DifferentMatrix { rows } => holds_different_matrix(rows.as_slice(), a, scratch),
        Constraint::AllEqual { list } => holds_equal(list.as_slice(), a),
        Constraint::Ordered { list, lengths, rel } => holds_ordered(
            list.as_slice(),
            lengths.as_slice(),
            *rel,
            a,
        ),
        Constraint::Lex { lists, rel } => holds_lex(*rel, lists.as_slice(), a),
        Constraint::LexMatrix { rows, rel } => holds_lex_matrix(*rel, rows.as_slice(), a),
        Constraint::Instantiation { list, values } => {
            holds_given(list.as_slice(), values.as_slice(), a)
        }
        _ => false,
    }
}
