//! The values of terms, and conditions on numbers.

ghost use Rattle.std.specs.Prelude.{◌≡◌, length};
ghost use Rattle.std.specs.List.{AllByRecursion};
ghost use Rattle.xs_laws.specs.Meeting.{is_within, meets};
ghost use Rattle.xs_model.specs.Conditions.{value_of};
ghost use Rattle.xs_model.specs.Fields.{cond_items, item_of};
ghost use Rattle.xs_model.specs.Formed.{IsFormedItem};
ghost use Rattle.xs_model.specs.Lists.{is_among};

use xf_num::Span;
use xs_model::{Cond, Term};

/// The value of a term.
///
/// Asks that it is small, or a variable that has a value.
pub fn term_value(term: Term, a: &[i128]) -> i128
    requires { IsFormedItem (length a.now) (item_of term) }
    ensures { result ≡ value_of a.now term }
{
    match term {
        Term::Int(value) => value,
        Term::Var(variable) => a[variable as usize],
    }
}

/// Whether one of the values is this.
pub fn contains(values: &[i128], value: &i128) -> bool
    ensures { result ≡ is_among values.now value.now }
{
    for other in values {
        if value == other {
            return true;
        }
    }
    false
}

// Whether a number lies within a range.
fn is_within(span: Span, number: &i128) -> bool
    ensures { result ≡ is_within span number.now }
{
    span.lo() <= *number && *number <= span.hi()
}

/// Whether a number meets a condition.
///
/// Asks that the operands of the condition are small, or variables that have a value.
pub fn meets(cond: &Cond, number: &i128, a: &[i128]) -> bool
    requires { AllByRecursion (IsFormedItem (length a.now)) (cond_items cond.now) }
    ensures { result ≡ meets a.now cond.now number.now }
{
    match cond {
        Cond::Lt(term) => *number < term_value(*term, a),
        Cond::Le(term) => *number <= term_value(*term, a),
        Cond::Ge(term) => *number >= term_value(*term, a),
        Cond::Gt(term) => *number > term_value(*term, a),
        Cond::Ne(term) => *number != term_value(*term, a),
        Cond::Eq(term) => *number == term_value(*term, a),
        Cond::InSpan(span) => is_within(*span, number),
        Cond::OutSpan(span) => !is_within(*span, number),
        Cond::InSet(set) => contains(set.as_slice(), number),
        Cond::OutSet(set) => !contains(set.as_slice(), number),
    }
}
