ghost use Rattle.std.specs.Prelude.{◌≡◌, ◌≤◌, ℕ, List, OnOk, SomeIff, pos, length, map};
ghost use Rattle.std.specs.List.{AllByRecursion};
ghost use Rattle.xs_model.specs.Accepted.{IsFaultless, IsFaultlessBody, IsFormed, IsMeasured, IsMeasuredBody};
ghost use Rattle.xs_model.specs.Bounds.{HasSpans};
ghost use Rattle.xs_model.specs.Fields.{body_fields, fields_of, item_of};
ghost use Rattle.xs_model.specs.Formed.{AreFormed, IsFormedItem};
ghost use Rattle.xs_model.specs.Magnitude.{AreBounded, are_not_negative, capped, judged, judged_body, judged_expr, judged_magnitude, judged_root, judged_size, mag, mag_of, term_bounds, total_of};
ghost use Rattle.xs_model.specs.Shape.{IsShaped};
ghost use Rattle.xs_model.specs.Sound.{magnitudes};
ghost use Rattle.xs_model.specs.declared.instance.Body.TheVariants.{Value};
ghost use Rattle.xs_judge.specs.Weights.{totalled};

use crate::measure::weight_of_fields;
use crate::nodes::{Counted, count_nodes};
use xf_num::{MAX_MAGNITUDE, Span};
use xf_text::Kind;
use xs_expr::{bounds, is_truth, only};
use xs_forms::{fields, goal_fields};
use xs_model::{Body, Constraint, Expr, Objective, Term};

/// The magnitude of the constraint where variable `i` lies within `spans[i]`: the sum of the greatest magnitudes of
/// its items, which are its list members, its other integers and variables, the ends of its ranges and the nodes of its
/// expression, a coefficient counting with its list member as their product; and the square of the number of items. None
/// exactly where it passes 2^126 - 1.
///
/// Asks that the constraint is well formed, that each variable has a span and that no expression is at fault.
pub fn mag(c: &Constraint, spans: &[Span]) -> Option<i128>
    requires formed { IsFormed (length spans.now) c.now }
    requires bounded { AreBounded spans.now (fields_of c.now) }
    ensures { SomeIff result (mag spans.now c.now ≤ magnitudes) (pos (mag spans.now c.now)) }
{
    small(whole_of(c, spans))
}

/// The magnitude of a constraint. What passes the greatest magnitude is none.
fn whole_of(c: &Constraint, spans: &[Span]) -> Option<u128>
    requires formed { IsFormed (length spans.now) c.now }
    requires bounded { AreBounded spans.now (fields_of c.now) }
    ensures { result ≡ capped (mag spans.now c.now) }
{
    weight_of_fields(&fields(c), spans).whole()
}

/// A number of at most the greatest magnitude.
fn small(number: Option<u128>) -> Option<i128>
    ensures { (n : ℕ) → number ≡ capped n → SomeIff result (n ≤ magnitudes) (pos n) }
{
    match number {
        Some(number) if number <= MAX_MAGNITUDE => Some(number as i128),
        _ => None,
    }
}

/// The judgement of an expression that is to hold.
fn judge_expr(e: &Expr, spans: &[Span]) -> Result<(), Kind>
    requires shaped { IsShaped e.now }
    requires variables { HasSpans spans.now e.now }
    ensures { result ≡ judged_expr spans.now e.now }
{
    match count_nodes(e, spans) {
        Ok(counted) => judge_root(counted),
        Err(kind) => Err(kind),
    }
}

/// The same of an expression of which no node is at fault.
fn judge_root(counted: Counted) -> Result<(), Kind>
    ensures { (ms : List ℕ) → counted.total ≡ totalled ms → result ≡ judged_root (total_of ms) counted.span }
{
    if !is_truth(counted.span) {
        return Err(Kind::Logic);
    }
    match counted.total.whole() {
        Some(_) => Ok(()),
        None => Err(Kind::Range),
    }
}

/// Whether terms are never negative.
fn are_not_negative(terms: &[Term], spans: &[Span]) -> bool
    requires { AllByRecursion (IsFormedItem (length spans.now)) (map item_of terms.now) }
    ensures { result ≡ are_not_negative spans.now terms.now }
{
    for term in terms {
        if span_of(*term, spans).lo() < 0 {
            return false;
        }
    }
    true
}

/// The bounds of a term.
fn span_of(term: Term, spans: &[Span]) -> Span
    requires { IsFormedItem (length spans.now) (item_of term) }
    ensures { result ≡ term_bounds spans.now term }
{
    match term {
        Term::Int(value) => only(value),
        Term::Var(variable) => spans[variable as usize],
    }
}

/// The judgement of a constraint without an expression, and without tasks that are at fault.
fn judge_magnitude(c: &Constraint, spans: &[Span]) -> Result<(), Kind>
    requires formed { IsFormed (length spans.now) c.now }
    requires bounded { AreBounded spans.now (fields_of c.now) }
    ensures { result ≡ judged_magnitude spans.now c.now }
{
    match whole_of(c, spans) {
        Some(_) => Ok(()),
        None => Err(Kind::Range),
    }
}

/// Whether no condition on the bounds in a constraint fails, where variable `i` lies within `spans[i]`. Of an
/// expression it is F8, F9 or F10 of the first node at fault, operands before their node, and then F8 where its bounds
/// go past 0 and 1. Of tasks it is F8 where a length or a height may be negative. Then it is F10 where the magnitude of
/// the constraint passes 2^126 - 1.
///
/// Asks that the constraint is well formed and that each variable has a span.
pub fn judge(c: &Constraint, spans: &[Span]) -> Result<(), Kind>
    requires { IsFormed (length spans.now) c.now }
    ensures value { result ≡ judged spans.now c.now }
    ensures faultless { OnOk result (IsFaultless spans.now c.now) }
    ensures measured { OnOk result (IsMeasured spans.now c.now) }
{
    match c {
        Constraint::Intension { expr } => judge_expr(expr, spans),
        Constraint::Cumulative {
            lengths,
            heights,
            ..
        } => {
            let calm = are_not_negative(lengths.as_slice(), spans)
                && are_not_negative(heights.as_slice(), spans);
            if calm {
                judge_magnitude(c, spans)
            } else {
                Err(Kind::Logic)
            }
        }
        _ => judge_magnitude(c, spans),
    }
}

/// The judgement of the size of what is to be least or greatest, of which no node is at fault.
fn judge_goal_size(o: &Objective, spans: &[Span]) -> Result<(), Kind>
    requires formed { AreFormed (length spans.now) (body_fields o.now.body) }
    requires bounded { AreBounded spans.now (body_fields o.now.body) }
    ensures { result ≡ judged_size (mag_of spans.now (body_fields o.now.body)) }
{
    match weight_of_fields(&goal_fields(o), spans).whole() {
        Some(_) => Ok(()),
        None => Err(Kind::Range),
    }
}

/// Whether no condition on the bounds in an objective fails: of an expression F8, F9 or F10 of the first node at fault,
/// operands before their node, and then F10 where the magnitude passes 2^126 - 1.
///
/// Asks that the objective is well formed and that each variable has a span.
pub fn judge_goal(o: &Objective, spans: &[Span]) -> Result<(), Kind>
    requires { AreFormed (length spans.now) (body_fields o.now.body) }
    ensures value { result ≡ judged_body spans.now o.now.body }
    ensures faultless { OnOk result (IsFaultlessBody spans.now o.now.body) }
    ensures measured { OnOk result (IsMeasuredBody spans.now o.now.body) }
{
    match &o.body {
        Body::Value(expr) => judge_value(expr, o, spans),
        _ => judge_goal_size(o, spans),
    }
}

/// The same of an objective that is the value of an expression.
fn judge_value(expr: &Expr, o: &Objective, spans: &[Span]) -> Result<(), Kind>
    requires formed { AreFormed (length spans.now) (body_fields o.now.body) }
    requires value { o.now.body ≡ Value expr.now }
    ensures { result ≡ judged_body spans.now o.now.body }
{
    match bounds(expr, spans) {
        Ok(_) => judge_goal_size(o, spans),
        Err(kind) => Err(kind),
    }
}
