//! The magnitudes of fields.

ghost use Rattle.std.specs.Prelude.{◌≡◌, ◌<◌, ◌^◌, ◌+◌, ◌*◌, ℕ, List, [], ◌∷◌, length, map, nat_abs};
ghost use Rattle.std.specs.List.{AllByRecursion, flat_map};
ghost use Rattle.xs_model.specs.Fields.{Item, Expression, Products, Number, Variable, Mark, item_of, entry_item, end_items, edge_items, occurrence_items, members, terms, integers, ranges, entries, transitions, states, occurrences};
ghost use Rattle.xs_model.specs.Formed.{AreFormed, IsFormedItem, total};
ghost use Rattle.xs_forms.specs.Seen.{seen};
ghost use Rattle.xs_model.specs.Magnitude.{AreBounded, capped, item_magnitude, product_magnitudes};
ghost use Rattle.xs_judge.specs.Weights.{measured, weight_of_fields, weight_of_items};
ghost use Rattle.xf_num.specs.Span.{Bounds};

use crate::nodes::weight_of_expr;
use crate::total::{Total, joined};
use xf_num::{MAX_MAGNITUDE, Row, Span, Vars};
use xs_forms::FieldView;
use xs_model::{Edge, Expr, Occurrence, Term, Terms, Tuple};

/// One item of this magnitude.
fn one(magnitude: u128) -> Total
    ensures { result ≡ measured magnitude 1 }
{
    Total {
        sum: if magnitude <= MAX_MAGNITUDE {
            Some(magnitude)
        } else {
            None
        },
        items: Some(1),
    }
}

/// Two integers.
fn two(lo: i128, hi: i128) -> Total
    ensures { result ≡ measured (nat_abs lo + (nat_abs hi + 0)) 2 }
{
    one(lo.unsigned_abs()).and(one(hi.unsigned_abs()))
}

/// An integer between two states.
fn transition(value: i128) -> Total
    ensures { result ≡ measured (0 + (nat_abs value + (0 + 0))) 3 }
{
    one(value.unsigned_abs()).and(marks(2))
}

/// So many items without a magnitude.
fn marks(count: usize) -> Total
    ensures { result ≡ measured 0 count }
{
    Total {
        sum: Some(0),
        items: Some(count as u128),
    }
}

/// No items.
fn nothing() -> Total
    ensures { result ≡ measured 0 0 }
{
    Total {
        sum: Some(0),
        items: Some(0),
    }
}

impl Total {
    /// The items of both.
    fn and(self, other: Total) -> Total
        ensures { (m n k l : ℕ) → self ≡ measured m n → other ≡ measured k l → result ≡ measured (m + k) (n + l) }
    {
        Total {
            sum: joined(self.sum, other.sum),
            items: joined(self.items, other.items),
        }
    }
}

/// What has items.
trait Weighed {
    ghost items: { Self → List Item };

    /// How great its items are, where variable `i` lies within `spans[i]`, and how many.
    fn weight(&self, spans: &[Span]) -> Total
        requires { AllByRecursion (IsFormedItem (length spans.now)) (items self.now) }
        ensures { result ≡ weight_of_items spans.now (items self.now) };
}

impl Weighed for u32 {
    ghost items = { λ v. Variable v ∷ [] };

    fn weight(&self, spans: &[Span]) -> Total {
        one(spans[*self as usize].magnitude())
    }
}

impl Weighed for i128 {
    ghost items = { λ z. Number z ∷ [] };

    fn weight(&self, _spans: &[Span]) -> Total {
        one(self.unsigned_abs())
    }
}

impl Weighed for Term {
    ghost items = { λ t. item_of t ∷ [] };

    fn weight(&self, spans: &[Span]) -> Total {
        match self {
            Term::Int(value) => value.weight(spans),
            Term::Var(variable) => variable.weight(spans),
        }
    }
}

impl Weighed for Option<i128> {
    ghost items = { λ e. entry_item e ∷ [] };

    fn weight(&self, spans: &[Span]) -> Total {
        match self {
            Some(value) => value.weight(spans),
            None => one(0),
        }
    }
}

impl Weighed for Span {
    ghost items = { end_items };

    fn weight(&self, _spans: &[Span]) -> Total {
        two(self.lo(), self.hi())
    }
}

impl Weighed for Edge {
    ghost items = { edge_items };

    fn weight(&self, _spans: &[Span]) -> Total {
        transition(self.value)
    }
}

impl Weighed for Occurrence {
    ghost items = { occurrence_items };

    fn weight(&self, spans: &[Span]) -> Total {
        match self {
            Occurrence::Term(term) => term.weight(spans),
            Occurrence::Span(span) => span.weight(spans),
        }
    }
}

impl<T: Weighed> Weighed for Row<T> {
    ghost items = { λ row. flat_map T.items row };

    fn weight(&self, spans: &[Span]) -> Total {
        weight_of_each(self.as_slice(), spans)
    }
}

fn weight_of_each<T: Weighed>(xs: &[T], spans: &[Span]) -> Total
    requires { AllByRecursion (IsFormedItem (length spans.now)) (flat_map T.items xs.now) }
    ensures { result ≡ weight_of_items spans.now (flat_map T.items xs.now) }
{
    let mut total = nothing();
    for x in xs {
        total = total.and(x.weight(spans));
    }
    total
}

fn weight_of_members(list: &[u32], spans: &[Span]) -> Total
    requires { AreFormed (length spans.now) (members list.now ∷ []) }
    ensures { result ≡ weight_of_fields spans.now (members list.now ∷ []) }
{
    weight_of_each(list, spans)
}

fn weight_of_member_rows(rows: &[Vars], spans: &[Span]) -> Total
    requires { AreFormed (length spans.now) (map members rows.now) }
    ensures { result ≡ weight_of_fields spans.now (map members rows.now) }
{
    weight_of_each(rows, spans)
}

fn weight_of_terms(list: &[Term], spans: &[Span]) -> Total
    requires { AreFormed (length spans.now) (terms list.now ∷ []) }
    ensures { result ≡ weight_of_fields spans.now (terms list.now ∷ []) }
{
    weight_of_each(list, spans)
}

fn weight_of_term_rows(rows: &[Terms], spans: &[Span]) -> Total
    requires { AreFormed (length spans.now) (map terms rows.now) }
    ensures { result ≡ weight_of_fields spans.now (map terms rows.now) }
{
    weight_of_each(rows, spans)
}

fn weight_of_integers(list: &[i128], spans: &[Span]) -> Total
    requires { AreFormed (length spans.now) (integers list.now ∷ []) }
    ensures { result ≡ weight_of_fields spans.now (integers list.now ∷ []) }
{
    weight_of_each(list, spans)
}

fn weight_of_ranges(pieces: &[Span], spans: &[Span]) -> Total
    requires { AreFormed (length spans.now) (ranges pieces.now ∷ []) }
    ensures { result ≡ weight_of_fields spans.now (ranges pieces.now ∷ []) }
{
    weight_of_each(pieces, spans)
}

fn weight_of_tuples(rows: &[Tuple], spans: &[Span]) -> Total
    requires { AreFormed (length spans.now) (map entries rows.now) }
    ensures { result ≡ weight_of_fields spans.now (map entries rows.now) }
{
    weight_of_each(rows, spans)
}

fn weight_of_edges(edges: &[Edge], spans: &[Span]) -> Total
    requires { AreFormed (length spans.now) (transitions edges.now ∷ []) }
    ensures { result ≡ weight_of_fields spans.now (transitions edges.now ∷ []) }
{
    weight_of_each(edges, spans)
}

fn weight_of_occurrences(list: &[Occurrence], spans: &[Span]) -> Total
    requires { AreFormed (length spans.now) (occurrences list.now ∷ []) }
    ensures { result ≡ weight_of_fields spans.now (occurrences list.now ∷ []) }
{
    weight_of_each(list, spans)
}

fn weight_of_states(list: &[u32], _spans: &[Span]) -> Total
    ensures { result ≡ weight_of_fields _spans.now (states list.now ∷ []) }
{
    marks(list.len())
}

fn weight_of_products(coeffs: &[Term], list: &[u32], spans: &[Span]) -> Total
    requires { AreFormed (length spans.now) (Products coeffs.now list.now ∷ []) }
    ensures { result ≡ weight_of_fields spans.now (Products coeffs.now list.now ∷ []) }
{
    Total {
        sum: sum_of_products(coeffs, list, spans),
        items: joined(Some(coeffs.len() as u128), Some(list.len() as u128)),
    }
}

/// A product of magnitudes.
fn product(a: u128, b: u128) -> Option<u128>
    ensures { result ≡ capped (a * b) }
{
    match a.checked_mul(b) {
        Some(product) if product <= MAX_MAGNITUDE => Some(product),
        _ => None,
    }
}

/// The magnitude of a term's bounds.
fn magnitude_of_term(term: Term, spans: &[Span]) -> u128
    requires { IsFormedItem (length spans.now) (item_of term) }
    ensures { result ≡ item_magnitude spans.now (item_of term) }
{
    match term {
        Term::Int(value) => value.unsigned_abs(),
        Term::Var(variable) => spans[variable as usize].magnitude(),
    }
}

fn sum_of_products(coeffs: &[Term], list: &[u32], spans: &[Span]) -> Option<u128>
    requires { AreFormed (length spans.now) (Products coeffs.now list.now ∷ []) }
    ensures { result ≡ capped (total (product_magnitudes spans.now coeffs.now list.now)) }
{
    let count = coeffs.len().min(list.len());
    let mut sum = Some(0);
    for at in 0..count {
        let factor = magnitude_of_term(coeffs[at], spans);
        let next = product(factor, spans[list[at] as usize].magnitude());
        sum = joined(sum, next);
    }
    sum
}

/// The items of a field, or of the fields that it stands for.
fn weight_of_field(field: &FieldView<'_>, spans: &[Span]) -> Total
    requires formed { AreFormed (length spans.now) (seen field.now) }
    requires bounded { AreBounded spans.now (seen field.now) }
    ensures { result ≡ weight_of_fields spans.now (seen field.now) }
{
    match field {
        FieldView::Nothing => nothing(),
        FieldView::Members(list) => weight_of_members(list, spans),
        FieldView::MemberRows(rows) => weight_of_member_rows(rows, spans),
        FieldView::Terms(list) => weight_of_terms(list, spans),
        FieldView::TermRows(rows) => weight_of_term_rows(rows, spans),
        FieldView::Integers(list) => weight_of_integers(list, spans),
        FieldView::Integer(value) => value.weight(spans),
        FieldView::Variable(variable) => variable.weight(spans),
        FieldView::Term(term) => term.weight(spans),
        FieldView::Ranges(ranges) => weight_of_ranges(ranges, spans),
        FieldView::Range(range) => range.weight(spans),
        FieldView::Tuples(tuples) => weight_of_tuples(tuples, spans),
        FieldView::Edges(edges) => weight_of_edges(edges, spans),
        FieldView::States(states) => weight_of_states(states, spans),
        FieldView::State => one(0),
        FieldView::Occurrences(occurrences) => weight_of_occurrences(occurrences, spans),
        FieldView::Expression(expr) => weight_of_expression(expr, spans),
        FieldView::Products(coeffs, list) => weight_of_products(coeffs, list, spans),
    }
}

fn weight_of_expression(expr: &Expr, spans: &[Span]) -> Total
    requires formed { AreFormed (length spans.now) (Expression expr.now ∷ []) }
    requires bounded { AreBounded spans.now (Expression expr.now ∷ []) }
    ensures { result ≡ weight_of_fields spans.now (Expression expr.now ∷ []) }
{
    weight_of_expr(expr, spans)
}

/// The items of fields.
pub(crate) fn weight_of_fields(fields: &[FieldView<'_>], spans: &[Span]) -> Total
    requires formed { AreFormed (length spans.now) (flat_map seen fields.now) }
    requires bounded { AreBounded spans.now (flat_map seen fields.now) }
    ensures { result ≡ weight_of_fields spans.now (flat_map seen fields.now) }
{
    let mut total = nothing();
    for field in fields {
        total = total.and(weight_of_field(field, spans));
    }
    total
}
