//! How many items constraints have.

ghost use Rattle.std.specs.Prelude.{◌≡◌, ◌+◌, ◌<◌, ◌^◌, length, map};
ghost use Rattle.std.specs.List.{flat_map};
ghost use Rattle.xs_model.specs.Fields.{edge_items, end_items, entries, members, occurrence_items, terms};
ghost use Rattle.xs_model.specs.Formed.{count_in, items_of, nodes, nodes_of, total};
ghost use Rattle.xs_forms.specs.Seen.{items_seen};

use crate::borrowed::{FieldView, fields};
use xf_num::{Row, Span, Vars};
use xs_model::{Constraint, Edge, Expr, Occurrence, Term, Terms, Tuple};

/// How many items a constraint has: one for each list member, each integer, variable and state beside the lists and
/// each node of its expression, two for each range, and three for each transition.
///
/// Asks that there are fewer than 2^64.
pub fn count_items(constraint: &Constraint) -> u64
    requires { items_of constraint.now < 2 ^ 64 }
    ensures { result ≡ items_of constraint.now }
{
    count_fields(&fields(constraint))
}

fn count_fields(fields: &[FieldView<'_>]) -> u64
    requires { total (map items_seen fields.now) < 2 ^ 64 }
    ensures { result ≡ total (map items_seen fields.now) }
{
    let mut count = 0;
    for field in fields {
        count += count_field(field);
    }
    count
}

// How many items a field has, or the fields that it stands for.
fn count_field(field: &FieldView<'_>) -> u64
    requires { items_seen field.now < 2 ^ 64 }
    ensures { result ≡ items_seen field.now }
{
    match field {
        FieldView::Nothing => 0,
        FieldView::Members(list) => list.len() as u64,
        FieldView::MemberRows(rows) => count_member_rows(rows),
        FieldView::Terms(list) => list.len() as u64,
        FieldView::TermRows(rows) => count_term_rows(rows),
        FieldView::Integers(list) => list.len() as u64,
        FieldView::Integer(_) => 1,
        FieldView::Variable(_) => 1,
        FieldView::Term(_) => 1,
        FieldView::Ranges(ranges) => count_ranges(ranges),
        FieldView::Range(_) => 2,
        FieldView::Tuples(tuples) => count_tuples(tuples),
        FieldView::Edges(edges) => count_edges(edges),
        FieldView::States(states) => states.len() as u64,
        FieldView::State => 1,
        FieldView::Occurrences(occurrences) => count_occurrences(occurrences),
        FieldView::Expression(expr) => count_nodes(expr),
        FieldView::Products(coeffs, list) => count_products(coeffs, list),
    }
}

fn count_rows<T>(rows: &[Row<T>]) -> u64
    requires { total (map length rows.now) < 2 ^ 64 }
    ensures { result ≡ total (map length rows.now) }
{
    let mut count = 0;
    for row in rows {
        count += row.len() as u64;
    }
    count
}

fn count_member_rows(rows: &[Vars]) -> u64
    requires { count_in (map members rows.now) < 2 ^ 64 }
    ensures { result ≡ count_in (map members rows.now) }
{
    count_rows(rows)
}

fn count_term_rows(rows: &[Terms]) -> u64
    requires { count_in (map terms rows.now) < 2 ^ 64 }
    ensures { result ≡ count_in (map terms rows.now) }
{
    count_rows(rows)
}

fn count_tuples(tuples: &[Tuple]) -> u64
    requires { count_in (map entries tuples.now) < 2 ^ 64 }
    ensures { result ≡ count_in (map entries tuples.now) }
{
    count_rows(tuples)
}

fn count_ranges(ranges: &[Span]) -> u64
    requires { length (flat_map end_items ranges.now) < 2 ^ 64 }
    ensures { result ≡ length (flat_map end_items ranges.now) }
{
    2 * ranges.len() as u64
}

fn count_edges(edges: &[Edge]) -> u64
    requires { length (flat_map edge_items edges.now) < 2 ^ 64 }
    ensures { result ≡ length (flat_map edge_items edges.now) }
{
    3 * edges.len() as u64
}

fn count_products(coeffs: &[Term], list: &[u32]) -> u64
    requires { length coeffs.now + length list.now < 2 ^ 64 }
    ensures { result ≡ length coeffs.now + length list.now }
{
    coeffs.len() as u64 + list.len() as u64
}

fn count_occurrences(occurrences: &[Occurrence]) -> u64
    requires { length (flat_map occurrence_items occurrences.now) < 2 ^ 64 }
    ensures { result ≡ length (flat_map occurrence_items occurrences.now) }
{
    count_each(occurrences)
}

fn count_each(occurrences: &[Occurrence]) -> u64
    requires { total (map (λ o. length (occurrence_items o)) occurrences.now) < 2 ^ 64 }
    ensures { result ≡ total (map (λ o. length (occurrence_items o)) occurrences.now) }
{
    let mut count = 0;
    for occurrence in occurrences {
        count += count_occurrence(*occurrence);
    }
    count
}

fn count_occurrence(occurrence: Occurrence) -> u64
    ensures { result ≡ length (occurrence_items occurrence) }
{
    match occurrence {
        Occurrence::Term(_) => 1,
        Occurrence::Span(_) => 2,
    }
}

// How many nodes an expression has.
#[cycle(count)]
fn count_nodes(expr: &Expr) -> u64
    requires { nodes expr.now < 2 ^ 64 }
    ensures { result ≡ nodes expr.now }
{
    match expr {
        Expr::Int(_) => 1,
        Expr::Var(_) => 1,
        Expr::Node(_, operands) => 1 + count_all(operands.as_slice()),
    }
}

#[cycle(count)]
fn count_all(exprs: &[Expr]) -> u64
    requires { nodes_of exprs.now < 2 ^ 64 }
    ensures { result ≡ nodes_of exprs.now }
{
    let mut total = 0;
    for expr in exprs {
        total += count_nodes(expr);
    }
    total
}
