//! `lex` over lists and over a matrix.

ghost use Rattle.std.specs.Prelude.{◌≡◌, ◌↔◌, ◌<◌, ◌+◌, ◌-◌, ◌^◌, ◌&&◌, suc, true, length};
ghost use Rattle.std.specs.List.{AllByRecursion};
ghost use Rattle.xs_compared.specs.Tests.{all_below, all_next, in_order, is_lower, passes_next};
ghost use Rattle.xs_model.specs.Comparing.{IsLexMatrix, IsLexOrdered};
ghost use Rattle.xs_model.specs.Fitting.{HaveLength};
ghost use Rattle.xs_model.specs.Instance.{rows_of, values};
ghost use Rattle.xs_model.specs.Lists.{column, width};
ghost use Rattle.xs_testing.specs.Rows.{AreBelow, HasPlace};

use xf_num::Vars;
use xs_model::Rel;
use xs_testing::{cell, width};

// Whether the first list has the lesser value at the first place where they differ.
fn is_lower(first: &[u32], second: &[u32], a: &[i128]) -> bool
    requires first { AreBelow (length a.now) first.now }
    requires second { AreBelow (length a.now) second.now }
    ensures { result ≡ is_lower (values a.now first.now) (values a.now second.now) }
{
    let mut ones = first;
    let mut others = second;
    while let Some((one, ones_left)) = ones.split_first() {
        match others.split_first() {
            None => return false,
            Some((other, others_left)) => {
                let (x, y) = (a[*one as usize], a[*other as usize]);
                if x != y {
                    return x < y;
                }
                ones = ones_left;
                others = others_left;
            }
        }
    }
    false
}

// Whether two lists are in order.
fn in_order(rel: Rel, first: &[u32], second: &[u32], a: &[i128]) -> bool
    requires first { AreBelow (length a.now) first.now }
    requires second { AreBelow (length a.now) second.now }
    ensures { result ≡ in_order rel (values a.now first.now) (values a.now second.now) }
{
    match rel {
        Rel::Lt => is_lower(first, second, a),
        Rel::Le => !is_lower(second, first, a),
        Rel::Ge => !is_lower(first, second, a),
        Rel::Gt => is_lower(second, first, a),
    }
}

// Whether a list and the next are in order, where there is one.
fn is_next(rel: Rel, list: &[u32], behind: &[Vars], a: &[i128]) -> bool
    requires list { AreBelow (length a.now) list.now }
    requires behind { AllByRecursion (AreBelow (length a.now)) behind.now }
    ensures { result ≡ passes_next (in_order rel) (values a.now list.now) (rows_of a.now behind.now) }
{
    match behind.split_first() {
        None => true,
        Some((next, _)) => in_order(rel, list, next.as_slice(), a),
    }
}

// Whether each list and the next are in order.
fn are_rows_in_order(rel: Rel, lists: &[Vars], a: &[i128]) -> bool
    requires { AllByRecursion (AreBelow (length a.now)) lists.now }
    ensures { result ≡ all_next (in_order rel) (rows_of a.now lists.now) }
{
    let mut rest = lists;
    while let Some((list, behind)) = rest.split_first() {
        if !is_next(rel, list.as_slice(), behind, a) {
            return false;
        }
        rest = behind;
    }
    true
}

/// Whether consecutive lists are in lexicographic order. Takes no memory.
///
/// Asks that they are equally long, and that each of their variables has a value.
pub fn holds_lex(rel: Rel, lists: &[Vars], a: &[i128]) -> bool
    requires even { HaveLength (width lists.now) lists.now }
    requires valued { AllByRecursion (AreBelow (length a.now)) lists.now }
    ensures { (result ≡ true) ↔ IsLexOrdered rel (rows_of a.now lists.now) }
{
    are_rows_in_order(rel, lists, a)
}

// Whether the first column has the lesser value in the first row where they differ.
fn is_column_lower(rows: &[Vars], first: usize, second: usize, a: &[i128]) -> bool
    requires first { AllByRecursion (HasPlace first) rows.now }
    requires second { AllByRecursion (HasPlace second) rows.now }
    requires valued { AllByRecursion (AreBelow (length a.now)) rows.now }
    ensures { result ≡ is_lower (column (rows_of a.now rows.now) first) (column (rows_of a.now rows.now) second) }
{
    for row in rows {
        let x = cell(row.as_slice(), first, a);
        let y = cell(row.as_slice(), second, a);
        if x != y {
            return x < y;
        }
    }
    false
}

// Whether a column and the next are in order.
fn is_column_in_order(rel: Rel, rows: &[Vars], place: usize, a: &[i128]) -> bool
    requires fits { place + 1 < 2 ^ 64 }
    requires first { AllByRecursion (HasPlace place) rows.now }
    requires second { AllByRecursion (HasPlace (suc place)) rows.now }
    requires valued { AllByRecursion (AreBelow (length a.now)) rows.now }
    ensures { result ≡ in_order rel (column (rows_of a.now rows.now) place) (column (rows_of a.now rows.now) (suc place)) }
{
    let next = place + 1;
    match rel {
        Rel::Lt => is_column_lower(rows, place, next, a),
        Rel::Le => !is_column_lower(rows, next, place, a),
        Rel::Ge => !is_column_lower(rows, place, next, a),
        Rel::Gt => is_column_lower(rows, next, place, a),
    }
}

// Whether each column and the next are in order.
fn are_columns_in_order(rel: &Rel, rows: &[Vars], a: &[i128]) -> bool
    requires even { HaveLength (width rows.now) rows.now }
    requires valued { AllByRecursion (AreBelow (length a.now)) rows.now }
    ensures { result ≡ all_below (λ j. in_order rel.now (column (rows_of a.now rows.now) j) (column (rows_of a.now rows.now) (suc j))) (width rows.now - 1) }
{
    let mut left = width(rows).saturating_sub(1);
    while left > 0 {
        left -= 1;
        if !is_column_in_order(*rel, rows, left, a) {
            return false;
        }
    }
    true
}

// Whether the rows are in order, and the columns are.
fn are_lines_in_order(rel: Rel, rows: &[Vars], a: &[i128]) -> bool
    requires even { HaveLength (width rows.now) rows.now }
    requires valued { AllByRecursion (AreBelow (length a.now)) rows.now }
    ensures { result ≡ (all_next (in_order rel) (rows_of a.now rows.now) && all_below (λ j. in_order rel (column (rows_of a.now rows.now) j) (column (rows_of a.now rows.now) (suc j))) (width rows.now - 1)) }
{
    are_rows_in_order(rel, rows, a) && are_columns_in_order(&rel, rows, a)
}

/// Whether the rows of a matrix are in lexicographic order, and so are its columns. Takes no memory.
///
/// Asks that its rows are equally long, and that each of its variables has a value.
pub fn holds_lex_matrix(rel: Rel, rows: &[Vars], a: &[i128]) -> bool
    requires even { HaveLength (width rows.now) rows.now }
    requires valued { AllByRecursion (AreBelow (length a.now)) rows.now }
    ensures { (result ≡ true) ↔ IsLexMatrix rel (rows_of a.now rows.now) }
{
    are_lines_in_order(rel, rows, a)
}
