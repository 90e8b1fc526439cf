//! Annotations.

ghost use Rattle.std.specs.Prelude.{◌≡◌, ◌*◌, ◌≤◌, nat_eq, IfOk, SomeIff, Some};
ghost use Rattle.std.specs.Option.{option_map};
ghost use Rattle.xf_num.specs.Span.{width_of};
ghost use Rattle.fz_grammar.specs.declared.tree.Expr.{out-Expr};
ghost use Rattle.fz_model.specs.Sound.{places};
ghost use Rattle.fz_items.specs.Notes.{args_small, notes_small, is_output_var, is_shown, span_step, spans_of, dims_step, dims_in, dims_of, shown_as};

use fz_grammar::{Expr, Note};
use fz_values::{are_all_small, int_of};
use std::alloc::Global;
use xf_num::{NoMemory, Row, Span, Spans};

fn args_small(args: &Option<Row<Expr>>) -> bool
    ensures { result ≡ args_small args.now }
{
    match args {
        Some(items) => are_all_small(items.as_slice()),
        None => true,
    }
}

/// Whether the magnitude of each integer of the annotations is at most 2^126 - 1.
pub fn notes_small(notes: &[Note]) -> bool
    ensures { result ≡ notes_small notes.now }
{
    for note in notes {
        if !args_small(&note.args) {
            return false;
        }
    }
    true
}

fn is_output_var(note: &Note) -> bool
    ensures { result ≡ is_output_var note.now }
{
    note.name.as_slice() == b"output_var".as_slice() && note.args.is_none()
}

/// Whether one of the annotations is `output_var`.
pub fn is_shown(notes: &[Note]) -> bool
    ensures { result ≡ is_shown notes.now }
{
    for note in notes {
        if is_output_var(note) {
            return true;
        }
    }
    false
}

// The range, where it is one from a lesser to a greater integer.
fn span_in(expr: &Expr) -> Option<Span>
    ensures { result ≡ span_step (out-Expr expr.now) }
{
    match expr {
        Expr::Range(low, high) => Span::new(int_of(low.as_slice()), int_of(high.as_slice())),
        _ => None,
    }
}

// The ranges, where each is one.
fn spans_of(alloc: Global, items: &[Expr]) -> Result<Option<Spans>, NoMemory>
    ensures { IfOk result (λ r. r ≡ spans_of items.now) }
{
    let mut spans = Row::new(alloc);
    for item in items {
        match span_in(item) {
            Some(span) => spans.push(span)?,
            None => return Ok(None),
        }
    }
    Ok(Some(spans))
}

fn dims_in_expr(alloc: Global, expr: &Expr) -> Result<Option<Spans>, NoMemory>
    ensures { IfOk result (λ r. r ≡ dims_step (out-Expr expr.now)) }
{
    match expr {
        Expr::List(items) => {
            if items.is_empty() {
                Ok(None)
            } else {
                spans_of(alloc, items.as_slice())
            }
        }
        _ => Ok(None),
    }
}

fn dims_in_args(alloc: Global, args: &[Expr]) -> Result<Option<Spans>, NoMemory>
    ensures { IfOk result (λ r. r ≡ dims_in (Some args.now)) }
{
    match args {
        [expr] => dims_in_expr(alloc, expr),
        _ => Ok(None),
    }
}

fn dims_in(alloc: Global, args: &Option<Row<Expr>>) -> Result<Option<Spans>, NoMemory>
    ensures { IfOk result (λ r. r ≡ dims_in args.now) }
{
    match args {
        Some(items) => dims_in_args(alloc, items.as_slice()),
        None => Ok(None),
    }
}

fn dims_of(alloc: Global, note: &Note) -> Result<Option<Spans>, NoMemory>
    ensures { IfOk result (λ r. r ≡ dims_of note.now) }
{
    if note.name.as_slice() == b"output_array".as_slice() {
        dims_in(alloc, &note.args)
    } else {
        Ok(None)
    }
}

/// The dimensions by which an array is shown.
pub fn shown_as(alloc: Global, notes: &[Note]) -> Result<Option<Spans>, NoMemory>
    ensures { IfOk result (λ r. r ≡ shown_as notes.now) }
{
    for note in notes {
        let dims = dims_of(alloc, note)?;
        if dims.is_some() {
            return Ok(dims);
        }
    }
    Ok(None)
}

// The product with the width of one more range, where it is at most the limit.
fn next_product(product: u64, span: Span, limit: u64) -> Option<u64>
    requires { 1 ≤ product }
    ensures { SomeIff result (product * width_of span ≤ limit) (product * width_of span) }
{
    match span.values_at_most(limit) {
        Some(width) => match product.checked_mul(width) {
            Some(more) if more <= limit => Some(more),
            _ => None,
        },
        None => None,
    }
}

/// Whether the ranges have so many places.
pub fn has_places(dims: &[Span], count: u64) -> bool
    ensures { result ≡ nat_eq (places dims.now) count }
{
    let mut product = 1;
    for span in dims {
        match next_product(product, *span, count) {
            Some(more) => product = more,
            None => return false,
        }
    }
    product == count
}
