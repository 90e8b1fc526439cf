//! A list and its table.

ghost use Rattle.std.specs.Prelude.{◌≡◌, ◌+◌, ◌*◌, ◌&&◌, ◌||◌, nat_eq, nat_le, nat_lt, length, map};
ghost use Rattle.std.specs.List.{list_all};
ghost use Rattle.xs_fields.specs.Cells.{vars_of};
ghost use Rattle.xs_fields.specs.Conditions.{IsOrMemory, answer};
ghost use Rattle.xs_fields.specs.Lists.{pieces_of};
ghost use Rattle.xs_model.specs.Formed.{total};
ghost use Rattle.xs_model.specs.declared.instance.Constraint.TheVariants.{Extension};
ghost use Rattle.xs_tables.specs.Tables.{range_table_meets, ranged, table_meets, table_of, tuple_table_meets};
ghost use Rattle.xs_tables.specs.Tuples.{tuples_of};

use crate::groups::inner;
use crate::sizes::{are_few, are_long, judge_sizes};
use crate::tuples::{Tuples, scan_tuples};
use std::alloc::Global;
use xf_num::{Row, Spans, Vars};
use xf_text::FieldStop;
use xs_fields::{earlier, scan_pieces, scan_vars};
use xs_model::{Constraint, Names};
use xs_parts::answered;

// Whether a list and tuples have no more items than are left.
fn are_tuples_few(list: &Vars, tuples: &Tuples, left: u64) -> bool
    ensures { result ≡ nat_le (length list.now + total (map length tuples.now)) left }
{
    let len = list.len() as u64;
    len <= left && are_few(tuples.as_slice(), left - len)
}

// Whether the list is not empty, and each tuple is as long.
fn tuples_fit(list: &Vars, tuples: &Tuples) -> bool
    ensures { result ≡ (nat_lt 0 (length list.now) && list_all (λ t. nat_eq (length t) (length list.now)) tuples.now) }
{
    let len = list.len();
    0 < len && are_long(tuples.as_slice(), len)
}

// Whether a list and ranges have no more items than are left.
fn are_ranges_few(list: &Vars, spans: &Spans, left: u64) -> bool
    ensures { result ≡ nat_le (length list.now + 2 * length spans.now) left }
{
    list.len() as u128 + 2 * spans.len() as u128 <= u128::from(left)
}

// Whether there is one variable, or more and no range.
fn ranges_fit(list: &Vars, spans: &Spans) -> bool
    ensures { result ≡ (nat_lt 0 (length list.now) && (nat_eq (length list.now) 1 || nat_eq (length spans.now) 0)) }
{
    let len = list.len();
    0 < len && (len == 1 || spans.len() == 0)
}

/// The constraint of a list and a table of tuples, or the kind of fault of the first condition that they miss.
fn read_tuples(
    alloc: Global,
    list: &[u8],
    text: &[u8],
    positive: bool,
    names: &Names,
    left: u64,
) -> Result<Constraint, FieldStop>
    ensures value { IsOrMemory result (answer (tuple_table_meets names.now left list.now text.now) (Extension (vars_of names.now list.now) (tuples_of text.now) positive)) }
{
    let list = scan_vars(alloc, list, names, left)?;
    let tuples = scan_tuples(alloc, text, left)?;
    match earlier(list.missed, tuples.missed) {
        Some(missed) => Err(FieldStop::Refused(missed.kind())),
        None => {
            let few = are_tuples_few(&list.value, &tuples.value, left);
            let fits = tuples_fit(&list.value, &tuples.value);
            answered(
                judge_sizes(few, fits),
                Constraint::Extension {
                    list: list.value,
                    tuples: tuples.value,
                    positive,
                },
            )
        }
    }
}

// One variable with ranges; an empty table over more variables.
fn ranged(alloc: Global, positive: bool, list: Vars, spans: Spans) -> Constraint
    ensures { result ≡ ranged positive list spans }
{
    match list.as_slice() {
        [var] => Constraint::Unary {
            var: *var,
            spans,
            positive,
        },
        _ => Constraint::Extension {
            list,
            tuples: Row::new(alloc),
            positive,
        },
    }
}

/// The constraint of a list and of integers and ranges, or the kind of fault of the first condition that they miss.
fn read_ranges(
    alloc: Global,
    list: &[u8],
    text: &[u8],
    positive: bool,
    names: &Names,
    left: u64,
) -> Result<Constraint, FieldStop>
    ensures value { IsOrMemory result (answer (range_table_meets names.now left list.now text.now) (ranged positive (vars_of names.now list.now) (pieces_of text.now))) }
{
    let list = scan_vars(alloc, list, names, left)?;
    let spans = scan_pieces(alloc, text)?;
    match earlier(list.missed, spans.missed) {
        Some(missed) => Err(FieldStop::Refused(missed.kind())),
        None => {
            let few = are_ranges_few(&list.value, &spans.value, left);
            let fits = ranges_fit(&list.value, &spans.value);
            answered(
                judge_sizes(few, fits),
                ranged(alloc, positive, list.value, spans.value),
            )
        }
    }
}

/// The constraint of a list and a table, where at most `left` items may still come. Else the kind of fault of the first
/// condition that they miss, or want of memory.
pub(crate) fn read_table(
    alloc: Global,
    list: &[u8],
    text: &[u8],
    positive: bool,
    names: &Names,
    left: u64,
) -> Result<Constraint, FieldStop>
    ensures value { IsOrMemory result (answer (table_meets names.now left list.now text.now) (table_of names.now list.now text.now positive)) }
{
    if inner(text).is_some() {
        read_tuples(alloc, list, text, positive, names, left)
    } else {
        read_ranges(alloc, list, text, positive, names, left)
    }
}
