//! The boxes that two texts denote.

ghost use Rattle.std.specs.Prelude.{◌≡◌, ◌||◌, None, IfOk, map};
ghost use Rattle.xs_boxes.specs.Boxes.{boxes_meet, is_tupled, lengths_of, lists_meet, one_each, origins_of, rows_meet, texts_meet, tuples_meet};
ghost use Rattle.xs_boxes.specs.Tuples.{length_of, origin_of};
ghost use Rattle.xs_fields.specs.Cells.{vars_of};
ghost use Rattle.xs_fields.specs.Conditions.{IsOrMemory, answer, first_missed};
ghost use Rattle.xs_fields.specs.Terms.{terms_of};
ghost use Rattle.xs_model.specs.declared.instance.Constraint.TheVariants.{NoOverlap};
ghost use Rattle.xs_tables.specs.Groups.{groups_of};

use crate::lengths::scan_lengths;
use crate::origins::scan_origins;
use crate::rows::{are_few, one_each_term, one_each_variable};
use crate::widths::judge_widths;
use std::alloc::Global;
use xf_num::{NoMemory, Row, Vars};
use xf_text::FieldStop;
use xs_fields::{Condition, Reading, earlier, scan_terms, scan_vars};
use xs_model::{Constraint, Names, Terms};
use xs_parts::answered;
use xs_tables::{inner, judge_sizes};

// Boxes: a row of origins and a row of lengths for each.
#[derive(Drop)]
struct Boxes {
    origins: Row<Vars>,
    lengths: Row<Terms>,
}

// The boxes of two texts of tuples, and the first condition that the texts miss.
fn scan_tuples(
    alloc: Global,
    origins: &[u8],
    lengths: &[u8],
    names: &Names,
    left: u64,
) -> Result<Reading<Boxes>, NoMemory>
    ensures missed { IfOk result (λ r. r.missed ≡ first_missed (tuples_meet names.now left origins.now lengths.now)) }
    ensures origins { IfOk result (λ r. r.missed ≡ None → r.value.origins ≡ map (origin_of names.now) (groups_of origins.now)) }
    ensures lengths { IfOk result (λ r. r.missed ≡ None → r.value.lengths ≡ map (length_of names.now) (groups_of lengths.now)) }
{
    let uneven = judge_widths(origins, lengths);
    let first = scan_origins(alloc, origins, names, left)?;
    let second = scan_lengths(alloc, lengths, names, left)?;
    let missed = earlier(first.missed, second.missed);
    Ok(Reading {
        value: Boxes {
            origins: first.value,
            lengths: second.value,
        },
        missed: earlier(uneven, missed),
    })
}

// The boxes of two lists, of one dimension each, and the first condition that the texts miss.
fn scan_lists(
    alloc: Global,
    origins: &[u8],
    lengths: &[u8],
    names: &Names,
    left: u64,
) -> Result<Reading<Boxes>, NoMemory>
    ensures missed { IfOk result (λ r. r.missed ≡ first_missed (lists_meet names.now left origins.now lengths.now)) }
    ensures origins { IfOk result (λ r. r.missed ≡ None → r.value.origins ≡ one_each (vars_of names.now origins.now)) }
    ensures lengths { IfOk result (λ r. r.missed ≡ None → r.value.lengths ≡ one_each (terms_of names.now lengths.now)) }
{
    let list = scan_vars(alloc, origins, names, left)?;
    let terms = scan_terms(alloc, lengths, names, left)?;
    let first = one_each_variable(alloc, list.value.as_slice())?;
    let second = one_each_term(alloc, terms.value.as_slice())?;
    Ok(Reading {
        value: Boxes {
            origins: first,
            lengths: second,
        },
        missed: earlier(list.missed, terms.missed),
    })
}

// Whether one of the texts begins with `(`.
fn is_tupled(origins: &[u8], lengths: &[u8]) -> bool
    ensures { result ≡ is_tupled origins.now lengths.now }
{
    inner(origins).is_some() || inner(lengths).is_some()
}

// The boxes of two texts, and the first condition that the texts miss.
fn scan_boxes(
    alloc: Global,
    origins: &[u8],
    lengths: &[u8],
    names: &Names,
    left: u64,
) -> Result<Reading<Boxes>, NoMemory>
    ensures missed { IfOk result (λ r. r.missed ≡ first_missed (texts_meet names.now left origins.now lengths.now)) }
    ensures origins { IfOk result (λ r. r.missed ≡ None → r.value.origins ≡ origins_of names.now origins.now lengths.now) }
    ensures lengths { IfOk result (λ r. r.missed ≡ None → r.value.lengths ≡ lengths_of names.now origins.now lengths.now) }
{
    if is_tupled(origins, lengths) {
        scan_tuples(alloc, origins, lengths, names, left)
    } else {
        scan_lists(alloc, origins, lengths, names, left)
    }
}

// What boxes miss first: no more items than are left, and as many lengths as origins.
fn judge_rows(boxes: &Boxes, left: u64) -> Option<Condition>
    ensures { result ≡ first_missed (rows_meet left boxes.now.origins boxes.now.lengths) }
{
    let few = are_few(boxes.origins.as_slice(), boxes.lengths.as_slice(), left);
    judge_sizes(few, boxes.lengths.len() == boxes.origins.len())
}

/// The constraint of two texts, where at most `left` items may still come. Else the kind of fault of the first condition
/// that they miss, or want of memory.
pub(crate) fn read_boxes(
    alloc: Global,
    origins: &[u8],
    lengths: &[u8],
    zero_ignored: bool,
    names: &Names,
    left: u64,
) -> Result<Constraint, FieldStop>
    ensures { IsOrMemory result (answer (boxes_meet names.now left origins.now lengths.now) (NoOverlap (origins_of names.now origins.now lengths.now) (lengths_of names.now origins.now lengths.now) zero_ignored)) }
{
    let reading = scan_boxes(alloc, origins, lengths, names, left)?;
    match reading.missed {
        Some(missed) => Err(FieldStop::Refused(missed.kind())),
        None => {
            let missed = judge_rows(&reading.value, left);
            answered(
                missed,
                Constraint::NoOverlap {
                    origins: reading.value.origins,
                    lengths: reading.value.lengths,
                    zero_ignored,
                },
            )
        }
    }
}
