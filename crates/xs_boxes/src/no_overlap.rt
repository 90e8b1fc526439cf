//! `noOverlap` as a whole.

ghost use Rattle.std.specs.Prelude.{◌≡◌, ◌≤◌, IfOk};
ghost use Rattle.xs_boxes.specs.NoOverlap.{given_denote, given_meet, is_zero_ignored, no_overlap_meets, no_overlap_of, texts_in};
ghost use Rattle.xs_fields.specs.Conditions.{IsOrMemory, answer};
ghost use Rattle.xs_model.specs.Accepted.{IsFormed, items_of};
ghost use Rattle.xs_model.specs.Outline.{variables_in};

use crate::boxes::read_boxes;
use std::alloc::Global;
use xf_text::{FieldStop, Kind};
use xs_conditions::scan_flag;
use xs_model::{Concrete, Constraint, Names, Part};
use xs_parts::value_among;
use xs_tables::two_texts;

// Whether a box with a length of 0 is passed over.
fn is_zero_ignored(c: &Concrete) -> bool
    ensures { result ≡ is_zero_ignored c.now }
{
    scan_flag(value_among(c.attrs.as_slice(), b"zeroIgnored"), true).value
}

// The constraint of the two texts, or the kind of fault of the first condition that is missed.
fn read_parts(
    alloc: Global,
    parts: &[Part],
    zero_ignored: bool,
    names: &Names,
    left: u64,
) -> Result<Constraint, FieldStop>
    ensures { IsOrMemory result (answer (given_meet names.now left (texts_in parts.now)) (given_denote names.now zero_ignored (texts_in parts.now))) }
{
    match two_texts(parts, b"origins", b"lengths") {
        Some((origins, lengths)) => {
            read_boxes(alloc, origins, lengths, zero_ignored, names, left)
        }
        None => Err(FieldStop::Refused(Kind::Shape)),
    }
}

// The constraint, or the kind of fault of the first condition that it misses.
fn read_form(alloc: Global, c: &Concrete, names: &Names, left: u64) -> Result<Constraint, FieldStop>
    ensures { IsOrMemory result (answer (no_overlap_meets names.now left c.now) (no_overlap_of names.now c.now)) }
{
    let zero_ignored = is_zero_ignored(c);
    read_parts(alloc, c.parts.as_slice(), zero_ignored, names, left)
}

/// The constraint of a `noOverlap`, its `origins` and its `lengths`, where at most `left` items may still come: one for each
/// origin and each length. Else the kind of fault of the first condition that it misses, or want of memory. A fault of shape
/// is that the two texts are not there or not spelt right, that a list stands beside tuples or tuples differ in length, and,
/// after all other faults, that there are not as many lengths as origins.
pub fn read_no_overlap(
    alloc: Global,
    c: &Concrete,
    names: &Names,
    left: u64,
) -> Result<Constraint, FieldStop>
    ensures value { IsOrMemory result (answer (no_overlap_meets names.now left c.now) (no_overlap_of names.now c.now)) }
    ensures formed { IfOk result (λ x. IsFormed (variables_in names.now) x) }
    ensures few { IfOk result (λ x. items_of x ≤ left) }
{
    read_form(alloc, c, names, left)
}
