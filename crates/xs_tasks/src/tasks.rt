//! A `cumulative` as a whole.

ghost use Rattle.std.specs.Prelude.{◌≡◌, ◌≤◌, None, IfOk};
ghost use Rattle.std.specs.Option.{option_map};
ghost use Rattle.xs_fields.specs.Conditions.{IsOrMemory, answer, first_missed};
ghost use Rattle.xs_model.specs.Accepted.{IsFormed, items_of};
ghost use Rattle.xs_model.specs.Outline.{variables_in};
ghost use Rattle.xs_tasks.specs.Sizes.{first_or};
ghost use Rattle.xs_tasks.specs.Tasks.{cumulative_meets, cumulative_of, ends_meet, ends_of, tasks_meet, tasks_of};

use crate::children::{are_children, child_text};
use crate::limit::scan_limit;
use crate::sizes::judge_tasks;
use std::alloc::Global;
use xf_num::{NoMemory, Vars};
use xf_text::FieldStop;
use xs_fields::{Condition, Reading, earlier, scan_terms, scan_vars};
use xs_model::{Concrete, Constraint, Names, Part};
use xs_parts::answered;
use xs_tables::text_in;
use xs_var::judge_spelling;

// The ends, where they are given, and what their text misses first.
fn scan_ends(
    alloc: Global,
    text: Option<&[u8]>,
    names: &Names,
    left: u64,
) -> Result<Reading<Option<Vars>>, NoMemory>
    ensures missed { IfOk result (λ r. r.missed ≡ first_missed (ends_meet names.now left (option_map (λ x. x.now) text.entry))) }
    ensures value { IfOk result (λ r. r.missed ≡ None → r.value ≡ ends_of names.now (option_map (λ x. x.now) text.entry)) }
{
    match text {
        Some(text) => {
            let ends = scan_vars(alloc, text, names, left)?;
            Ok(Reading {
                value: Some(ends.value),
                missed: ends.missed,
            })
        }
        None => Ok(Reading {
            value: None,
            missed: None,
        }),
    }
}

// What is missed of texts, and where they miss nothing, of counts and lengths.
fn first_or(texts: Option<Condition>, sizes: Option<Condition>) -> Option<Condition>
    ensures { result ≡ first_or texts sizes }
{
    match texts {
        Some(missed) => Some(missed),
        None => sizes,
    }
}

// The constraint of the texts, and what texts, counts and lengths miss first.
fn scan_tasks(
    alloc: Global,
    parts: &[Part],
    names: &Names,
    left: u64,
) -> Result<Reading<Constraint>, NoMemory>
    ensures missed { IfOk result (λ r. r.missed ≡ first_missed (tasks_meet names.now left parts.now)) }
    ensures value { IfOk result (λ r. r.missed ≡ None → r.value ≡ tasks_of names.now parts.now) }
{
    let origins = scan_vars(alloc, child_text(parts, b"origins"), names, left)?;
    let lengths = scan_terms(alloc, child_text(parts, b"lengths"), names, left)?;
    let heights = scan_terms(alloc, child_text(parts, b"heights"), names, left)?;
    let ends = scan_ends(alloc, text_in(parts, b"ends"), names, left)?;
    let cond = scan_limit(alloc, child_text(parts, b"condition"), names, left)?;
    let starts = earlier(origins.missed, lengths.missed);
    let rest = earlier(earlier(heights.missed, ends.missed), cond.missed);
    let sizes = judge_tasks(
        &origins.value,
        &lengths.value,
        &heights.value,
        &ends.value,
        &cond.value,
        left,
    );
    Ok(Reading {
        value: Constraint::Cumulative {
            origins: origins.value,
            lengths: lengths.value,
            heights: heights.value,
            ends: ends.value,
            cond: cond.value,
        },
        missed: first_or(earlier(starts, rest), sizes),
    })
}

// The constraint, or the kind of fault of the first condition that is missed.
fn read_parts(
    alloc: Global,
    c: &Concrete,
    names: &Names,
    left: u64,
) -> Result<Constraint, FieldStop>
    ensures { IsOrMemory result (answer (cumulative_meets names.now left c.now) (cumulative_of names.now c.now)) }
{
    let parts = c.parts.as_slice();
    let spelt = judge_spelling(are_children(parts));
    let reading = scan_tasks(alloc, parts, names, left)?;
    answered(earlier(spelt, reading.missed), reading.value)
}

/// The constraint of a `cumulative`, with `origins`, `lengths`, `heights`, `ends` or none, and a `condition` of operator
/// `lt` or `le`, where at most `left` items may still come: one for each origin, length, height and end, and one for the
/// operand. Else the kind of fault of the first condition that it misses, or want of memory.
pub fn read_cumulative(
    alloc: Global,
    c: &Concrete,
    names: &Names,
    left: u64,
) -> Result<Constraint, FieldStop>
    ensures value { IsOrMemory result (answer (cumulative_meets names.now left c.now) (cumulative_of names.now c.now)) }
    ensures formed { IfOk result (λ x. IsFormed (variables_in names.now) x) }
    ensures few { IfOk result (λ x. items_of x ≤ left) }
{
    read_parts(alloc, c, names, left)
}
