//! `allDifferent` over one list.

ghost use Rattle.std.specs.Prelude.{true, None, [], ◌≡◌, ◌≤◌, IfOk};
ghost use Rattle.xs_fields.specs.Cells.{vars_meet, vars_of};
ghost use Rattle.xs_fields.specs.Conditions.{IsOrMemory, answer, first_missed};
ghost use Rattle.xs_model.specs.Accepted.{IsFormed, is_built, items_of};
ghost use Rattle.xs_model.specs.Outline.{variables_in};
ghost use Rattle.xs_model.specs.declared.instance.Constraint.TheVariants.{AllDifferent};
ghost use Rattle.xs_relate.specs.Different.{different_meets, different_of};

use crate::unit::{judge_unit, text_or_none};
use std::alloc::Global;
use xf_num::{NoMemory, Row};
use xf_text::FieldStop;
use xs_fields::{Reading, earlier, scan_vars};
use xs_model::{Concrete, Constraint, Names};
use xs_parts::{answered, are_words_shallow, one_text, text_of_one};

// The constraint of a list, and what the list misses first.
fn scan_list(
    alloc: Global,
    text: &[u8],
    names: &Names,
    left: u64,
) -> Result<Reading<Constraint>, NoMemory>
    ensures missed { IfOk result (λ r. r.missed ≡ first_missed (vars_meet names.now text.now left)) }
    ensures value { IfOk result (λ r. r.missed ≡ None → r.value ≡ AllDifferent (vars_of names.now text.now) []) }
    ensures formed { IfOk result (λ r. r.missed ≡ None → IsFormed (variables_in names.now) r.value) }
    ensures few { IfOk result (λ r. r.missed ≡ None → items_of r.value ≤ left) }
    ensures built { IfOk result (λ r. is_built r.value ≡ true) }
{
    let list = scan_vars(alloc, text, names, left)?;
    let except = Row::new(alloc);
    Ok(Reading {
        value: Constraint::AllDifferent {
            list: list.value,
            except,
        },
        missed: list.missed,
    })
}

/// The constraint of an `allDifferent` over one list, as its text or as a `list` child, where at most `left` items
/// may still come. Else the kind of fault of the first condition that it misses, or want of memory.
pub fn read_different(
    alloc: Global,
    c: &Concrete,
    names: &Names,
    left: u64,
) -> Result<Constraint, FieldStop>
    ensures value { IsOrMemory result (answer (different_meets names.now left c.now) (different_of names.now c.now)) }
    ensures formed { IfOk result (λ x. IsFormed (variables_in names.now) x) }
    ensures few { IfOk result (λ x. items_of x ≤ left) }
    ensures built { IfOk result (λ x. is_built x ≡ true) }
{
    let parts = c.parts.as_slice();
    let text = one_text(parts, b"list");
    let unit = judge_unit(are_words_shallow(text_of_one(parts, b"list")), text);
    let reading = scan_list(alloc, text_or_none(text), names, left)?;
    answered(earlier(unit, reading.missed), reading.value)
}
