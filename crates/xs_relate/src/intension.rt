//! `intension`: an expression that is to hold.

ghost use Rattle.std.specs.Prelude.{true, None, ◌≡◌, ◌≤◌, IfOk};
ghost use Rattle.xs_fields.specs.Conditions.{IsOrMemory, answer, first_missed};
ghost use Rattle.xs_model.specs.Accepted.{IsFormed, is_built, items_of};
ghost use Rattle.xs_model.specs.Outline.{variables_in};
ghost use Rattle.xs_model.specs.declared.instance.Constraint.TheVariants.{Intension};
ghost use Rattle.xs_notation.specs.Reading.{counted_expr_meets, expr_at};
ghost use Rattle.xs_relate.specs.Intension.{intension_meets, intension_of};

use crate::unit::{judge_unit, text_or_none};
use std::alloc::Global;
use xf_num::NoMemory;
use xf_text::FieldStop;
use xs_fields::{Reading, earlier};
use xs_model::{Concrete, Constraint, Names};
use xs_notation::scan_expr;
use xs_parts::{answered, are_parts_shallow, one_text};

// The constraint of an expression, and what its text misses first.
fn scan_expression(
    alloc: Global,
    text: &[u8],
    names: &Names,
    left: u64,
) -> Result<Reading<Constraint>, NoMemory>
    ensures missed { IfOk result (λ r. r.missed ≡ first_missed (counted_expr_meets names.now text.now left)) }
    ensures value { IfOk result (λ r. r.missed ≡ None → r.value ≡ Intension (expr_at names.now text.now)) }
    ensures formed { IfOk result (λ r. r.missed ≡ None → IsFormed (variables_in names.now) r.value) }
    ensures few { IfOk result (λ r. r.missed ≡ None → items_of r.value ≤ left) }
    ensures built { IfOk result (λ r. is_built r.value ≡ true) }
{
    let Reading { value, missed } = scan_expr(alloc, text, names, left)?;
    Ok(Reading {
        value: Constraint::Intension { expr: value },
        missed,
    })
}

/// The constraint of an `intension`, whose expression is its text or that of a `function` child, where at most `left`
/// items may still come, one for each node. Else the kind of fault of the first condition that it misses, or want of
/// memory.
pub fn read_intension(
    alloc: Global,
    c: &Concrete,
    names: &Names,
    left: u64,
) -> Result<Constraint, FieldStop>
    ensures value { IsOrMemory result (answer (intension_meets names.now left c.now) (intension_of names.now c.now)) }
    ensures formed { IfOk result (λ x. IsFormed (variables_in names.now) x) }
    ensures few { IfOk result (λ x. items_of x ≤ left) }
    ensures built { IfOk result (λ x. is_built x ≡ true) }
{
    let parts = c.parts.as_slice();
    let text = one_text(parts, b"function");
    let unit = judge_unit(are_parts_shallow(parts), text);
    let reading = scan_expression(alloc, text_or_none(text), names, left)?;
    answered(earlier(unit, reading.missed), reading.value)
}
