//! Objectives as a whole.

ghost use Rattle.std.specs.Prelude.{◌≡◌, ◌≤◌, ◌&&◌, None, Some, IfOk};
ghost use Rattle.xs_fields.specs.Cells.{vars_of};
ghost use Rattle.xs_fields.specs.Conditions.{IsOrMemory, answer, answer_on, first_missed};
ghost use Rattle.xs_model.specs.Accepted.{goal_items};
ghost use Rattle.xs_model.specs.Fields.{body_fields};
ghost use Rattle.xs_model.specs.Fitting.{IsFittingBody};
ghost use Rattle.xs_model.specs.Formed.{AreFormed};
ghost use Rattle.xs_model.specs.Outline.{variables_in};
ghost use Rattle.xs_objectives.specs.Lists.{is_one_list, list_meets, list_text};
ghost use Rattle.xs_objectives.specs.Objective.{body_meets, body_of, direction_of, objective_meets, objective_of, type_of, typed_body};
ghost use Rattle.xs_objectives.specs.declared.measure.Measure.TheVariants as measures;
ghost use Rattle.xs_var.specs.Variable.{spelling_meets};

use crate::lists::{is_one_list, is_one_sum, list_text, own_text, scan_list, scan_sum};
use crate::measure::{Measure, measure_of};
use std::alloc::Global;
use xf_num::{NoMemory, Vars};
use xf_text::FieldStop;
use xs_fields::{Condition, Reading, earlier};
use xs_model::{Body, Concrete, Direction, Expr, Names, Objective, Part};
use xs_notation::scan_expr;
use xs_parts::value_among;
use xs_tables::text_in;
use xs_var::judge_spelling;

// The value of the expression in the own text, and what the text misses first.
fn scan_value(
    alloc: Global,
    parts: &[Part],
    names: &Names,
    left: u64,
) -> Result<Reading<Body>, NoMemory>
    ensures missed { IfOk result (λ r. r.missed ≡ first_missed (body_meets names.now left measures.Expression parts.now)) }
    ensures value { IfOk result (λ r. r.missed ≡ None → r.value ≡ body_of names.now measures.Expression parts.now) }
{
    let reading = scan_expr(alloc, own_text(parts), names, left)?;
    Ok(Reading {
        value: Body::Value(reading.value),
        missed: reading.missed,
    })
}

// A sum, and what its parts miss first.
fn scan_weighted(
    alloc: Global,
    parts: &[Part],
    names: &Names,
    left: u64,
) -> Result<Reading<Body>, NoMemory>
    ensures missed { IfOk result (λ r. r.missed ≡ first_missed (body_meets names.now left measures.Sum parts.now)) }
    ensures value { IfOk result (λ r. r.missed ≡ None → r.value ≡ body_of names.now measures.Sum parts.now) }
{
    let spelt = judge_spelling(is_one_sum(parts));
    let reading = scan_sum(
        alloc,
        list_text(parts),
        text_in(parts, b"coeffs"),
        names,
        left,
    )?;
    Ok(Reading {
        value: reading.value,
        missed: earlier(spelt, reading.missed),
    })
}

// The variables of the one list, and what the parts miss first.
fn scan_members(
    alloc: Global,
    parts: &[Part],
    names: &Names,
    left: u64,
    filled: bool,
) -> Result<Reading<Vars>, NoMemory>
    ensures missed { IfOk result (λ r. r.missed ≡ first_missed (λ k. spelling_meets (is_one_list parts.now) k && list_meets names.now left filled (list_text parts.now) k)) }
    ensures value { IfOk result (λ r. r.missed ≡ None → r.value ≡ vars_of names.now (list_text parts.now)) }
{
    let spelt = judge_spelling(is_one_list(parts));
    let list = scan_list(alloc, list_text(parts), names, left, filled)?;
    Ok(Reading {
        value: list.value,
        missed: earlier(spelt, list.missed),
    })
}

// What is to be least or greatest, and what the parts of an objective of this type miss first.
fn scan_body(
    alloc: Global,
    measure: Measure,
    parts: &[Part],
    names: &Names,
    left: u64,
) -> Result<Reading<Body>, NoMemory>
    ensures missed { IfOk result (λ r. r.missed ≡ first_missed (body_meets names.now left measure parts.now)) }
    ensures value { IfOk result (λ r. r.missed ≡ None → r.value ≡ body_of names.now measure parts.now) }
{
    match measure {
        Measure::Expression => scan_value(alloc, parts, names, left),
        Measure::Sum => scan_weighted(alloc, parts, names, left),
        Measure::Minimum => {
            let list = scan_members(alloc, parts, names, left, true)?;
            Ok(Reading {
                value: Body::Least(list.value),
                missed: list.missed,
            })
        }
        Measure::Maximum => {
            let list = scan_members(alloc, parts, names, left, true)?;
            Ok(Reading {
                value: Body::Greatest(list.value),
                missed: list.missed,
            })
        }
        Measure::Distinct => {
            let list = scan_members(alloc, parts, names, left, false)?;
            Ok(Reading {
                value: Body::Distinct(list.value),
                missed: list.missed,
            })
        }
    }
}

fn type_of(c: &Concrete) -> Option<Measure>
    ensures { result ≡ type_of c.now }
{
    measure_of(value_among(c.attrs.as_slice(), b"type"))
}

fn direction_of(c: &Concrete) -> Direction
    ensures { result ≡ direction_of c.now.name }
{
    if c.name.as_slice() == b"minimize".as_slice() {
        Direction::Minimize
    } else {
        Direction::Maximize
    }
}

// What is to be least or greatest, by the type, and what an objective misses first.
fn scan_typed(
    alloc: Global,
    c: &Concrete,
    names: &Names,
    left: u64,
) -> Result<Reading<Body>, NoMemory>
    ensures missed { IfOk result (λ r. r.missed ≡ first_missed (objective_meets names.now left c.now)) }
    ensures value { IfOk result (λ r. r.missed ≡ None → r.value ≡ typed_body names.now (type_of c.now) c.now.parts) }
{
    match type_of(c) {
        Some(measure) => scan_body(alloc, measure, c.parts.as_slice(), names, left),
        None => Ok(Reading {
            value: Body::Value(Expr::Int(0)),
            missed: Some(Condition::Known),
        }),
    }
}

// The objective where no condition is missed, else the kind of fault of the one that is missed first.
fn answered(missed: Option<Condition>, objective: Objective) -> Result<Objective, FieldStop>
    ensures { result ≡ answer_on missed objective }
{
    match missed {
        Some(missed) => Err(FieldStop::Refused(missed.kind())),
        None => Ok(objective),
    }
}

// The objective, or the kind of fault of the first condition that is missed.
fn read_typed(alloc: Global, c: &Concrete, names: &Names, left: u64) -> Result<Objective, FieldStop>
    ensures { IsOrMemory result (answer (objective_meets names.now left c.now) (objective_of names.now c.now)) }
{
    let body = scan_typed(alloc, c, names, left)?;
    let direction = direction_of(c);
    answered(
        body.missed,
        Objective {
            direction,
            body: body.value,
        },
    )
}

/// The objective of a `minimize` or a `maximize`, by its type an expression or a function of a list, where at most `left`
/// items may still come: one for each node, or each list member and each coefficient. Else the kind of fault of the first
/// condition that it misses, or want of memory.
pub fn read_objective(
    alloc: Global,
    c: &Concrete,
    names: &Names,
    left: u64,
) -> Result<Objective, FieldStop>
    ensures value { IsOrMemory result (answer (objective_meets names.now left c.now) (objective_of names.now c.now)) }
    ensures formed { IfOk result (λ o. AreFormed (variables_in names.now) (body_fields o.body)) }
    ensures fitting { IfOk result (λ o. IsFittingBody o.body) }
    ensures few { IfOk result (λ o. goal_items (Some o) ≤ left) }
{
    read_typed(alloc, c, names, left)
}
