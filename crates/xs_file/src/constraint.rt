//! One constraint: read, judged and appended.

ghost use Rattle.std.specs.Prelude.{true, ◌≡◌, ◌≤◌, nat_lt, length, IfOk, OnOk};
ghost use Rattle.std.specs.Result.{result_err};
ghost use Rattle.xs_fields.specs.Conditions.{IsOrMemory, answer};
ghost use Rattle.xs_file.specs.Sections.{IsStep, added, constraint_behind, form_meets, left_of, taken};
ghost use Rattle.xs_model.specs.Accepted.{IsFormed, is_built, IsMeasured, IsSoundConstraint, items_of, most_constraints};
ghost use Rattle.xs_file.specs.Asked.{fault_of};
ghost use Rattle.xs_model.specs.Outline.{outlines_of, variables_in};
ghost use Rattle.xs_model.specs.Spans.{spans_of};

use crate::held::Held;
use std::alloc::Global;
use xf_num::NoMemory;
use xf_text::{FieldStop, Kind};
use xs_constraints::read_form;
use xs_judge::judge;
use xs_model::{Concrete, Constraint, Names};

// The constraint of a form, where so many items may still come as held tells.
fn read_constraint(
    alloc: Global,
    names: &Names,
    c: &Concrete,
    held: &Held,
) -> Result<Constraint, FieldStop>
    requires { names.now ≡ outlines_of held.now.declared.decls }
    ensures value { IsOrMemory result (answer (form_meets held.now c.now) (constraint_behind held.now c.now)) }
    ensures formed { IfOk result (λ x. IsFormed (variables_in (outlines_of held.now.declared.decls)) x) }
    ensures few { IfOk result (λ x. items_of x ≤ left_of held.now) }
    ensures built { IfOk result (λ x. is_built x ≡ true) }
{
    read_form(alloc, c, names, held.left())
}

// Whether a constraint is in order within the bounds of the variables.
fn judge_constraint(constraint: &Constraint, held: &Held) -> Result<(), Kind>
    requires formed { IsFormed (variables_in (outlines_of held.now.declared.decls)) constraint.now }
    requires built { is_built constraint.now ≡ true }
    ensures value { result_err result ≡ fault_of true (spans_of held.now.declared.decls) constraint.now }
    ensures sound { OnOk result (IsSoundConstraint (spans_of held.now.declared.decls) constraint.now) }
    ensures measured { OnOk result (IsMeasured (spans_of held.now.declared.decls) constraint.now) }
{
    judge(constraint, held.spans())
}

// Appends a constraint that is in order; else the kind of its fault.
fn add_judged(constraint: Constraint, held: &mut Held) -> Result<Option<Kind>, NoMemory>
    requires formed { IsFormed (variables_in (outlines_of held.old.declared.decls)) constraint }
    requires built { is_built constraint ≡ true }
    requires items { items_of constraint ≤ left_of held.old }
    requires room { nat_lt (length held.old.constraints) most_constraints ≡ true }
    ensures added { IsStep (added true held.old constraint) held.old held.new result }
    ensures declared { held.new.declared ≡ held.old.declared }
{
    match judge_constraint(&constraint, held) {
        Ok(()) => {
            held.add(constraint)?;
            Ok(None)
        }
        Err(kind) => Ok(Some(kind)),
    }
}

// Appends a constraint where there is room for one and it is in order; else the kind of its fault.
fn add_constraint(constraint: Constraint, held: &mut Held) -> Result<Option<Kind>, NoMemory>
    requires formed { IsFormed (variables_in (outlines_of held.old.declared.decls)) constraint }
    requires built { is_built constraint ≡ true }
    requires items { items_of constraint ≤ left_of held.old }
    ensures added { IsStep (added true held.old constraint) held.old held.new result }
    ensures declared { held.new.declared ≡ held.old.declared }
{
    if held.has_room() {
        add_judged(constraint, held)
    } else {
        Ok(Some(Kind::Many))
    }
}

/// Reads a constraint, judges it and appends it; else the kind of its fault, and nothing is changed.
pub(crate) fn take_constraint(
    alloc: Global,
    names: &Names,
    c: &Concrete,
    held: &mut Held,
) -> Result<Option<Kind>, NoMemory>
    requires { names.now ≡ outlines_of held.old.declared.decls }
    ensures taken { IsStep (taken true held.old c.now) held.old held.new result }
    ensures declared { held.new.declared ≡ held.old.declared }
{
    match read_constraint(alloc, names, c, held) {
        Ok(constraint) => add_constraint(constraint, held),
        Err(FieldStop::Refused(kind)) => Ok(Some(kind)),
        Err(FieldStop::Memory) => Err(NoMemory),
    }
}
