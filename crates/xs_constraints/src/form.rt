//! The forms by their names.

ghost use Rattle.std.specs.Prelude.{◌≡◌, ◌≤◌, true, IfOk};
ghost use Rattle.xs_constraints.specs.Forms.{form_meets, form_of, is_form};
ghost use Rattle.xs_fields.specs.Conditions.{IsOrMemory, answer};
ghost use Rattle.xs_model.specs.Accepted.{IsFormed, is_built, items_of};
ghost use Rattle.xs_model.specs.Outline.{variables_in};

use std::alloc::Global;
use xf_text::{FieldStop, Kind};
use xs_model::{Concrete, Constraint, Names};

/// Whether a form has this name.
pub fn is_form(name: &[u8]) -> bool
    ensures { result ≡ is_form name.now }
{
    xs_language::is_form(name) || xs_relate::is_form(name)
}

/// The constraint of a form, where at most `left` items may still come. Else the kind of fault of the first condition that
/// it misses, or want of memory. A form that is not known is F3.
pub fn read_form(
    alloc: Global,
    c: &Concrete,
    names: &Names,
    left: u64,
) -> Result<Constraint, FieldStop>
    ensures value { IsOrMemory result (answer (form_meets names.now left c.now) (form_of names.now c.now)) }
    ensures formed { IfOk result (λ x. IsFormed (variables_in names.now) x) }
    ensures few { IfOk result (λ x. items_of x ≤ left) }
    ensures built { IfOk result (λ x. is_built x ≡ true) }
{
    let name = c.name.as_slice();
    if xs_language::is_form(name) {
        xs_language::read_form(alloc, c, names, left)
    } else if xs_relate::is_form(name) {
        xs_relate::read_form(alloc, c, names, left)
    } else {
        Err(FieldStop::Refused(Kind::Unknown))
    }
}
