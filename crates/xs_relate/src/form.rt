//! The forms of this crate by their names.

ghost use Rattle.std.specs.Prelude.{true, ◌≡◌, ◌≤◌, IfOk};
ghost use Rattle.xs_fields.specs.Conditions.{IsOrMemory, answer};
ghost use Rattle.xs_model.specs.Accepted.{IsFormed, is_built, items_of};
ghost use Rattle.xs_model.specs.Outline.{variables_in};
ghost use Rattle.xs_relate.specs.Forms.{form_meets, form_of, is_form};

use crate::different::read_different;
use crate::intension::read_intension;
use std::alloc::Global;
use xf_text::FieldStop;
use xs_model::{Concrete, Constraint, Names};

/// Whether a form of this crate has this name.
pub fn is_form(name: &[u8]) -> bool
    ensures { result ≡ is_form name.now }
{
    name == b"allDifferent".as_slice() || name == b"intension".as_slice()
}

/// The constraint of a form of this crate, where at most `left` items may still come. Else the kind of fault of the first
/// condition that it misses, or want of memory.
///
/// Asks that its name is that of a form of this crate.
pub fn read_form(
    alloc: Global,
    c: &Concrete,
    names: &Names,
    left: u64,
) -> Result<Constraint, FieldStop>
    requires { is_form c.now.name ≡ true }
    ensures value { IsOrMemory result (answer (form_meets names.now left c.now) (form_of names.now c.now)) }
    ensures formed { IfOk result (λ x. IsFormed (variables_in names.now) x) }
    ensures few { IfOk result (λ x. items_of x ≤ left) }
    ensures built { IfOk result (λ x. is_built x ≡ true) }
{
    if c.name.as_slice() == b"allDifferent".as_slice() {
        read_different(alloc, c, names, left)
    } else {
        read_intension(alloc, c, names, left)
    }
}
