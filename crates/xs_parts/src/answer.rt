//! The answer of a reader.

ghost use Rattle.std.specs.Prelude.{◌≡◌};
ghost use Rattle.xs_fields.specs.Conditions.{answer_on};

use xf_text::FieldStop;
use xs_fields::Condition;
use xs_model::Constraint;

/// The constraint where no condition is missed, else the kind of fault of the one that is missed first.
pub fn answered(missed: Option<Condition>, constraint: Constraint) -> Result<Constraint, FieldStop>
    ensures { result ≡ answer_on missed constraint }
{
    match missed {
        Some(missed) => Err(FieldStop::Refused(missed.kind())),
        None => Ok(constraint),
    }
}
