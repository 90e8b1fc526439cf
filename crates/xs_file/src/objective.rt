//! An objective.

ghost use Rattle.std.specs.Prelude.{◌≡◌, ◌∷◌, [], true, IfOk};
ghost use Rattle.xs_file.specs.Sections.{objective_unit};
ghost use Rattle.xs_var.specs.Taken.{IsRead};
ghost use Rattle.xs_var.specs.Units.{outcome};

use crate::held::Held;
use xf_markup::Node;
use xf_text::{Fault, Kind, Stop};

/// No objective is known so far: F3 at its place.
pub(crate) fn read_objective(node: &Node, held: Held) -> Result<Held, Stop>
    ensures outcome { IsRead (λ h. h) result (outcome held (objective_unit true node.now ∷ [])) }
    ensures declared { IfOk result (λ h. h.declared ≡ held.declared) }
{
    let _ = held;
    Err(Stop::Refused(Fault {
        kind: Kind::Unknown,
        place: node.place,
    }))
}
