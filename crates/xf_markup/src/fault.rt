ghost use Rattle.std.specs.Prelude.{◌≡◌};
ghost use Rattle.xf_text.specs.declared.fault.Kind.TheVariants.{Syntax, Depth};
ghost use Rattle.xf_text.specs.declared.fault.Stop.TheVariants.{Refused};

use xf_text::{Fault, Kind, Stop};

/// What stands at the place is no token, or does not fit, or the text ends there too early.
pub fn syntax_at(place: u64) -> Stop
    ensures { result ≡ Refused (record { kind = Syntax; place = place }) }
{
    Stop::Refused(Fault {
        kind: Kind::Syntax,
        place,
    })
}

/// The tag at the place opens one level too many.
pub fn too_deep_at(place: u64) -> Stop
    ensures { result ≡ Refused (record { kind = Depth; place = place }) }
{
    Stop::Refused(Fault {
        kind: Kind::Depth,
        place,
    })
}
