//! The conditions on an item of a model.

ghost use Rattle.std.specs.Prelude.{◌≡◌};
ghost use Rattle.fz_items.specs.Conditions.{first_missed, in_order, kind_of};

use xf_text::Kind;

/// A condition, in the order in which they are asked.
#[derive(Clone, Copy, Debug, PartialEq, Eq)]
pub enum Condition {
    /// The called name is a builtin.
    Known,
    /// Each name is declared before, and a name that is declared is new.
    Naming,
    /// Each value, member, argument and objective has the kind that is asked, and the number of arguments is right.
    Kinds,
    /// Each integer has magnitude at most 2^126 - 1.
    Magnitude,
    /// Lengths are as declared, members within their arrays, domains not empty.
    Shape,
    /// The counts are within their limits with this item counted.
    Counting,
    /// An integer variable has bounds.
    Bounded,
}

impl Condition {
    /// The kind of fault where this is the first condition that is missed.
    pub fn kind(self) -> Kind
        ensures { result ≡ kind_of self }
    {
        match self {
            Condition::Known => Kind::Unknown,
            Condition::Naming => Kind::Name,
            Condition::Kinds => Kind::Kinds,
            Condition::Magnitude => Kind::Range,
            Condition::Shape => Kind::Shape,
            Condition::Counting => Kind::Many,
            Condition::Bounded => Kind::Unbounded,
        }
    }
}

/// Which conditions an item meets.
#[derive(Clone, Copy, Debug, PartialEq, Eq)]
pub struct Meets {
    pub known: bool,
    pub naming: bool,
    pub kinds: bool,
    pub magnitude: bool,
    pub shape: bool,
    pub counting: bool,
    pub bounded: bool,
}

/// The first condition that is not met.
pub fn first_missed(meets: Meets) -> Option<Condition>
    ensures { result ≡ first_missed in_order meets }
{
    if !meets.known {
        Some(Condition::Known)
    } else if !meets.naming {
        Some(Condition::Naming)
    } else if !meets.kinds {
        Some(Condition::Kinds)
    } else if !meets.magnitude {
        Some(Condition::Magnitude)
    } else if !meets.shape {
        Some(Condition::Shape)
    } else if !meets.counting {
        Some(Condition::Counting)
    } else if !meets.bounded {
        Some(Condition::Bounded)
    } else {
        None
    }
}
