ghost use Rattle.std.specs.Prelude.{◌≡◌};
ghost use Rattle.xf_text.specs.Fault.{number_of};
ghost use Rattle.xf_text.specs.declared.fault.FieldStop.TheVariants.{Memory as FieldMemory};
ghost use Rattle.xf_text.specs.declared.fault.Stop.TheVariants.{Memory};

use std::alloc::{AllocError, AllocFailed};
use xf_num::NoMemory;

/// Why a text is refused.
#[derive(Clone, Copy, Debug, PartialEq, Eq)]
pub enum Kind {
    /// F1: the file is longer than 67,108,864 bytes.
    Long,
    /// F2: the bytes are not of the grammar.
    Syntax,
    /// F3: an element, attribute, builtin or name that is not known here.
    Unknown,
    /// F4: a text, a length, a size or a shape that does not fit.
    Shape,
    /// F5: a name that is not declared, or is declared twice.
    Name,
    /// F6: more than a count allows.
    Many,
    /// F7: deeper than 200 levels.
    Depth,
    /// F8: an operand that may be other than 0 and 1 where a truth value is asked.
    Logic,
    /// F9: a division whose operands may be out of range.
    Division,
    /// F10: a magnitude above 2^126 - 1.
    Range,
    /// F11: an integer variable without bounds.
    Unbounded,
    /// F12: an argument or a value of another kind.
    Kinds,
    /// F13: a variable that has no value.
    Missing,
    /// F14: a variable that has two values.
    Repeat,
    /// F15: solver output without an answer.
    NoAnswer,
}

impl Kind {
    /// The number after the `F`.
    pub fn number(self) -> u8
        ensures { result ≡ number_of self }
    {
        match self {
            Kind::Long => 1,
            Kind::Syntax => 2,
            Kind::Unknown => 3,
            Kind::Shape => 4,
            Kind::Name => 5,
            Kind::Many => 6,
            Kind::Depth => 7,
            Kind::Logic => 8,
            Kind::Division => 9,
            Kind::Range => 10,
            Kind::Unbounded => 11,
            Kind::Kinds => 12,
            Kind::Missing => 13,
            Kind::Repeat => 14,
            Kind::NoAnswer => 15,
        }
    }
}

/// Why a text is refused, and where: the offset in bytes of what is at fault.
#[derive(Clone, Copy, Debug, PartialEq, Eq)]
pub struct Fault {
    pub kind: Kind,
    pub place: u64,
}

/// Why a text was not read: it is refused, or memory was wanting.
#[derive(Clone, Copy, Debug, PartialEq, Eq)]
pub enum Stop {
    Refused(Fault),
    Memory,
}

impl From<NoMemory> for Stop {
    ghost from_gives = { λ _ e. e ≡ Memory };

    fn from(_: NoMemory) -> Self {
        Stop::Memory
    }
}

impl From<AllocError> for Stop {
    ghost from_gives = { λ _ e. e ≡ Memory };

    fn from(_: AllocError) -> Self {
        Stop::Memory
    }
}

impl<T: Drop> From<AllocFailed<T>> for Stop {
    ghost from_gives = { λ _ e. e ≡ Memory };

    fn from(_: AllocFailed<T>) -> Self {
        Stop::Memory
    }
}

/// Why a part of a unit was not read; its place is that of the unit.
#[derive(Clone, Copy, Debug, PartialEq, Eq)]
pub enum FieldStop {
    Refused(Kind),
    Memory,
}

impl From<NoMemory> for FieldStop {
    ghost from_gives = { λ _ e. e ≡ FieldMemory };

    fn from(_: NoMemory) -> Self {
        FieldStop::Memory
    }
}

impl From<AllocError> for FieldStop {
    ghost from_gives = { λ _ e. e ≡ FieldMemory };

    fn from(_: AllocError) -> Self {
        FieldStop::Memory
    }
}

impl<T: Drop> From<AllocFailed<T>> for FieldStop {
    ghost from_gives = { λ _ e. e ≡ FieldMemory };

    fn from(_: AllocFailed<T>) -> Self {
        FieldStop::Memory
    }
}
