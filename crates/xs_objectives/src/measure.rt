//! The types of objectives.

ghost use Rattle.std.specs.Prelude.{◌≡◌};
ghost use Rattle.std.specs.Option.{option_map};
ghost use Rattle.xs_objectives.specs.Measures.{is_child_of, measure_of, named};

/// What is to be least or greatest: the value of an expression, or a function of a list.
#[derive(Clone, Copy, Debug, PartialEq, Eq)]
pub enum Measure {
    Expression,
    Sum,
    Minimum,
    Maximum,
    Distinct,
}

fn named(text: &[u8]) -> Option<Measure>
    ensures { result ≡ named text.now }
{
    if text == b"expression".as_slice() {
        Some(Measure::Expression)
    } else if text == b"sum".as_slice() {
        Some(Measure::Sum)
    } else if text == b"minimum".as_slice() {
        Some(Measure::Minimum)
    } else if text == b"maximum".as_slice() {
        Some(Measure::Maximum)
    } else if text == b"nValues".as_slice() {
        Some(Measure::Distinct)
    } else {
        None
    }
}

/// The type that the attribute names; without one it is an expression. None where there is no such type.
pub(crate) fn measure_of(value: Option<&[u8]>) -> Option<Measure>
    ensures { result ≡ measure_of (option_map (λ x. x.now) value.entry) }
{
    match value {
        Some(text) => named(text),
        None => Some(Measure::Expression),
    }
}

/// Whether an objective of this type has a child of this name.
pub(crate) fn is_child_of(measure: Measure, name: &[u8]) -> bool
    ensures { result ≡ is_child_of measure name.now }
{
    match measure {
        Measure::Expression => false,
        Measure::Sum => name == b"list".as_slice() || name == b"coeffs".as_slice(),
        Measure::Minimum => name == b"list".as_slice(),
        Measure::Maximum => name == b"list".as_slice(),
        Measure::Distinct => name == b"list".as_slice(),
    }
}
