//! The kinds of the arguments of builtins.

ghost use Rattle.std.specs.Prelude.{◌≡◌};
ghost use Rattle.fz_model.specs.Kinds.{kinds_at, is_linear};

use fz_model::{Asked, Builtin, Kind};

const INT: Kind = Kind::One(Asked::Int);

const BOOL: Kind = Kind::One(Asked::Bool);

const CONSTANT: Kind = Kind::One(Asked::IntConstant);

const INTS: Kind = Kind::Many(Asked::Int);

const BOOLS: Kind = Kind::Many(Asked::Bool);

const CONSTANTS: Kind = Kind::Many(Asked::IntConstant);

const BOOL_CONSTANTS: Kind = Kind::Many(Asked::BoolConstant);

/// The kinds of the arguments of a builtin, where there are so many.
pub fn kinds_of(builtin: Builtin, count: usize) -> &'static [Kind]
    ensures { result.now ≡ kinds_at builtin count }
{
    match builtin {
        Builtin::IntLinEq | Builtin::IntLinNe | Builtin::IntLinLe => &[CONSTANTS, INTS, CONSTANT],
        Builtin::IntLinEqReif | Builtin::IntLinNeReif | Builtin::IntLinLeReif => {
            &[CONSTANTS, INTS, CONSTANT, BOOL]
        }
        Builtin::IntEq | Builtin::IntNe | Builtin::IntLe | Builtin::IntLt | Builtin::IntAbs => {
            &[INT, INT]
        }
        Builtin::IntEqReif | Builtin::IntNeReif | Builtin::IntLeReif | Builtin::IntLtReif => {
            &[INT, INT, BOOL]
        }
        Builtin::IntPlus | Builtin::IntTimes | Builtin::IntDiv | Builtin::IntMod => {
            &[INT, INT, INT]
        }
        Builtin::IntMin | Builtin::IntMax => &[INT, INT, INT],
        Builtin::ArrayIntMinimum | Builtin::ArrayIntMaximum => &[INT, INTS],
        Builtin::ArrayIntElement => &[INT, CONSTANTS, INT],
        Builtin::ArrayVarIntElement => &[INT, INTS, INT],
        Builtin::ArrayBoolElement => &[INT, BOOL_CONSTANTS, BOOL],
        Builtin::ArrayVarBoolElement => &[INT, BOOLS, BOOL],
        Builtin::Bool2Int => &[BOOL, INT],
        Builtin::BoolEq | Builtin::BoolLe | Builtin::BoolLt | Builtin::BoolNot => &[BOOL, BOOL],
        Builtin::BoolEqReif | Builtin::BoolLeReif | Builtin::BoolLtReif => &[BOOL, BOOL, BOOL],
        Builtin::BoolAnd | Builtin::BoolOr => &[BOOL, BOOL, BOOL],
        Builtin::BoolXor => xor_kinds(count),
        Builtin::BoolClause => &[BOOLS, BOOLS],
        Builtin::BoolClauseReif => &[BOOLS, BOOLS, BOOL],
        Builtin::ArrayBoolAnd | Builtin::ArrayBoolOr => &[BOOLS, BOOL],
        Builtin::ArrayBoolXor => &[BOOLS],
        Builtin::BoolLinEq => &[CONSTANTS, BOOLS, INT],
        Builtin::BoolLinLe => &[CONSTANTS, BOOLS, CONSTANT],
        Builtin::SetIn => &[INT, Kind::Set],
        Builtin::SetInReif => &[INT, Kind::Set, BOOL],
    }
}

fn xor_kinds(count: usize) -> &'static [Kind]
    ensures { result.now ≡ kinds_at Builtin.BoolXor count }
{
    if count == 2 {
        &[BOOL, BOOL]
    } else {
        &[BOOL, BOOL, BOOL]
    }
}

/// Whether the first two arguments are the coefficients and the terms of a sum.
pub fn is_linear(builtin: Builtin) -> bool
    ensures { result ≡ is_linear builtin }
{
    match builtin {
        Builtin::IntLinEq | Builtin::IntLinNe | Builtin::IntLinLe => true,
        Builtin::IntLinEqReif | Builtin::IntLinNeReif | Builtin::IntLinLeReif => true,
        Builtin::BoolLinEq | Builtin::BoolLinLe => true,
        _ => false,
    }
}
