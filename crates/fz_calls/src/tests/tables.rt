//! Calls of each builtin, with whether they hold, or fit.

use super::Given::{self, Bool, Bools, Int, Ints, Range, Set};
use fz_model::Builtin;

/// The greatest magnitude of an integer of a model.
const LIMIT: i128 = 85070591730234615865843651857942052863;

/// Comparisons.
pub const COMPARISONS: &[(Builtin, &[Given], bool)] = &[
    (Builtin::IntEq, &[Int(3), Int(3)], true),
    (Builtin::IntEq, &[Int(3), Int(-3)], false),
    (Builtin::IntEq, &[Int(3)], false),
    (Builtin::IntNe, &[Int(3), Int(3)], false),
    (Builtin::IntNe, &[Int(3), Int(-3)], true),
    (Builtin::IntLe, &[Int(3), Int(3)], true),
    (Builtin::IntLe, &[Int(4), Int(3)], false),
    (Builtin::IntLe, &[Int(-4), Int(3)], true),
    (Builtin::IntLt, &[Int(3), Int(3)], false),
    (Builtin::IntLt, &[Int(2), Int(3)], true),
    (Builtin::IntLt, &[Int(3), Int(2)], false),
    (Builtin::BoolEq, &[Bool(true), Bool(true)], true),
    (Builtin::BoolEq, &[Bool(true), Bool(false)], false),
    (Builtin::BoolLe, &[Bool(false), Bool(true)], true),
    (Builtin::BoolLe, &[Bool(false), Bool(false)], true),
    (Builtin::BoolLe, &[Bool(true), Bool(false)], false),
    (Builtin::BoolLt, &[Bool(false), Bool(true)], true),
    (Builtin::BoolLt, &[Bool(true), Bool(true)], false),
    (Builtin::BoolLt, &[Bool(true), Bool(false)], false),
    (Builtin::BoolNot, &[Bool(true), Bool(false)], true),
    (Builtin::BoolNot, &[Bool(true), Bool(true)], false),
    (Builtin::BoolXor, &[Bool(true), Bool(false)], true),
    (Builtin::BoolXor, &[Bool(true), Bool(true)], false),
    (Builtin::Bool2Int, &[Bool(true), Int(1)], true),
    (Builtin::Bool2Int, &[Bool(true), Int(2)], false),
    (Builtin::Bool2Int, &[Bool(false), Int(0)], true),
];

/// Truths of a test: where it holds and where it does not, with either truth.
pub const REIFIED: &[(Builtin, &[Given], bool)] = &[
    (Builtin::IntEqReif, &[Int(3), Int(3), Bool(true)], true),
    (Builtin::IntEqReif, &[Int(3), Int(3), Bool(false)], false),
    (Builtin::IntEqReif, &[Int(3), Int(4), Bool(true)], false),
    (Builtin::IntEqReif, &[Int(3), Int(4), Bool(false)], true),
    (Builtin::IntNeReif, &[Int(3), Int(4), Bool(true)], true),
    (Builtin::IntNeReif, &[Int(3), Int(4), Bool(false)], false),
    (Builtin::IntNeReif, &[Int(3), Int(3), Bool(true)], false),
    (Builtin::IntNeReif, &[Int(3), Int(3), Bool(false)], true),
    (Builtin::IntLeReif, &[Int(3), Int(3), Bool(true)], true),
    (Builtin::IntLeReif, &[Int(3), Int(3), Bool(false)], false),
    (Builtin::IntLeReif, &[Int(4), Int(3), Bool(true)], false),
    (Builtin::IntLeReif, &[Int(4), Int(3), Bool(false)], true),
    (Builtin::IntLtReif, &[Int(2), Int(3), Bool(true)], true),
    (Builtin::IntLtReif, &[Int(2), Int(3), Bool(false)], false),
    (Builtin::IntLtReif, &[Int(3), Int(3), Bool(true)], false),
    (Builtin::IntLtReif, &[Int(3), Int(3), Bool(false)], true),
    (
        Builtin::BoolEqReif,
        &[Bool(false), Bool(false), Bool(true)],
        true,
    ),
    (
        Builtin::BoolEqReif,
        &[Bool(false), Bool(false), Bool(false)],
        false,
    ),
    (
        Builtin::BoolEqReif,
        &[Bool(true), Bool(false), Bool(true)],
        false,
    ),
    (
        Builtin::BoolEqReif,
        &[Bool(true), Bool(false), Bool(false)],
        true,
    ),
    (
        Builtin::BoolLeReif,
        &[Bool(false), Bool(false), Bool(true)],
        true,
    ),
    (
        Builtin::BoolLeReif,
        &[Bool(false), Bool(false), Bool(false)],
        false,
    ),
    (
        Builtin::BoolLeReif,
        &[Bool(true), Bool(false), Bool(true)],
        false,
    ),
    (
        Builtin::BoolLeReif,
        &[Bool(true), Bool(false), Bool(false)],
        true,
    ),
    (
        Builtin::BoolLtReif,
        &[Bool(false), Bool(true), Bool(true)],
        true,
    ),
    (
        Builtin::BoolLtReif,
        &[Bool(false), Bool(true), Bool(false)],
        false,
    ),
    (
        Builtin::BoolLtReif,
        &[Bool(true), Bool(true), Bool(true)],
        false,
    ),
    (
        Builtin::BoolLtReif,
        &[Bool(true), Bool(true), Bool(false)],
        true,
    ),
    (
        Builtin::BoolXor,
        &[Bool(true), Bool(false), Bool(true)],
        true,
    ),
    (
        Builtin::BoolXor,
        &[Bool(true), Bool(false), Bool(false)],
        false,
    ),
    (
        Builtin::BoolXor,
        &[Bool(true), Bool(true), Bool(true)],
        false,
    ),
    (
        Builtin::BoolXor,
        &[Bool(true), Bool(true), Bool(false)],
        true,
    ),
    (
        Builtin::BoolAnd,
        &[Bool(true), Bool(true), Bool(true)],
        true,
    ),
    (
        Builtin::BoolAnd,
        &[Bool(true), Bool(true), Bool(false)],
        false,
    ),
    (
        Builtin::BoolAnd,
        &[Bool(true), Bool(false), Bool(true)],
        false,
    ),
    (
        Builtin::BoolAnd,
        &[Bool(true), Bool(false), Bool(false)],
        true,
    ),
    (
        Builtin::BoolOr,
        &[Bool(false), Bool(true), Bool(true)],
        true,
    ),
    (
        Builtin::BoolOr,
        &[Bool(false), Bool(true), Bool(false)],
        false,
    ),
    (
        Builtin::BoolOr,
        &[Bool(false), Bool(false), Bool(true)],
        false,
    ),
    (
        Builtin::BoolOr,
        &[Bool(false), Bool(false), Bool(false)],
        true,
    ),
    (
        Builtin::BoolClauseReif,
        &[Bools(&[false]), Bools(&[false]), Bool(true)],
        true,
    ),
    (
        Builtin::BoolClauseReif,
        &[Bools(&[false]), Bools(&[false]), Bool(false)],
        false,
    ),
    (
        Builtin::BoolClauseReif,
        &[Bools(&[false]), Bools(&[true]), Bool(true)],
        false,
    ),
    (
        Builtin::BoolClauseReif,
        &[Bools(&[false]), Bools(&[true]), Bool(false)],
        true,
    ),
    (
        Builtin::SetInReif,
        &[Int(3), Set(&[5, 3]), Bool(true)],
        true,
    ),
    (
        Builtin::SetInReif,
        &[Int(3), Set(&[5, 3]), Bool(false)],
        false,
    ),
    (
        Builtin::SetInReif,
        &[Int(4), Set(&[5, 3]), Bool(true)],
        false,
    ),
    (
        Builtin::SetInReif,
        &[Int(4), Set(&[5, 3]), Bool(false)],
        true,
    ),
    (Builtin::SetInReif, &[Int(3), Range(1, 3), Bool(true)], true),
    (
        Builtin::SetInReif,
        &[Int(3), Range(1, 3), Bool(false)],
        false,
    ),
    (
        Builtin::SetInReif,
        &[Int(4), Range(1, 3), Bool(true)],
        false,
    ),
    (
        Builtin::SetInReif,
        &[Int(4), Range(1, 3), Bool(false)],
        true,
    ),
];

/// Lists of truths.
pub const LISTS: &[(Builtin, &[Given], bool)] = &[
    (
        Builtin::ArrayBoolAnd,
        &[Bools(&[true, true]), Bool(true)],
        true,
    ),
    (
        Builtin::ArrayBoolAnd,
        &[Bools(&[true, false]), Bool(true)],
        false,
    ),
    (
        Builtin::ArrayBoolAnd,
        &[Bools(&[true, false]), Bool(false)],
        true,
    ),
    (Builtin::ArrayBoolAnd, &[Bools(&[]), Bool(true)], true),
    (Builtin::ArrayBoolAnd, &[Bools(&[]), Bool(false)], false),
    (
        Builtin::ArrayBoolOr,
        &[Bools(&[false, false]), Bool(false)],
        true,
    ),
    (
        Builtin::ArrayBoolOr,
        &[Bools(&[false, true]), Bool(true)],
        true,
    ),
    (
        Builtin::ArrayBoolOr,
        &[Bools(&[false, true]), Bool(false)],
        false,
    ),
    (Builtin::ArrayBoolOr, &[Bools(&[]), Bool(true)], false),
    (Builtin::ArrayBoolOr, &[Bools(&[]), Bool(false)], true),
    (Builtin::ArrayBoolXor, &[Bools(&[true, false])], true),
    (Builtin::ArrayBoolXor, &[Bools(&[true, true])], false),
    (Builtin::ArrayBoolXor, &[Bools(&[true, true, true])], true),
    (Builtin::ArrayBoolXor, &[Bools(&[])], false),
    (
        Builtin::BoolClause,
        &[Bools(&[false]), Bools(&[false])],
        true,
    ),
    (
        Builtin::BoolClause,
        &[Bools(&[false]), Bools(&[true])],
        false,
    ),
    (Builtin::BoolClause, &[Bools(&[true]), Bools(&[true])], true),
    (Builtin::BoolClause, &[Bools(&[]), Bools(&[])], false),
    (
        Builtin::BoolClause,
        &[Bools(&[]), Bools(&[true, false])],
        true,
    ),
    (
        Builtin::BoolClause,
        &[Bools(&[false, true]), Bools(&[])],
        true,
    ),
];

/// Arithmetic.
pub const ARITHMETIC: &[(Builtin, &[Given], bool)] = &[
    (Builtin::IntAbs, &[Int(-5), Int(5)], true),
    (Builtin::IntAbs, &[Int(5), Int(5)], true),
    (Builtin::IntAbs, &[Int(5), Int(-5)], false),
    (Builtin::IntAbs, &[Int(-5), Int(-5)], false),
    (Builtin::IntPlus, &[Int(2), Int(-7), Int(-5)], true),
    (Builtin::IntPlus, &[Int(2), Int(-7), Int(5)], false),
    (Builtin::IntTimes, &[Int(-3), Int(4), Int(-12)], true),
    (Builtin::IntTimes, &[Int(-3), Int(4), Int(12)], false),
    (Builtin::IntMin, &[Int(3), Int(-1), Int(-1)], true),
    (Builtin::IntMin, &[Int(3), Int(-1), Int(3)], false),
    (Builtin::IntMax, &[Int(3), Int(-1), Int(3)], true),
    (Builtin::IntMax, &[Int(3), Int(-1), Int(-1)], false),
    (Builtin::IntDiv, &[Int(7), Int(2), Int(3)], true),
    (Builtin::IntDiv, &[Int(-7), Int(2), Int(-3)], true),
    (Builtin::IntDiv, &[Int(-7), Int(2), Int(-4)], false),
    (Builtin::IntDiv, &[Int(7), Int(-2), Int(-3)], true),
    (Builtin::IntDiv, &[Int(1), Int(0), Int(0)], false),
    (Builtin::IntDiv, &[Int(0), Int(0), Int(0)], false),
    (Builtin::IntMod, &[Int(7), Int(2), Int(1)], true),
    (Builtin::IntMod, &[Int(-7), Int(2), Int(-1)], true),
    (Builtin::IntMod, &[Int(-7), Int(2), Int(1)], false),
    (Builtin::IntMod, &[Int(7), Int(-2), Int(1)], true),
    (Builtin::IntMod, &[Int(7), Int(-2), Int(-1)], false),
    (Builtin::IntMod, &[Int(5), Int(0), Int(5)], false),
];

/// Sums of products.
pub const SUMS: &[(Builtin, &[Given], bool)] = &[
    (
        Builtin::IntLinEq,
        &[Ints(&[2, -3]), Ints(&[4, 1]), Int(5)],
        true,
    ),
    (
        Builtin::IntLinEq,
        &[Ints(&[2, -3]), Ints(&[4, 1]), Int(4)],
        false,
    ),
    (
        Builtin::IntLinNe,
        &[Ints(&[2, -3]), Ints(&[4, 1]), Int(5)],
        false,
    ),
    (
        Builtin::IntLinNe,
        &[Ints(&[2, -3]), Ints(&[4, 1]), Int(4)],
        true,
    ),
    (
        Builtin::IntLinLe,
        &[Ints(&[2, -3]), Ints(&[4, 1]), Int(5)],
        true,
    ),
    (
        Builtin::IntLinLe,
        &[Ints(&[2, -3]), Ints(&[4, 1]), Int(4)],
        false,
    ),
    (
        Builtin::IntLinLe,
        &[Ints(&[2, -3]), Ints(&[4, 1]), Int(6)],
        true,
    ),
    (
        Builtin::IntLinEqReif,
        &[Ints(&[2, -3]), Ints(&[4, 1]), Int(5), Bool(true)],
        true,
    ),
    (
        Builtin::IntLinEqReif,
        &[Ints(&[2, -3]), Ints(&[4, 1]), Int(5), Bool(false)],
        false,
    ),
    (
        Builtin::IntLinEqReif,
        &[Ints(&[2, -3]), Ints(&[4, 1]), Int(4), Bool(false)],
        true,
    ),
    (
        Builtin::IntLinNeReif,
        &[Ints(&[2, -3]), Ints(&[4, 1]), Int(5), Bool(true)],
        false,
    ),
    (
        Builtin::IntLinNeReif,
        &[Ints(&[2, -3]), Ints(&[4, 1]), Int(5), Bool(false)],
        true,
    ),
    (
        Builtin::IntLinNeReif,
        &[Ints(&[2, -3]), Ints(&[4, 1]), Int(4), Bool(true)],
        true,
    ),
    (
        Builtin::IntLinLeReif,
        &[Ints(&[2, -3]), Ints(&[4, 1]), Int(4), Bool(true)],
        false,
    ),
    (
        Builtin::IntLinLeReif,
        &[Ints(&[2, -3]), Ints(&[4, 1]), Int(4), Bool(false)],
        true,
    ),
    (
        Builtin::IntLinLeReif,
        &[Ints(&[2, -3]), Ints(&[4, 1]), Int(5), Bool(true)],
        true,
    ),
    (
        Builtin::BoolLinEq,
        &[Ints(&[2, 3]), Bools(&[true, false]), Int(2)],
        true,
    ),
    (
        Builtin::BoolLinEq,
        &[Ints(&[2, 3]), Bools(&[true, false]), Int(5)],
        false,
    ),
    (
        Builtin::BoolLinLe,
        &[Ints(&[2, 3]), Bools(&[true, true]), Int(5)],
        true,
    ),
    (
        Builtin::BoolLinLe,
        &[Ints(&[2, 3]), Bools(&[true, true]), Int(4)],
        false,
    ),
];

/// Members of lists and sets.
pub const MEMBERS: &[(Builtin, &[Given], bool)] = &[
    (
        Builtin::ArrayIntMinimum,
        &[Int(-2), Ints(&[4, -2, 7])],
        true,
    ),
    (
        Builtin::ArrayIntMinimum,
        &[Int(4), Ints(&[4, -2, 7])],
        false,
    ),
    (
        Builtin::ArrayIntMinimum,
        &[Int(-3), Ints(&[4, -2, 7])],
        false,
    ),
    (Builtin::ArrayIntMinimum, &[Int(0), Ints(&[])], false),
    (Builtin::ArrayIntMaximum, &[Int(7), Ints(&[4, -2, 7])], true),
    (
        Builtin::ArrayIntMaximum,
        &[Int(-2), Ints(&[4, -2, 7])],
        false,
    ),
    (
        Builtin::ArrayIntMaximum,
        &[Int(8), Ints(&[4, -2, 7])],
        false,
    ),
    (Builtin::ArrayIntMaximum, &[Int(0), Ints(&[])], false),
    (
        Builtin::ArrayIntElement,
        &[Int(1), Ints(&[4, -2, 7]), Int(4)],
        true,
    ),
    (
        Builtin::ArrayIntElement,
        &[Int(3), Ints(&[4, -2, 7]), Int(7)],
        true,
    ),
    (
        Builtin::ArrayIntElement,
        &[Int(2), Ints(&[4, -2, 7]), Int(7)],
        false,
    ),
    (
        Builtin::ArrayIntElement,
        &[Int(0), Ints(&[4, -2, 7]), Int(4)],
        false,
    ),
    (
        Builtin::ArrayIntElement,
        &[Int(4), Ints(&[4, -2, 7]), Int(7)],
        false,
    ),
    (
        Builtin::ArrayIntElement,
        &[Int(-1), Ints(&[4, -2, 7]), Int(4)],
        false,
    ),
    (
        Builtin::ArrayVarIntElement,
        &[Int(1), Ints(&[4, -2, 7]), Int(4)],
        true,
    ),
    (
        Builtin::ArrayVarIntElement,
        &[Int(3), Ints(&[4, -2, 7]), Int(7)],
        true,
    ),
    (
        Builtin::ArrayVarIntElement,
        &[Int(2), Ints(&[4, -2, 7]), Int(7)],
        false,
    ),
    (
        Builtin::ArrayVarIntElement,
        &[Int(0), Ints(&[4, -2, 7]), Int(4)],
        false,
    ),
    (
        Builtin::ArrayVarIntElement,
        &[Int(4), Ints(&[4, -2, 7]), Int(7)],
        false,
    ),
    (
        Builtin::ArrayVarIntElement,
        &[Int(-1), Ints(&[4, -2, 7]), Int(4)],
        false,
    ),
    (
        Builtin::ArrayBoolElement,
        &[Int(2), Bools(&[false, true]), Bool(true)],
        true,
    ),
    (
        Builtin::ArrayBoolElement,
        &[Int(1), Bools(&[false, true]), Bool(true)],
        false,
    ),
    (
        Builtin::ArrayBoolElement,
        &[Int(3), Bools(&[false, true]), Bool(false)],
        false,
    ),
    (
        Builtin::ArrayVarBoolElement,
        &[Int(2), Bools(&[false, true]), Bool(true)],
        true,
    ),
    (
        Builtin::ArrayVarBoolElement,
        &[Int(1), Bools(&[false, true]), Bool(true)],
        false,
    ),
    (
        Builtin::ArrayVarBoolElement,
        &[Int(3), Bools(&[false, true]), Bool(false)],
        false,
    ),
    (Builtin::SetIn, &[Int(3), Range(1, 3)], true),
    (Builtin::SetIn, &[Int(4), Range(1, 3)], false),
    (Builtin::SetIn, &[Int(0), Range(1, 3)], false),
    (Builtin::SetIn, &[Int(3), Set(&[5, 3])], true),
    (Builtin::SetIn, &[Int(4), Set(&[5, 3])], false),
    (Builtin::SetIn, &[Int(3), Set(&[])], false),
];

/// Whether calls of constants fit.
pub const FITTING: &[(Builtin, &[Given], bool)] = &[
    (Builtin::IntPlus, &[Int(LIMIT), Int(0), Int(0)], true),
    (Builtin::IntPlus, &[Int(LIMIT), Int(1), Int(0)], false),
    (
        Builtin::IntTimes,
        &[Int(1 << 63), Int(1 << 63), Int(0)],
        false,
    ),
    (
        Builtin::IntTimes,
        &[Int(1 << 63), Int(1 << 62), Int(0)],
        true,
    ),
    (
        Builtin::IntLinEq,
        &[Ints(&[1, 1, -1]), Ints(&[LIMIT, LIMIT, LIMIT]), Int(0)],
        false,
    ),
    (
        Builtin::IntLinEq,
        &[Ints(&[1, -1, 1]), Ints(&[LIMIT, LIMIT, LIMIT]), Int(0)],
        true,
    ),
    (
        Builtin::IntLinLeReif,
        &[Ints(&[2]), Ints(&[LIMIT]), Int(0), Bool(true)],
        false,
    ),
    (Builtin::IntMax, &[Int(LIMIT), Int(LIMIT), Int(LIMIT)], true),
];
