//! The table of the builtins that a FlatZinc model may call.

ghost use Rattle.std.specs.Prelude.{◌≡◌, IfSome};
ghost use Rattle.fz_model.specs.Builtins.{name_of, look_up};
ghost use Rattle.fz_model.specs.Kinds.{is_linear, kinds_at, kinds_of};
ghost use Rattle.fz_model.specs.declared.builtin.Builtin.{Builtin};

use crate::kind::{Asked, Kind};

/// A builtin, one for each row of the table.
#[derive(Clone, Copy, Debug, PartialEq, Eq)]
pub enum Builtin {
    IntLinEq,
    IntLinNe,
    IntLinLe,
    IntLinEqReif,
    IntLinNeReif,
    IntLinLeReif,
    IntEq,
    IntNe,
    IntLe,
    IntLt,
    IntEqReif,
    IntNeReif,
    IntLeReif,
    IntLtReif,
    IntAbs,
    IntPlus,
    IntTimes,
    IntDiv,
    IntMod,
    IntMin,
    IntMax,
    ArrayIntMinimum,
    ArrayIntMaximum,
    ArrayIntElement,
    ArrayVarIntElement,
    ArrayBoolElement,
    ArrayVarBoolElement,
    Bool2Int,
    BoolEq,
    BoolLe,
    BoolLt,
    BoolEqReif,
    BoolLeReif,
    BoolLtReif,
    BoolNot,
    BoolAnd,
    BoolOr,
    BoolXor,
    BoolClause,
    BoolClauseReif,
    ArrayBoolAnd,
    ArrayBoolOr,
    ArrayBoolXor,
    BoolLinEq,
    BoolLinLe,
    SetIn,
    SetInReif,
}

const INT: Kind = Kind::One(Asked::Int);

const BOOL: Kind = Kind::One(Asked::Bool);

const INT_CONSTANT: Kind = Kind::One(Asked::IntConstant);

const INTS: Kind = Kind::Many(Asked::Int);

const BOOLS: Kind = Kind::Many(Asked::Bool);

const INT_CONSTANTS: Kind = Kind::Many(Asked::IntConstant);

const BOOL_CONSTANTS: Kind = Kind::Many(Asked::BoolConstant);

const SET: Kind = Kind::Set;

macro_rules! builtin_rows {
    ($rows:ident $value:expr) => {
        $rows!(
            $value;
            IntLinEq b"int_lin_eq" [INT_CONSTANTS INTS INT_CONSTANT],
            IntLinNe b"int_lin_ne" [INT_CONSTANTS INTS INT_CONSTANT],
            IntLinLe b"int_lin_le" [INT_CONSTANTS INTS INT_CONSTANT],
            IntLinEqReif b"int_lin_eq_reif" [INT_CONSTANTS INTS INT_CONSTANT BOOL],
            IntLinNeReif b"int_lin_ne_reif" [INT_CONSTANTS INTS INT_CONSTANT BOOL],
            IntLinLeReif b"int_lin_le_reif" [INT_CONSTANTS INTS INT_CONSTANT BOOL],
            IntEq b"int_eq" [INT INT],
            IntNe b"int_ne" [INT INT],
            IntLe b"int_le" [INT INT],
            IntLt b"int_lt" [INT INT],
            IntEqReif b"int_eq_reif" [INT INT BOOL],
            IntNeReif b"int_ne_reif" [INT INT BOOL],
            IntLeReif b"int_le_reif" [INT INT BOOL],
            IntLtReif b"int_lt_reif" [INT INT BOOL],
            IntAbs b"int_abs" [INT INT],
            IntPlus b"int_plus" [INT INT INT],
            IntTimes b"int_times" [INT INT INT],
            IntDiv b"int_div" [INT INT INT],
            IntMod b"int_mod" [INT INT INT],
            IntMin b"int_min" [INT INT INT],
            IntMax b"int_max" [INT INT INT],
            ArrayIntMinimum b"array_int_minimum" [INT INTS],
            ArrayIntMaximum b"array_int_maximum" [INT INTS],
            ArrayIntElement b"array_int_element" [INT INT_CONSTANTS INT],
            ArrayVarIntElement b"array_var_int_element" [INT INTS INT],
            ArrayBoolElement b"array_bool_element" [INT BOOL_CONSTANTS BOOL],
            ArrayVarBoolElement b"array_var_bool_element" [INT BOOLS BOOL],
            Bool2Int b"bool2int" [BOOL INT],
            BoolEq b"bool_eq" [BOOL BOOL],
            BoolLe b"bool_le" [BOOL BOOL],
            BoolLt b"bool_lt" [BOOL BOOL],
            BoolEqReif b"bool_eq_reif" [BOOL BOOL BOOL],
            BoolLeReif b"bool_le_reif" [BOOL BOOL BOOL],
            BoolLtReif b"bool_lt_reif" [BOOL BOOL BOOL],
            BoolNot b"bool_not" [BOOL BOOL],
            BoolAnd b"bool_and" [BOOL BOOL BOOL],
            BoolOr b"bool_or" [BOOL BOOL BOOL],
            BoolXor b"bool_xor" [BOOL BOOL BOOL],
            BoolClause b"bool_clause" [BOOLS BOOLS],
            BoolClauseReif b"bool_clause_reif" [BOOLS BOOLS BOOL],
            ArrayBoolAnd b"array_bool_and" [BOOLS BOOL],
            ArrayBoolOr b"array_bool_or" [BOOLS BOOL],
            ArrayBoolXor b"array_bool_xor" [BOOLS],
            BoolLinEq b"bool_lin_eq" [INT_CONSTANTS BOOLS INT],
            BoolLinLe b"bool_lin_le" [INT_CONSTANTS BOOLS INT_CONSTANT],
            SetIn b"set_in" [INT SET],
            SetInReif b"set_in_reif" [INT SET BOOL],
        )
    };
}

macro_rules! names {
    ($value:expr; $($variant:ident $name:literal [$($kind:ident)*],)*) => {
        match $value {
            $(Builtin::$variant => $name,)*
        }
    };
}

macro_rules! kinds {
    ($value:expr; $($variant:ident $name:literal [$($kind:ident)*],)*) => {
        match $value {
            $(Builtin::$variant => &[$($kind,)*],)*
        }
    };
}

macro_rules! listed {
    ($value:expr; $($variant:ident $name:literal [$($kind:ident)*],)*) => {
        [$(Builtin::$variant,)*]
    };
}

const ALL: [Builtin; 47] = builtin_rows!(listed());

impl Builtin {
    /// Its spelling.
    pub fn name(self) -> &'static [u8]
        ensures { result.now ≡ name_of self }
    {
        builtin_rows!(names self)
    }

    /// The kinds of the arguments of a call with so many; those of all arguments where the number is not right.
    pub fn kinds(self, count: usize) -> &'static [Kind]
        ensures { result.now ≡ kinds_at self count }
    {
        match self {
            Builtin::BoolXor if count == 2 => &[BOOL, BOOL],
            _ => all_kinds(self),
        }
    }

    /// Whether the call has a list of coefficients, and then a list of as many values.
    pub fn is_linear(self) -> bool
        ensures { result ≡ is_linear self }
    {
        matches!(
            self,
            Builtin::IntLinEq
                | Builtin::IntLinNe
                | Builtin::IntLinLe
                | Builtin::IntLinEqReif
                | Builtin::IntLinNeReif
                | Builtin::IntLinLeReif
                | Builtin::BoolLinEq
                | Builtin::BoolLinLe
        )
    }

    /// The builtin with this name; None where none has it.
    pub fn from_name(name: &[u8]) -> Option<Builtin>
        ensures named { IfSome result (λ b. name_of b ≡ name.now) }
        ensures every { (b : Builtin) → name_of b ≡ name.now → result ≡ Some b }
    {
        find(&ALL, name)
    }
}

fn all_kinds(builtin: Builtin) -> &'static [Kind]
    ensures { result.now ≡ kinds_of builtin }
{
    builtin_rows!(kinds builtin)
}

/// The first of these with that name.
fn find(all: &[Builtin], name: &[u8]) -> Option<Builtin>
    ensures { result ≡ look_up all.now name.now }
{
    for builtin in all {
        if builtin.name() == name {
            return Some(*builtin);
        }
    }
    None
}
