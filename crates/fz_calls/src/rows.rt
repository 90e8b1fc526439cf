//! Whether a call holds, by the rows of its builtin.

ghost use Rattle.std.specs.Prelude.{◌≡◌, ◌∷◌, [], ◌↔◌, IsTrue, map};
ghost use Rattle.fz_model.specs.Limits.{exactly};
ghost use Rattle.fz_calls.specs.Fits.{WorkFits, FitsValues, work_of};
ghost use Rattle.fz_model.specs.Meaning.{worth, row_of, row_of_one, row_of_two, row_of_three, row_of_four, CallHolds, is_truth, reified_of_three};

use crate::sums::{dot, plus, times};
use crate::worth::{
    all_are, has, is_absolute, is_element, is_odd, is_quotient, is_remainder, members,
    none_is_greater, none_is_less, number, some_is,
};
use fz_model::{Arg, Builtin, Call};

/// Whether an argument is the truth of a test.
fn is_truth(arg: &Arg, test: bool, b: &[i128]) -> bool
    ensures { result ≡ is_truth (worth b.now arg.now) test }
{
    number(arg, b) == i128::from(test)
}

/// Whether the call is true where the variables have these values; a variable without a value counts as 0.
///
/// Each product and each partial sum of the call at these values has magnitude at most 2^126 - 1.
pub fn call_holds(call: &Call, b: &[i128]) -> bool
    requires { FitsValues b.now call.now }
    ensures { IsTrue result ↔ CallHolds b.now call.now }
{
    holds_at(call.builtin, call.args.as_slice(), b)
}

fn holds_at(builtin: Builtin, args: &[Arg], b: &[i128]) -> bool
    requires { WorkFits (map exactly b.now) (work_of builtin) args.now }
    ensures { result ≡ row_of builtin (map (worth b.now) args.now) }
{
    match args {
        [x] => holds_of_one(builtin, x, b),
        [x, y] => holds_of_two(builtin, x, y, b),
        [x, y, z] => holds_of_three(builtin, x, y, z, b),
        [x, y, z, r] => holds_of_four(builtin, x, y, z, r, b),
        _ => false,
    }
}

fn holds_of_one(builtin: Builtin, x: &Arg, b: &[i128]) -> bool
    ensures { result ≡ row_of_one builtin (worth b.now x.now) }
{
    match builtin {
        Builtin::ArrayBoolXor => is_odd(members(x), b),
        _ => false,
    }
}

fn holds_of_two(builtin: Builtin, x: &Arg, y: &Arg, b: &[i128]) -> bool
    ensures { result ≡ row_of_two builtin (worth b.now x.now) (worth b.now y.now) }
{
    match builtin {
        Builtin::IntEq | Builtin::Bool2Int | Builtin::BoolEq => number(x, b) == number(y, b),
        Builtin::IntNe | Builtin::BoolNot | Builtin::BoolXor => number(x, b) != number(y, b),
        Builtin::IntLe | Builtin::BoolLe => number(x, b) <= number(y, b),
        Builtin::IntLt | Builtin::BoolLt => number(x, b) < number(y, b),
        Builtin::IntAbs => is_absolute(number(x, b), number(y, b)),
        Builtin::ArrayIntMinimum => {
            let least = number(x, b);
            some_is(members(y), least, b) && none_is_less(members(y), least, b)
        }
        Builtin::ArrayIntMaximum => {
            let greatest = number(x, b);
            some_is(members(y), greatest, b) && none_is_greater(members(y), greatest, b)
        }
        Builtin::BoolClause => some_is(members(x), 1, b) || some_is(members(y), 0, b),
        Builtin::ArrayBoolAnd => is_truth(y, all_are(members(x), 1, b), b),
        Builtin::ArrayBoolOr => is_truth(y, some_is(members(x), 1, b), b),
        Builtin::SetIn => has(y, number(x, b)),
        _ => false,
    }
}

fn holds_of_three(builtin: Builtin, x: &Arg, y: &Arg, z: &Arg, b: &[i128]) -> bool
    requires { WorkFits (map exactly b.now) (work_of builtin) (x.now ∷ y.now ∷ z.now ∷ []) }
    ensures { result ≡ row_of_three builtin (worth b.now x.now) (worth b.now y.now) (worth b.now z.now) }
{
    match builtin {
        Builtin::IntLinEq | Builtin::BoolLinEq => dot(x, y, b) == number(z, b),
        Builtin::IntLinNe => dot(x, y, b) != number(z, b),
        Builtin::IntLinLe | Builtin::BoolLinLe => dot(x, y, b) <= number(z, b),
        Builtin::IntPlus => plus(x, y, b) == number(z, b),
        Builtin::IntTimes => times(x, y, b) == number(z, b),
        Builtin::IntDiv => is_quotient(number(x, b), number(y, b), number(z, b)),
        Builtin::IntMod => is_remainder(number(x, b), number(y, b), number(z, b)),
        Builtin::IntMin => number(x, b).min(number(y, b)) == number(z, b),
        Builtin::IntMax => number(x, b).max(number(y, b)) == number(z, b),
        Builtin::ArrayIntElement
        | Builtin::ArrayVarIntElement
        | Builtin::ArrayBoolElement
        | Builtin::ArrayVarBoolElement => { is_element(number(x, b), members(y), number(z, b), b) }
        Builtin::BoolAnd => is_truth(z, number(x, b) == 1 && number(y, b) == 1, b),
        Builtin::BoolOr => is_truth(z, number(x, b) == 1 || number(y, b) == 1, b),
        Builtin::BoolXor => is_truth(z, holds_of_two(Builtin::BoolXor, x, y, b), b),
        _ => reified_of_three(builtin, x, y, z, b),
    }
}

/// The `_reif` rows with three arguments; false for another builtin.
fn reified_of_three(builtin: Builtin, x: &Arg, y: &Arg, r: &Arg, b: &[i128]) -> bool
    ensures { result ≡ reified_of_three builtin (worth b.now x.now) (worth b.now y.now) (worth b.now r.now) }
{
    let plain = match builtin {
        Builtin::IntEqReif => Builtin::IntEq,
        Builtin::IntNeReif => Builtin::IntNe,
        Builtin::IntLeReif => Builtin::IntLe,
        Builtin::IntLtReif => Builtin::IntLt,
        Builtin::BoolEqReif => Builtin::BoolEq,
        Builtin::BoolLeReif => Builtin::BoolLe,
        Builtin::BoolLtReif => Builtin::BoolLt,
        Builtin::BoolClauseReif => Builtin::BoolClause,
        Builtin::SetInReif => Builtin::SetIn,
        _ => return false,
    };
    is_truth(r, holds_of_two(plain, x, y, b), b)
}

fn holds_of_four(builtin: Builtin, x: &Arg, y: &Arg, z: &Arg, r: &Arg, b: &[i128]) -> bool
    requires { WorkFits (map exactly b.now) (work_of builtin) (x.now ∷ y.now ∷ z.now ∷ r.now ∷ []) }
    ensures { result ≡ row_of_four builtin (worth b.now x.now) (worth b.now y.now) (worth b.now z.now) (worth b.now r.now) }
{
    match builtin {
        Builtin::IntLinEqReif => is_truth(r, dot(x, y, b) == number(z, b), b),
        Builtin::IntLinNeReif => is_truth(r, dot(x, y, b) != number(z, b), b),
        Builtin::IntLinLeReif => is_truth(r, dot(x, y, b) <= number(z, b), b),
        _ => false,
    }
}
