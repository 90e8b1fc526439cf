//! Calls that are made of their arguments, each at the place 0.

ghost use Rattle.std.specs.Prelude.{◌≡◌, ◌∷◌, [], IfOk};
ghost use Rattle.fz_model.specs.Calls.{call_of, ne_call};

use crate::builtin::Builtin;
use crate::model::{Arg, Args, Call};
use std::alloc::Global;
use xf_num::{NoMemory, Row};

fn one(alloc: Global, x: Arg) -> Result<Args, NoMemory>
    ensures { IfOk result (λ args. args ≡ x ∷ []) }
{
    let mut args = Row::new(alloc);
    args.push(x)?;
    Ok(args)
}

fn two(alloc: Global, x: Arg, y: Arg) -> Result<Args, NoMemory>
    ensures { IfOk result (λ args. args ≡ x ∷ y ∷ []) }
{
    let mut args = one(alloc, x)?;
    args.push(y)?;
    Ok(args)
}

fn three(alloc: Global, x: Arg, y: Arg, z: Arg) -> Result<Args, NoMemory>
    ensures { IfOk result (λ args. args ≡ x ∷ y ∷ z ∷ []) }
{
    let mut args = two(alloc, x, y)?;
    args.push(z)?;
    Ok(args)
}

fn four(alloc: Global, x: Arg, y: Arg, z: Arg, r: Arg) -> Result<Args, NoMemory>
    ensures { IfOk result (λ args. args ≡ x ∷ y ∷ z ∷ r ∷ []) }
{
    let mut args = three(alloc, x, y, z)?;
    args.push(r)?;
    Ok(args)
}

/// The call of the builtin with these arguments, at the place 0.
pub fn call_of(builtin: Builtin, args: Args) -> Call
    ensures { result ≡ call_of builtin args }
{
    Call {
        builtin,
        args,
        place: 0,
    }
}

/// The call of the builtin with one argument, at the place 0.
pub fn call_of_one(alloc: Global, builtin: Builtin, x: Arg) -> Result<Call, NoMemory>
    ensures { IfOk result (λ call. call ≡ call_of builtin (x ∷ [])) }
{
    Ok(call_of(builtin, one(alloc, x)?))
}

/// The call of the builtin with two arguments, at the place 0.
pub fn call_of_two(alloc: Global, builtin: Builtin, x: Arg, y: Arg) -> Result<Call, NoMemory>
    ensures { IfOk result (λ call. call ≡ call_of builtin (x ∷ y ∷ [])) }
{
    Ok(call_of(builtin, two(alloc, x, y)?))
}

/// The call of the builtin with three arguments, at the place 0.
pub fn call_of_three(
    alloc: Global,
    builtin: Builtin,
    x: Arg,
    y: Arg,
    z: Arg,
) -> Result<Call, NoMemory>
    ensures { IfOk result (λ call. call ≡ call_of builtin (x ∷ y ∷ z ∷ [])) }
{
    Ok(call_of(builtin, three(alloc, x, y, z)?))
}

/// The call of the builtin with four arguments, at the place 0.
pub fn call_of_four(
    alloc: Global,
    builtin: Builtin,
    x: Arg,
    y: Arg,
    z: Arg,
    r: Arg,
) -> Result<Call, NoMemory>
    ensures { IfOk result (λ call. call ≡ call_of builtin (x ∷ y ∷ z ∷ r ∷ [])) }
{
    Ok(call_of(builtin, four(alloc, x, y, z, r)?))
}

/// The call that states that variable `x` differs from variable `y`.
pub fn int_ne(alloc: Global, x: u64, y: u64) -> Result<Call, NoMemory>
    ensures { IfOk result (λ call. call ≡ ne_call x y) }
{
    call_of_two(alloc, Builtin::IntNe, Arg::Var(x), Arg::Var(y))
}
