//! The size of a model.

ghost use Rattle.std.specs.Prelude.{◌≡◌, ◌<◌, ◌^◌, map, sum};
ghost use Rattle.fz_model.specs.Size.{leaves_of, call_leaves, size_of};

use crate::model::{Arg, Call, Model};

#[cycle(leaves)]
fn leaves(arg: &Arg) -> u64
    requires { leaves_of arg.now < 2 ^ 64 }
    ensures { result ≡ leaves_of arg.now }
{
    match arg {
        Arg::Int(_) | Arg::Bool(_) | Arg::Var(_) => 1,
        Arg::Range(_) => 2,
        Arg::Set(members) => members.len() as u64,
        Arg::List(items) => all_leaves(items.as_slice()),
    }
}

#[cycle(leaves)]
fn all_leaves(args: &[Arg]) -> u64
    requires { sum (map leaves_of args.now) < 2 ^ 64 }
    ensures { result ≡ sum (map leaves_of args.now) }
{
    let mut total = 0;
    for arg in args {
        total += leaves(arg);
    }
    total
}

fn leaves_of_calls(calls: &[Call]) -> u64
    requires { sum (map call_leaves calls.now) < 2 ^ 64 }
    ensures { result ≡ sum (map call_leaves calls.now) }
{
    let mut total = 0;
    for call in calls {
        total += all_leaves(call.args.as_slice());
    }
    total
}

/// The number of variables and of the leaves of all calls: one for each integer, Boolean or variable, also inside lists
/// and sets, and two for a range. It asks that this is below 2^64, and takes no memory.
pub fn size(model: &Model) -> u64
    requires { size_of model.now < 2 ^ 64 }
    ensures { result ≡ size_of model.now }
{
    model.vars.len() as u64 + leaves_of_calls(model.calls.as_slice())
}
