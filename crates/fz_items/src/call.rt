//! Calls.

ghost use Rattle.std.specs.Prelude.{◌≡◌, ◌-◌, Some, length, IfOk, OnOk, nat_le};
ghost use Rattle.fz_model.specs.Builtins.{by_name};
ghost use Rattle.fz_model.specs.Kinds.{kinds_at};
ghost use Rattle.fz_values.specs.Kinds.{all_leaves};
ghost use Rattle.fz_items.specs.Items.{call_kinds, is_linear_call, first_two, lengths_fit, call_meets, call_of, with_builtin, call_behind};

use crate::builtin::{is_linear, kinds_of};
use crate::condition::Meets;
use crate::notes::notes_small;
use crate::progress::{Progress, add_call};
use fz_grammar::{Expr, Note};
use fz_model::{Builtin, Call, Kind};
use fz_values::{
    Names, all_fit, all_reach, are_all_small, are_known, args_in, count_in, room_behind,
};
use std::alloc::Global;
use xf_num::NoMemory;

fn by_name(name: &[u8]) -> Option<Builtin>
    ensures { result ≡ by_name name.now }
{
    Builtin::from_name(name)
}

fn call_kinds(builtin: Option<Builtin>, count: usize) -> &'static [Kind]
    ensures { result.now ≡ call_kinds builtin count }
{
    match builtin {
        Some(builtin) => kinds_of(builtin, count),
        None => &[],
    }
}

fn is_linear_call(builtin: Option<Builtin>) -> bool
    ensures { result ≡ is_linear_call builtin }
{
    match builtin {
        Some(builtin) => is_linear(builtin),
        None => false,
    }
}

fn first_two(names: &Names, exprs: &[Expr]) -> bool
    ensures { result ≡ first_two names.now exprs.now }
{
    match exprs {
        [first, second, ..] => count_in(names, first) == count_in(names, second),
        _ => true,
    }
}

fn lengths_fit(names: &Names, linear: bool, exprs: &[Expr]) -> bool
    ensures { result ≡ lengths_fit names.now linear exprs.now }
{
    if linear {
        first_two(names, exprs)
    } else {
        true
    }
}

fn has_room(names: &Names, kinds: &[Kind], exprs: &[Expr], room: u64) -> bool
    ensures { result ≡ nat_le (all_leaves names.now kinds.now exprs.now) room }
{
    room_behind(names, kinds, exprs, room).is_some()
}

/// What a call meets.
pub fn call_meets(progress: &Progress, name: &[u8], exprs: &[Expr], notes: &[Note]) -> Meets
    ensures { result ≡ call_meets progress.now name.now exprs.now notes.now }
{
    let names = &progress.names;
    let builtin = by_name(name);
    let kinds = call_kinds(builtin, exprs.len());
    Meets {
        known: builtin.is_some(),
        naming: are_known(names, exprs),
        kinds: all_fit(names, kinds, exprs),
        magnitude: notes_small(notes) && are_all_small(exprs),
        shape: all_reach(names, kinds, exprs) && lengths_fit(names, is_linear_call(builtin), exprs),
        counting: has_room(names, kinds, exprs, progress.room),
        bounded: true,
    }
}

fn call_of(
    alloc: Global,
    progress: &Progress,
    builtin: Builtin,
    exprs: &[Expr],
    place: u64,
) -> Result<Call, NoMemory>
    ensures { IfOk result (λ c. c ≡ call_of progress.now builtin exprs.now place) }
{
    let args = args_in(
        alloc,
        &progress.names,
        kinds_of(builtin, exprs.len()),
        exprs,
    )?;
    Ok(Call {
        builtin,
        args,
        place,
    })
}

// How much room is left behind the leaves of the call.
fn room_after(names: &Names, builtin: Builtin, exprs: &[Expr], room: u64) -> u64
    ensures { result ≡ room - all_leaves names.now (kinds_at builtin (length exprs.now)) exprs.now }
{
    match room_behind(names, kinds_of(builtin, exprs.len()), exprs, room) {
        Some(left) => left,
        None => 0,
    }
}

fn add_builtin(
    alloc: Global,
    progress: &mut Progress,
    builtin: Builtin,
    exprs: &[Expr],
    place: u64,
) -> Result<(), NoMemory>
    ensures { OnOk result (progress.new ≡ with_builtin progress.old (Some builtin) exprs.now place) }
{
    let call = call_of(alloc, progress, builtin, exprs, place)?;
    let room = room_after(&progress.names, builtin, exprs, progress.room);
    add_call(progress, call, room)
}

/// Appends the call of a name at this place.
pub fn append_call(
    alloc: Global,
    progress: &mut Progress,
    name: &[u8],
    exprs: &[Expr],
    place: u64,
) -> Result<(), NoMemory>
    ensures { OnOk result (progress.new ≡ call_behind progress.old name.now exprs.now place) }
{
    match by_name(name) {
        Some(builtin) => add_builtin(alloc, progress, builtin, exprs, place),
        None => Ok(()),
    }
}
