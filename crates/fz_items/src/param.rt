//! Parameters.

ghost use Rattle.std.specs.Prelude.{◌≡◌, nat_le, length, IfOk, OnOk, None};
ghost use Rattle.fz_values.specs.Names.{look_up};
ghost use Rattle.fz_values.specs.Kinds.{members_in};
ghost use Rattle.fz_items.specs.Items.{has_length, param_kind, param_small, param_length, written_leaves, param_leaves, param_meets, param_meaning, param_behind};

use crate::condition::Meets;
use crate::notes::notes_small;
use crate::progress::{Progress, add_name, is_new};
use fz_grammar::{Expr, Note, ParamType};
use fz_model::{Asked, Kind};
use fz_values::{
    Meaning, Names, Sort, are_small, count_in, fits, int_of, is_known, is_small, members_in,
    reaches, set_in, set_leaves_in, single_in,
};
use std::alloc::Global;
use xf_num::NoMemory;

/// Whether the digits spell this length.
pub fn has_length(digits: &[u8], count: usize) -> bool
    ensures { result ≡ has_length digits.now count }
{
    int_of(digits) == count as i128
}

fn param_kind(kind: &ParamType) -> Kind
    ensures { result ≡ param_kind kind.now }
{
    match kind {
        ParamType::Bool => Kind::One(Asked::BoolConstant),
        ParamType::Int => Kind::One(Asked::IntConstant),
        ParamType::SetOfInt => Kind::Set,
        ParamType::Bools(_) => Kind::Many(Asked::BoolConstant),
        ParamType::Ints(_) => Kind::Many(Asked::IntConstant),
    }
}

fn param_small(kind: &ParamType) -> bool
    ensures { result ≡ param_small kind.now }
{
    match kind {
        ParamType::Bools(digits) => is_small(digits.as_slice()),
        ParamType::Ints(digits) => is_small(digits.as_slice()),
        _ => true,
    }
}

fn param_length(kind: &ParamType, count: usize) -> bool
    ensures { result ≡ param_length kind.now count }
{
    match kind {
        ParamType::Bools(digits) => has_length(digits.as_slice(), count),
        ParamType::Ints(digits) => has_length(digits.as_slice(), count),
        _ => true,
    }
}

fn written_leaves(names: &Names, expr: &Expr) -> usize
    ensures { result ≡ written_leaves names.now expr.now }
{
    match expr {
        Expr::Range(_, _) => 2,
        _ => set_leaves_in(names, expr),
    }
}

fn param_leaves(names: &Names, kind: &ParamType, expr: &Expr) -> u64
    ensures { result ≡ param_leaves names.now kind.now expr.now }
{
    match kind {
        ParamType::Bool => 0,
        ParamType::Int => 0,
        ParamType::SetOfInt => written_leaves(names, expr) as u64,
        ParamType::Bools(_) => count_in(names, expr) as u64,
        ParamType::Ints(_) => count_in(names, expr) as u64,
    }
}

/// What a parameter meets.
pub fn param_meets(
    progress: &Progress,
    kind: &ParamType,
    name: &[u8],
    notes: &[Note],
    expr: &Expr,
) -> Meets
    ensures { result ≡ param_meets progress.now kind.now name.now notes.now expr.now }
{
    let names = &progress.names;
    let asked = param_kind(kind);
    Meets {
        known: true,
        naming: is_new(progress, name) && is_known(names, expr),
        kinds: fits(names, asked, expr),
        magnitude: param_small(kind) && (notes_small(notes) && are_small(expr)),
        shape: param_length(kind, count_in(names, expr)) && reaches(names, asked, expr),
        counting: param_leaves(names, kind, expr) <= progress.room,
        bounded: true,
    }
}

fn param_meaning(
    alloc: Global,
    names: &Names,
    kind: &ParamType,
    expr: &Expr,
) -> Result<Meaning, NoMemory>
    ensures { IfOk result (λ m. m ≡ param_meaning names.now kind.now expr.now) }
{
    match kind {
        ParamType::Bool => Ok(Meaning::One(single_in(names, expr))),
        ParamType::Int => Ok(Meaning::One(single_in(names, expr))),
        ParamType::SetOfInt => {
            let set = set_in(alloc, names, expr)?;
            Ok(Meaning::Set(set))
        }
        ParamType::Bools(_) => {
            let members = members_in(alloc, names, expr)?;
            Ok(Meaning::Array(Sort::Bool, members))
        }
        ParamType::Ints(_) => {
            let members = members_in(alloc, names, expr)?;
            Ok(Meaning::Array(Sort::Int, members))
        }
    }
}

/// Declares a parameter.
pub fn add_param(
    alloc: Global,
    progress: &mut Progress,
    kind: &ParamType,
    name: &[u8],
    expr: &Expr,
) -> Result<(), NoMemory>
    requires { look_up progress.old.names name.now ≡ None }
    ensures { OnOk result (progress.new ≡ param_behind progress.old kind.now name.now expr.now) }
{
    let meaning = param_meaning(alloc, &progress.names, kind, expr)?;
    let leaves = param_leaves(&progress.names, kind, expr);
    add_name(alloc, progress, name, meaning, leaves)
}
