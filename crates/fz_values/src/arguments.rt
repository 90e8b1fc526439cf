//! The arguments that expressions make, and how many leaves these have.

ghost use Rattle.std.specs.Prelude.{◌≡◌, ◌≤◌, ◌-◌, map, length, IfOk, SomeIff};
ghost use Rattle.std.specs.Option.{option_map};
ghost use Rattle.fz_grammar.specs.declared.tree.Expr.{out-Expr};
ghost use Rattle.fz_values.specs.Integers.{int_of};
ghost use Rattle.fz_values.specs.Values.{one_in};
ghost use Rattle.fz_values.specs.Kinds.{single_of, members_known, members_in, range_of, set_known, set_in, arg_of, set_arg, arg_in, args_in, set_leaves, leaves_in, all_leaves};

use crate::integer::int_of;
use crate::meaning::{Found, Meaning, SetOf, Single};
use crate::names::Names;
use crate::value::one_in;
use fz_grammar::Expr;
use fz_model::{Arg, Args, Kind};
use std::alloc::Global;
use xf_num::{Ints, NoMemory, Row, Span, Text};

fn single_of(found: Found) -> Single
    ensures { result ≡ single_of found }
{
    match found {
        Found::Here(value) => value,
        Found::Past(_) => Single::Int(0),
        Found::Other => Single::Int(0),
    }
}

/// The one value that an expression stands for. Where it stands for none it is 0, and the expression is refused.
pub fn single_in(names: &Names, expr: &Expr) -> Single
    ensures { result ≡ single_of (one_in names.now expr.now) }
{
    single_of(one_in(names, expr))
}

fn items_in(alloc: Global, names: &Names, items: &[Expr]) -> Result<Row<Single>, NoMemory>
    ensures { IfOk result (λ r. r ≡ map (λ x. single_of (one_in names.now x)) items.now) }
{
    let mut row = Row::new(alloc);
    for item in items {
        row.push(single_in(names, item))?;
    }
    Ok(row)
}

fn known_members(alloc: Global, found: Option<&Meaning>) -> Result<Row<Single>, NoMemory>
    ensures { IfOk result (λ r. r ≡ members_known (option_map (λ x. x.now) found.entry)) }
{
    match found {
        Some(Meaning::Array(_, values)) => values.copy(alloc),
        _ => Ok(Row::new(alloc)),
    }
}

/// The members of an array.
pub fn members_in(alloc: Global, names: &Names, expr: &Expr) -> Result<Row<Single>, NoMemory>
    ensures { IfOk result (λ r. r ≡ members_in names.now expr.now) }
{
    match expr {
        Expr::List(items) => items_in(alloc, names, items.as_slice()),
        Expr::Name(name) => known_members(alloc, names.find(name.as_slice())),
        _ => Ok(Row::new(alloc)),
    }
}

fn known_count(found: Option<&Meaning>) -> usize
    ensures { result ≡ length (members_known (option_map (λ x. x.now) found.entry)) }
{
    match found {
        Some(Meaning::Array(_, values)) => values.len(),
        _ => 0,
    }
}

/// How many members an array has.
pub fn count_in(names: &Names, expr: &Expr) -> usize
    ensures { result ≡ length (members_in names.now expr.now) }
{
    match expr {
        Expr::List(items) => items.len(),
        Expr::Name(name) => known_count(names.find(name.as_slice())),
        _ => 0,
    }
}

/// The integers that these digits spell.
pub fn ints_of(alloc: Global, digits: &[Text]) -> Result<Ints, NoMemory>
    ensures { IfOk result (λ r. r ≡ map int_of digits.now) }
{
    let mut row = Row::new(alloc);
    for text in digits {
        row.push(int_of(text.as_slice()))?;
    }
    Ok(row)
}

fn range_of(alloc: Global, low: i128, high: i128) -> SetOf
    ensures { result ≡ range_of low high }
{
    match Span::new(low, high) {
        Some(span) => SetOf::Range(span),
        None => SetOf::Members(Row::new(alloc)),
    }
}

fn copy_set(alloc: Global, set: &SetOf) -> Result<SetOf, NoMemory>
    ensures { IfOk result (λ r. r ≡ set.now) }
{
    match set {
        SetOf::Range(span) => Ok(SetOf::Range(*span)),
        SetOf::Members(members) => {
            let copy = members.copy(alloc)?;
            Ok(SetOf::Members(copy))
        }
    }
}

fn known_set(alloc: Global, found: Option<&Meaning>) -> Result<SetOf, NoMemory>
    ensures { IfOk result (λ r. r ≡ set_known (option_map (λ x. x.now) found.entry)) }
{
    match found {
        Some(Meaning::Set(set)) => copy_set(alloc, set),
        _ => Ok(SetOf::Members(Row::new(alloc))),
    }
}

/// The set that an expression stands for.
pub fn set_in(alloc: Global, names: &Names, expr: &Expr) -> Result<SetOf, NoMemory>
    ensures { IfOk result (λ r. r ≡ set_in names.now expr.now) }
{
    match expr {
        Expr::Range(low, high) => {
            Ok(range_of(alloc, int_of(low.as_slice()), int_of(high.as_slice())))
        }
        Expr::Set(digits) => {
            let members = ints_of(alloc, digits.as_slice())?;
            Ok(SetOf::Members(members))
        }
        Expr::Name(name) => known_set(alloc, names.find(name.as_slice())),
        _ => Ok(SetOf::Members(Row::new(alloc))),
    }
}

/// A value as an argument.
pub fn arg_of(value: Single) -> Arg
    ensures { result ≡ arg_of value }
{
    match value {
        Single::Int(integer) => Arg::Int(integer),
        Single::Bool(flag) => Arg::Bool(flag),
        Single::IntVar(variable) => Arg::Var(variable),
        Single::BoolVar(variable) => Arg::Var(variable),
    }
}

/// Values as arguments.
pub fn args_of(alloc: Global, values: &[Single]) -> Result<Args, NoMemory>
    ensures { IfOk result (λ r. r ≡ map arg_of values.now) }
{
    let mut row = Row::new(alloc);
    for value in values {
        row.push(arg_of(*value))?;
    }
    Ok(row)
}

fn set_arg(set: SetOf) -> Arg
    ensures { result ≡ set_arg set }
{
    match set {
        SetOf::Range(span) => Arg::Range(span),
        SetOf::Members(members) => Arg::Set(members),
    }
}

fn list_in(alloc: Global, names: &Names, expr: &Expr) -> Result<Args, NoMemory>
    ensures { IfOk result (λ r. r ≡ map arg_of (members_in names.now expr.now)) }
{
    let members = members_in(alloc, names, expr)?;
    args_of(alloc, members.as_slice())
}

/// The argument of this kind that an expression makes.
pub fn arg_in(alloc: Global, names: &Names, kind: Kind, expr: &Expr) -> Result<Arg, NoMemory>
    ensures { IfOk result (λ r. r ≡ arg_in names.now kind expr.now) }
{
    match kind {
        Kind::One(_) => Ok(arg_of(single_in(names, expr))),
        Kind::Many(_) => {
            let list = list_in(alloc, names, expr)?;
            Ok(Arg::List(list))
        }
        Kind::Set => {
            let set = set_in(alloc, names, expr)?;
            Ok(set_arg(set))
        }
    }
}

/// The arguments of these kinds that expressions make.
pub fn args_in(
    alloc: Global,
    names: &Names,
    kinds: &[Kind],
    exprs: &[Expr],
) -> Result<Args, NoMemory>
    ensures { IfOk result (λ r. r ≡ args_in names.now kinds.now exprs.now) }
{
    let mut row = Row::new(alloc);
    for at in 0..kinds.len().min(exprs.len()) {
        let arg = arg_in(alloc, names, kinds[at], &exprs[at])?;
        row.push(arg)?;
    }
    Ok(row)
}

fn known_set_leaves(found: Option<&Meaning>) -> usize
    ensures { result ≡ set_leaves (set_known (option_map (λ x. x.now) found.entry)) }
{
    match found {
        Some(Meaning::Set(SetOf::Range(_))) => 2,
        Some(Meaning::Set(SetOf::Members(members))) => members.len(),
        _ => 0,
    }
}

fn range_leaves(low: i128, high: i128) -> usize
    ensures { result ≡ set_leaves (range_of low high) }
{
    if low <= high { 2 } else { 0 }
}

/// How many leaves the set has that an expression stands for: its members, and two for a range.
pub fn set_leaves_in(names: &Names, expr: &Expr) -> usize
    ensures { result ≡ set_leaves (set_in names.now expr.now) }
{
    match expr {
        Expr::Range(low, high) => range_leaves(int_of(low.as_slice()), int_of(high.as_slice())),
        Expr::Set(digits) => digits.len(),
        Expr::Name(name) => known_set_leaves(names.find(name.as_slice())),
        _ => 0,
    }
}

/// How many leaves the argument has that an expression makes.
pub fn leaves_in(names: &Names, kind: Kind, expr: &Expr) -> usize
    ensures { result ≡ leaves_in names.now kind expr.now }
{
    match kind {
        Kind::One(_) => 1,
        Kind::Many(_) => count_in(names, expr),
        Kind::Set => set_leaves_in(names, expr),
    }
}

/// How much is left of `room` behind the leaves of the arguments that expressions make; None where these are more.
pub fn room_behind(names: &Names, kinds: &[Kind], exprs: &[Expr], room: u64) -> Option<u64>
    ensures { SomeIff result (all_leaves names.now kinds.now exprs.now ≤ room) (room - all_leaves names.now kinds.now exprs.now) }
{
    match kinds {
        [] => Some(room),
        [kind, more_kinds @ ..] => match exprs {
            [] => Some(room),
            [expr, more @ ..] => {
                let leaves = leaves_in(names, *kind, expr) as u64;
                if leaves <= room {
                    room_behind(names, more_kinds, more, room - leaves)
                } else {
                    None
                }
            }
        },
    }
}
