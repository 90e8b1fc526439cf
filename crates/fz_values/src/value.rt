//! What an expression stands for, where one value may stand.

ghost use Rattle.std.specs.Prelude.{◌≡◌, ◌&&◌, is_some, map};
ghost use Rattle.std.specs.List.{list_all};
ghost use Rattle.std.specs.Option.{option_map};
ghost use Rattle.fz_values.specs.Integers.{is_small};
ghost use Rattle.fz_values.specs.Names.{look_up};
ghost use Rattle.fz_values.specs.Values.{member_at, named, indexed, one_in, is_known, are_small};

use crate::integer::{int_of, is_small};
use crate::meaning::{Found, Meaning, Single, Sort};
use crate::names::Names;
use fz_grammar::Expr;
use xf_num::Text;

// The member at this index of an array, which counts from 1.
fn member_at(sort: Sort, members: &[Single], index: i128) -> Found
    ensures { result ≡ member_at sort members.now index }
{
    if index < 1 {
        return Found::Past(sort);
    }
    let before = (index - 1) as u128;
    if before < members.len() as u128 {
        Found::Here(members[before as usize])
    } else {
        Found::Past(sort)
    }
}

/// The value that a name stands for.
pub fn named(found: Option<&Meaning>) -> Found
    ensures { result ≡ named (option_map (λ x. x.now) found.entry) }
{
    match found {
        Some(Meaning::One(value)) => Found::Here(*value),
        _ => Found::Other,
    }
}

/// The member at this index of what a name stands for.
pub fn indexed(index: i128, found: Option<&Meaning>) -> Found
    ensures { result ≡ indexed index (option_map (λ x. x.now) found.entry) }
{
    match found {
        Some(Meaning::Array(sort, members)) => member_at(*sort, members.as_slice(), index),
        _ => Found::Other,
    }
}

/// The one value that an expression stands for.
pub fn one_in(names: &Names, expr: &Expr) -> Found
    ensures { result ≡ one_in names.now expr.now }
{
    match expr {
        Expr::Bool(flag) => Found::Here(Single::Bool(*flag)),
        Expr::Int(digits) => Found::Here(Single::Int(int_of(digits.as_slice()))),
        Expr::Name(name) => named(names.find(name.as_slice())),
        Expr::Index(name, digits) => indexed(
            int_of(digits.as_slice()),
            names.find(name.as_slice()),
        ),
        Expr::Range(_, _) => Found::Other,
        Expr::Set(_) => Found::Other,
        Expr::List(_) => Found::Other,
        Expr::Decimal(_) => Found::Other,
        Expr::Words(_) => Found::Other,
        Expr::Call(_, _) => Found::Other,
    }
}

/// Whether the name is declared.
pub fn is_declared(names: &Names, name: &[u8]) -> bool
    ensures { result ≡ is_some (look_up names.now name.now) }
{
    names.find(name).is_some()
}

/// Whether each name in the expression is declared.
#[cycle(known)]
pub fn is_known(names: &Names, expr: &Expr) -> bool
    ensures { result ≡ is_known names.now expr.now }
{
    match expr {
        Expr::Name(name) => is_declared(names, name.as_slice()),
        Expr::Index(name, _) => is_declared(names, name.as_slice()),
        Expr::List(items) => are_known(names, items.as_slice()),
        Expr::Call(_, items) => are_known(names, items.as_slice()),
        Expr::Bool(_) => true,
        Expr::Int(_) => true,
        Expr::Range(_, _) => true,
        Expr::Set(_) => true,
        Expr::Decimal(_) => true,
        Expr::Words(_) => true,
    }
}

/// Whether each name in the expressions is declared.
#[cycle(known)]
pub fn are_known(names: &Names, items: &[Expr]) -> bool
    ensures { result ≡ list_all (λ b. b) (map (is_known names.now) items.now) }
{
    for item in items {
        if !is_known(names, item) {
            return false;
        }
    }
    true
}

/// Whether the magnitude of each of the integers is at most 2^126 - 1.
pub fn are_small_digits(items: &[Text]) -> bool
    ensures { result ≡ list_all is_small items.now }
{
    for item in items {
        if !is_small(item.as_slice()) {
            return false;
        }
    }
    true
}

fn are_both_small(low: &[u8], high: &[u8]) -> bool
    ensures { result ≡ (is_small low.now && is_small high.now) }
{
    is_small(low) && is_small(high)
}

/// Whether the magnitude of each integer in the expression is at most 2^126 - 1.
#[cycle(small)]
pub fn are_small(expr: &Expr) -> bool
    ensures { result ≡ are_small expr.now }
{
    match expr {
        Expr::Int(digits) => is_small(digits.as_slice()),
        Expr::Range(low, high) => are_both_small(low.as_slice(), high.as_slice()),
        Expr::Set(members) => are_small_digits(members.as_slice()),
        Expr::Index(_, digits) => is_small(digits.as_slice()),
        Expr::List(items) => are_all_small(items.as_slice()),
        Expr::Call(_, items) => are_all_small(items.as_slice()),
        Expr::Bool(_) => true,
        Expr::Name(_) => true,
        Expr::Decimal(_) => true,
        Expr::Words(_) => true,
    }
}

/// Whether the magnitude of each integer in the expressions is at most 2^126 - 1.
#[cycle(small)]
pub fn are_all_small(items: &[Expr]) -> bool
    ensures { result ≡ list_all (λ b. b) (map are_small items.now) }
{
    for item in items {
        if !are_small(item) {
            return false;
        }
    }
    true
}
