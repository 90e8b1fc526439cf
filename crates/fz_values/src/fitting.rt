//! Whether expressions are of the kinds that are asked, and whether each member that they name is within its array.

ghost use Rattle.std.specs.Prelude.{◌≡◌};
ghost use Rattle.std.specs.List.{list_all};
ghost use Rattle.std.specs.Option.{option_map};
ghost use Rattle.fz_grammar.specs.declared.tree.Expr.{out-Expr};
ghost use Rattle.fz_values.specs.Values.{one_in};
ghost use Rattle.fz_values.specs.Kinds.{sort_of, suits, suits_found, is_within, all_known, all_step, is_set_known, set_step, fits, all_fit, members_within_step, reaches, all_reach};

use crate::meaning::{Found, Meaning, Single, Sort};
use crate::names::Names;
use crate::value::one_in;
use fz_grammar::Expr;
use fz_model::{Asked, Kind};

fn sort_of(value: Single) -> Sort
    ensures { result ≡ sort_of value }
{
    match value {
        Single::Int(_) => Sort::Int,
        Single::Bool(_) => Sort::Bool,
        Single::IntVar(_) => Sort::IntVar,
        Single::BoolVar(_) => Sort::BoolVar,
    }
}

fn suits(asked: Asked, sort: Sort) -> bool
    ensures { result ≡ suits asked sort }
{
    match (asked, sort) {
        (Asked::Int, Sort::Int | Sort::IntVar) => true,
        (Asked::Bool, Sort::Bool | Sort::BoolVar) => true,
        (Asked::IntConstant, Sort::Int) => true,
        (Asked::BoolConstant, Sort::Bool) => true,
        _ => false,
    }
}

fn suits_found(asked: Asked, found: Found) -> bool
    ensures { result ≡ suits_found asked found }
{
    match found {
        Found::Here(value) => suits(asked, sort_of(value)),
        Found::Past(sort) => suits(asked, sort),
        Found::Other => false,
    }
}

/// Whether it is no member past the end of an array.
pub fn is_within(found: Found) -> bool
    ensures { result ≡ is_within found }
{
    match found {
        Found::Past(_) => false,
        Found::Here(_) => true,
        Found::Other => true,
    }
}

fn all_values(asked: Asked, values: &[Single]) -> bool
    ensures { result ≡ list_all (λ x. suits asked (sort_of x)) values.now }
{
    for value in values {
        if !suits(asked, sort_of(*value)) {
            return false;
        }
    }
    true
}

fn all_known(asked: Asked, found: Option<&Meaning>) -> bool
    ensures { result ≡ all_known asked (option_map (λ x. x.now) found.entry) }
{
    match found {
        Some(Meaning::Array(_, values)) => all_values(asked, values.as_slice()),
        _ => false,
    }
}

fn all_items(names: &Names, asked: Asked, items: &[Expr]) -> bool
    ensures { result ≡ list_all (λ x. suits_found asked (one_in names.now x)) items.now }
{
    for item in items {
        if !suits_found(asked, one_in(names, item)) {
            return false;
        }
    }
    true
}

fn all_members(names: &Names, asked: Asked, expr: &Expr) -> bool
    ensures { result ≡ all_step names.now asked (out-Expr expr.now) }
{
    match expr {
        Expr::List(items) => all_items(names, asked, items.as_slice()),
        Expr::Name(name) => all_known(asked, names.find(name.as_slice())),
        _ => false,
    }
}

fn is_set_known(found: Option<&Meaning>) -> bool
    ensures { result ≡ is_set_known (option_map (λ x. x.now) found.entry) }
{
    match found {
        Some(Meaning::Set(_)) => true,
        _ => false,
    }
}

fn is_set(names: &Names, expr: &Expr) -> bool
    ensures { result ≡ set_step names.now (out-Expr expr.now) }
{
    match expr {
        Expr::Range(_, _) => true,
        Expr::Set(_) => true,
        Expr::Name(name) => is_set_known(names.find(name.as_slice())),
        _ => false,
    }
}

/// Whether the expression is of the kind that is asked, parameters and arrays being replaced by their values.
pub fn fits(names: &Names, kind: Kind, expr: &Expr) -> bool
    ensures { result ≡ fits names.now kind expr.now }
{
    match kind {
        Kind::One(asked) => suits_found(asked, one_in(names, expr)),
        Kind::Many(asked) => all_members(names, asked, expr),
        Kind::Set => is_set(names, expr),
    }
}

/// Whether there are as many expressions as kinds, each of its kind.
pub fn all_fit(names: &Names, kinds: &[Kind], exprs: &[Expr]) -> bool
    ensures { result ≡ all_fit names.now kinds.now exprs.now }
{
    match kinds {
        [] => exprs.is_empty(),
        [kind, more_kinds @ ..] => match exprs {
            [] => false,
            [expr, more @ ..] => fits(names, *kind, expr) && all_fit(names, more_kinds, more),
        },
    }
}

fn items_within(names: &Names, items: &[Expr]) -> bool
    ensures { result ≡ list_all (λ x. is_within (one_in names.now x)) items.now }
{
    for item in items {
        if !is_within(one_in(names, item)) {
            return false;
        }
    }
    true
}

fn members_within(names: &Names, expr: &Expr) -> bool
    ensures { result ≡ members_within_step names.now (out-Expr expr.now) }
{
    match expr {
        Expr::List(items) => items_within(names, items.as_slice()),
        _ => true,
    }
}

/// Whether no member that the expression names is past the end of its array.
pub fn reaches(names: &Names, kind: Kind, expr: &Expr) -> bool
    ensures { result ≡ reaches names.now kind expr.now }
{
    match kind {
        Kind::One(_) => is_within(one_in(names, expr)),
        Kind::Many(_) => members_within(names, expr),
        Kind::Set => true,
    }
}

/// Whether no member that the expressions name is past the end of its array.
pub fn all_reach(names: &Names, kinds: &[Kind], exprs: &[Expr]) -> bool
    ensures { result ≡ all_reach names.now kinds.now exprs.now }
{
    match kinds {
        [] => true,
        [kind, more_kinds @ ..] => match exprs {
            [] => true,
            [expr, more @ ..] => reaches(names, *kind, expr) && all_reach(names, more_kinds, more),
        },
    }
}
