//! Conditions on sums.

ghost use Rattle.std.specs.Prelude.{◌≡◌, ◌∷◌, ◌++◌, [], map, IfOk, pos};
ghost use Rattle.std.specs.List.{All};
ghost use Rattle.fz_model.specs.declared.model.Arg.TheVariants as arg;
ghost use Rattle.lo_emit.specs.Emitted.{constants_of};
ghost use Rattle.lo_emit.specs.Sums.{builtin_of, turned, own, constant_for, sum_call, IsNegatable, IsNegatableTerm};

use crate::compare::Relation;
use crate::term::{Term, list_of, list_with};
use fz_model::{Arg, Args, Builtin, Call, call_of_three};
use std::alloc::Global;
use xf_num::{NoMemory, Row};

fn builtin_of(relation: Relation) -> Builtin
    ensures { result ≡ builtin_of relation }
{
    match relation {
        Relation::Eq => Builtin::IntLinEq,
        Relation::Ne => Builtin::IntLinNe,
        Relation::Lt | Relation::Le | Relation::Ge | Relation::Gt => Builtin::IntLinLe,
    }
}

fn turned(relation: Relation, coefficient: i128) -> i128
    requires { IsNegatable coefficient }
    ensures { result ≡ turned relation coefficient }
{
    match relation {
        Relation::Ge | Relation::Gt => -coefficient,
        Relation::Lt | Relation::Le | Relation::Eq | Relation::Ne => coefficient,
    }
}

fn own(relation: Relation) -> i128
    ensures { result ≡ own relation }
{
    match relation {
        Relation::Ge | Relation::Gt => 1,
        Relation::Lt | Relation::Le | Relation::Eq | Relation::Ne => -1,
    }
}

fn constant_for(relation: Relation, bound: i128) -> i128
    requires { IsNegatable bound }
    ensures { result ≡ constant_for relation bound }
{
    match relation {
        Relation::Lt => bound - 1,
        Relation::Ge => -bound,
        Relation::Gt => -bound - 1,
        Relation::Le | Relation::Eq | Relation::Ne => bound,
    }
}

/// The coefficients of a relation, as arguments.
fn all_turned(alloc: Global, relation: Relation, coefficients: &[i128]) -> Result<Args, NoMemory>
    requires { All IsNegatable coefficients.now }
    ensures { IfOk result (λ args. args ≡ map arg.Int (map (turned relation) coefficients.now)) }
{
    let mut args = Row::new(alloc);
    for coefficient in coefficients {
        args.push(Arg::Int(turned(relation, *coefficient)))?;
    }
    Ok(args)
}

/// The same with that of the other side.
fn turned_with_own(
    alloc: Global,
    relation: Relation,
    coefficients: &[i128],
) -> Result<Arg, NoMemory>
    requires { All IsNegatable coefficients.now }
    ensures { IfOk result (λ a. a ≡ constants_of (map (turned relation) coefficients.now ++ own relation ∷ [])) }
{
    let mut args = all_turned(alloc, relation, coefficients)?;
    args.push(Arg::Int(own(relation)))?;
    Ok(Arg::List(args))
}

/// The call that states how a sum of products is related to a term.
pub fn sum_call(
    alloc: Global,
    relation: Relation,
    coefficients: &[i128],
    terms: &[Term],
    bound: Term,
) -> Result<Call, NoMemory>
    requires coefficients { All IsNegatable coefficients.now }
    requires bound { IsNegatableTerm bound }
    ensures { IfOk result (λ call. call ≡ sum_call relation coefficients.now terms.now bound) }
{
    match bound {
        Term::Int(k) => call_of_three(
            alloc,
            builtin_of(relation),
            Arg::List(all_turned(alloc, relation, coefficients)?),
            list_of(alloc, terms)?,
            Arg::Int(constant_for(relation, k)),
        ),
        Term::Truth(_) | Term::Var(_) => call_of_three(
            alloc,
            builtin_of(relation),
            turned_with_own(alloc, relation, coefficients)?,
            list_with(alloc, terms, bound)?,
            Arg::Int(constant_for(relation, 0)),
        ),
    }
}
