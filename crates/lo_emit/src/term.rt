//! What stands for a number in a call.

ghost use Rattle.std.specs.Prelude.{◌≡◌, ◌∷◌, ◌++◌, [], IfOk, map};
ghost use Rattle.lo_emit.specs.Emitted.{arg_of, list_of, constants_of, clause};
ghost use Rattle.fz_model.specs.declared.model.Arg.TheVariants as arg;
ghost use Rattle.lo_emit.specs.declared.term.Term.TheVariants.{Var};

use fz_model::{Arg, Args, Builtin, Call, call_of_two};
use std::alloc::Global;
use xf_num::{NoMemory, Row};

/// A constant, or a variable by its number.
#[derive(Clone, Copy)]
pub enum Term {
    /// An integer.
    Int(i128),
    /// A truth value.
    Truth(bool),
    /// The variable with this number.
    Var(u64),
}

/// The argument that a term is.
pub fn arg_of(term: Term) -> Arg
    ensures { result ≡ arg_of term }
{
    match term {
        Term::Int(value) => Arg::Int(value),
        Term::Truth(truth) => Arg::Bool(truth),
        Term::Var(number) => Arg::Var(number),
    }
}

/// The terms that these variables are.
pub fn variables_of(alloc: Global, list: &[u32]) -> Result<Row<Term>, NoMemory>
    ensures { IfOk result (λ terms. terms ≡ map Var list.now) }
{
    let mut terms = Row::new(alloc);
    for variable in list {
        terms.push(Term::Var(u64::from(*variable)))?;
    }
    Ok(terms)
}

/// The arguments that stand for these.
pub fn args_of(alloc: Global, terms: &[Term]) -> Result<Args, NoMemory>
    ensures { IfOk result (λ args. args ≡ map arg_of terms.now) }
{
    let mut args = Row::new(alloc);
    for term in terms {
        args.push(arg_of(*term))?;
    }
    Ok(args)
}

/// The list of these terms.
pub fn list_of(alloc: Global, terms: &[Term]) -> Result<Arg, NoMemory>
    ensures { IfOk result (λ a. a ≡ list_of terms.now) }
{
    Ok(Arg::List(args_of(alloc, terms)?))
}

/// The list of these terms, with one more.
pub fn list_with(alloc: Global, terms: &[Term], last: Term) -> Result<Arg, NoMemory>
    ensures { IfOk result (λ a. a ≡ list_of (terms.now ++ last ∷ [])) }
{
    let mut args = args_of(alloc, terms)?;
    args.push(arg_of(last))?;
    Ok(Arg::List(args))
}

/// The arguments that these constants are.
fn integers_of(alloc: Global, values: &[i128]) -> Result<Args, NoMemory>
    ensures { IfOk result (λ args. args ≡ map arg.Int values.now) }
{
    let mut args = Row::new(alloc);
    for value in values {
        args.push(Arg::Int(*value))?;
    }
    Ok(args)
}

/// The list of these constants.
pub fn constants_of(alloc: Global, values: &[i128]) -> Result<Arg, NoMemory>
    ensures { IfOk result (λ a. a ≡ constants_of values.now) }
{
    Ok(Arg::List(integers_of(alloc, values)?))
}

/// The set of these constants.
pub fn set_of(alloc: Global, values: &[i128]) -> Result<Arg, NoMemory>
    ensures { IfOk result (λ a. a ≡ arg.Set values.now) }
{
    let mut set = Row::new(alloc);
    set.extend(values)?;
    Ok(Arg::Set(set))
}

/// The call that says that one of the first is true, or one of the second false.
pub fn clause(alloc: Global, positive: &[Term], negative: &[Term]) -> Result<Call, NoMemory>
    ensures { IfOk result (λ call. call ≡ clause positive.now negative.now) }
{
    call_of_two(
        alloc,
        Builtin::BoolClause,
        list_of(alloc, positive)?,
        list_of(alloc, negative)?,
    )
}
