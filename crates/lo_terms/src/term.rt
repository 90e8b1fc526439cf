//! What stands for an expression in a call.

ghost use Rattle.std.specs.Prelude.{◌≡◌, ◌∷◌, ◌++◌, [], IfOk, map};
ghost use Rattle.lo_emit.specs.Emitted.{arg_of, list_of};
ghost use Rattle.lo_terms.specs.Rules.{operand_at, terms_of};

use fz_model::{Arg, Args};
use lo_emit::{Term, arg_of};
use std::alloc::Global;
use xf_num::{NoMemory, Row, Span};

/// What stands for an operand, and its bounds.
#[derive(Clone, Copy)]
pub struct Operand {
    pub term: Term,
    pub span: Span,
}

/// What is asked of an expression: to be a number, to be a truth value, or to be stated.
#[derive(Clone, Copy)]
pub enum Mode {
    Number,
    Logic,
    Stated,
}

/// The arguments that stand for the operands.
pub(crate) fn args_of(alloc: Global, operands: &[Operand]) -> Result<Args, NoMemory>
    ensures { IfOk result (λ args. args ≡ map arg_of (terms_of operands.now)) }
{
    let mut args = Row::new(alloc);
    for operand in operands {
        args.push(arg_of(operand.term))?;
    }
    Ok(args)
}

/// The list of what stands for the operands, and of one term more.
pub(crate) fn list_with(alloc: Global, operands: &[Operand], last: Term) -> Result<Arg, NoMemory>
    ensures { IfOk result (λ a. a ≡ list_of (terms_of operands.now ++ last ∷ [])) }
{
    let mut args = args_of(alloc, operands)?;
    args.push(arg_of(last))?;
    Ok(Arg::List(args))
}

/// The operand at a place, or 0 where there is none.
pub(crate) fn operand_at(operands: &[Operand], place: usize) -> Operand
    ensures { result ≡ operand_at operands.now place }
{
    match operands.get(place) {
        Some(operand) => *operand,
        None => Operand {
            term: Term::Int(0),
            span: Span::new(0, 0).unwrap(),
        },
    }
}
