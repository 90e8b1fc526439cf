//! The operators that give truth values.

ghost use Rattle.std.specs.Prelude.{◌≡◌, ◌+◌, ◌≤◌, ◌<◌, ◌^◌, ◌∷◌, [], length, pos, negsuc, map, true, false, IfOk, OnOk, OnErr, IsErrOf, SomeIff};
ghost use Rattle.xf_text.specs.Outside.{Rose};
ghost use Rattle.fz_model.specs.Calls.{call_of};
ghost use Rattle.fz_model.specs.declared.model.Arg.TheVariants as arg;
ghost use Rattle.lo_base.specs.Item.{made};
ghost use Rattle.lo_emit.specs.Emitted.{arg_of, boolean, truth_of_list};
ghost use Rattle.lo_terms.specs.Rules.{equalities, all_equal, equal_to, equal, comparisons, integer_term, written_member, some_equal, member_among, member, no_member, parity, parity_of, truth_node, terms_of};

use crate::term::{Operand, args_of, operand_at};
use fz_model::{Arg, Args, Builtin, call_of_three, call_of_two};
use lo_base::{Emit, EmitStop};
use lo_emit::{Term, arg_of, truth_of_one, truth_of_two};
use std::alloc::Global;
use xf_num::{Ints, NoMemory, Row};
use xs_model::Op;

/// The truth value that the builtin makes of a list of arguments.
fn truth_of_args<E: Emit>(
    alloc: Global,
    builtin: Builtin,
    args: Args,
    out: &mut E,
) -> Result<Term, EmitStop>
    requires { E.count out.old < 2 ^ 61 }
    ensures value { IfOk result (λ t. t ≡ (boolean (E.count out.old) (call_of builtin (arg.List args ∷ arg.Var (E.count out.old) ∷ []))).term) }
    ensures ok { OnOk result (E.grew out.old out.new (boolean (E.count out.old) (call_of builtin (arg.List args ∷ arg.Var (E.count out.old) ∷ []))).items) }
    ensures count { OnOk result (E.count out.new ≡ E.count out.old + 1) }
    ensures stopped { OnErr result (E.began out.old out.new (boolean (E.count out.old) (call_of builtin (arg.List args ∷ arg.Var (E.count out.old) ∷ []))).items) }
    ensures cause { IsErrOf result EmitStop.Failed → Rose (E.faults out.old) (E.faults out.new) }
{
    let b = out.new_bool()?;
    out.post(call_of_two(alloc, builtin, Arg::List(args), Arg::Var(b))?)?;
    Ok(Term::Var(b))
}

/// The truth value that the builtin makes of the operands.
fn truth_of_operands<E: Emit>(
    alloc: Global,
    builtin: Builtin,
    operands: &[Operand],
    out: &mut E,
) -> Result<Term, EmitStop>
    requires { E.count out.old < 2 ^ 61 }
    ensures value { IfOk result (λ t. t ≡ (truth_of_list (E.count out.old) builtin (terms_of operands.now)).term) }
    ensures ok { OnOk result (E.grew out.old out.new (truth_of_list (E.count out.old) builtin (terms_of operands.now)).items) }
    ensures count { OnOk result (E.count out.new ≡ E.count out.old + 1) }
    ensures stopped { OnErr result (E.began out.old out.new (truth_of_list (E.count out.old) builtin (terms_of operands.now)).items) }
    ensures cause { IsErrOf result EmitStop.Failed → Rose (E.faults out.old) (E.faults out.new) }
{
    let args = args_of(alloc, operands)?;
    truth_of_args(alloc, builtin, args, out)
}

/// Whether each of the others equals the one before it.
fn equalities<E: Emit>(
    alloc: Global,
    first: Term,
    others: &[Operand],
    out: &mut E,
) -> Result<Args, EmitStop>
    requires { E.count out.old + length others.now ≤ 2 ^ 61 }
    ensures value { IfOk result (λ args. args ≡ map arg_of (equalities (E.count out.old) first (terms_of others.now)).terms) }
    ensures ok { OnOk result (E.grew out.old out.new (equalities (E.count out.old) first (terms_of others.now)).items) }
    ensures count { OnOk result (E.count out.new ≡ E.count out.old + length others.now) }
    ensures stopped { OnErr result (E.began out.old out.new (equalities (E.count out.old) first (terms_of others.now)).items) }
    ensures cause { IsErrOf result EmitStop.Failed → Rose (E.faults out.old) (E.faults out.new) }
{
    let mut truths = Row::new(alloc);
    let mut before = first;
    for other in others {
        let truth = truth_of_two(alloc, Builtin::IntEqReif, before, other.term, out)?;
        truths.push(arg_of(truth))?;
        before = other.term;
    }
    Ok(truths)
}

fn all_equal<E: Emit>(
    alloc: Global,
    first: Term,
    others: &[Operand],
    out: &mut E,
) -> Result<Term, EmitStop>
    requires { E.count out.old + (length others.now + 1) ≤ 2 ^ 61 }
    ensures value { IfOk result (λ t. t ≡ (all_equal (E.count out.old) first (terms_of others.now)).term) }
    ensures ok { OnOk result (E.grew out.old out.new (all_equal (E.count out.old) first (terms_of others.now)).items) }
    ensures count { OnOk result (E.count out.new ≡ E.count out.old + (length others.now + 1)) }
    ensures stopped { OnErr result (E.began out.old out.new (all_equal (E.count out.old) first (terms_of others.now)).items) }
    ensures cause { IsErrOf result EmitStop.Failed → Rose (E.faults out.old) (E.faults out.new) }
{
    let truths = equalities(alloc, first, others, out)?;
    truth_of_args(alloc, Builtin::ArrayBoolAnd, truths, out)
}

/// Whether each of the others equals the one before it; two terms are compared by one call.
fn equal_to<E: Emit>(
    alloc: Global,
    first: Term,
    others: &[Operand],
    out: &mut E,
) -> Result<Term, EmitStop>
    requires { E.count out.old + (length others.now + 1) ≤ 2 ^ 61 }
    ensures value { IfOk result (λ t. t ≡ (equal_to (E.count out.old) first (terms_of others.now)).term) }
    ensures ok { OnOk result (E.grew out.old out.new (equal_to (E.count out.old) first (terms_of others.now)).items) }
    ensures count { OnOk result (E.count out.new ≡ E.count out.old + made (equal_to (E.count out.old) first (terms_of others.now)).items) }
    ensures bound { OnOk result (E.count out.new ≤ E.count out.old + (length others.now + 1)) }
    ensures stopped { OnErr result (E.began out.old out.new (equal_to (E.count out.old) first (terms_of others.now)).items) }
    ensures cause { IsErrOf result EmitStop.Failed → Rose (E.faults out.old) (E.faults out.new) }
{
    if others.len() == 1 {
        truth_of_two(alloc, Builtin::IntEqReif, first, others[0].term, out)
    } else {
        all_equal(alloc, first, others, out)
    }
}

fn equal<E: Emit>(alloc: Global, operands: &[Operand], out: &mut E) -> Result<Term, EmitStop>
    requires { E.count out.old + length operands.now ≤ 2 ^ 61 }
    ensures value { IfOk result (λ t. t ≡ (equal (E.count out.old) (terms_of operands.now)).term) }
    ensures ok { OnOk result (E.grew out.old out.new (equal (E.count out.old) (terms_of operands.now)).items) }
    ensures count { OnOk result (E.count out.new ≡ E.count out.old + made (equal (E.count out.old) (terms_of operands.now)).items) }
    ensures bound { OnOk result (E.count out.new ≤ E.count out.old + length operands.now) }
    ensures stopped { OnErr result (E.began out.old out.new (equal (E.count out.old) (terms_of operands.now)).items) }
    ensures cause { IsErrOf result EmitStop.Failed → Rose (E.faults out.old) (E.faults out.new) }
{
    match operands {
        [first, others @ ..] => equal_to(alloc, first.term, others, out),
        _ => Ok(Term::Truth(true)),
    }
}

/// Whether the term equals each of these.
fn comparisons<E: Emit>(
    alloc: Global,
    x: Term,
    members: &[Operand],
    out: &mut E,
) -> Result<Args, EmitStop>
    requires { E.count out.old + length members.now ≤ 2 ^ 61 }
    ensures value { IfOk result (λ args. args ≡ map arg_of (comparisons (E.count out.old) x (terms_of members.now)).terms) }
    ensures ok { OnOk result (E.grew out.old out.new (comparisons (E.count out.old) x (terms_of members.now)).items) }
    ensures count { OnOk result (E.count out.new ≡ E.count out.old + length members.now) }
    ensures stopped { OnErr result (E.began out.old out.new (comparisons (E.count out.old) x (terms_of members.now)).items) }
    ensures cause { IsErrOf result EmitStop.Failed → Rose (E.faults out.old) (E.faults out.new) }
{
    let mut truths = Row::new(alloc);
    for member in members {
        let truth = truth_of_two(alloc, Builtin::IntEqReif, x, member.term, out)?;
        truths.push(arg_of(truth))?;
    }
    Ok(truths)
}

fn integer_term(term: Term) -> i128
    ensures { result ≡ integer_term term }
{
    match term {
        Term::Int(value) => value,
        Term::Truth(_) => 0,
        Term::Var(_) => 0,
    }
}

/// The integers that the operands are.
pub(crate) fn integer_terms(alloc: Global, operands: &[Operand]) -> Result<Ints, NoMemory>
    ensures { IfOk result (λ values. values ≡ map integer_term (terms_of operands.now)) }
{
    let mut values = Row::new(alloc);
    for operand in operands {
        values.push(integer_term(operand.term))?;
    }
    Ok(values)
}

/// Whether the term is one of these integers.
fn written_member<E: Emit>(
    alloc: Global,
    x: Term,
    values: Ints,
    out: &mut E,
) -> Result<Term, EmitStop>
    requires { E.count out.old < 2 ^ 61 }
    ensures value { IfOk result (λ t. t ≡ (written_member (E.count out.old) x values).term) }
    ensures ok { OnOk result (E.grew out.old out.new (written_member (E.count out.old) x values).items) }
    ensures count { OnOk result (E.count out.new ≡ E.count out.old + made (written_member (E.count out.old) x values).items) }
    ensures bound { OnOk result (E.count out.new ≤ E.count out.old + 1) }
    ensures stopped { OnErr result (E.began out.old out.new (written_member (E.count out.old) x values).items) }
    ensures cause { IsErrOf result EmitStop.Failed → Rose (E.faults out.old) (E.faults out.new) }
{
    if values.is_empty() {
        return Ok(Term::Truth(false));
    }
    let b = out.new_bool()?;
    let set = Arg::Set(values);
    out.post(call_of_three(alloc, Builtin::SetInReif, arg_of(x), set, Arg::Var(b))?)?;
    Ok(Term::Var(b))
}

/// Whether the term equals one of these.
pub(crate) fn some_equal<E: Emit>(
    alloc: Global,
    x: Term,
    members: &[Operand],
    out: &mut E,
) -> Result<Term, EmitStop>
    requires { E.count out.old + (length members.now + 1) ≤ 2 ^ 61 }
    ensures value { IfOk result (λ t. t ≡ (some_equal (E.count out.old) x (terms_of members.now)).term) }
    ensures ok { OnOk result (E.grew out.old out.new (some_equal (E.count out.old) x (terms_of members.now)).items) }
    ensures count { OnOk result (E.count out.new ≡ E.count out.old + (length members.now + 1)) }
    ensures stopped { OnErr result (E.began out.old out.new (some_equal (E.count out.old) x (terms_of members.now)).items) }
    ensures cause { IsErrOf result EmitStop.Failed → Rose (E.faults out.old) (E.faults out.new) }
{
    let truths = comparisons(alloc, x, members, out)?;
    truth_of_args(alloc, Builtin::ArrayBoolOr, truths, out)
}

fn member_among<E: Emit>(
    alloc: Global,
    written: bool,
    x: Term,
    members: &[Operand],
    out: &mut E,
) -> Result<Term, EmitStop>
    requires { E.count out.old + (length members.now + 1) ≤ 2 ^ 61 }
    ensures value { IfOk result (λ t. t ≡ (member_among written (E.count out.old) x (terms_of members.now)).term) }
    ensures ok { OnOk result (E.grew out.old out.new (member_among written (E.count out.old) x (terms_of members.now)).items) }
    ensures count { OnOk result (E.count out.new ≡ E.count out.old + made (member_among written (E.count out.old) x (terms_of members.now)).items) }
    ensures bound { OnOk result (E.count out.new ≤ E.count out.old + (length members.now + 1)) }
    ensures stopped { OnErr result (E.began out.old out.new (member_among written (E.count out.old) x (terms_of members.now)).items) }
    ensures cause { IsErrOf result EmitStop.Failed → Rose (E.faults out.old) (E.faults out.new) }
{
    if written {
        written_member(alloc, x, integer_terms(alloc, members)?, out)
    } else {
        some_equal(alloc, x, members, out)
    }
}

/// Whether the first is among the others.
fn member<E: Emit>(
    alloc: Global,
    written: bool,
    operands: &[Operand],
    out: &mut E,
) -> Result<Term, EmitStop>
    requires { E.count out.old + length operands.now ≤ 2 ^ 61 }
    ensures value { IfOk result (λ t. t ≡ (member written (E.count out.old) (terms_of operands.now)).term) }
    ensures ok { OnOk result (E.grew out.old out.new (member written (E.count out.old) (terms_of operands.now)).items) }
    ensures count { OnOk result (E.count out.new ≡ E.count out.old + made (member written (E.count out.old) (terms_of operands.now)).items) }
    ensures bound { OnOk result (E.count out.new ≤ E.count out.old + length operands.now) }
    ensures stopped { OnErr result (E.began out.old out.new (member written (E.count out.old) (terms_of operands.now)).items) }
    ensures cause { IsErrOf result EmitStop.Failed → Rose (E.faults out.old) (E.faults out.new) }
{
    match operands {
        [x, members @ ..] => member_among(alloc, written, x.term, members, out),
        _ => Ok(Term::Truth(false)),
    }
}

#[tactic(auto, using(crate::proofs::Made::made_joined))]
fn no_member<E: Emit>(
    alloc: Global,
    written: bool,
    operands: &[Operand],
    out: &mut E,
) -> Result<Term, EmitStop>
    requires { E.count out.old + (length operands.now + 1) ≤ 2 ^ 61 }
    ensures value { IfOk result (λ t. t ≡ (no_member written (E.count out.old) (terms_of operands.now)).term) }
    ensures ok { OnOk result (E.grew out.old out.new (no_member written (E.count out.old) (terms_of operands.now)).items) }
    ensures count { OnOk result (E.count out.new ≡ E.count out.old + made (no_member written (E.count out.old) (terms_of operands.now)).items) }
    ensures bound { OnOk result (E.count out.new ≤ E.count out.old + (length operands.now + 1)) }
    ensures stopped { OnErr result (E.began out.old out.new (no_member written (E.count out.old) (terms_of operands.now)).items) }
    ensures cause { IsErrOf result EmitStop.Failed → Rose (E.faults out.old) (E.faults out.new) }
{
    let truth = member(alloc, written, operands, out)?;
    truth_of_one(alloc, Builtin::BoolNot, truth, out)
}

/// Whether an odd number is true, from the left.
fn parity<E: Emit>(
    alloc: Global,
    first: Term,
    others: &[Operand],
    out: &mut E,
) -> Result<Term, EmitStop>
    requires { E.count out.old + length others.now ≤ 2 ^ 61 }
    ensures value { IfOk result (λ t. t ≡ (parity (E.count out.old) first (terms_of others.now)).term) }
    ensures ok { OnOk result (E.grew out.old out.new (parity (E.count out.old) first (terms_of others.now)).items) }
    ensures count { OnOk result (E.count out.new ≡ E.count out.old + length others.now) }
    ensures stopped { OnErr result (E.began out.old out.new (parity (E.count out.old) first (terms_of others.now)).items) }
    ensures cause { IsErrOf result EmitStop.Failed → Rose (E.faults out.old) (E.faults out.new) }
{
    let mut so_far = first;
    for other in others {
        so_far = truth_of_two(alloc, Builtin::BoolXor, so_far, other.term, out)?;
    }
    Ok(so_far)
}

fn parity_of<E: Emit>(alloc: Global, operands: &[Operand], out: &mut E) -> Result<Term, EmitStop>
    requires { E.count out.old + length operands.now ≤ 2 ^ 61 }
    ensures value { IfOk result (λ t. t ≡ (parity_of (E.count out.old) (terms_of operands.now)).term) }
    ensures ok { OnOk result (E.grew out.old out.new (parity_of (E.count out.old) (terms_of operands.now)).items) }
    ensures count { OnOk result (E.count out.new ≡ E.count out.old + made (parity_of (E.count out.old) (terms_of operands.now)).items) }
    ensures bound { OnOk result (E.count out.new ≤ E.count out.old + length operands.now) }
    ensures stopped { OnErr result (E.began out.old out.new (parity_of (E.count out.old) (terms_of operands.now)).items) }
    ensures cause { IsErrOf result EmitStop.Failed → Rose (E.faults out.old) (E.faults out.new) }
{
    match operands {
        [first, others @ ..] => parity(alloc, first.term, others, out),
        _ => Ok(Term::Truth(false)),
    }
}

/// What an operator that gives a truth value makes of its operands.
pub(crate) fn truth_node<E: Emit>(
    alloc: Global,
    op: Op,
    written: bool,
    operands: &[Operand],
    out: &mut E,
) -> Result<Term, EmitStop>
    requires { E.count out.old + (length operands.now + 1) ≤ 2 ^ 61 }
    ensures value { IfOk result (λ t. t ≡ (truth_node op written (E.count out.old) operands.now).term) }
    ensures ok { OnOk result (E.grew out.old out.new (truth_node op written (E.count out.old) operands.now).items) }
    ensures count { OnOk result (E.count out.new ≡ E.count out.old + made (truth_node op written (E.count out.old) operands.now).items) }
    ensures bound { OnOk result (E.count out.new ≤ E.count out.old + (length operands.now + 1)) }
    ensures stopped { OnErr result (E.began out.old out.new (truth_node op written (E.count out.old) operands.now).items) }
    ensures cause { IsErrOf result EmitStop.Failed → Rose (E.faults out.old) (E.faults out.new) }
{
    let x = operand_at(operands, 0).term;
    let y = operand_at(operands, 1).term;
    match op {
        Op::Lt => truth_of_two(alloc, Builtin::IntLtReif, x, y, out),
        Op::Le => truth_of_two(alloc, Builtin::IntLeReif, x, y, out),
        Op::Gt => truth_of_two(alloc, Builtin::IntLtReif, y, x, out),
        Op::Ge => truth_of_two(alloc, Builtin::IntLeReif, y, x, out),
        Op::Ne => truth_of_two(alloc, Builtin::IntNeReif, x, y, out),
        Op::Eq => equal(alloc, operands, out),
        Op::In => member(alloc, written, operands, out),
        Op::NotIn => no_member(alloc, written, operands, out),
        Op::Not => truth_of_one(alloc, Builtin::BoolNot, x, out),
        Op::And => truth_of_operands(alloc, Builtin::ArrayBoolAnd, operands, out),
        Op::Or => truth_of_operands(alloc, Builtin::ArrayBoolOr, operands, out),
        Op::Xor => parity_of(alloc, operands, out),
        Op::Iff => truth_of_two(alloc, Builtin::BoolEqReif, x, y, out),
        Op::Imp => truth_of_two(alloc, Builtin::BoolLeReif, x, y, out),
        _ => Ok(Term::Truth(false)),
    }
}
