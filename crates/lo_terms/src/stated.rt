//! What states an expression.

ghost use Rattle.std.specs.Prelude.{◌≡◌, ◌+◌, ◌≤◌, ◌<◌, ◌^◌, ◌∷◌, [], length, pos, negsuc, map, true, false, IfOk, OnOk, OnErr, IsErrOf, SomeIff};
ghost use Rattle.xf_text.specs.Outside.{Rose};
ghost use Rattle.lo_base.specs.Item.{made};
ghost use Rattle.lo_emit.specs.Emitted.{Out};
ghost use Rattle.lo_terms.specs.Rules.{asserted, some_equal, as_truth, posting, posting_clause, stated_equalities, stated_equal, stated_written, stated_member_among, stated_member, stated_node, terms_of};

use crate::node::as_truth;
use crate::term::{Operand, args_of, operand_at};
use crate::truths::{integer_terms, some_equal};
use fz_model::{Arg, Builtin, call_of_two};
use lo_base::{Emit, EmitStop};
use lo_emit::{Term, arg_of, list_of};
use std::alloc::Global;
use xf_num::{Ints, Span};
use xs_model::Op;

/// Posts that the builtin holds of two.
fn posting<E: Emit>(
    alloc: Global,
    builtin: Builtin,
    x: Term,
    y: Term,
    out: &mut E,
) -> Result<(), EmitStop>
    ensures ok { OnOk result (E.grew out.old out.new (posting builtin x y).items) }
    ensures count { OnOk result (E.count out.new ≡ E.count out.old + 0) }
    ensures stopped { OnErr result (E.began out.old out.new (posting builtin x y).items) }
    ensures cause { IsErrOf result EmitStop.Failed → Rose (E.faults out.old) (E.faults out.new) }
{
    out.post(call_of_two(alloc, builtin, arg_of(x), arg_of(y))?)?;
    Ok(())
}

/// Posts that one of the first is true or one of the second is false.
pub(crate) fn posting_clause<E: Emit>(
    alloc: Global,
    positive: &[Term],
    negative: &[Term],
    out: &mut E,
) -> Result<(), EmitStop>
    ensures ok { OnOk result (E.grew out.old out.new (posting_clause positive.now negative.now).items) }
    ensures count { OnOk result (E.count out.new ≡ E.count out.old + 0) }
    ensures stopped { OnErr result (E.began out.old out.new (posting_clause positive.now negative.now).items) }
    ensures cause { IsErrOf result EmitStop.Failed → Rose (E.faults out.old) (E.faults out.new) }
{
    let first = list_of(alloc, positive)?;
    let second = list_of(alloc, negative)?;
    out.post(call_of_two(alloc, Builtin::BoolClause, first, second)?)?;
    Ok(())
}

/// Posts that one of the operands is true.
fn posting_any<E: Emit>(alloc: Global, operands: &[Operand], out: &mut E) -> Result<(), EmitStop>
    ensures ok { OnOk result (E.grew out.old out.new (posting_clause (terms_of operands.now) []).items) }
    ensures count { OnOk result (E.count out.new ≡ E.count out.old + 0) }
    ensures stopped { OnErr result (E.began out.old out.new (posting_clause (terms_of operands.now) []).items) }
    ensures cause { IsErrOf result EmitStop.Failed → Rose (E.faults out.old) (E.faults out.new) }
{
    let first = Arg::List(args_of(alloc, operands)?);
    let second = list_of(alloc, &[])?;
    out.post(call_of_two(alloc, Builtin::BoolClause, first, second)?)?;
    Ok(())
}

/// Each of the others equals the one before it.
fn stated_equalities<E: Emit>(
    alloc: Global,
    first: Term,
    others: &[Operand],
    out: &mut E,
) -> Result<(), EmitStop>
    ensures ok { OnOk result (E.grew out.old out.new (stated_equalities first (terms_of others.now))) }
    ensures count { OnOk result (E.count out.new ≡ E.count out.old + 0) }
    ensures stopped { OnErr result (E.began out.old out.new (stated_equalities first (terms_of others.now))) }
    ensures cause { IsErrOf result EmitStop.Failed → Rose (E.faults out.old) (E.faults out.new) }
{
    let mut before = first;
    for other in others {
        posting(alloc, Builtin::IntEq, before, other.term, out)?;
        before = other.term;
    }
    Ok(())
}

fn stated_equal<E: Emit>(alloc: Global, operands: &[Operand], out: &mut E) -> Result<(), EmitStop>
    ensures ok { OnOk result (E.grew out.old out.new (stated_equal (terms_of operands.now)).items) }
    ensures count { OnOk result (E.count out.new ≡ E.count out.old + 0) }
    ensures stopped { OnErr result (E.began out.old out.new (stated_equal (terms_of operands.now)).items) }
    ensures cause { IsErrOf result EmitStop.Failed → Rose (E.faults out.old) (E.faults out.new) }
{
    match operands {
        [first, others @ ..] => stated_equalities(alloc, first.term, others, out),
        _ => Ok(()),
    }
}

/// The term is one of these integers.
fn stated_written<E: Emit>(
    alloc: Global,
    x: Term,
    values: Ints,
    out: &mut E,
) -> Result<(), EmitStop>
    ensures ok { OnOk result (E.grew out.old out.new (stated_written x values).items) }
    ensures count { OnOk result (E.count out.new ≡ E.count out.old + 0) }
    ensures stopped { OnErr result (E.began out.old out.new (stated_written x values).items) }
    ensures cause { IsErrOf result EmitStop.Failed → Rose (E.faults out.old) (E.faults out.new) }
{
    if values.is_empty() {
        return posting_clause(alloc, &[Term::Truth(false)], &[], out);
    }
    out.post(call_of_two(alloc, Builtin::SetIn, arg_of(x), Arg::Set(values))?)?;
    Ok(())
}

/// The term equals one of these.
fn asserted_member<E: Emit>(
    alloc: Global,
    x: Term,
    members: &[Operand],
    out: &mut E,
) -> Result<(), EmitStop>
    requires { E.count out.old + (length members.now + 1) ≤ 2 ^ 61 }
    ensures ok { OnOk result (E.grew out.old out.new (asserted (E.count out.old) (some_equal (E.count out.old) x (terms_of members.now))).items) }
    ensures count { OnOk result (E.count out.new ≡ E.count out.old + (length members.now + 1)) }
    ensures stopped { OnErr result (E.began out.old out.new (asserted (E.count out.old) (some_equal (E.count out.old) x (terms_of members.now))).items) }
    ensures cause { IsErrOf result EmitStop.Failed → Rose (E.faults out.old) (E.faults out.new) }
{
    let truth = some_equal(alloc, x, members, out)?;
    posting_clause(alloc, &[truth], &[], out)
}

fn stated_member_among<E: Emit>(
    alloc: Global,
    written: bool,
    x: Term,
    members: &[Operand],
    out: &mut E,
) -> Result<(), EmitStop>
    requires { E.count out.old + (length members.now + 1) ≤ 2 ^ 61 }
    ensures ok { OnOk result (E.grew out.old out.new (stated_member_among written (E.count out.old) x (terms_of members.now)).items) }
    ensures count { OnOk result (E.count out.new ≡ E.count out.old + made (stated_member_among written (E.count out.old) x (terms_of members.now)).items) }
    ensures bound { OnOk result (E.count out.new ≤ E.count out.old + (length members.now + 1)) }
    ensures stopped { OnErr result (E.began out.old out.new (stated_member_among written (E.count out.old) x (terms_of members.now)).items) }
    ensures cause { IsErrOf result EmitStop.Failed → Rose (E.faults out.old) (E.faults out.new) }
{
    if written {
        stated_written(alloc, x, integer_terms(alloc, members)?, out)
    } else {
        asserted_member(alloc, x, members, out)
    }
}

/// The first is among the others.
fn stated_member<E: Emit>(
    alloc: Global,
    written: bool,
    operands: &[Operand],
    out: &mut E,
) -> Result<(), EmitStop>
    requires { E.count out.old + length operands.now ≤ 2 ^ 61 }
    ensures ok { OnOk result (E.grew out.old out.new (stated_member written (E.count out.old) (terms_of operands.now)).items) }
    ensures count { OnOk result (E.count out.new ≡ E.count out.old + made (stated_member written (E.count out.old) (terms_of operands.now)).items) }
    ensures bound { OnOk result (E.count out.new ≤ E.count out.old + length operands.now) }
    ensures stopped { OnErr result (E.began out.old out.new (stated_member written (E.count out.old) (terms_of operands.now)).items) }
    ensures cause { IsErrOf result EmitStop.Failed → Rose (E.faults out.old) (E.faults out.new) }
{
    match operands {
        [x, members @ ..] => stated_member_among(alloc, written, x.term, members, out),
        _ => posting_clause(alloc, &[Term::Truth(false)], &[], out),
    }
}

#[tactic(auto, using(crate::proofs::Made::made_joined))]
fn asserted_node<E: Emit>(
    alloc: Global,
    op: Op,
    span: Span,
    written: bool,
    operands: &[Operand],
    out: &mut E,
) -> Result<(), EmitStop>
    requires { E.count out.old + (64 + length operands.now) ≤ 2 ^ 61 }
    ensures ok { OnOk result (E.grew out.old out.new (asserted (E.count out.old) (as_truth op span written (E.count out.old) operands.now)).items) }
    ensures count { OnOk result (E.count out.new ≡ E.count out.old + made (asserted (E.count out.old) (as_truth op span written (E.count out.old) operands.now)).items) }
    ensures bound { OnOk result (E.count out.new ≤ E.count out.old + (64 + length operands.now)) }
    ensures stopped { OnErr result (E.began out.old out.new (asserted (E.count out.old) (as_truth op span written (E.count out.old) operands.now)).items) }
    ensures cause { IsErrOf result EmitStop.Failed → Rose (E.faults out.old) (E.faults out.new) }
{
    let truth = as_truth(alloc, op, span, written, operands, out)?;
    posting_clause(alloc, &[truth], &[], out)
}

/// States what an operator makes of its operands.
pub(crate) fn stated_node<E: Emit>(
    alloc: Global,
    op: Op,
    span: Span,
    written: bool,
    operands: &[Operand],
    out: &mut E,
) -> Result<(), EmitStop>
    requires { E.count out.old + (64 + length operands.now) ≤ 2 ^ 61 }
    ensures ok { OnOk result (E.grew out.old out.new (stated_node op span written (E.count out.old) operands.now).items) }
    ensures count { OnOk result (E.count out.new ≡ E.count out.old + made (stated_node op span written (E.count out.old) operands.now).items) }
    ensures bound { OnOk result (E.count out.new ≤ E.count out.old + (64 + length operands.now)) }
    ensures stopped { OnErr result (E.began out.old out.new (stated_node op span written (E.count out.old) operands.now).items) }
    ensures cause { IsErrOf result EmitStop.Failed → Rose (E.faults out.old) (E.faults out.new) }
{
    let x = operand_at(operands, 0).term;
    let y = operand_at(operands, 1).term;
    match op {
        Op::Lt => posting(alloc, Builtin::IntLt, x, y, out),
        Op::Le => posting(alloc, Builtin::IntLe, x, y, out),
        Op::Gt => posting(alloc, Builtin::IntLt, y, x, out),
        Op::Ge => posting(alloc, Builtin::IntLe, y, x, out),
        Op::Ne => posting(alloc, Builtin::IntNe, x, y, out),
        Op::Eq => stated_equal(alloc, operands, out),
        Op::In => stated_member(alloc, written, operands, out),
        Op::Not => posting_clause(alloc, &[], &[x], out),
        Op::And => Ok(()),
        Op::Or => posting_any(alloc, operands, out),
        Op::Imp => posting_clause(alloc, &[y], &[x], out),
        _ => asserted_node(alloc, op, span, written, operands, out),
    }
}
