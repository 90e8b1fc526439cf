//! Conditions that are stated, of terms and of sums, and truth values that tell whether they are met.

ghost use Rattle.std.specs.Prelude.{◌≡◌, ◌+◌, ◌≤◌, ◌<◌, ◌^◌, ◌∷◌, ◌++◌, [], negsuc, map, OnOk, OnErr, IsErrOf, IfOk};
ghost use Rattle.std.specs.List.{All};
ghost use Rattle.xf_text.specs.Outside.{Rose};
ghost use Rattle.fz_model.specs.declared.builtin.Builtin.TheVariants.{BoolNot, SetIn};
ghost use Rattle.fz_model.specs.Calls.{call_of};
ghost use Rattle.lo_base.specs.Item.{Posted, made};
ghost use Rattle.lo_emit.specs.Compare.{compare_call};
ghost use Rattle.lo_emit.specs.Conditions.{term_of, denied, low_among, low_not_among, low_condition, truth_among, truth_not_among, truth_of_condition, integer_sum, low_sum_as_integer, low_sum, IsNegatableOperand};
ghost use Rattle.lo_emit.specs.Emitted.{arg_of, after, truth_of_set, truth_of_range, truth_of_one};
ghost use Rattle.lo_emit.specs.Sums.{IsNegatable, IsNegatableTerm, sum_call};

use fz_model::{Arg, Builtin, call_of_two};
use lo_base::{Emit, EmitStop};
use lo_emit::{
    Relation, Term, arg_of, clause, compare_call, integer_of_sum, set_of, sum_call, truth_of_one,
    truth_of_range, truth_of_relation, truth_of_set,
};
use std::alloc::Global;
use xf_num::{Ints, NoMemory, Row, Span};
use xs_model::Cond;

/// The term that an integer or a variable of a constraint is.
pub fn term_of(operand: xs_model::Term) -> Term
    ensures { result ≡ term_of operand }
{
    match operand {
        xs_model::Term::Int(value) => Term::Int(value),
        xs_model::Term::Var(number) => Term::Var(u64::from(number)),
    }
}

/// The terms that these integers and variables of a constraint are.
pub fn terms_of(alloc: Global, operands: &[xs_model::Term]) -> Result<Row<Term>, NoMemory>
    ensures { IfOk result (λ terms. terms ≡ map term_of operands.now) }
{
    let mut terms = Row::new(alloc);
    for operand in operands {
        terms.push(term_of(*operand))?;
    }
    Ok(terms)
}

/// States how a term is related to another.
fn post_relation<E: Emit>(
    alloc: Global,
    relation: Relation,
    term: Term,
    bound: Term,
    out: &mut E,
) -> Result<(), EmitStop>
    ensures ok { OnOk result (E.grew out.old out.new (Posted (compare_call relation term bound) ∷ [])) }
    ensures count { OnOk result (E.count out.new ≡ E.count out.old) }
    ensures stopped { OnErr result (E.began out.old out.new (Posted (compare_call relation term bound) ∷ [])) }
    ensures cause { IsErrOf result EmitStop.Failed → Rose (E.faults out.old) (E.faults out.new) }
{
    out.post(compare_call(alloc, relation, term, bound)?)?;
    Ok(())
}

/// States that a term is in a set.
fn post_set<E: Emit>(alloc: Global, term: Term, set: Arg, out: &mut E) -> Result<(), EmitStop>
    ensures ok { OnOk result (E.grew out.old out.new (Posted (call_of SetIn (arg_of term ∷ set ∷ [])) ∷ [])) }
    ensures count { OnOk result (E.count out.new ≡ E.count out.old) }
    ensures stopped { OnErr result (E.began out.old out.new (Posted (call_of SetIn (arg_of term ∷ set ∷ [])) ∷ [])) }
    ensures cause { IsErrOf result EmitStop.Failed → Rose (E.faults out.old) (E.faults out.new) }
{
    out.post(call_of_two(alloc, Builtin::SetIn, arg_of(term), set)?)?;
    Ok(())
}

/// A term is outside a range.
fn outside<E: Emit>(alloc: Global, term: Term, span: Span, out: &mut E) -> Result<(), EmitStop>
    requires { E.count out.old + 2 ≤ 2 ^ 61 }
    ensures ok { OnOk result (E.grew out.old out.new (denied (E.count out.old) (truth_of_range (E.count out.old) term span))) }
    ensures count { OnOk result (E.count out.new ≡ E.count out.old + 1) }
    ensures stopped { OnErr result (E.began out.old out.new (denied (E.count out.old) (truth_of_range (E.count out.old) term span))) }
    ensures cause { IsErrOf result EmitStop.Failed → Rose (E.faults out.old) (E.faults out.new) }
{
    let inside = truth_of_range(alloc, term, span, out)?;
    out.post(clause(alloc, &[], &[inside])?)?;
    Ok(())
}

/// A term is none of these.
fn none_of<E: Emit>(alloc: Global, term: Term, values: &[i128], out: &mut E) -> Result<(), EmitStop>
    requires { E.count out.old + 2 ≤ 2 ^ 61 }
    ensures ok { OnOk result (E.grew out.old out.new (denied (E.count out.old) (truth_of_set (E.count out.old) term values.now))) }
    ensures count { OnOk result (E.count out.new ≡ E.count out.old + 1) }
    ensures stopped { OnErr result (E.began out.old out.new (denied (E.count out.old) (truth_of_set (E.count out.old) term values.now))) }
    ensures cause { IsErrOf result EmitStop.Failed → Rose (E.faults out.old) (E.faults out.new) }
{
    let member = truth_of_set(alloc, term, values, out)?;
    out.post(clause(alloc, &[], &[member])?)?;
    Ok(())
}

/// A term is in a set.
fn among<E: Emit>(alloc: Global, term: Term, values: &[i128], out: &mut E) -> Result<(), EmitStop>
    requires { E.count out.old + 2 ≤ 2 ^ 61 }
    ensures ok { OnOk result (E.grew out.old out.new (low_among term values.now)) }
    ensures count { OnOk result (E.count out.new ≡ E.count out.old) }
    ensures stopped { OnErr result (E.began out.old out.new (low_among term values.now)) }
    ensures cause { IsErrOf result EmitStop.Failed → Rose (E.faults out.old) (E.faults out.new) }
{
    if values.is_empty() {
        out.post(clause(alloc, &[], &[])?)?;
        return Ok(());
    }
    post_set(alloc, term, set_of(alloc, values)?, out)
}

/// A term is not in a set.
fn not_among<E: Emit>(
    alloc: Global,
    term: Term,
    values: &[i128],
    out: &mut E,
) -> Result<(), EmitStop>
    requires { E.count out.old + 2 ≤ 2 ^ 61 }
    ensures ok { OnOk result (E.grew out.old out.new (low_not_among (E.count out.old) term values.now)) }
    ensures count { OnOk result (E.count out.new ≡ E.count out.old + made (low_not_among (E.count out.old) term values.now)) }
    ensures stopped { OnErr result (E.began out.old out.new (low_not_among (E.count out.old) term values.now)) }
    ensures cause { IsErrOf result EmitStop.Failed → Rose (E.faults out.old) (E.faults out.new) }
{
    if values.is_empty() {
        return Ok(());
    }
    none_of(alloc, term, values, out)
}

/// Appends what states that a term meets a condition. On an `Err` it began that.
pub fn lower_condition<E: Emit>(
    alloc: Global,
    term: Term,
    cond: &Cond,
    out: &mut E,
) -> Result<(), EmitStop>
    requires { E.count out.old + 2 ≤ 2 ^ 61 }
    ensures ok { OnOk result (E.grew out.old out.new (low_condition (E.count out.old) term cond.now)) }
    ensures count { OnOk result (E.count out.new ≡ E.count out.old + made (low_condition (E.count out.old) term cond.now)) }
    ensures stopped { OnErr result (E.began out.old out.new (low_condition (E.count out.old) term cond.now)) }
    ensures cause { IsErrOf result EmitStop.Failed → Rose (E.faults out.old) (E.faults out.new) }
{
    match cond {
        Cond::Lt(u) => post_relation(alloc, Relation::Lt, term, term_of(*u), out),
        Cond::Le(u) => post_relation(alloc, Relation::Le, term, term_of(*u), out),
        Cond::Ge(u) => post_relation(alloc, Relation::Ge, term, term_of(*u), out),
        Cond::Gt(u) => post_relation(alloc, Relation::Gt, term, term_of(*u), out),
        Cond::Ne(u) => post_relation(alloc, Relation::Ne, term, term_of(*u), out),
        Cond::Eq(u) => post_relation(alloc, Relation::Eq, term, term_of(*u), out),
        Cond::InSpan(span) => post_set(alloc, term, Arg::Range(*span), out),
        Cond::OutSpan(span) => outside(alloc, term, *span, out),
        Cond::InSet(values) => among(alloc, term, values.as_slice(), out),
        Cond::OutSet(values) => not_among(alloc, term, values.as_slice(), out),
    }
}

/// Whether a term is outside a range.
fn truth_outside<E: Emit>(
    alloc: Global,
    term: Term,
    span: Span,
    out: &mut E,
) -> Result<Term, EmitStop>
    requires { E.count out.old + 2 ≤ 2 ^ 61 }
    ensures value { IfOk result (λ t. t ≡ (after (E.count out.old) (truth_of_range (E.count out.old) term span) (λ k b. truth_of_one k BoolNot b)).term) }
    ensures ok { OnOk result (E.grew out.old out.new ((after (E.count out.old) (truth_of_range (E.count out.old) term span) (λ k b. truth_of_one k BoolNot b)).items)) }
    ensures count { OnOk result (E.count out.new ≡ E.count out.old + 2) }
    ensures stopped { OnErr result (E.began out.old out.new ((after (E.count out.old) (truth_of_range (E.count out.old) term span) (λ k b. truth_of_one k BoolNot b)).items)) }
    ensures cause { IsErrOf result EmitStop.Failed → Rose (E.faults out.old) (E.faults out.new) }
{
    let inside = truth_of_range(alloc, term, span, out)?;
    truth_of_one(alloc, Builtin::BoolNot, inside, out)
}

/// Whether a term is none of these.
fn truth_none_of<E: Emit>(
    alloc: Global,
    term: Term,
    values: &[i128],
    out: &mut E,
) -> Result<Term, EmitStop>
    requires { E.count out.old + 2 ≤ 2 ^ 61 }
    ensures value { IfOk result (λ t. t ≡ (after (E.count out.old) (truth_of_set (E.count out.old) term values.now) (λ k b. truth_of_one k BoolNot b)).term) }
    ensures ok { OnOk result (E.grew out.old out.new ((after (E.count out.old) (truth_of_set (E.count out.old) term values.now) (λ k b. truth_of_one k BoolNot b)).items)) }
    ensures count { OnOk result (E.count out.new ≡ E.count out.old + 2) }
    ensures stopped { OnErr result (E.began out.old out.new ((after (E.count out.old) (truth_of_set (E.count out.old) term values.now) (λ k b. truth_of_one k BoolNot b)).items)) }
    ensures cause { IsErrOf result EmitStop.Failed → Rose (E.faults out.old) (E.faults out.new) }
{
    let member = truth_of_set(alloc, term, values, out)?;
    truth_of_one(alloc, Builtin::BoolNot, member, out)
}

/// Whether a term is in a set.
fn truth_among<E: Emit>(
    alloc: Global,
    term: Term,
    values: &[i128],
    out: &mut E,
) -> Result<Term, EmitStop>
    requires { E.count out.old + 2 ≤ 2 ^ 61 }
    ensures value { IfOk result (λ t. t ≡ (truth_among (E.count out.old) term values.now).term) }
    ensures ok { OnOk result (E.grew out.old out.new ((truth_among (E.count out.old) term values.now).items)) }
    ensures count { OnOk result (E.count out.new ≡ E.count out.old + made (truth_among (E.count out.old) term values.now).items) }
    ensures stopped { OnErr result (E.began out.old out.new ((truth_among (E.count out.old) term values.now).items)) }
    ensures cause { IsErrOf result EmitStop.Failed → Rose (E.faults out.old) (E.faults out.new) }
{
    if values.is_empty() {
        return Ok(Term::Truth(false));
    }
    truth_of_set(alloc, term, values, out)
}

/// Whether a term is not in a set.
fn truth_not_among<E: Emit>(
    alloc: Global,
    term: Term,
    values: &[i128],
    out: &mut E,
) -> Result<Term, EmitStop>
    requires { E.count out.old + 2 ≤ 2 ^ 61 }
    ensures value { IfOk result (λ t. t ≡ (truth_not_among (E.count out.old) term values.now).term) }
    ensures ok { OnOk result (E.grew out.old out.new ((truth_not_among (E.count out.old) term values.now).items)) }
    ensures count { OnOk result (E.count out.new ≡ E.count out.old + made (truth_not_among (E.count out.old) term values.now).items) }
    ensures stopped { OnErr result (E.began out.old out.new ((truth_not_among (E.count out.old) term values.now).items)) }
    ensures cause { IsErrOf result EmitStop.Failed → Rose (E.faults out.old) (E.faults out.new) }
{
    if values.is_empty() {
        return Ok(Term::Truth(true));
    }
    truth_none_of(alloc, term, values, out)
}

/// Appends a truth value that tells whether a term meets a condition, and answers it. On an `Err` it began that.
pub fn truth_of_condition<E: Emit>(
    alloc: Global,
    term: Term,
    cond: &Cond,
    out: &mut E,
) -> Result<Term, EmitStop>
    requires { E.count out.old + 2 ≤ 2 ^ 61 }
    ensures value { IfOk result (λ t. t ≡ (truth_of_condition (E.count out.old) term cond.now).term) }
    ensures ok { OnOk result (E.grew out.old out.new ((truth_of_condition (E.count out.old) term cond.now).items)) }
    ensures count { OnOk result (E.count out.new ≡ E.count out.old + made (truth_of_condition (E.count out.old) term cond.now).items) }
    ensures stopped { OnErr result (E.began out.old out.new ((truth_of_condition (E.count out.old) term cond.now).items)) }
    ensures cause { IsErrOf result EmitStop.Failed → Rose (E.faults out.old) (E.faults out.new) }
{
    match cond {
        Cond::Lt(u) => truth_of_relation(alloc, Relation::Lt, term, term_of(*u), out),
        Cond::Le(u) => truth_of_relation(alloc, Relation::Le, term, term_of(*u), out),
        Cond::Ge(u) => truth_of_relation(alloc, Relation::Ge, term, term_of(*u), out),
        Cond::Gt(u) => truth_of_relation(alloc, Relation::Gt, term, term_of(*u), out),
        Cond::Ne(u) => truth_of_relation(alloc, Relation::Ne, term, term_of(*u), out),
        Cond::Eq(u) => truth_of_relation(alloc, Relation::Eq, term, term_of(*u), out),
        Cond::InSpan(span) => truth_of_range(alloc, term, *span, out),
        Cond::OutSpan(span) => truth_outside(alloc, term, *span, out),
        Cond::InSet(values) => truth_among(alloc, term, values.as_slice(), out),
        Cond::OutSet(values) => truth_not_among(alloc, term, values.as_slice(), out),
    }
}

/// States how a sum of products is related to a term.
fn post_sum<E: Emit>(
    alloc: Global,
    relation: Relation,
    coefficients: &[i128],
    terms: &[Term],
    bound: Term,
    out: &mut E,
) -> Result<(), EmitStop>
    requires coefficients { All IsNegatable coefficients.now }
    requires bound { IsNegatableTerm bound }
    ensures ok { OnOk result (E.grew out.old out.new (Posted (sum_call relation coefficients.now terms.now bound) ∷ [])) }
    ensures count { OnOk result (E.count out.new ≡ E.count out.old) }
    ensures stopped { OnErr result (E.began out.old out.new (Posted (sum_call relation coefficients.now terms.now bound) ∷ [])) }
    ensures cause { IsErrOf result EmitStop.Failed → Rose (E.faults out.old) (E.faults out.new) }
{
    out.post(sum_call(alloc, relation, coefficients, terms, bound)?)?;
    Ok(())
}

/// The coefficients of a sum and of the integer that it is.
fn with_minus_one(alloc: Global, coefficients: &[i128]) -> Result<Ints, NoMemory>
    ensures { IfOk result (λ all. all ≡ coefficients.now ++ negsuc 0 ∷ []) }
{
    let mut all = Row::new(alloc);
    all.extend(coefficients)?;
    all.push(-1)?;
    Ok(all)
}

/// Appends a new integer, within the bounds, that is a sum of products, and answers it. On an `Err` it began that.
pub fn integer_sum<E: Emit>(
    alloc: Global,
    span: Span,
    coefficients: &[i128],
    terms: &[Term],
    out: &mut E,
) -> Result<Term, EmitStop>
    requires { E.count out.old < 2 ^ 61 }
    ensures value { IfOk result (λ t. t ≡ (integer_sum (E.count out.old) span coefficients.now terms.now).term) }
    ensures ok { OnOk result (E.grew out.old out.new (integer_sum (E.count out.old) span coefficients.now terms.now).items) }
    ensures count { OnOk result (E.count out.new ≡ E.count out.old + 1) }
    ensures stopped { OnErr result (E.began out.old out.new (integer_sum (E.count out.old) span coefficients.now terms.now).items) }
    ensures cause { IsErrOf result EmitStop.Failed → Rose (E.faults out.old) (E.faults out.new) }
{
    let all = with_minus_one(alloc, coefficients)?;
    integer_of_sum(alloc, span, all.as_slice(), terms, 0, out)
}

/// A new integer is the sum, and meets the condition.
#[tactic(auto, using(lo_base::proofs::Solving::made_laws))]
fn sum_as_integer<E: Emit>(
    alloc: Global,
    span: Span,
    coefficients: &[i128],
    terms: &[Term],
    cond: &Cond,
    out: &mut E,
) -> Result<(), EmitStop>
    requires { E.count out.old + 3 ≤ 2 ^ 61 }
    ensures ok { OnOk result (E.grew out.old out.new (low_sum_as_integer (E.count out.old) span coefficients.now terms.now cond.now)) }
    ensures count { OnOk result (E.count out.new ≡ E.count out.old + made (low_sum_as_integer (E.count out.old) span coefficients.now terms.now cond.now)) }
    ensures stopped { OnErr result (E.began out.old out.new (low_sum_as_integer (E.count out.old) span coefficients.now terms.now cond.now)) }
    ensures cause { IsErrOf result EmitStop.Failed → Rose (E.faults out.old) (E.faults out.new) }
{
    let sum = integer_sum(alloc, span, coefficients, terms, out)?;
    lower_condition(alloc, sum, cond, out)?;
    Ok(())
}

/// Appends what states that a sum of products, which lies in `span`, meets a condition. On an `Err` it began that.
pub fn lower_sum<E: Emit>(
    alloc: Global,
    span: Span,
    coefficients: &[i128],
    terms: &[Term],
    cond: &Cond,
    out: &mut E,
) -> Result<(), EmitStop>
    requires room { E.count out.old + 3 ≤ 2 ^ 61 }
    requires coefficients { All IsNegatable coefficients.now }
    requires bound { IsNegatableOperand cond.now }
    ensures ok { OnOk result (E.grew out.old out.new (low_sum (E.count out.old) span coefficients.now terms.now cond.now)) }
    ensures count { OnOk result (E.count out.new ≡ E.count out.old + made (low_sum (E.count out.old) span coefficients.now terms.now cond.now)) }
    ensures stopped { OnErr result (E.began out.old out.new (low_sum (E.count out.old) span coefficients.now terms.now cond.now)) }
    ensures cause { IsErrOf result EmitStop.Failed → Rose (E.faults out.old) (E.faults out.new) }
{
    match cond {
        Cond::Lt(u) => post_sum(alloc, Relation::Lt, coefficients, terms, term_of(*u), out),
        Cond::Le(u) => post_sum(alloc, Relation::Le, coefficients, terms, term_of(*u), out),
        Cond::Ge(u) => post_sum(alloc, Relation::Ge, coefficients, terms, term_of(*u), out),
        Cond::Gt(u) => post_sum(alloc, Relation::Gt, coefficients, terms, term_of(*u), out),
        Cond::Ne(u) => post_sum(alloc, Relation::Ne, coefficients, terms, term_of(*u), out),
        Cond::Eq(u) => post_sum(alloc, Relation::Eq, coefficients, terms, term_of(*u), out),
        Cond::InSpan(_) | Cond::OutSpan(_) | Cond::InSet(_) | Cond::OutSet(_) => {
            sum_as_integer(alloc, span, coefficients, terms, cond, out)
        }
    }
}
