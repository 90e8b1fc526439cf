//! `extension` of the values of one variable: it lies in some range, or in none.

ghost use Rattle.std.specs.Prelude.{◌≡◌, ◌+◌, ◌≤◌, ◌<◌, ◌^◌, true, length, OnOk, OnErr, IsErrOf, IfOk};
ghost use Rattle.xf_text.specs.Outside.{Rose};
ghost use Rattle.lo_base.specs.Item.{made};
ghost use Rattle.lo_emit.specs.declared.term.Term.TheVariants.{Var};
ghost use Rattle.lo_emit.specs.Conditions.{denied};
ghost use Rattle.lo_emit.specs.Emitted.{truth_of_range};
ghost use Rattle.lo_tables.specs.Unary.{range_truths, some_true, in_some, in_none, in_ranges, low_unary};

use fz_model::{Arg, Builtin, call_of_two};
use lo_base::{Emit, EmitStop};
use lo_emit::{Term, arg_of, clause, truth_of_range};
use std::alloc::Global;
use xf_merged::domain_of;
use xf_num::{Row, Span};

/// Whether the term lies in each range.
fn truths_of_ranges<E: Emit>(
    alloc: Global,
    x: Term,
    ranges: &[Span],
    out: &mut E,
) -> Result<Row<Term>, EmitStop>
    requires room { E.count out.old + length ranges.now ≤ 2 ^ 61 }
    ensures value { IfOk result (λ all. all ≡ (range_truths (E.count out.old) x ranges.now).terms) }
    ensures ok { OnOk result (E.grew out.old out.new (range_truths (E.count out.old) x ranges.now).items) }
    ensures stopped { OnErr result (E.began out.old out.new (range_truths (E.count out.old) x ranges.now).items) }
    ensures cause { IsErrOf result EmitStop.Failed → Rose (E.faults out.old) (E.faults out.new) }
{
    let mut all = Row::new(alloc);
    for range in ranges {
        let truth = truth_of_range(alloc, x, *range, out)?;
        all.push(truth)?;
    }
    Ok(all)
}

/// The term lies in one of the ranges, each of which is told by a truth value.
#[tactic(auto, using(lo_base::proofs::Solving::made_laws))]
fn lower_some_true<E: Emit>(
    alloc: Global,
    x: Term,
    ranges: &[Span],
    out: &mut E,
) -> Result<(), EmitStop>
    requires room { E.count out.old + length ranges.now ≤ 2 ^ 61 }
    ensures ok { OnOk result (E.grew out.old out.new (some_true (range_truths (E.count out.old) x ranges.now))) }
    ensures stopped { OnErr result (E.began out.old out.new (some_true (range_truths (E.count out.old) x ranges.now))) }
    ensures cause { IsErrOf result EmitStop.Failed → Rose (E.faults out.old) (E.faults out.new) }
{
    let all = truths_of_ranges(alloc, x, ranges, out)?;
    out.post(clause(alloc, all.as_slice(), &[])?)?;
    Ok(())
}

/// The term lies in some range.
fn lower_in_some<E: Emit>(
    alloc: Global,
    x: Term,
    ranges: &[Span],
    out: &mut E,
) -> Result<(), EmitStop>
    requires room { E.count out.old + length ranges.now ≤ 2 ^ 61 }
    ensures ok { OnOk result (E.grew out.old out.new (in_some (E.count out.old) x ranges.now)) }
    ensures stopped { OnErr result (E.began out.old out.new (in_some (E.count out.old) x ranges.now)) }
    ensures cause { IsErrOf result EmitStop.Failed → Rose (E.faults out.old) (E.faults out.new) }
{
    match ranges {
        [] => {
            out.post(clause(alloc, &[], &[])?)?;
            Ok(())
        }
        [range] => {
            out.post(call_of_two(alloc, Builtin::SetIn, arg_of(x), Arg::Range(*range))?)?;
            Ok(())
        }
        _ => lower_some_true(alloc, x, ranges, out),
    }
}

/// The term does not lie in the range.
#[tactic(auto, using(lo_base::proofs::Solving::made_laws))]
fn deny_range<E: Emit>(alloc: Global, x: Term, range: Span, out: &mut E) -> Result<(), EmitStop>
    requires room { E.count out.old < 2 ^ 61 }
    ensures ok { OnOk result (E.grew out.old out.new (denied (E.count out.old) (truth_of_range (E.count out.old) x range))) }
    ensures count { OnOk result (E.count out.new ≡ E.count out.old + 1) }
    ensures stopped { OnErr result (E.began out.old out.new (denied (E.count out.old) (truth_of_range (E.count out.old) x range))) }
    ensures cause { IsErrOf result EmitStop.Failed → Rose (E.faults out.old) (E.faults out.new) }
{
    let truth = truth_of_range(alloc, x, range, out)?;
    out.post(clause(alloc, &[], &[truth])?)?;
    Ok(())
}

/// The term lies in no range.
fn lower_in_none<E: Emit>(
    alloc: Global,
    x: Term,
    ranges: &[Span],
    out: &mut E,
) -> Result<(), EmitStop>
    requires room { E.count out.old + length ranges.now ≤ 2 ^ 61 }
    ensures ok { OnOk result (E.grew out.old out.new (in_none (E.count out.old) x ranges.now)) }
    ensures stopped { OnErr result (E.began out.old out.new (in_none (E.count out.old) x ranges.now)) }
    ensures cause { IsErrOf result EmitStop.Failed → Rose (E.faults out.old) (E.faults out.new) }
{
    for range in ranges {
        deny_range(alloc, x, *range, out)?;
    }
    Ok(())
}

/// The term lies in some range or, where not positive, in none.
fn lower_in_ranges<E: Emit>(
    alloc: Global,
    x: Term,
    ranges: &[Span],
    positive: bool,
    out: &mut E,
) -> Result<(), EmitStop>
    requires room { E.count out.old + length ranges.now ≤ 2 ^ 61 }
    ensures ok { OnOk result (E.grew out.old out.new (in_ranges (E.count out.old) x ranges.now positive)) }
    ensures stopped { OnErr result (E.began out.old out.new (in_ranges (E.count out.old) x ranges.now positive)) }
    ensures cause { IsErrOf result EmitStop.Failed → Rose (E.faults out.old) (E.faults out.new) }
{
    if positive {
        lower_in_some(alloc, x, ranges, out)
    } else {
        lower_in_none(alloc, x, ranges, out)
    }
}

/// Appends what says that the value of the variable is in some span or, where not positive, in none. On an `Err` it began
/// that.
#[tactic(auto, using(crate::proofs::Merged::merged_few))]
pub fn lower_unary<E: Emit>(
    alloc: Global,
    var: u32,
    spans: &[Span],
    positive: bool,
    out: &mut E,
) -> Result<(), EmitStop>
    requires few { length spans.now ≤ 2 ^ 60 }
    requires room { E.count out.old ≤ 2 ^ 60 }
    ensures ok { OnOk result (E.grew out.old out.new (low_unary (E.count out.old) var spans.now positive)) }
    ensures count { OnOk result (E.count out.new ≡ E.count out.old + made (low_unary (E.count out.old) var spans.now positive)) }
    ensures stopped { OnErr result (E.began out.old out.new (low_unary (E.count out.old) var spans.now positive)) }
    ensures cause { IsErrOf result EmitStop.Failed → Rose (E.faults out.old) (E.faults out.new) }
{
    let x = Term::Var(u64::from(var));
    let domain = domain_of(alloc, spans)?;
    match domain {
        Some(domain) => lower_in_ranges(alloc, x, domain.as_slice(), positive, out)?,
        None => lower_in_ranges(alloc, x, &[], positive, out)?,
    }
    Ok(())
}
