//! The calls of `cumulative`.

ghost use Rattle.std.specs.Prelude.{◌≡◌, ◌+◌, ◌*◌, ◌≤◌, ◌<◌, ◌^◌, ◌∷◌, [], ◌++◌, length, map, IfOk, OnOk, OnErr, IsErrOf};
ghost use Rattle.std.specs.List.{All};
ghost use Rattle.xf_text.specs.Outside.{Rose};
ghost use Rattle.lo_base.specs.Item.{made};
ghost use Rattle.lo_emit.specs.declared.term.Term.TheVariants as term;
ghost use Rattle.lo_emit.specs.Sums.{IsNegatable, IsNegatableTerm};
ghost use Rattle.lo_tasks.specs.Bounded.{IsBounded, HasBoundedHeight};
ghost use Rattle.lo_tasks.specs.Cumulative.{end_bounds, new_end, new_ends, given_end, given_ends, tasks_of, truth_of_run, integer_of_run, product_of, factor_of, share_of, shares_of, factors_of, low_load, low_loads, low_idle, behind_new, behind_given, behind_ends, low_tasks, low_cumulative};
ghost use Rattle.lo_emit.specs.Conditions.{IsNegatableOperand};
ghost use Rattle.xs_model.specs.Fitting.{AreAsMany, IsLimit};
ghost use Rattle.xs_model.specs.Magnitude.{term_bounds};
ghost use Rattle.xs_model.specs.declared.term.Term.TheVariants as operand;

use crate::task::{Limit, Task};
use fz_model::Builtin;
use lo_base::{Emit, EmitStop, truth_values};
use lo_conditions::{integer_sum, term_of};
use lo_emit::{
    Relation, Term, compare_call, integer_of_truth, integer_of_two, sum_call, truth_of_list,
    truth_of_two,
};
use std::alloc::Global;
use xf_num::{Ints, NoMemory, Row, Span, Vars};
use xs_model::Cond;

/// The bounds of a term.
fn bounds_of(spans: &[Span], operand: xs_model::Term) -> Span
    requires { IsBounded spans.now operand }
    ensures { result ≡ term_bounds spans.now operand }
{
    match operand {
        xs_model::Term::Int(value) => Span::new(value, value).unwrap(),
        xs_model::Term::Var(variable) => spans[variable as usize],
    }
}

/// The bounds of a start plus a length.
fn end_bounds(spans: &[Span], start: u32, length: xs_model::Term) -> Span
    requires start { IsBounded spans.now (operand.Var start) }
    requires length { IsBounded spans.now length }
    ensures { result ≡ end_bounds spans.now start length }
{
    let begin = bounds_of(spans, xs_model::Term::Var(start));
    begin.add(bounds_of(spans, length)).unwrap()
}

/// A new integer, which is a start plus a length.
fn new_end<E: Emit>(
    alloc: Global,
    spans: &[Span],
    start: u32,
    length: xs_model::Term,
    out: &mut E,
) -> Result<Term, EmitStop>
    requires start { IsBounded spans.now (operand.Var start) }
    requires length { IsBounded spans.now length }
    requires room { E.count out.old < 2 ^ 61 }
    ensures value { IfOk result (λ t. t ≡ (new_end spans.now (E.count out.old) (start, length)).term) }
    ensures ok { OnOk result (E.grew out.old out.new (new_end spans.now (E.count out.old) (start, length)).items) }
    ensures count { OnOk result (E.count out.new ≡ E.count out.old + 1) }
    ensures stopped { OnErr result (E.began out.old out.new (new_end spans.now (E.count out.old) (start, length)).items) }
    ensures cause { IsErrOf result EmitStop.Failed → Rose (E.faults out.old) (E.faults out.new) }
{
    let span = end_bounds(spans, start, length);
    let terms = [Term::Var(u64::from(start)), term_of(length)];
    integer_sum(alloc, span, &[1, 1], &terms, out)
}

/// Tasks with new ends.
fn new_tasks<E: Emit>(
    alloc: Global,
    spans: &[Span],
    origins: &[u32],
    lengths: &[xs_model::Term],
    heights: &[xs_model::Term],
    out: &mut E,
) -> Result<Row<Task>, EmitStop>
    requires as_long { length lengths.now ≡ length origins.now }
    requires as_high { length heights.now ≡ length origins.now }
    requires origins { All (λ start. IsBounded spans.now (operand.Var start)) origins.now }
    requires lengths { All (IsBounded spans.now) lengths.now }
    requires heights { All (IsBounded spans.now) heights.now }
    requires room { E.count out.old + length origins.now ≤ 2 ^ 61 }
    ensures value { IfOk result (λ tasks. tasks ≡ tasks_of origins.now (new_ends spans.now (E.count out.old) origins.now lengths.now).terms heights.now) }
    ensures heights { IfOk result (λ tasks. All (HasBoundedHeight spans.now) tasks) }
    ensures few { IfOk result (λ tasks. length tasks ≤ length origins.now) }
    ensures ok { OnOk result (E.grew out.old out.new (new_ends spans.now (E.count out.old) origins.now lengths.now).items) }
    ensures count { OnOk result (E.count out.new ≡ E.count out.old + made (new_ends spans.now (E.count out.old) origins.now lengths.now).items) }
    ensures room { OnOk result (E.count out.new ≤ E.count out.old + length origins.now) }
    ensures stopped { OnErr result (E.began out.old out.new (new_ends spans.now (E.count out.old) origins.now lengths.now).items) }
    ensures cause { IsErrOf result EmitStop.Failed → Rose (E.faults out.old) (E.faults out.new) }
{
    let mut tasks = Row::new(alloc);
    for i in 0..origins.len() {
        let end = new_end(alloc, spans, origins[i], lengths[i], out)?;
        tasks.push(Task {
            start: Term::Var(u64::from(origins[i])),
            end,
            height: heights[i],
        })?;
    }
    Ok(tasks)
}

/// States that a start plus a length is an end.
fn post_end<E: Emit>(
    alloc: Global,
    start: u32,
    length: xs_model::Term,
    end: u32,
    out: &mut E,
) -> Result<(), EmitStop>
    ensures ok { OnOk result (E.grew out.old out.new (given_end (E.count out.old) ((start, length), end))) }
    ensures count { OnOk result (E.count out.new ≡ E.count out.old) }
    ensures stopped { OnErr result (E.began out.old out.new (given_end (E.count out.old) ((start, length), end))) }
    ensures cause { IsErrOf result EmitStop.Failed → Rose (E.faults out.old) (E.faults out.new) }
{
    let terms = [Term::Var(u64::from(start)), term_of(length)];
    let bound = Term::Var(u64::from(end));
    out.post(sum_call(alloc, Relation::Eq, &[1, 1], &terms, bound)?)?;
    Ok(())
}

/// Tasks with ends that are given.
fn given_tasks<E: Emit>(
    alloc: Global,
    spans: &[Span],
    origins: &[u32],
    lengths: &[xs_model::Term],
    heights: &[xs_model::Term],
    ends: &[u32],
    out: &mut E,
) -> Result<Row<Task>, EmitStop>
    requires as_long { length lengths.now ≡ length origins.now }
    requires as_high { length heights.now ≡ length origins.now }
    requires ended { length ends.now ≡ length origins.now }
    requires heights { All (IsBounded spans.now) heights.now }
    ensures value { IfOk result (λ tasks. tasks ≡ tasks_of origins.now (map term.Var ends.now) heights.now) }
    ensures heights { IfOk result (λ tasks. All (HasBoundedHeight spans.now) tasks) }
    ensures few { IfOk result (λ tasks. length tasks ≤ length origins.now) }
    ensures ok { OnOk result (E.grew out.old out.new (given_ends (E.count out.old) origins.now lengths.now ends.now)) }
    ensures count { OnOk result (E.count out.new ≡ E.count out.old + made (given_ends (E.count out.old) origins.now lengths.now ends.now)) }
    ensures room { OnOk result (E.count out.new ≤ E.count out.old + length origins.now) }
    ensures stopped { OnErr result (E.began out.old out.new (given_ends (E.count out.old) origins.now lengths.now ends.now)) }
    ensures cause { IsErrOf result EmitStop.Failed → Rose (E.faults out.old) (E.faults out.new) }
{
    let mut tasks = Row::new(alloc);
    for i in 0..origins.len() {
        post_end(alloc, origins[i], lengths[i], ends[i], out)?;
        tasks.push(Task {
            start: Term::Var(u64::from(origins[i])),
            end: Term::Var(u64::from(ends[i])),
            height: heights[i],
        })?;
    }
    Ok(tasks)
}

/// Whether a task runs at a time.
#[tactic(auto, using(lo_base::proofs::Solving::made_laws))]
fn truth_of_run<E: Emit>(
    alloc: Global,
    time: Term,
    task: Task,
    out: &mut E,
) -> Result<Term, EmitStop>
    requires { E.count out.old + 3 ≤ 2 ^ 61 }
    ensures value { IfOk result (λ t. t ≡ (truth_of_run time (E.count out.old) task).term) }
    ensures ok { OnOk result (E.grew out.old out.new (truth_of_run time (E.count out.old) task).items) }
    ensures count { OnOk result (E.count out.new ≡ E.count out.old + 3) }
    ensures stopped { OnErr result (E.began out.old out.new (truth_of_run time (E.count out.old) task).items) }
    ensures cause { IsErrOf result EmitStop.Failed → Rose (E.faults out.old) (E.faults out.new) }
{
    let begun = truth_of_two(alloc, Builtin::IntLeReif, task.start, time, out)?;
    let unfinished = truth_of_two(alloc, Builtin::IntLtReif, time, task.end, out)?;
    truth_of_list(alloc, Builtin::ArrayBoolAnd, &[begun, unfinished], out)
}

/// The same as 0 or 1.
#[tactic(auto, using(lo_base::proofs::Solving::made_laws))]
fn integer_of_run<E: Emit>(
    alloc: Global,
    time: Term,
    task: Task,
    out: &mut E,
) -> Result<Term, EmitStop>
    requires { E.count out.old + 4 ≤ 2 ^ 61 }
    ensures value { IfOk result (λ t. t ≡ (integer_of_run time (E.count out.old) task).term) }
    ensures ok { OnOk result (E.grew out.old out.new (integer_of_run time (E.count out.old) task).items) }
    ensures count { OnOk result (E.count out.new ≡ E.count out.old + 4) }
    ensures stopped { OnErr result (E.began out.old out.new (integer_of_run time (E.count out.old) task).items) }
    ensures cause { IsErrOf result EmitStop.Failed → Rose (E.faults out.old) (E.faults out.new) }
{
    let truth = truth_of_run(alloc, time, task, out)?;
    integer_of_truth(alloc, truth, out)
}

/// The product of a height and 0 or 1; where the height is an integer, it is left to the sum.
fn product_of<E: Emit>(
    alloc: Global,
    spans: &[Span],
    height: xs_model::Term,
    factor: Term,
    out: &mut E,
) -> Result<Term, EmitStop>
    requires height { IsBounded spans.now height }
    requires room { E.count out.old < 2 ^ 61 }
    ensures value { IfOk result (λ t. t ≡ (product_of spans.now height (E.count out.old) factor).term) }
    ensures ok { OnOk result (E.grew out.old out.new (product_of spans.now height (E.count out.old) factor).items) }
    ensures count { OnOk result (E.count out.new ≡ E.count out.old + made (product_of spans.now height (E.count out.old) factor).items) }
    ensures few { OnOk result (E.count out.new ≤ E.count out.old + 1) }
    ensures stopped { OnErr result (E.began out.old out.new (product_of spans.now height (E.count out.old) factor).items) }
    ensures cause { IsErrOf result EmitStop.Failed → Rose (E.faults out.old) (E.faults out.new) }
{
    match height {
        xs_model::Term::Int(_) => Ok(factor),
        xs_model::Term::Var(_) => {
            let span = bounds_of(spans, height).mul(truth_values()).unwrap();
            integer_of_two(alloc, span, Builtin::IntTimes, term_of(height), factor, out)
        }
    }
}

/// What a task adds to the sum at a time.
#[tactic(auto, using(lo_base::proofs::Solving::made_laws))]
fn share_of<E: Emit>(
    alloc: Global,
    spans: &[Span],
    time: Term,
    task: Task,
    out: &mut E,
) -> Result<Term, EmitStop>
    requires height { HasBoundedHeight spans.now task }
    requires room { E.count out.old + 5 ≤ 2 ^ 61 }
    ensures value { IfOk result (λ t. t ≡ (share_of spans.now time (E.count out.old) task).term) }
    ensures ok { OnOk result (E.grew out.old out.new (share_of spans.now time (E.count out.old) task).items) }
    ensures count { OnOk result (E.count out.new ≡ E.count out.old + made (share_of spans.now time (E.count out.old) task).items) }
    ensures few { OnOk result (E.count out.new ≤ E.count out.old + 5) }
    ensures stopped { OnErr result (E.began out.old out.new (share_of spans.now time (E.count out.old) task).items) }
    ensures cause { IsErrOf result EmitStop.Failed → Rose (E.faults out.old) (E.faults out.new) }
{
    let running = integer_of_run(alloc, time, task, out)?;
    product_of(alloc, spans, task.height, running, out)
}

/// What each task adds to the sum at a time.
fn shares_of<E: Emit>(
    alloc: Global,
    spans: &[Span],
    tasks: &[Task],
    time: Term,
    out: &mut E,
) -> Result<Row<Term>, EmitStop>
    requires heights { All (HasBoundedHeight spans.now) tasks.now }
    requires room { E.count out.old + 5 * length tasks.now ≤ 2 ^ 61 }
    ensures value { IfOk result (λ all. all ≡ (shares_of spans.now tasks.now time (E.count out.old)).terms) }
    ensures ok { OnOk result (E.grew out.old out.new (shares_of spans.now tasks.now time (E.count out.old)).items) }
    ensures count { OnOk result (E.count out.new ≡ E.count out.old + made (shares_of spans.now tasks.now time (E.count out.old)).items) }
    ensures few { OnOk result (E.count out.new ≤ E.count out.old + 5 * length tasks.now) }
    ensures stopped { OnErr result (E.began out.old out.new (shares_of spans.now tasks.now time (E.count out.old)).items) }
    ensures cause { IsErrOf result EmitStop.Failed → Rose (E.faults out.old) (E.faults out.new) }
{
    let mut all = Row::new(alloc);
    for task in tasks {
        let share = share_of(alloc, spans, time, *task, out)?;
        all.push(share)?;
    }
    Ok(all)
}

/// The factor of what a task adds.
fn factor_of(height: xs_model::Term) -> i128
    ensures { result ≡ factor_of height }
{
    match height {
        xs_model::Term::Int(value) => value,
        xs_model::Term::Var(_) => 1,
    }
}

/// The factors of what the tasks add.
fn factors_of(alloc: Global, tasks: &[Task]) -> Result<Ints, NoMemory>
    ensures { IfOk result (λ all. all ≡ factors_of tasks.now) }
{
    let mut all = Row::new(alloc);
    for task in tasks {
        all.push(factor_of(task.height))?;
    }
    Ok(all)
}

/// The sum at a time meets the limit.
#[tactic(auto, using(lo_base::proofs::Solving::made_laws))]
fn lower_load<E: Emit>(
    alloc: Global,
    spans: &[Span],
    limit: Limit,
    tasks: &[Task],
    factors: &[i128],
    time: Term,
    out: &mut E,
) -> Result<(), EmitStop>
    requires heights { All (HasBoundedHeight spans.now) tasks.now }
    requires factors { factors.now ≡ factors_of tasks.now }
    requires negatable { All IsNegatable factors.now }
    requires bound { IsNegatableTerm limit.bound }
    requires room { E.count out.old + 5 * length tasks.now ≤ 2 ^ 61 }
    ensures ok { OnOk result (E.grew out.old out.new (low_load spans.now limit tasks.now (E.count out.old) time)) }
    ensures count { OnOk result (E.count out.new ≡ E.count out.old + made (low_load spans.now limit tasks.now (E.count out.old) time)) }
    ensures few { OnOk result (E.count out.new ≤ E.count out.old + 5 * length tasks.now) }
    ensures stopped { OnErr result (E.began out.old out.new (low_load spans.now limit tasks.now (E.count out.old) time)) }
    ensures cause { IsErrOf result EmitStop.Failed → Rose (E.faults out.old) (E.faults out.new) }
{
    let shares = shares_of(alloc, spans, tasks, time, out)?;
    out.post(sum_call(
        alloc,
        limit.relation,
        factors,
        shares.as_slice(),
        limit.bound,
    )?)?;
    Ok(())
}

/// The sum at the start of each task meets the limit.
fn lower_loads<E: Emit>(
    alloc: Global,
    spans: &[Span],
    limit: Limit,
    tasks: &[Task],
    out: &mut E,
) -> Result<(), EmitStop>
    requires heights { All (HasBoundedHeight spans.now) tasks.now }
    requires bound { IsNegatableTerm limit.bound }
    requires room { E.count out.old + length tasks.now * (5 * length tasks.now) ≤ 2 ^ 61 }
    ensures ok { OnOk result (E.grew out.old out.new (low_loads spans.now limit tasks.now (E.count out.old) tasks.now)) }
    ensures stopped { OnErr result (E.began out.old out.new (low_loads spans.now limit tasks.now (E.count out.old) tasks.now)) }
    ensures cause { IsErrOf result EmitStop.Failed → Rose (E.faults out.old) (E.faults out.new) }
{
    let factors = factors_of(alloc, tasks)?;
    for task in tasks {
        lower_load(
            alloc,
            spans,
            limit,
            tasks,
            factors.as_slice(),
            task.start,
            out,
        )?;
    }
    Ok(())
}

/// 0 meets the limit.
fn lower_idle<E: Emit>(alloc: Global, limit: Limit, out: &mut E) -> Result<(), EmitStop>
    ensures ok { OnOk result (E.grew out.old out.new (low_idle limit)) }
    ensures count { OnOk result (E.count out.new ≡ E.count out.old) }
    ensures stopped { OnErr result (E.began out.old out.new (low_idle limit)) }
    ensures cause { IsErrOf result EmitStop.Failed → Rose (E.faults out.old) (E.faults out.new) }
{
    let zero = Term::Int(0);
    out.post(compare_call(alloc, limit.relation, zero, limit.bound)?)?;
    Ok(())
}

/// The ends, which are new, and the sums.
#[tactic(auto, using(crate::proofs::Factors::room_for_sums))]
fn lower_new<E: Emit>(
    alloc: Global,
    spans: &[Span],
    limit: Limit,
    origins: &[u32],
    lengths: &[xs_model::Term],
    heights: &[xs_model::Term],
    out: &mut E,
) -> Result<(), EmitStop>
    requires as_long { length lengths.now ≡ length origins.now }
    requires as_high { length heights.now ≡ length origins.now }
    requires origins { All (λ start. IsBounded spans.now (operand.Var start)) origins.now }
    requires lengths { All (IsBounded spans.now) lengths.now }
    requires heights { All (IsBounded spans.now) heights.now }
    requires bound { IsNegatableTerm limit.bound }
    requires few { length origins.now * (5 * length origins.now) + length origins.now ≤ 2 ^ 60 }
    requires room { E.count out.old ≤ 2 ^ 60 }
    ensures ok { OnOk result (E.grew out.old out.new (behind_new spans.now limit (E.count out.old) origins.now heights.now (new_ends spans.now (E.count out.old) origins.now lengths.now))) }
    ensures stopped { OnErr result (E.began out.old out.new (behind_new spans.now limit (E.count out.old) origins.now heights.now (new_ends spans.now (E.count out.old) origins.now lengths.now))) }
    ensures cause { IsErrOf result EmitStop.Failed → Rose (E.faults out.old) (E.faults out.new) }
{
    let tasks = new_tasks(alloc, spans, origins, lengths, heights, out)?;
    lower_loads(alloc, spans, limit, tasks.as_slice(), out)
}

/// The ends, which are given, and the sums.
#[tactic(auto, using(crate::proofs::Factors::room_for_sums))]
fn lower_given<E: Emit>(
    alloc: Global,
    spans: &[Span],
    limit: Limit,
    origins: &[u32],
    lengths: &[xs_model::Term],
    heights: &[xs_model::Term],
    ends: &[u32],
    out: &mut E,
) -> Result<(), EmitStop>
    requires as_long { length lengths.now ≡ length origins.now }
    requires as_high { length heights.now ≡ length origins.now }
    requires ended { length ends.now ≡ length origins.now }
    requires heights { All (IsBounded spans.now) heights.now }
    requires bound { IsNegatableTerm limit.bound }
    requires few { length origins.now * (5 * length origins.now) + length origins.now ≤ 2 ^ 60 }
    requires room { E.count out.old ≤ 2 ^ 60 }
    ensures ok { OnOk result (E.grew out.old out.new (behind_given spans.now limit (E.count out.old) origins.now heights.now ends.now (given_ends (E.count out.old) origins.now lengths.now ends.now))) }
    ensures stopped { OnErr result (E.began out.old out.new (behind_given spans.now limit (E.count out.old) origins.now heights.now ends.now (given_ends (E.count out.old) origins.now lengths.now ends.now))) }
    ensures cause { IsErrOf result EmitStop.Failed → Rose (E.faults out.old) (E.faults out.new) }
{
    let tasks = given_tasks(alloc, spans, origins, lengths, heights, ends, out)?;
    lower_loads(alloc, spans, limit, tasks.as_slice(), out)
}

/// The ends and the sums.
fn lower_behind<E: Emit>(
    alloc: Global,
    spans: &[Span],
    limit: Limit,
    origins: &[u32],
    lengths: &[xs_model::Term],
    heights: &[xs_model::Term],
    ends: &Option<Vars>,
    out: &mut E,
) -> Result<(), EmitStop>
    requires as_long { length lengths.now ≡ length origins.now }
    requires as_high { length heights.now ≡ length origins.now }
    requires ended { AreAsMany (length origins.now) ends.now }
    requires origins { All (λ start. IsBounded spans.now (operand.Var start)) origins.now }
    requires lengths { All (IsBounded spans.now) lengths.now }
    requires heights { All (IsBounded spans.now) heights.now }
    requires bound { IsNegatableTerm limit.bound }
    requires few { length origins.now * (5 * length origins.now) + length origins.now ≤ 2 ^ 60 }
    requires room { E.count out.old ≤ 2 ^ 60 }
    ensures ok { OnOk result (E.grew out.old out.new (behind_ends spans.now limit (E.count out.old) origins.now lengths.now heights.now ends.now)) }
    ensures stopped { OnErr result (E.began out.old out.new (behind_ends spans.now limit (E.count out.old) origins.now lengths.now heights.now ends.now)) }
    ensures cause { IsErrOf result EmitStop.Failed → Rose (E.faults out.old) (E.faults out.new) }
{
    match ends {
        None => lower_new(alloc, spans, limit, origins, lengths, heights, out),
        Some(ends) => {
            let ends = ends.as_slice();
            lower_given(alloc, spans, limit, origins, lengths, heights, ends, out)
        }
    }
}

/// The tasks meet the limit.
fn lower_tasks<E: Emit>(
    alloc: Global,
    spans: &[Span],
    limit: Limit,
    origins: &[u32],
    lengths: &[xs_model::Term],
    heights: &[xs_model::Term],
    ends: &Option<Vars>,
    out: &mut E,
) -> Result<(), EmitStop>
    requires as_long { length lengths.now ≡ length origins.now }
    requires as_high { length heights.now ≡ length origins.now }
    requires ended { AreAsMany (length origins.now) ends.now }
    requires origins { All (λ start. IsBounded spans.now (operand.Var start)) origins.now }
    requires lengths { All (IsBounded spans.now) lengths.now }
    requires heights { All (IsBounded spans.now) heights.now }
    requires bound { IsNegatableTerm limit.bound }
    requires few { length origins.now * (5 * length origins.now) + length origins.now ≤ 2 ^ 60 }
    requires room { E.count out.old ≤ 2 ^ 60 }
    ensures ok { OnOk result (E.grew out.old out.new (low_tasks spans.now limit (E.count out.old) origins.now lengths.now heights.now ends.now)) }
    ensures stopped { OnErr result (E.began out.old out.new (low_tasks spans.now limit (E.count out.old) origins.now lengths.now heights.now ends.now)) }
    ensures cause { IsErrOf result EmitStop.Failed → Rose (E.faults out.old) (E.faults out.new) }
{
    lower_idle(alloc, limit, out)?;
    lower_behind(alloc, spans, limit, origins, lengths, heights, ends, out)
}

/// The same as `lower_cumulative`.
fn lower_limited<E: Emit>(
    alloc: Global,
    spans: &[Span],
    origins: &[u32],
    lengths: &[xs_model::Term],
    heights: &[xs_model::Term],
    ends: &Option<Vars>,
    cond: &Cond,
    out: &mut E,
) -> Result<(), EmitStop>
    requires limit { IsLimit cond.now }
    requires as_long { length lengths.now ≡ length origins.now }
    requires as_high { length heights.now ≡ length origins.now }
    requires ended { AreAsMany (length origins.now) ends.now }
    requires origins { All (λ start. IsBounded spans.now (operand.Var start)) origins.now }
    requires lengths { All (IsBounded spans.now) lengths.now }
    requires heights { All (IsBounded spans.now) heights.now }
    requires bound { IsNegatableOperand cond.now }
    requires few { length origins.now * (5 * length origins.now) + length origins.now ≤ 2 ^ 60 }
    requires room { E.count out.old ≤ 2 ^ 60 }
    ensures ok { OnOk result (E.grew out.old out.new (low_cumulative spans.now (E.count out.old) origins.now lengths.now heights.now ends.now cond.now)) }
    ensures stopped { OnErr result (E.began out.old out.new (low_cumulative spans.now (E.count out.old) origins.now lengths.now heights.now ends.now cond.now)) }
    ensures cause { IsErrOf result EmitStop.Failed → Rose (E.faults out.old) (E.faults out.new) }
{
    match cond {
        Cond::Lt(bound) => {
            let limit = Limit {
                relation: Relation::Lt,
                bound: term_of(*bound),
            };
            lower_tasks(alloc, spans, limit, origins, lengths, heights, ends, out)
        }
        Cond::Le(bound) => {
            let limit = Limit {
                relation: Relation::Le,
                bound: term_of(*bound),
            };
            lower_tasks(alloc, spans, limit, origins, lengths, heights, ends, out)
        }
        // No other condition is a limit.
        _ => unreachable!(),
    }
}

/// Appends what says that at every time the heights of the tasks that run sum to a number that meets the condition, and
/// that each end which is given is the origin plus the length. Variable `i` lies within `spans[i]`, the bounds of the terms
/// are small, and there are at most 2^60 variables before. On an `Err` it began that.
pub fn lower_cumulative<E: Emit>(
    alloc: Global,
    origins: &[u32],
    lengths: &[xs_model::Term],
    heights: &[xs_model::Term],
    ends: &Option<Vars>,
    cond: &Cond,
    spans: &[Span],
    out: &mut E,
) -> Result<(), EmitStop>
    requires limit { IsLimit cond.now }
    requires as_long { length lengths.now ≡ length origins.now }
    requires as_high { length heights.now ≡ length origins.now }
    requires ended { AreAsMany (length origins.now) ends.now }
    requires origins { All (λ start. IsBounded spans.now (operand.Var start)) origins.now }
    requires lengths { All (IsBounded spans.now) lengths.now }
    requires heights { All (IsBounded spans.now) heights.now }
    requires bound { IsNegatableOperand cond.now }
    requires few { length origins.now * (5 * length origins.now) + length origins.now ≤ 2 ^ 60 }
    requires room { E.count out.old ≤ 2 ^ 60 }
    ensures ok { OnOk result (E.grew out.old out.new (low_cumulative spans.now (E.count out.old) origins.now lengths.now heights.now ends.now cond.now)) }
    ensures count { OnOk result (E.count out.new ≡ E.count out.old + made (low_cumulative spans.now (E.count out.old) origins.now lengths.now heights.now ends.now cond.now)) }
    ensures stopped { OnErr result (E.began out.old out.new (low_cumulative spans.now (E.count out.old) origins.now lengths.now heights.now ends.now cond.now)) }
    ensures cause { IsErrOf result EmitStop.Failed → Rose (E.faults out.old) (E.faults out.new) }
{
    lower_limited(alloc, spans, origins, lengths, heights, ends, cond, out)?;
    Ok(())
}
