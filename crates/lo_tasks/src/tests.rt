//! Tasks, and what they are lowered to. The table has the new variables and the calls as FlatZinc writes them, worked out by
//! hand.

ghost use Rattle.std.specs.Prelude.{◌≡◌, length, All, IfOk, IsTrue};
ghost use Rattle.fz_model.specs.Limits.{IsSmall};
ghost use Rattle.lo_emit.specs.Conditions.{IsNegatableOperand, term_of};
ghost use Rattle.lo_emit.specs.Sums.{IsNegatableTerm};
ghost use Rattle.lo_tasks.specs.Bounded.{IsBounded};
ghost use Rattle.xs_model.specs.Fitting.{AreAsMany, IsLimit};
ghost use Rattle.xs_model.specs.declared.term.Term.TheVariants as operand;

use crate::lower_cumulative;
use fz_file::{push_call, push_var};
use fz_model::{FzVar, FzVars, Goal, Model};
use lo_base::Held;
use std::alloc::Global;
use std::test::Fail;
use xf_num::{Domain, NoMemory, Row, Span, Vars};
use xs_model::{Cond, Term};

/// The variable of a number: its name and its bounds.
const NAMED: &[(&[u8], i128, i128)] = &[
    (b"s", 0, 0),
    (b"x", 0, 9),
    (b"y", 2, 5),
    (b"h", 0, 3),
    (b"e", 0, 12),
];

/// The origins, lengths and heights, the ends where they are given, whether the limit is strict, its bound, and the lines of
/// the new variables and of the calls.
type Case = (
    &'static [u32],
    &'static [Term],
    &'static [Term],
    Option<&'static [u32]>,
    bool,
    Term,
    &'static str,
);

const CASES: &[Case] = &[
    // A task that never runs: the limit is asked for where none does.
    (
        &[0],
        &[Term::Int(0)],
        &[Term::Int(1)],
        None,
        false,
        Term::Int(-1),
        "var 0..0: a_0;\n\
         var bool: a_1;\n\
         var bool: a_2;\n\
         var bool: a_3;\n\
         var 0..1: a_4;\n\
         constraint int_le(0,-1);\n\
         constraint int_lin_eq([1,1,-1],[s,0,a_0],0);\n\
         constraint int_le_reif(s,s,a_1);\n\
         constraint int_lt_reif(s,a_0,a_2);\n\
         constraint array_bool_and([a_1,a_2],a_3);\n\
         constraint bool2int(a_3,a_4);\n\
         constraint int_lin_le([1],[a_4],-1);\n",
    ),
    // No task, with and without ends.
    (
        &[],
        &[],
        &[],
        None,
        true,
        Term::Int(5),
        "constraint int_lt(0,5);\n",
    ),
    (
        &[],
        &[],
        &[],
        Some(&[]),
        false,
        Term::Var(3),
        "constraint int_le(0,h);\n",
    ),
    // A variable length, height and bound, and an end that is given.
    (
        &[1],
        &[Term::Var(2)],
        &[Term::Var(3)],
        Some(&[4]),
        true,
        Term::Var(2),
        "var bool: a_0;\n\
         var bool: a_1;\n\
         var bool: a_2;\n\
         var 0..1: a_3;\n\
         var 0..3: a_4;\n\
         constraint int_lt(0,y);\n\
         constraint int_lin_eq([1,1,-1],[x,y,e],0);\n\
         constraint int_le_reif(x,x,a_0);\n\
         constraint int_lt_reif(x,e,a_1);\n\
         constraint array_bool_and([a_0,a_1],a_2);\n\
         constraint bool2int(a_2,a_3);\n\
         constraint int_times(h,a_3,a_4);\n\
         constraint int_lin_le([1,-1],[a_4,y],-1);\n",
    ),
    // A strict limit that is an integer is one less.
    (
        &[1],
        &[Term::Int(2)],
        &[Term::Int(1)],
        Some(&[4]),
        true,
        Term::Int(3),
        "var bool: a_0;\n\
         var bool: a_1;\n\
         var bool: a_2;\n\
         var 0..1: a_3;\n\
         constraint int_lt(0,3);\n\
         constraint int_lin_eq([1,1,-1],[x,2,e],0);\n\
         constraint int_le_reif(x,x,a_0);\n\
         constraint int_lt_reif(x,e,a_1);\n\
         constraint array_bool_and([a_0,a_1],a_2);\n\
         constraint bool2int(a_2,a_3);\n\
         constraint int_lin_le([1],[a_3],2);\n",
    ),
    // The factor of a task is its height, that of a bound -1.
    (
        &[0],
        &[Term::Int(1)],
        &[Term::Int(3)],
        None,
        false,
        Term::Var(3),
        "var 1..1: a_0;\n\
         var bool: a_1;\n\
         var bool: a_2;\n\
         var bool: a_3;\n\
         var 0..1: a_4;\n\
         constraint int_le(0,h);\n\
         constraint int_lin_eq([1,1,-1],[s,1,a_0],0);\n\
         constraint int_le_reif(s,s,a_1);\n\
         constraint int_lt_reif(s,a_0,a_2);\n\
         constraint array_bool_and([a_1,a_2],a_3);\n\
         constraint bool2int(a_3,a_4);\n\
         constraint int_lin_le([3,-1],[a_4,h],0);\n",
    ),
    // Two tasks: at the start of each both are looked at.
    (
        &[1, 2],
        &[Term::Int(3), Term::Var(3)],
        &[Term::Int(2), Term::Var(3)],
        None,
        false,
        Term::Int(4),
        "var 3..12: a_0;\n\
         var 2..8: a_1;\n\
         var bool: a_2;\n\
         var bool: a_3;\n\
         var bool: a_4;\n\
         var 0..1: a_5;\n\
         var bool: a_6;\n\
         var bool: a_7;\n\
         var bool: a_8;\n\
         var 0..1: a_9;\n\
         var 0..3: a_10;\n\
         var bool: a_11;\n\
         var bool: a_12;\n\
         var bool: a_13;\n\
         var 0..1: a_14;\n\
         var bool: a_15;\n\
         var bool: a_16;\n\
         var bool: a_17;\n\
         var 0..1: a_18;\n\
         var 0..3: a_19;\n\
         constraint int_le(0,4);\n\
         constraint int_lin_eq([1,1,-1],[x,3,a_0],0);\n\
         constraint int_lin_eq([1,1,-1],[y,h,a_1],0);\n\
         constraint int_le_reif(x,x,a_2);\n\
         constraint int_lt_reif(x,a_0,a_3);\n\
         constraint array_bool_and([a_2,a_3],a_4);\n\
         constraint bool2int(a_4,a_5);\n\
         constraint int_le_reif(y,x,a_6);\n\
         constraint int_lt_reif(x,a_1,a_7);\n\
         constraint array_bool_and([a_6,a_7],a_8);\n\
         constraint bool2int(a_8,a_9);\n\
         constraint int_times(h,a_9,a_10);\n\
         constraint int_lin_le([2,1],[a_5,a_10],4);\n\
         constraint int_le_reif(x,y,a_11);\n\
         constraint int_lt_reif(y,a_0,a_12);\n\
         constraint array_bool_and([a_11,a_12],a_13);\n\
         constraint bool2int(a_13,a_14);\n\
         constraint int_le_reif(y,y,a_15);\n\
         constraint int_lt_reif(y,a_1,a_16);\n\
         constraint array_bool_and([a_15,a_16],a_17);\n\
         constraint bool2int(a_17,a_18);\n\
         constraint int_times(h,a_18,a_19);\n\
         constraint int_lin_le([2,1],[a_14,a_19],4);\n",
    ),
];

// The variables, and their bounds.
fn variables(alloc: Global) -> Result<FzVars, NoMemory> {
    let mut vars = Row::new(alloc);
    for (name, lo, hi) in NAMED {
        if let Some(span) = Span::new(*lo, *hi) {
            vars.push(FzVar {
                name: Row::from_slice(alloc, name)?,
                boolean: false,
                domain: Domain::of(alloc, span)?,
                equal: None,
                shown: true,
            })?;
        }
    }
    Ok(vars)
}

fn spans(alloc: Global) -> Result<Row<Span>, NoMemory> {
    let mut spans = Row::new(alloc);
    for (_, lo, hi) in NAMED {
        if let Some(span) = Span::new(*lo, *hi) {
            spans.push(span)?;
        }
    }
    Ok(spans)
}

fn is_small(span: Span) -> bool
    ensures { IsTrue result → IsSmall span }
{
    -100 < span.lo() && span.hi() < 100
}

fn is_bounded(spans: &[Span], term: Term) -> bool
    ensures { IsTrue result → IsBounded spans.now term }
{
    match term {
        Term::Int(value) => -100 < value && value < 100,
        Term::Var(variable) => {
            (variable as usize) < spans.len() && is_small(spans[variable as usize])
        }
    }
}

// Those of the variables whose bounds are small.
fn starts_of(alloc: Global, spans: &[Span], list: &[u32]) -> Result<Vars, NoMemory>
    ensures { IfOk result (λ all. All (λ start. IsBounded spans.now (operand.Var start)) all) }
{
    let mut all = Row::new(alloc);
    for start in list {
        if is_bounded(spans, Term::Var(*start)) {
            all.push(*start)?;
        }
    }
    Ok(all)
}

// Those of the terms whose bounds are small.
fn terms_of(alloc: Global, spans: &[Span], list: &[Term]) -> Result<Row<Term>, NoMemory>
    ensures { IfOk result (λ all. All (IsBounded spans.now) all) }
{
    let mut all = Row::new(alloc);
    for term in list {
        if is_bounded(spans, *term) {
            all.push(*term)?;
        }
    }
    Ok(all)
}

// The ends of so many tasks.
fn ends_of(alloc: Global, ends: Option<&[u32]>, count: usize) -> Result<Option<Vars>, NoMemory>
    ensures { IfOk result (λ all. AreAsMany count all) }
{
    match ends {
        Some(ends) => {
            if ends.len() == count {
                return Ok(Some(Row::from_slice(alloc, ends)?));
            }
            Ok(None)
        }
        None => Ok(None),
    }
}

fn is_modest(bound: Term) -> bool
    ensures { IsTrue result → IsNegatableTerm (term_of bound) }
{
    match bound {
        Term::Int(value) => -100 < value && value < 100,
        Term::Var(_) => true,
    }
}

fn limit(strict: bool, bound: Term) -> Cond
    requires { IsNegatableTerm (term_of bound) }
    ensures limit { IsLimit result }
    ensures bound { IsNegatableOperand result }
{
    if strict {
        Cond::Lt(bound)
    } else {
        Cond::Le(bound)
    }
}

// The model of the tasks, and none where the lists do not fit.
fn lowered(alloc: Global, case: &Case) -> Result<Option<Model>, Fail> {
    let (origins, lengths, heights, ends, strict, bound, _) = case;
    let spans = spans(alloc)?;
    let starts = starts_of(alloc, spans.as_slice(), origins)?;
    let lengths = terms_of(alloc, spans.as_slice(), lengths)?;
    let heights = terms_of(alloc, spans.as_slice(), heights)?;
    let ends = ends_of(alloc, *ends, starts.len())?;
    if starts.len() > 8 || lengths.len() != starts.len() || heights.len() != starts.len() {
        return Ok(None);
    }
    if !is_modest(*bound) {
        return Ok(None);
    }
    let cond = limit(*strict, *bound);
    let mut held = Held::new(alloc, variables(alloc)?);
    lower_cumulative(
        alloc,
        starts.as_slice(),
        lengths.as_slice(),
        heights.as_slice(),
        &ends,
        &cond,
        spans.as_slice(),
        &mut held,
    )?;
    Ok(Some(held.finish(Goal::Satisfy)))
}

// The lines of the new variables and of the calls.
fn lines(alloc: Global, model: &Model) -> Result<Vec<u8>, NoMemory> {
    let named = variables(alloc)?;
    let mut text = Vec::new(alloc);
    for var in model.vars.as_slice() {
        if !var.shown {
            push_var(&mut text, var, named.as_slice())?;
        }
    }
    for call in model.calls.as_slice() {
        push_call(&mut text, call, named.as_slice())?;
    }
    Ok(text)
}

#[test]
fn tasks(rt: HostRuntime) -> Result<(), Fail> {
    let alloc = rt.alloc();
    for case in CASES {
        let model = lowered(alloc, case)?;
        match &model {
            Some(model) => {
                assert_eq!(rt; lines(alloc, model)?.as_slice(), case.6.as_bytes());
            }
            None => assert!(rt; false),
        }
    }
    Ok(())
}
