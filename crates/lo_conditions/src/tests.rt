//! Conditions of each kind.

ghost use Rattle.std.specs.Prelude.{◌≡◌, [], IfOk};
ghost use Rattle.lo_emit.specs.Conditions.{IsNegatableOperand};

use crate::{lower_condition, lower_sum, truth_of_condition};
use fz_model::{Calls, Goal};
use lo_base::{Held, truth_values};
use lo_emit::Term;
use std::alloc::Global;
use std::test::Fail;
use xf_num::{Ints, NoMemory, Row, Span};
use xs_model::Cond;

fn empty(alloc: Global) -> Held
    ensures { result.vars ≡ [] }
{
    Held::new(alloc, Row::new(alloc))
}

fn are_named(calls: &Calls, names: &[&[u8]]) -> bool {
    let mut same = calls.len() == names.len();
    for (call, name) in calls.as_slice().iter().zip(names.iter()) {
        same = same && call.builtin.name() == *name;
    }
    same
}

fn ints(alloc: Global, values: &[i128]) -> Result<Ints, NoMemory> {
    let mut all = Row::new(alloc);
    all.extend(values)?;
    Ok(all)
}

// One condition of each kind, by number; of 10 and 11 the set is empty.
fn condition(alloc: Global, kind: u8) -> Result<Cond, NoMemory>
    ensures { IfOk result (λ cond. IsNegatableOperand cond) }
{
    let three = xs_model::Term::Int(3);
    let span = Span::new(1, 2).unwrap();
    Ok(match kind {
        0 => Cond::Lt(three),
        1 => Cond::Le(three),
        2 => Cond::Ge(three),
        3 => Cond::Gt(three),
        4 => Cond::Ne(three),
        5 => Cond::Eq(xs_model::Term::Var(7)),
        6 => Cond::InSpan(span),
        7 => Cond::OutSpan(span),
        8 => Cond::InSet(ints(alloc, &[4, 6])?),
        9 => Cond::OutSet(ints(alloc, &[4, 6])?),
        10 => Cond::InSet(Row::new(alloc)),
        _ => Cond::OutSet(Row::new(alloc)),
    })
}

// The calls that state the condition of that kind, that tell whether it is met, and that state it of a sum.
fn stated(alloc: Global, kind: u8) -> Result<Calls, Fail> {
    let mut held = empty(alloc);
    lower_condition(alloc, Term::Var(0), &condition(alloc, kind)?, &mut held)?;
    Ok(held.finish(Goal::Satisfy).calls)
}

fn told(alloc: Global, kind: u8) -> Result<Calls, Fail> {
    let mut held = empty(alloc);
    truth_of_condition(alloc, Term::Var(0), &condition(alloc, kind)?, &mut held)?;
    Ok(held.finish(Goal::Satisfy).calls)
}

fn of_a_sum(alloc: Global, kind: u8) -> Result<Calls, Fail> {
    let mut held = empty(alloc);
    let cond = condition(alloc, kind)?;
    let terms = [Term::Var(0), Term::Var(1)];
    lower_sum(alloc, truth_values(), &[2, -3], &terms, &cond, &mut held)?;
    Ok(held.finish(Goal::Satisfy).calls)
}

#[test]
fn conditions_by_kind(rt: HostRuntime) -> Result<(), Fail> {
    let table: [(&[&[u8]], &[&[u8]], &[&[u8]]); 12] = [
        (&[b"int_lt"], &[b"int_lt_reif"], &[b"int_lin_le"]),
        (&[b"int_le"], &[b"int_le_reif"], &[b"int_lin_le"]),
        (&[b"int_le"], &[b"int_le_reif"], &[b"int_lin_le"]),
        (&[b"int_lt"], &[b"int_lt_reif"], &[b"int_lin_le"]),
        (&[b"int_ne"], &[b"int_ne_reif"], &[b"int_lin_ne"]),
        (&[b"int_eq"], &[b"int_eq_reif"], &[b"int_lin_eq"]),
        (&[b"set_in"], &[b"set_in_reif"], &[b"int_lin_eq", b"set_in"]),
        (
            &[b"set_in_reif", b"bool_clause"],
            &[b"set_in_reif", b"bool_not"],
            &[b"int_lin_eq", b"set_in_reif", b"bool_clause"],
        ),
        (&[b"set_in"], &[b"set_in_reif"], &[b"int_lin_eq", b"set_in"]),
        (
            &[b"set_in_reif", b"bool_clause"],
            &[b"set_in_reif", b"bool_not"],
            &[b"int_lin_eq", b"set_in_reif", b"bool_clause"],
        ),
        (&[b"bool_clause"], &[], &[b"int_lin_eq", b"bool_clause"]),
        (&[], &[], &[b"int_lin_eq"]),
    ];
    let mut kind = 0u8;
    for (first, second, third) in table {
        assert!(rt; are_named(&stated(rt.alloc(), kind)?, first));
        assert!(rt; are_named(&told(rt.alloc(), kind)?, second));
        assert!(rt; are_named(&of_a_sum(rt.alloc(), kind)?, third));
        kind = kind.wrapping_add(1);
    }
    Ok(())
}
