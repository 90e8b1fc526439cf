//! The pieces in turn.

ghost use Rattle.std.specs.Prelude.{◌≡◌, [], length};

use crate::*;
use fz_model::{Builtin, Calls, Goal};
use lo_base::{Held, truth_values};
use std::alloc::Global;
use std::test::Fail;
use xf_num::Row;

fn empty(alloc: Global) -> Held
    ensures { result.vars ≡ [] }
{
    Held::new(alloc, Row::new(alloc))
}

fn are_named(calls: &Calls, names: &[&[u8]]) -> bool {
    let mut same = calls.len() == names.len();
    for (call, name) in calls.as_slice().iter().zip(names.iter()) {
        same = same && call.builtin.name() == *name;
    }
    same
}

// Each definition of an integer once.
fn integers(alloc: Global, held: &mut Held) -> Result<(), Fail>
    requires { length held.old.vars ≡ 0 }
{
    let span = truth_values();
    let terms = [Term::Var(0), Term::Var(1)];
    integer_of_one(alloc, span, Builtin::IntAbs, Term::Var(0), held)?;
    integer_of_two(
        alloc,
        span,
        Builtin::IntTimes,
        Term::Var(0),
        Term::Var(1),
        held,
    )?;
    integer_of_list(alloc, span, Builtin::ArrayIntMinimum, &terms, held)?;
    integer_of_sum(alloc, span, &[1, 1, -1], &terms, 0, held)?;
    integer_of_place(alloc, span, Term::Var(0), &terms, held)?;
    integer_of_constants(alloc, span, Term::Var(0), &[5, 6], held)?;
    integer_of_truth(alloc, Term::Var(0), held)?;
    integer_of_value(9, held)?;
    Ok(())
}

// Each definition of a truth value once.
fn truths(alloc: Global, held: &mut Held) -> Result<(), Fail>
    requires { length held.old.vars ≡ 0 }
{
    let terms = [Term::Var(0), Term::Truth(true)];
    truth_of_one(alloc, Builtin::BoolNot, Term::Var(0), held)?;
    truth_of_two(alloc, Builtin::BoolXor, Term::Var(0), Term::Var(1), held)?;
    truth_of_list(alloc, Builtin::ArrayBoolAnd, &terms, held)?;
    truth_of_set(alloc, Term::Var(0), &[5], held)?;
    truth_of_range(alloc, Term::Var(0), truth_values(), held)?;
    truth_of_sum(alloc, &[1], &[Term::Var(0)], 4, held)?;
    truth_of_number(alloc, Term::Var(0), held)?;
    Ok(())
}

#[test]
fn definitions_in_turn(rt: HostRuntime) -> Result<(), Fail> {
    let mut held = empty(rt.alloc());
    integers(rt.alloc(), &mut held)?;
    let model = held.finish(Goal::Satisfy);
    assert_eq!(rt; model.vars.len(), 8);
    assert!(rt;
        are_named(
            &model.calls,
            &[
                b"int_abs",
                b"int_times",
                b"array_int_minimum",
                b"int_lin_eq",
                b"array_var_int_element",
                b"array_int_element",
                b"bool2int"
            ]
        )
    );
    let mut held = empty(rt.alloc());
    truths(rt.alloc(), &mut held)?;
    let model = held.finish(Goal::Satisfy);
    assert_eq!(rt; model.vars.len(), 7);
    assert!(rt;
        are_named(
            &model.calls,
            &[
                b"bool_not",
                b"bool_xor",
                b"array_bool_and",
                b"set_in_reif",
                b"set_in_reif",
                b"int_lin_le_reif",
                b"bool2int"
            ]
        )
    );
    Ok(())
}

#[test]
fn literals_are_shared(rt: HostRuntime) -> Result<(), Fail> {
    let mut held = empty(rt.alloc());
    let mut table = Row::new(rt.alloc());
    let first = Cell {
        place: 0,
        variable: 3,
        value: 5,
    };
    let second = Cell {
        place: 1,
        variable: 3,
        value: 5,
    };
    let all = literals_of(rt.alloc(), &[first, second, first], &mut table, &mut held)?;
    assert_eq!(rt; (all.len(), table.len()), (3, 2));
    let model = held.finish(Goal::Satisfy);
    assert!(rt; are_named(&model.calls, &[b"int_eq_reif", b"int_eq_reif"]));
    Ok(())
}
