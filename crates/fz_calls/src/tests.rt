//! The table of builtins against hand-made values.

ghost use Rattle.std.specs.Prelude.{◌≡◌, map, IfOk};
ghost use Rattle.fz_model.specs.Limits.{exactly};

mod tables;

use self::tables::{ARITHMETIC, COMPARISONS, FITTING, LISTS, MEMBERS, REIFIED, SUMS};
use crate::{call_fits, call_holds};
use fz_model::{Arg, Args, Builtin, Call, call_of, call_of_three};
use std::alloc::Global;
use std::process::Abort;
use std::test::Fail;
use xf_num::{NoMemory, Row, Span};

/// An argument as the tables below write it.
#[derive(Clone, Copy)]
enum Given {
    Int(i128),
    Bool(bool),
    Ints(&'static [i128]),
    Bools(&'static [bool]),
    Range(i128, i128),
    Set(&'static [i128]),
}

fn int_args(alloc: Global, numbers: &[i128]) -> Result<Args, NoMemory> {
    let mut args = Row::new(alloc);
    for number in numbers {
        args.push(Arg::Int(*number))?;
    }
    Ok(args)
}

fn bool_args(alloc: Global, truths: &[bool]) -> Result<Args, NoMemory> {
    let mut args = Row::new(alloc);
    for truth in truths {
        args.push(Arg::Bool(*truth))?;
    }
    Ok(args)
}

/// The argument with its constants.
fn constant(alloc: Global, given: Given) -> Result<Arg, NoMemory> {
    match given {
        Given::Int(number) => Ok(Arg::Int(number)),
        Given::Bool(truth) => Ok(Arg::Bool(truth)),
        Given::Ints(numbers) => Ok(Arg::List(int_args(alloc, numbers)?)),
        Given::Bools(truths) => Ok(Arg::List(bool_args(alloc, truths)?)),
        Given::Range(lo, hi) => Ok(Span::new(lo, hi).map_or(Arg::Bool(false), Arg::Range)),
        Given::Set(numbers) => {
            let mut members = Row::new(alloc);
            members.extend(numbers)?;
            Ok(Arg::Set(members))
        }
    }
}

/// The next variable, which has the value.
fn variable(value: i128, values: &mut Vec<i128>) -> Result<Arg, NoMemory> {
    let number = values.len() as u64;
    values.push(value)?;
    Ok(Arg::Var(number))
}

fn int_variables(
    alloc: Global,
    numbers: &[i128],
    values: &mut Vec<i128>,
) -> Result<Args, NoMemory> {
    let mut args = Row::new(alloc);
    for number in numbers {
        args.push(variable(*number, values)?)?;
    }
    Ok(args)
}

fn bool_variables(
    alloc: Global,
    truths: &[bool],
    values: &mut Vec<i128>,
) -> Result<Args, NoMemory> {
    let mut args = Row::new(alloc);
    for truth in truths {
        args.push(variable(i128::from(*truth), values)?)?;
    }
    Ok(args)
}

/// The argument with variables in the place of its constants.
fn varied(alloc: Global, given: Given, values: &mut Vec<i128>) -> Result<Arg, NoMemory> {
    match given {
        Given::Int(number) => variable(number, values),
        Given::Bool(truth) => variable(i128::from(truth), values),
        Given::Ints(numbers) => Ok(Arg::List(int_variables(alloc, numbers, values)?)),
        Given::Bools(truths) => Ok(Arg::List(bool_variables(alloc, truths, values)?)),
        Given::Range(_, _) | Given::Set(_) => constant(alloc, given),
    }
}

fn constant_call(alloc: Global, builtin: Builtin, given: &[Given]) -> Result<Call, NoMemory> {
    let mut args = Row::new(alloc);
    for one in given {
        args.push(constant(alloc, *one)?)?;
    }
    Ok(call_of(builtin, args))
}

fn varied_call(
    alloc: Global,
    builtin: Builtin,
    given: &[Given],
    values: &mut Vec<i128>,
) -> Result<Call, NoMemory> {
    let mut args = Row::new(alloc);
    for one in given {
        args.push(varied(alloc, *one, values)?)?;
    }
    Ok(call_of(builtin, args))
}

/// The span of each value alone.
fn points(alloc: Global, values: &[i128]) -> Result<Vec<Span>, NoMemory>
    ensures { IfOk result (λ spans. spans.items ≡ map exactly values.now) }
{
    let mut spans = Vec::new(alloc);
    for value in values {
        spans.push(Span::new(*value, *value).unwrap())?;
    }
    Ok(spans)
}

/// Whether a call holds that fits the values.
fn holds(rt: &impl Abort, alloc: Global, call: &Call, values: &[i128]) -> Result<bool, NoMemory> {
    let spans = points(alloc, values)?;
    assert!(rt; call_fits(call, spans.as_slice()));
    Ok(call_holds(call, values))
}

/// Each row, with constants and with variables.
fn check_rows(
    rt: &impl Abort,
    alloc: Global,
    rows: &[(Builtin, &[Given], bool)],
) -> Result<(), NoMemory> {
    for (place, (builtin, given, expected)) in rows.iter().enumerate() {
        let call = constant_call(alloc, *builtin, given)?;
        assert_eq!(rt;
            holds(rt, alloc, &call, &[])?,
            *expected,
            "row {place} with constants"
        );
        let mut values = Vec::new(alloc);
        let call = varied_call(alloc, *builtin, given, &mut values)?;
        assert_eq!(rt;
            holds(rt, alloc, &call, values.as_slice())?,
            *expected,
            "row {place} with variables"
        );
    }
    Ok(())
}

#[test]
fn rows(rt: HostRuntime) -> Result<(), Fail> {
    for table in [COMPARISONS, REIFIED, LISTS, ARITHMETIC, SUMS, MEMBERS] {
        check_rows(&rt, rt.alloc(), table)?;
    }
    Ok(())
}

/// Whether the call of each row fits.
fn check_fits(
    rt: &impl Abort,
    alloc: Global,
    rows: &[(Builtin, &[Given], bool)],
) -> Result<(), NoMemory> {
    for (place, (builtin, given, expected)) in rows.iter().enumerate() {
        let call = constant_call(alloc, *builtin, given)?;
        assert_eq!(rt; call_fits(&call, &[]), *expected, "row {place}");
    }
    Ok(())
}

#[test]
fn fitting(rt: HostRuntime) -> Result<(), Fail> {
    let alloc = rt.alloc();
    check_fits(&rt, alloc, FITTING)?;
    let half = 1 << 63;
    let square = call_of_three(
        alloc,
        Builtin::IntTimes,
        Arg::Var(0),
        Arg::Var(0),
        Arg::Var(1),
    )?;
    assert!(rt; call_fits(&square, &[Span::new(-half + 1, half - 1).unwrap()]));
    assert!(rt; !call_fits(&square, &[Span::new(-half, 0).unwrap()]));
    Ok(())
}
