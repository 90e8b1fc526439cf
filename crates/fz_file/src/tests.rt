//! Lines and models against texts that were written by hand.

ghost use Rattle.std.specs.Prelude.{◌≡◌, None, IfOk};

use crate::{call_line, goal_line, var_line, write_model};
use fz_model::{
    Arg, Args, Builtin, Call, FzVar, FzVars, Goal, Model, Output, call_of_three, call_of_two,
    int_ne,
};
use std::alloc::Global;
use std::process::Abort;
use std::test::Fail;
use xf_num::{Domain, Ints, NoMemory, Row, Span, Text};

fn text(alloc: Global, bytes: &[u8]) -> Result<Text, NoMemory> {
    let mut text = Row::new(alloc);
    text.extend(bytes)?;
    Ok(text)
}

/// An integer variable with the domain that the ranges make.
fn integer(alloc: Global, name: &[u8], ranges: &[(i128, i128)], shown: bool) -> Result<FzVar, Fail>
    ensures { IfOk result (λ var. var.equal ≡ None) }
{
    let mut pieces = Vec::new(alloc);
    for (lo, hi) in ranges {
        if let Some(piece) = Span::new(*lo, *hi) {
            pieces.push(piece)?;
        }
    }
    let name = text(alloc, name)?;
    let domain = Domain::from_pieces(alloc, pieces.as_slice())?;
    Ok(FzVar {
        name,
        boolean: false,
        domain,
        equal: None,
        shown,
    })
}

fn boolean(alloc: Global, name: &[u8], shown: bool) -> Result<FzVar, Fail>
    ensures { IfOk result (λ var. var.equal ≡ None) }
{
    let name = text(alloc, name)?;
    let domain = Domain::of(alloc, Span::new(0, 1).unwrap())?;
    Ok(FzVar {
        name,
        boolean: true,
        domain,
        equal: None,
        shown,
    })
}

fn set(alloc: Global, members: &[i128]) -> Result<Arg, NoMemory> {
    let mut set: Ints = Row::new(alloc);
    set.extend(members)?;
    Ok(Arg::Set(set))
}

fn integers(alloc: Global, values: &[i128]) -> Result<Arg, NoMemory> {
    let mut args: Args = Row::new(alloc);
    for value in values {
        args.push(Arg::Int(*value))?;
    }
    Ok(Arg::List(args))
}

fn variables(alloc: Global, numbers: &[u64]) -> Result<Arg, NoMemory> {
    let mut args: Args = Row::new(alloc);
    for number in numbers {
        args.push(Arg::Var(*number))?;
    }
    Ok(Arg::List(args))
}

fn check_line(rt: &impl Abort, alloc: Global, var: &FzVar, expected: &[u8]) -> Result<(), NoMemory>
    requires { var.now.equal ≡ None }
{
    assert!(rt; var_line(alloc, var)?.as_slice() == expected);
    Ok(())
}

fn variable_lines(rt: &impl Abort, alloc: Global) -> Result<(), Fail> {
    check_line(
        rt,
        alloc,
        &integer(alloc, b"v_a", &[(0, 1)], true)?,
        b"var 0..1: v_a :: output_var;\n",
    )?;
    check_line(
        rt,
        alloc,
        &integer(alloc, b"v_x__1", &[(-7, -2)], false)?,
        b"var -7..-2: v_x__1;\n",
    )?;
    check_line(
        rt,
        alloc,
        &integer(alloc, b"x", &[(4, 4)], false)?,
        b"var 4..4: x;\n",
    )?;
    check_line(
        rt,
        alloc,
        &integer(alloc, b"y", &[(7, 7), (-3, -1), (2, 3)], true)?,
        b"var {-3,-2,-1,2,3,7}: y :: output_var;\n",
    )?;
    check_line(
        rt,
        alloc,
        &boolean(alloc, b"a_0", false)?,
        b"var bool: a_0;\n",
    )?;
    check_line(
        rt,
        alloc,
        &boolean(alloc, b"f_b", true)?,
        b"var bool: f_b :: output_var;\n",
    )?;
    Ok(())
}

fn two_named(alloc: Global) -> Result<FzVars, Fail> {
    let mut named = Row::new(alloc);
    named.push(integer(alloc, b"v_a", &[(0, 1)], true)?)?;
    named.push(integer(alloc, b"v_b_1", &[(-2, 5)], true)?)?;
    Ok(named)
}

fn check_call(
    rt: &impl Abort,
    alloc: Global,
    call: &Call,
    named: &[FzVar],
    expected: &[u8],
) -> Result<(), NoMemory> {
    assert!(rt; call_line(alloc, call, named)?.as_slice() == expected);
    Ok(())
}

fn call_lines(rt: &impl Abort, alloc: Global) -> Result<(), Fail> {
    let vars = two_named(alloc)?;
    let named = vars.as_slice();
    let plain = int_ne(alloc, 0, 1)?;
    check_call(rt, alloc, &plain, named, b"constraint int_ne(v_a,v_b_1);\n")?;
    check_call(rt, alloc, &plain, &[], b"constraint int_ne(a_0,a_1);\n")?;
    let sum = call_of_three(
        alloc,
        Builtin::IntLinEq,
        integers(alloc, &[1, -1])?,
        variables(alloc, &[1, 2])?,
        Arg::Int(-3),
    )?;
    check_call(
        rt,
        alloc,
        &sum,
        named,
        b"constraint int_lin_eq([1,-1],[v_b_1,a_0],-3);\n",
    )?;
    Ok(())
}

fn clause_lines(rt: &impl Abort, alloc: Global) -> Result<(), Fail> {
    let clause = call_of_two(
        alloc,
        Builtin::BoolClause,
        variables(alloc, &[])?,
        variables(alloc, &[3])?,
    )?;
    check_call(
        rt,
        alloc,
        &clause,
        &[],
        b"constraint bool_clause([],[a_3]);\n",
    )?;
    Ok(())
}

fn constants(rt: &impl Abort, alloc: Global) -> Result<(), Fail> {
    let range = call_of_three(
        alloc,
        Builtin::SetInReif,
        Arg::Var(0),
        Arg::Range(Span::new(-2, 7).unwrap()),
        Arg::Var(12),
    )?;
    check_call(
        rt,
        alloc,
        &range,
        &[],
        b"constraint set_in_reif(a_0,-2..7,a_12);\n",
    )?;
    let among = call_of_two(alloc, Builtin::SetIn, Arg::Var(0), set(alloc, &[5, -3, 5])?)?;
    check_call(
        rt,
        alloc,
        &among,
        &[],
        b"constraint set_in(a_0,{5,-3,5});\n",
    )?;
    let never = call_of_two(alloc, Builtin::SetIn, Arg::Int(7), set(alloc, &[])?)?;
    check_call(rt, alloc, &never, &[], b"constraint set_in(7,{});\n")?;
    let truths = call_of_two(alloc, Builtin::BoolEq, Arg::Bool(true), Arg::Bool(false))?;
    check_call(
        rt,
        alloc,
        &truths,
        &[],
        b"constraint bool_eq(true,false);\n",
    )?;
    Ok(())
}

fn check_goal(
    rt: &impl Abort,
    alloc: Global,
    goal: Goal,
    named: &[FzVar],
    expected: &[u8],
) -> Result<(), NoMemory> {
    assert!(rt; goal_line(alloc, goal, named)?.as_slice() == expected);
    Ok(())
}

fn goal_lines(rt: &impl Abort, alloc: Global) -> Result<(), Fail> {
    let vars = two_named(alloc)?;
    let named = vars.as_slice();
    check_goal(rt, alloc, Goal::Satisfy, named, b"solve satisfy;\n")?;
    check_goal(
        rt,
        alloc,
        Goal::Minimize(1),
        named,
        b"solve minimize v_b_1;\n",
    )?;
    check_goal(
        rt,
        alloc,
        Goal::Maximize(2),
        named,
        b"solve maximize a_0;\n",
    )?;
    Ok(())
}

#[test]
fn lines(rt: HostRuntime) -> Result<(), Fail> {
    let alloc = rt.alloc();
    variable_lines(&rt, alloc)?;
    call_lines(&rt, alloc)?;
    clause_lines(&rt, alloc)?;
    constants(&rt, alloc)?;
    goal_lines(&rt, alloc)
}

fn check_model(
    rt: &impl Abort,
    alloc: Global,
    model: Model,
    expected: &[u8],
) -> Result<(), NoMemory> {
    assert!(rt; write_model(alloc, &model)?.as_slice() == expected);
    Ok(())
}

const WHOLE: &[u8] =
    b"var 0..1: v_a :: output_var;\nvar -2..5: v_b_1 :: output_var;\nvar bool: a_0;\nconstraint int_ne(v_a,v_b_1);\nconstraint int_le_reif(v_a,-1,a_0);\nsolve maximize v_b_1;\n";

const STATED: &[u8] =
    b"var 0..1: a :: output_var;\nvar bool: b = true;\nvar {0,5}: c :: output_var = a;\narray [1..2] of var int: xs :: output_array([1..2]) = [a,-3];\narray [1..4] of var bool: bs :: output_array([0..1,-1..0]) = [b,true,b,false];\nsolve minimize c;\n";

fn plain(alloc: Global) -> Result<Model, Fail> {
    let mut vars = two_named(alloc)?;
    vars.push(boolean(alloc, b"a_0", false)?)?;
    let mut calls = Row::new(alloc);
    calls.push(int_ne(alloc, 0, 1)?)?;
    calls.push(call_of_three(
        alloc,
        Builtin::IntLeReif,
        Arg::Var(0),
        Arg::Int(-1),
        Arg::Var(2),
    )?)?;
    Ok(Model {
        vars,
        outputs: Row::new(alloc),
        calls,
        goal: Goal::Maximize(1),
    })
}

fn output(
    alloc: Global,
    name: &[u8],
    boolean: bool,
    ranges: &[(i128, i128)],
    members: Args,
) -> Result<Output, NoMemory> {
    let mut dims = Row::new(alloc);
    for (lo, hi) in ranges {
        if let Some(span) = Span::new(*lo, *hi) {
            dims.push(span)?;
        }
    }
    Ok(Output {
        name: text(alloc, name)?,
        boolean,
        dims,
        members,
    })
}

fn equal(var: FzVar, to: Arg) -> FzVar {
    let FzVar {
        name,
        boolean,
        domain,
        shown,
        ..
    } = var;
    FzVar {
        name,
        boolean,
        domain,
        equal: Some(to),
        shown,
    }
}

// Variables that equal a constant and another variable, and two output arrays.
fn stated(alloc: Global) -> Result<Model, Fail> {
    let mut vars = Row::new(alloc);
    vars.push(integer(alloc, b"a", &[(0, 1)], true)?)?;
    vars.push(equal(boolean(alloc, b"b", false)?, Arg::Bool(true)))?;
    vars.push(equal(integer(alloc, b"c", &[(0, 0), (5, 5)], true)?, Arg::Var(0)))?;
    let mut ints = Row::new(alloc);
    ints.push(Arg::Var(0))?;
    ints.push(Arg::Int(-3))?;
    let mut truths = Row::new(alloc);
    truths.push(Arg::Var(1))?;
    truths.push(Arg::Bool(true))?;
    truths.push(Arg::Var(1))?;
    truths.push(Arg::Bool(false))?;
    let mut outputs = Row::new(alloc);
    outputs.push(output(alloc, b"xs", false, &[(1, 2)], ints)?)?;
    outputs.push(output(alloc, b"bs", true, &[(0, 1), (-1, 0)], truths)?)?;
    Ok(Model {
        vars,
        outputs,
        calls: Row::new(alloc),
        goal: Goal::Minimize(2),
    })
}

#[test]
fn whole_models(rt: HostRuntime) -> Result<(), Fail> {
    let alloc = rt.alloc();
    let empty = Model {
        vars: Row::new(alloc),
        outputs: Row::new(alloc),
        calls: Row::new(alloc),
        goal: Goal::Satisfy,
    };
    check_model(&rt, alloc, empty, b"solve satisfy;\n")?;
    check_model(&rt, alloc, plain(alloc)?, WHOLE)?;
    check_model(&rt, alloc, stated(alloc)?, STATED)?;
    Ok(())
}
