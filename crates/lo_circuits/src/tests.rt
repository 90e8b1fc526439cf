//! Circuits, and what they are lowered to. The tables have the new integers and the calls as FlatZinc writes them, worked
//! out by hand, behind the variables x, y and z.

ghost use Rattle.std.specs.Prelude.{◌≡◌, ◌≤◌, length, IfOk};
ghost use Rattle.lo_circuits.specs.Circuit.{IsNegatableSize};

use crate::lower_circuit;
use fz_file::{push_call, push_var};
use fz_model::{FzVar, FzVars, Goal, Model};
use lo_base::Held;
use std::alloc::Global;
use std::test::Fail;
use xf_num::{Domain, NoMemory, Row, Span};
use xs_model::Term;

/// The variable with this number, or an integer.
#[derive(Clone, Copy)]
enum Size {
    Var(u8),
    Int(u8),
}

/// A circuit: the variables, the first index and the size; how many variables are made, the new integers, and the calls.
type Circuit = (
    &'static [u32],
    i8,
    Option<Size>,
    usize,
    &'static str,
    &'static str,
);

const CIRCUITS: &[Circuit] = &[
    // Two places from 0.
    (
        &[0, 1],
        0,
        None,
        12,
        "var 0..1: a_3;\nvar 0..1: a_4;\nvar 0..1: a_5;\nvar 1..2: a_6;\nvar 0..1: a_7;\n",
        "constraint set_in(x,0..1);\n\
         constraint set_in(y,0..1);\n\
         constraint int_ne(x,y);\n\
         constraint int_ne_reif(x,0,a_0);\n\
         constraint int_ne_reif(y,1,a_1);\n\
         constraint array_bool_or([a_0,a_1],a_2);\n\
         constraint bool_clause([a_2],[]);\n\
         constraint bool2int(a_0,a_3);\n\
         constraint bool2int(a_2,a_4);\n\
         constraint int_lin_eq([1,1,1],[a_3,a_4,a_5],2);\n\
         constraint int_lin_eq([1,-1],[a_5,a_6],-1);\n\
         constraint array_var_int_element(a_6,[x,y],a_7);\n\
         constraint int_eq_reif(a_5,0,a_8);\n\
         constraint int_eq_reif(a_7,0,a_9);\n\
         constraint bool_clause([a_8,a_9],[a_0]);\n\
         constraint int_eq_reif(a_5,1,a_10);\n\
         constraint int_eq_reif(a_7,1,a_11);\n\
         constraint bool_clause([a_10,a_11],[a_1]);\n",
    ),
    // From 1 an index is its own place.
    (
        &[0, 1],
        1,
        None,
        11,
        "var 0..1: a_3;\nvar 0..1: a_4;\nvar 1..2: a_5;\nvar 1..2: a_6;\n",
        "constraint set_in(x,1..2);\n\
         constraint set_in(y,1..2);\n\
         constraint int_ne(x,y);\n\
         constraint int_ne_reif(x,1,a_0);\n\
         constraint int_ne_reif(y,2,a_1);\n\
         constraint array_bool_or([a_0,a_1],a_2);\n\
         constraint bool_clause([a_2],[]);\n\
         constraint bool2int(a_0,a_3);\n\
         constraint bool2int(a_2,a_4);\n\
         constraint int_lin_eq([1,1,1],[a_3,a_4,a_5],3);\n\
         constraint array_var_int_element(a_5,[x,y],a_6);\n\
         constraint int_eq_reif(a_5,1,a_7);\n\
         constraint int_eq_reif(a_6,1,a_8);\n\
         constraint bool_clause([a_7,a_8],[a_0]);\n\
         constraint int_eq_reif(a_5,2,a_9);\n\
         constraint int_eq_reif(a_6,2,a_10);\n\
         constraint bool_clause([a_9,a_10],[a_1]);\n",
    ),
    // From 2, with an integer as size: what is moved is counted anew.
    (
        &[2, 0],
        2,
        Some(Size::Int(2)),
        14,
        "var 0..1: a_3;\nvar 0..1: a_4;\nvar 2..3: a_5;\nvar 1..2: a_6;\nvar 2..3: a_7;\nvar 0..1: a_12;\nvar 0..1: a_13;\n",
        "constraint set_in(z,2..3);\n\
         constraint set_in(x,2..3);\n\
         constraint int_ne(z,x);\n\
         constraint int_ne_reif(z,2,a_0);\n\
         constraint int_ne_reif(x,3,a_1);\n\
         constraint array_bool_or([a_0,a_1],a_2);\n\
         constraint bool_clause([a_2],[]);\n\
         constraint bool2int(a_0,a_3);\n\
         constraint bool2int(a_2,a_4);\n\
         constraint int_lin_eq([1,1,1],[a_3,a_4,a_5],4);\n\
         constraint int_lin_eq([1,-1],[a_5,a_6],1);\n\
         constraint array_var_int_element(a_6,[z,x],a_7);\n\
         constraint int_eq_reif(a_5,2,a_8);\n\
         constraint int_eq_reif(a_7,2,a_9);\n\
         constraint bool_clause([a_8,a_9],[a_0]);\n\
         constraint int_eq_reif(a_5,3,a_10);\n\
         constraint int_eq_reif(a_7,3,a_11);\n\
         constraint bool_clause([a_10,a_11],[a_1]);\n\
         constraint bool2int(a_0,a_12);\n\
         constraint bool2int(a_1,a_13);\n\
         constraint int_lin_eq([1,1],[a_12,a_13],2);\n",
    ),
    // One place, which cannot be moved, with a variable as size.
    (
        &[0],
        -1,
        Some(Size::Var(2)),
        5,
        "var 0..1: a_1;\nvar -1..-1: a_2;\nvar 0..1: a_4;\n",
        "constraint set_in(x,-1..-1);\n\
         constraint int_ne_reif(x,-1,a_0);\n\
         constraint bool_clause([a_0],[]);\n\
         constraint bool2int(a_0,a_1);\n\
         constraint int_lin_eq([1,1],[a_1,a_2],0);\n\
         constraint int_eq_reif(a_2,-1,a_3);\n\
         constraint bool_clause([a_3],[a_0]);\n\
         constraint bool2int(a_0,a_4);\n\
         constraint int_lin_eq([1,-1],[a_4,z],0);\n",
    ),
    // No place, whatever the size.
    (
        &[],
        5,
        Some(Size::Int(2)),
        0,
        "",
        "constraint bool_clause([],[]);\n",
    ),
    // Three places: two steps, and each place against three indices.
    (
        &[0, 1, 2],
        0,
        None,
        22,
        "var 0..1: a_5;\nvar 0..1: a_6;\nvar 0..1: a_7;\nvar 0..2: a_8;\nvar 1..3: a_9;\nvar 0..2: a_10;\nvar 1..3: a_11;\nvar 0..2: a_12;\n",
        "constraint set_in(x,0..2);\n\
         constraint set_in(y,0..2);\n\
         constraint set_in(z,0..2);\n\
         constraint int_ne(x,y);\n\
         constraint int_ne(x,z);\n\
         constraint int_ne(y,z);\n\
         constraint int_ne_reif(x,0,a_0);\n\
         constraint int_ne_reif(y,1,a_1);\n\
         constraint int_ne_reif(z,2,a_2);\n\
         constraint array_bool_or([a_0,a_1],a_3);\n\
         constraint array_bool_or([a_3,a_2],a_4);\n\
         constraint bool_clause([a_4],[]);\n\
         constraint bool2int(a_0,a_5);\n\
         constraint bool2int(a_3,a_6);\n\
         constraint bool2int(a_4,a_7);\n\
         constraint int_lin_eq([1,1,1,1],[a_5,a_6,a_7,a_8],3);\n\
         constraint int_lin_eq([1,-1],[a_8,a_9],-1);\n\
         constraint array_var_int_element(a_9,[x,y,z],a_10);\n\
         constraint int_lin_eq([1,-1],[a_10,a_11],-1);\n\
         constraint array_var_int_element(a_11,[x,y,z],a_12);\n\
         constraint int_eq_reif(a_8,0,a_13);\n\
         constraint int_eq_reif(a_10,0,a_14);\n\
         constraint int_eq_reif(a_12,0,a_15);\n\
         constraint bool_clause([a_13,a_14,a_15],[a_0]);\n\
         constraint int_eq_reif(a_8,1,a_16);\n\
         constraint int_eq_reif(a_10,1,a_17);\n\
         constraint int_eq_reif(a_12,1,a_18);\n\
         constraint bool_clause([a_16,a_17,a_18],[a_1]);\n\
         constraint int_eq_reif(a_8,2,a_19);\n\
         constraint int_eq_reif(a_10,2,a_20);\n\
         constraint int_eq_reif(a_12,2,a_21);\n\
         constraint bool_clause([a_19,a_20,a_21],[a_2]);\n",
    ),
];

fn variable(alloc: Global, name: &[u8]) -> Result<FzVar, NoMemory> {
    Ok(FzVar {
        name: Row::from_slice(alloc, name)?,
        boolean: false,
        domain: Domain::of(alloc, Span::new(0, 9).unwrap())?,
        equal: None,
        shown: true,
    })
}

// The variables x, y and z.
fn variables(alloc: Global) -> Result<FzVars, NoMemory>
    ensures { IfOk result (λ vars. length vars ≡ 3) }
{
    let mut vars = Row::new(alloc);
    vars.push(variable(alloc, b"x")?)?;
    vars.push(variable(alloc, b"y")?)?;
    vars.push(variable(alloc, b"z")?)?;
    Ok(vars)
}

fn term_of(size: Option<Size>) -> Option<Term>
    ensures { IsNegatableSize result }
{
    match size {
        None => None,
        Some(Size::Var(number)) => Some(Term::Var(u32::from(number))),
        Some(Size::Int(value)) => Some(Term::Int(i128::from(value))),
    }
}

fn model_of(alloc: Global, list: &[u32], start: i8, size: Option<Size>) -> Result<Model, Fail>
    requires { length list.now ≤ 8 }
{
    let mut held = Held::new(alloc, variables(alloc)?);
    lower_circuit(alloc, list, i128::from(start), term_of(size), &mut held)?;
    Ok(held.finish(Goal::Satisfy))
}

// The lines of the new integers of a model.
fn integers_in(alloc: Global, model: &Model) -> Result<Vec<u8>, NoMemory> {
    let mut text = Vec::new(alloc);
    for var in model.vars.as_slice() {
        if !var.boolean && !var.shown {
            push_var(&mut text, var, model.vars.as_slice())?;
        }
    }
    Ok(text)
}

// The lines of the calls of a model.
fn calls_in(alloc: Global, model: &Model) -> Result<Vec<u8>, NoMemory> {
    let mut text = Vec::new(alloc);
    for call in model.calls.as_slice() {
        push_call(&mut text, call, model.vars.as_slice())?;
    }
    Ok(text)
}

#[test]
fn circuits(rt: HostRuntime) -> Result<(), Fail> {
    let alloc = rt.alloc();
    for (list, start, size, made, integers, calls) in CIRCUITS {
        assert!(rt; list.len() <= 8);
        let model = model_of(alloc, list, *start, *size)?;
        assert_eq!(rt; model.vars.len().checked_sub(3), Some(*made));
        assert_eq!(rt; integers_in(alloc, &model)?.as_slice(), integers.as_bytes());
        assert_eq!(rt; calls_in(alloc, &model)?.as_slice(), calls.as_bytes());
    }
    Ok(())
}
