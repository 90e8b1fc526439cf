//! The table of builtins, calls that are made, and the size of a model.

ghost use Rattle.std.specs.Prelude.{◌<◌, ◌^◌, IfOk};
ghost use Rattle.fz_model.specs.Size.{size_of};

use crate::{
    Arg, Asked, Builtin, FzVar, Goal, Kind, Model, call_of_four, call_of_one, call_of_three,
    call_of_two, int_ne, size,
};
use std::alloc::Global;
use std::test::Fail;
use xf_num::{Domain, NoMemory, Row, Span};

// Each builtin with its name, and with the kinds of its arguments: an integer `I`, a Boolean `B`, constants `i` and `b`,
// arrays of these in brackets, and a constant set `S`.
const ROWS: [(Builtin, &[u8], &[u8]); 47] = [
    (Builtin::IntLinEq, b"int_lin_eq", b"[i][I]i"),
    (Builtin::IntLinNe, b"int_lin_ne", b"[i][I]i"),
    (Builtin::IntLinLe, b"int_lin_le", b"[i][I]i"),
    (Builtin::IntLinEqReif, b"int_lin_eq_reif", b"[i][I]iB"),
    (Builtin::IntLinNeReif, b"int_lin_ne_reif", b"[i][I]iB"),
    (Builtin::IntLinLeReif, b"int_lin_le_reif", b"[i][I]iB"),
    (Builtin::IntEq, b"int_eq", b"II"),
    (Builtin::IntNe, b"int_ne", b"II"),
    (Builtin::IntLe, b"int_le", b"II"),
    (Builtin::IntLt, b"int_lt", b"II"),
    (Builtin::IntEqReif, b"int_eq_reif", b"IIB"),
    (Builtin::IntNeReif, b"int_ne_reif", b"IIB"),
    (Builtin::IntLeReif, b"int_le_reif", b"IIB"),
    (Builtin::IntLtReif, b"int_lt_reif", b"IIB"),
    (Builtin::IntAbs, b"int_abs", b"II"),
    (Builtin::IntPlus, b"int_plus", b"III"),
    (Builtin::IntTimes, b"int_times", b"III"),
    (Builtin::IntDiv, b"int_div", b"III"),
    (Builtin::IntMod, b"int_mod", b"III"),
    (Builtin::IntMin, b"int_min", b"III"),
    (Builtin::IntMax, b"int_max", b"III"),
    (Builtin::ArrayIntMinimum, b"array_int_minimum", b"I[I]"),
    (Builtin::ArrayIntMaximum, b"array_int_maximum", b"I[I]"),
    (Builtin::ArrayIntElement, b"array_int_element", b"I[i]I"),
    (
        Builtin::ArrayVarIntElement,
        b"array_var_int_element",
        b"I[I]I",
    ),
    (Builtin::ArrayBoolElement, b"array_bool_element", b"I[b]B"),
    (
        Builtin::ArrayVarBoolElement,
        b"array_var_bool_element",
        b"I[B]B",
    ),
    (Builtin::Bool2Int, b"bool2int", b"BI"),
    (Builtin::BoolEq, b"bool_eq", b"BB"),
    (Builtin::BoolLe, b"bool_le", b"BB"),
    (Builtin::BoolLt, b"bool_lt", b"BB"),
    (Builtin::BoolEqReif, b"bool_eq_reif", b"BBB"),
    (Builtin::BoolLeReif, b"bool_le_reif", b"BBB"),
    (Builtin::BoolLtReif, b"bool_lt_reif", b"BBB"),
    (Builtin::BoolNot, b"bool_not", b"BB"),
    (Builtin::BoolAnd, b"bool_and", b"BBB"),
    (Builtin::BoolOr, b"bool_or", b"BBB"),
    (Builtin::BoolXor, b"bool_xor", b"BBB"),
    (Builtin::BoolClause, b"bool_clause", b"[B][B]"),
    (Builtin::BoolClauseReif, b"bool_clause_reif", b"[B][B]B"),
    (Builtin::ArrayBoolAnd, b"array_bool_and", b"[B]B"),
    (Builtin::ArrayBoolOr, b"array_bool_or", b"[B]B"),
    (Builtin::ArrayBoolXor, b"array_bool_xor", b"[B]"),
    (Builtin::BoolLinEq, b"bool_lin_eq", b"[i][B]I"),
    (Builtin::BoolLinLe, b"bool_lin_le", b"[i][B]i"),
    (Builtin::SetIn, b"set_in", b"IS"),
    (Builtin::SetInReif, b"set_in_reif", b"ISB"),
];

fn letter(asked: Asked) -> u8 {
    match asked {
        Asked::Int => b'I',
        Asked::Bool => b'B',
        Asked::IntConstant => b'i',
        Asked::BoolConstant => b'b',
    }
}

fn letters(alloc: Global, kinds: &[Kind]) -> Result<Vec<u8>, Fail> {
    let mut text = Vec::new(alloc);
    for kind in kinds {
        match kind {
            Kind::One(asked) => text.push(letter(*asked))?,
            Kind::Many(asked) => text.extend_from_slice(&[b'[', letter(*asked), b']'])?,
            Kind::Set => text.push(b'S')?,
        }
    }
    Ok(text)
}

#[test]
fn builtins(rt: HostRuntime) -> Result<(), Fail> {
    let alloc = rt.alloc();
    for (place, (builtin, name, kinds)) in ROWS.iter().enumerate() {
        assert!(rt; builtin.name() == *name, "row {place}");
        assert_eq!(rt; Builtin::from_name(name), Some(*builtin), "row {place}");
        assert!(rt;
            letters(alloc, builtin.kinds(3))?.as_slice() == *kinds,
            "row {place}"
        );
        assert_eq!(rt;
            builtin.is_linear(),
            kinds.starts_with(b"[i]"),
            "row {place}"
        );
    }
    assert!(rt; letters(alloc, Builtin::BoolXor.kinds(2))?.as_slice() == b"BB".as_slice());
    let unknown: [&[u8]; 4] = [b"int_gt", b"", b"INT_EQ", b"int_eq_rei"];
    for name in unknown {
        assert_eq!(rt; Builtin::from_name(name), None);
    }
    Ok(())
}

#[test]
fn made_calls(rt: HostRuntime) -> Result<(), Fail> {
    let alloc = rt.alloc();
    let ne = int_ne(alloc, 4, 7)?;
    assert_eq!(rt; ne.builtin, Builtin::IntNe);
    assert_eq!(rt; ne.place, 0);
    assert!(rt; matches!(ne.args.as_slice(), [Arg::Var(4), Arg::Var(7)]));
    let one = call_of_one(alloc, Builtin::ArrayBoolXor, Arg::List(Row::new(alloc)))?;
    assert!(rt; matches!(one.args.as_slice(), [Arg::List(_)]));
    let two = call_of_two(alloc, Builtin::IntLe, Arg::Int(1), Arg::Var(2))?;
    assert!(rt; matches!(two.args.as_slice(), [Arg::Int(1), Arg::Var(2)]));
    let three = call_of_three(
        alloc,
        Builtin::BoolAnd,
        Arg::Var(1),
        Arg::Bool(true),
        Arg::Var(2),
    )?;
    assert!(rt;
        matches!(
            three.args.as_slice(),
            [Arg::Var(1), Arg::Bool(true), Arg::Var(2)]
        )
    );
    let four = call_of_four(
        alloc,
        Builtin::IntLinLeReif,
        Arg::Var(1),
        Arg::Var(2),
        Arg::Int(3),
        Arg::Var(4),
    )?;
    assert!(rt;
        matches!(
            four.args.as_slice(),
            [Arg::Var(1), Arg::Var(2), Arg::Int(3), Arg::Var(4)]
        )
    );
    Ok(())
}

fn flag(alloc: Global) -> Result<FzVar, NoMemory> {
    let domain = Domain::of(alloc, Span::new(0, 1).unwrap())?;
    Ok(FzVar {
        name: Row::new(alloc),
        boolean: true,
        domain,
        equal: None,
        shown: false,
    })
}

/// Two variables, and a call with five leaves.
fn two_variables(alloc: Global) -> Result<Model, NoMemory>
    ensures { IfOk result (λ model. size_of model < 2 ^ 64) }
{
    let mut vars = Row::new(alloc);
    vars.push(flag(alloc)?)?;
    vars.push(flag(alloc)?)?;
    let mut members = Row::new(alloc);
    members.extend(&[7, 7])?;
    let range = Span::new(-3, 9).unwrap();
    let mut calls = Row::new(alloc);
    calls.push(call_of_three(
        alloc,
        Builtin::SetInReif,
        Arg::Set(members),
        Arg::Range(range),
        Arg::Var(1),
    )?)?;
    Ok(Model {
        vars,
        outputs: Row::new(alloc),
        calls,
        goal: Goal::Satisfy,
    })
}

#[test]
fn sizes(rt: HostRuntime) -> Result<(), Fail> {
    let model = two_variables(rt.alloc())?;
    assert_eq!(rt; size(&model), 7);
    Ok(())
}
