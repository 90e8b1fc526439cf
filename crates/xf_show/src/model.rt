//! The summary of a model.

ghost use Rattle.std.specs.Prelude.{◌≡◌, ◌++◌, IfOk, OnOk};
ghost use Rattle.std.specs.List.{flat_map};
ghost use Rattle.xf_show.specs.Summary.{builtin_count, builtin_line, model_goal_name, model_head, model_summary};

use crate::lines::{begin, push_occurring};
use fz_model::{Builtin, Call, Goal, Model};
use std::alloc::Global;
use xf_num::{NoMemory, Text};

/// All builtins, in the order of their table.
const BUILTINS: [Builtin; 47] = [
    Builtin::IntLinEq,
    Builtin::IntLinNe,
    Builtin::IntLinLe,
    Builtin::IntLinEqReif,
    Builtin::IntLinNeReif,
    Builtin::IntLinLeReif,
    Builtin::IntEq,
    Builtin::IntNe,
    Builtin::IntLe,
    Builtin::IntLt,
    Builtin::IntEqReif,
    Builtin::IntNeReif,
    Builtin::IntLeReif,
    Builtin::IntLtReif,
    Builtin::IntAbs,
    Builtin::IntPlus,
    Builtin::IntTimes,
    Builtin::IntDiv,
    Builtin::IntMod,
    Builtin::IntMin,
    Builtin::IntMax,
    Builtin::ArrayIntMinimum,
    Builtin::ArrayIntMaximum,
    Builtin::ArrayIntElement,
    Builtin::ArrayVarIntElement,
    Builtin::ArrayBoolElement,
    Builtin::ArrayVarBoolElement,
    Builtin::Bool2Int,
    Builtin::BoolEq,
    Builtin::BoolLe,
    Builtin::BoolLt,
    Builtin::BoolEqReif,
    Builtin::BoolLeReif,
    Builtin::BoolLtReif,
    Builtin::BoolNot,
    Builtin::BoolAnd,
    Builtin::BoolOr,
    Builtin::BoolXor,
    Builtin::BoolClause,
    Builtin::BoolClauseReif,
    Builtin::ArrayBoolAnd,
    Builtin::ArrayBoolOr,
    Builtin::ArrayBoolXor,
    Builtin::BoolLinEq,
    Builtin::BoolLinLe,
    Builtin::SetIn,
    Builtin::SetInReif,
];

// How many of the calls are of the builtin.
fn builtin_count(builtin: Builtin, calls: &[Call]) -> usize
    ensures { result ≡ builtin_count builtin calls.now }
{
    calls
        .iter()
        .filter(|call| call.builtin.name() == builtin.name())
        .count()
}

// Appends the line of each of these builtins that occurs.
fn push_builtins(builtins: &[Builtin], calls: &[Call], text: &mut Text) -> Result<(), NoMemory>
    ensures { OnOk result (text.new ≡ text.old ++ flat_map (builtin_line calls.now) builtins.now) }
{
    for builtin in builtins {
        let count = builtin_count(*builtin, calls);
        push_occurring(builtin.name(), count as u64, text)?;
    }
    Ok(())
}

fn model_goal_name(goal: Goal) -> &'static [u8]
    ensures { result.now ≡ model_goal_name goal }
{
    match goal {
        Goal::Satisfy => b"satisfy",
        Goal::Minimize(_) => b"minimize",
        Goal::Maximize(_) => b"maximize",
    }
}

// The lines of a model's variables, constraints and goal.
fn begin_model(alloc: Global, model: &Model) -> Result<Text, NoMemory>
    ensures { IfOk result (λ text. text ≡ model_head model.now) }
{
    begin(
        alloc,
        b"flatzinc",
        model.vars.len() as u64,
        model.calls.len() as u64,
        model_goal_name(model.goal),
    )
}

/// The summary of a model: its variables, its calls and its goal, and how many calls it has of each builtin that
/// occurs, in the order of their table. `Err` is want of memory.
pub fn model_summary(alloc: Global, model: &Model) -> Result<Text, NoMemory>
    ensures { IfOk result (λ text. text ≡ model_summary model.now) }
{
    let mut text = begin_model(alloc, model)?;
    push_builtins(&BUILTINS, model.calls.as_slice(), &mut text)?;
    Ok(text)
}
