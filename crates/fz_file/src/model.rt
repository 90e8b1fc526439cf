//! Whole models as text, and single lines of them.

ghost use Rattle.std.specs.Prelude.{◌≡◌, ◌++◌, [], None, IfOk, OnOk};
ghost use Rattle.std.specs.List.{flat_map};
ghost use Rattle.fz_file.specs.Layout.{call_line, goal_line, layout, names_of, output_line, var_line};

use crate::line::{push_call, push_goal, push_output, push_var};
use fz_model::{Call, FzVar, Goal, Model, Output};
use std::alloc::Global;
use xf_num::NoMemory;

/// The line of a variable that is declared to equal nothing, with its line end.
pub fn var_line(alloc: Global, var: &FzVar) -> Result<Vec<u8>, NoMemory>
    requires { var.now.equal ≡ None }
    ensures { IfOk result (λ text. text.items ≡ var_line [] var.now) }
{
    let mut text = Vec::new(alloc);
    push_var(&mut text, var, &[])?;
    Ok(text)
}

/// The line of a call, with its line end. Variable `k` has the name of `named[k]`, and past the end of that list the
/// name `a_` and how far past it.
pub fn call_line(alloc: Global, call: &Call, named: &[FzVar]) -> Result<Vec<u8>, NoMemory>
    ensures { IfOk result (λ text. text.items ≡ call_line (names_of named.now) call.now) }
{
    let mut text = Vec::new(alloc);
    push_call(&mut text, call, named)?;
    Ok(text)
}

/// The line of the goal, with its line end, and with names as in a call.
pub fn goal_line(alloc: Global, goal: Goal, named: &[FzVar]) -> Result<Vec<u8>, NoMemory>
    ensures { IfOk result (λ text. text.items ≡ goal_line (names_of named.now) goal) }
{
    let mut text = Vec::new(alloc);
    push_goal(&mut text, goal, named)?;
    Ok(text)
}

fn push_vars(out: &mut Vec<u8>, vars: &[FzVar]) -> Result<(), NoMemory>
    ensures { OnOk result (out.new.items ≡ out.old.items ++ flat_map (var_line (names_of vars.now)) vars.now) }
{
    for var in vars {
        push_var(out, var, vars)?;
    }
    Ok(())
}

fn push_outputs(out: &mut Vec<u8>, outputs: &[Output], named: &[FzVar]) -> Result<(), NoMemory>
    ensures { OnOk result (out.new.items ≡ out.old.items ++ flat_map (output_line (names_of named.now)) outputs.now) }
{
    for output in outputs {
        push_output(out, output, named)?;
    }
    Ok(())
}

fn push_calls(out: &mut Vec<u8>, calls: &[Call], named: &[FzVar]) -> Result<(), NoMemory>
    ensures { OnOk result (out.new.items ≡ out.old.items ++ flat_map (call_line (names_of named.now)) calls.now) }
{
    for call in calls {
        push_call(out, call, named)?;
    }
    Ok(())
}

/// The text of a model: a line for each variable, then one for each output array and for each call, then that of the
/// goal.
pub fn write_model(alloc: Global, model: &Model) -> Result<Vec<u8>, NoMemory>
    ensures { IfOk result (λ text. text.items ≡ layout model.now) }
{
    let mut text = Vec::new(alloc);
    let vars = model.vars.as_slice();
    push_vars(&mut text, vars)?;
    push_outputs(&mut text, model.outputs.as_slice(), vars)?;
    push_calls(&mut text, model.calls.as_slice(), vars)?;
    push_goal(&mut text, model.goal, vars)?;
    Ok(text)
}
