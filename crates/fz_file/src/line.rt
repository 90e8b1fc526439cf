//! The lines of a model.

ghost use Rattle.std.specs.Prelude.{◌≡◌, ◌++◌, OnOk};
ghost use Rattle.fz_file.specs.Layout.{call_head, call_line, dims_head, dims_text, equal_text, goal_line, goal_text, member_text, names_of, output_head, output_line, shown_text, type_text, var_line};

use crate::argument::{push_arg, push_args, push_name};
use crate::number::{push_count, push_domain, push_spans};
use fz_model::{Arg, Builtin, Call, FzVar, Goal, Output};
use xf_num::{Domain, NoMemory, Span};

fn push_type(out: &mut Vec<u8>, boolean: bool, domain: &Domain) -> Result<(), NoMemory>
    ensures { OnOk result (out.new.items ≡ out.old.items ++ type_text boolean domain.now) }
{
    if boolean {
        out.extend_from_slice(b"bool")?;
    } else {
        push_domain(out, domain)?;
    }
    Ok(())
}

fn push_shown(out: &mut Vec<u8>, shown: bool) -> Result<(), NoMemory>
    ensures { OnOk result (out.new.items ≡ out.old.items ++ shown_text shown) }
{
    if shown {
        out.extend_from_slice(b" :: output_var")?;
    }
    Ok(())
}

fn push_equal(out: &mut Vec<u8>, equal: &Option<Arg>, named: &[FzVar]) -> Result<(), NoMemory>
    ensures { OnOk result (out.new.items ≡ out.old.items ++ equal_text (names_of named.now) equal.now) }
{
    if let Some(arg) = equal {
        out.extend_from_slice(b" = ")?;
        push_arg(out, arg, named)?;
    }
    Ok(())
}

/// Appends the line of a variable. What it is declared to equal is named as in a call. After want of memory `out` holds
/// a part of the line.
pub fn push_var(out: &mut Vec<u8>, var: &FzVar, named: &[FzVar]) -> Result<(), NoMemory>
    ensures { OnOk result (out.new.items ≡ out.old.items ++ var_line (names_of named.now) var.now) }
{
    out.extend_from_slice(b"var ")?;
    push_type(out, var.boolean, &var.domain)?;
    out.extend_from_slice(b": ")?;
    out.extend_from_slice(var.name.as_slice())?;
    push_shown(out, var.shown)?;
    push_equal(out, &var.equal, named)?;
    out.extend_from_slice(b";\n")?;
    Ok(())
}

fn push_member_type(out: &mut Vec<u8>, boolean: bool) -> Result<(), NoMemory>
    ensures { OnOk result (out.new.items ≡ out.old.items ++ member_text boolean) }
{
    let text: &[u8] = if boolean { b"bool" } else { b"int" };
    out.extend_from_slice(text)?;
    Ok(())
}

#[tactic(auto, unfolding(crate::specs::Layout::output_head))]
fn push_output_head(out: &mut Vec<u8>, output: &Output) -> Result<(), NoMemory>
    ensures { OnOk result (out.new.items ≡ out.old.items ++ output_head output.now) }
{
    out.extend_from_slice(b"array [1..")?;
    push_count(out, output.members.len() as u64)?;
    out.extend_from_slice(b"] of var ")?;
    push_member_type(out, output.boolean)?;
    out.extend_from_slice(b": ")?;
    out.extend_from_slice(output.name.as_slice())?;
    Ok(())
}

#[tactic(auto, unfolding(crate::specs::Layout::dims_head))]
fn push_dims_head(out: &mut Vec<u8>) -> Result<(), NoMemory>
    ensures { OnOk result (out.new.items ≡ out.old.items ++ dims_head) }
{
    out.extend_from_slice(b" :: output_array([")?;
    Ok(())
}

fn push_dims(out: &mut Vec<u8>, dims: &[Span]) -> Result<(), NoMemory>
    ensures { OnOk result (out.new.items ≡ out.old.items ++ dims_text dims.now) }
{
    push_dims_head(out)?;
    push_spans(out, dims)?;
    out.extend_from_slice(b"])")?;
    Ok(())
}

/// Appends the line of an output array, with names as in a call. After want of memory `out` holds a part of it.
#[tactic(auto, unfolding(crate::specs::Layout::output_line))]
pub fn push_output(out: &mut Vec<u8>, output: &Output, named: &[FzVar]) -> Result<(), NoMemory>
    ensures { OnOk result (out.new.items ≡ out.old.items ++ output_line (names_of named.now) output.now) }
{
    push_output_head(out, output)?;
    push_dims(out, output.dims.as_slice())?;
    out.extend_from_slice(b" = [")?;
    push_args(out, output.members.as_slice(), named)?;
    out.extend_from_slice(b"];\n")?;
    Ok(())
}

#[tactic(auto, unfolding(crate::specs::Layout::call_head))]
fn push_head(out: &mut Vec<u8>, builtin: Builtin) -> Result<(), NoMemory>
    ensures { OnOk result (out.new.items ≡ out.old.items ++ call_head builtin) }
{
    out.extend_from_slice(b"constraint ")?;
    out.extend_from_slice(builtin.name())?;
    Ok(())
}

/// Appends the line of a call, whose variables are named by the list and past its end by `a_` and how far past
/// it. After want of memory `out` holds a part of the line.
pub fn push_call(out: &mut Vec<u8>, call: &Call, named: &[FzVar]) -> Result<(), NoMemory>
    ensures { OnOk result (out.new.items ≡ out.old.items ++ call_line (names_of named.now) call.now) }
{
    push_head(out, call.builtin)?;
    out.extend_from_slice(b"(")?;
    push_args(out, call.args.as_slice(), named)?;
    out.extend_from_slice(b");\n")?;
    Ok(())
}

fn push_goal_text(out: &mut Vec<u8>, goal: Goal, named: &[FzVar]) -> Result<(), NoMemory>
    ensures { OnOk result (out.new.items ≡ out.old.items ++ goal_text (names_of named.now) goal) }
{
    match goal {
        Goal::Satisfy => out.extend_from_slice(b"satisfy")?,
        Goal::Minimize(number) => {
            out.extend_from_slice(b"minimize ")?;
            push_name(out, number, named)?;
        }
        Goal::Maximize(number) => {
            out.extend_from_slice(b"maximize ")?;
            push_name(out, number, named)?;
        }
    }
    Ok(())
}

/// Appends the line of the goal, with names as in a call. After want of memory `out` holds a part of it.
pub fn push_goal(out: &mut Vec<u8>, goal: Goal, named: &[FzVar]) -> Result<(), NoMemory>
    ensures { OnOk result (out.new.items ≡ out.old.items ++ goal_line (names_of named.now) goal) }
{
    out.extend_from_slice(b"solve ")?;
    push_goal_text(out, goal, named)?;
    out.extend_from_slice(b";\n")?;
    Ok(())
}
