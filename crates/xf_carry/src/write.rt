//! The text of a lowered instance.

ghost use Rattle.std.specs.Prelude.{◌≡◌, [], ◌≤◌, length, OnOk, OnErr, IsErrOf};
ghost use Rattle.std.specs.List.{flat_map};
ghost use Rattle.fz_file.specs.Layout.{layout, var_line};
ghost use Rattle.lo_base.specs.Lowered.{vars_of};
ghost use Rattle.lo_names.specs.Shown.{shown_vars};
ghost use Rattle.xf_text.specs.Outside.{Appended, AppendedFront, Rose};
ghost use Rattle.xs_model.specs.Accepted.{IsAccepted};
ghost use Rattle.xs_model.specs.Names.{words};
ghost use Rattle.xf_carry.specs.Lines.{end_lines};
ghost use Rattle.xf_carry.specs.Lowered.{low, low_items};

use crate::lower::lower_all;
use crate::passes::{CallEmit, DeclEmit, write_line};
use fz_file::push_var;
use fz_model::{FzVar, FzVars};
use lo_base::EmitStop;
use lo_names::named_vars;
use std::alloc::Global;
use xf_text::Sink;
use xs_model::Instance;

/// Writes the FlatZinc text of an accepted instance that is lowered so far, line by line, and gives the sink back. On an `Err` a front
/// of the text was written; `Failed` comes only where the sink failed.
pub fn write_lowered<W: Sink>(alloc: Global, inst: &Instance, out: W) -> (Result<(), EmitStop>, W)
    requires accepted { IsAccepted inst.now }
    ensures count { W.faults out ≤ W.faults result.1 }
    ensures ok { OnOk result.0 (Appended (W.holds out) (W.holds result.1) (layout (low inst.now))) }
    ensures front { OnErr result.0 (AppendedFront (W.holds out) (W.holds result.1) (layout (low inst.now))) }
    ensures cause { IsErrOf result.0 EmitStop.Failed → Rose (W.faults out) (W.faults result.1) }
{
    match named_vars(alloc, inst.decls.as_slice()) {
        Ok(named) => write_parts(alloc, inst, named, out),
        Err(_) => (Err(EmitStop::Memory), out),
    }
}

// The parts of the text: the variables, and then the calls and the goal.
fn write_parts<W: Sink>(
    alloc: Global,
    inst: &Instance,
    named: FzVars,
    out: W,
) -> (Result<(), EmitStop>, W)
    requires accepted { IsAccepted inst.now }
    requires named { named ≡ shown_vars inst.now.decls }
    ensures count { W.faults out ≤ W.faults result.1 }
    ensures ok { OnOk result.0 (Appended (W.holds out) (W.holds result.1) (layout (low inst.now))) }
    ensures front { OnErr result.0 (AppendedFront (W.holds out) (W.holds result.1) (layout (low inst.now))) }
    ensures cause { IsErrOf result.0 EmitStop.Failed → Rose (W.faults out) (W.faults result.1) }
{
    match write_vars(alloc, inst, named.as_slice(), out) {
        (Ok(()), out) => write_calls(alloc, inst, named, out),
        (Err(stop), out) => (Err(stop), out),
    }
}

// The lines of all variables.
fn write_vars<W: Sink>(
    alloc: Global,
    inst: &Instance,
    named: &[FzVar],
    out: W,
) -> (Result<(), EmitStop>, W)
    requires accepted { IsAccepted inst.now }
    requires named { named.now ≡ shown_vars inst.now.decls }
    ensures count { W.faults out ≤ W.faults result.1 }
    ensures ok { OnOk result.0 (Appended (W.holds out) (W.holds result.1) (flat_map (var_line []) (low inst.now).vars)) }
    ensures front { OnErr result.0 (AppendedFront (W.holds out) (W.holds result.1) (flat_map (var_line []) (low inst.now).vars)) }
    ensures cause { IsErrOf result.0 EmitStop.Failed → Rose (W.faults out) (W.faults result.1) }
{
    let mut out = out;
    match write_named(alloc, named, &mut out) {
        Ok(()) => write_auxiliaries(alloc, inst, named.len() as u64, out),
        Err(stop) => (Err(stop), out),
    }
}

// The lines of the instance's variables.
fn write_named<W: Sink>(alloc: Global, named: &[FzVar], out: &mut W) -> Result<(), EmitStop>
    ensures count { W.faults out.old ≤ W.faults out.new }
    ensures ok { OnOk result (Appended (W.holds out.old) (W.holds out.new) (flat_map (var_line []) named.now)) }
    ensures front { OnErr result (AppendedFront (W.holds out.old) (W.holds out.new) (flat_map (var_line []) named.now)) }
    ensures cause { IsErrOf result EmitStop.Failed → Rose (W.faults out.old) (W.faults out.new) }
{
    let mut line = Vec::new(alloc);
    for var in named {
        line.clear();
        push_var(&mut line, var, &[])?;
        write_line(out, &line)?;
    }
    Ok(())
}

// The lines of the auxiliaries.
fn write_auxiliaries<W: Sink>(
    alloc: Global,
    inst: &Instance,
    named: u64,
    out: W,
) -> (Result<(), EmitStop>, W)
    requires accepted { IsAccepted inst.now }
    requires named { named ≡ length (words inst.now.decls) }
    ensures count { W.faults out ≤ W.faults result.1 }
    ensures ok { OnOk result.0 (Appended (W.holds out) (W.holds result.1) (flat_map (var_line []) (vars_of 0 (low_items inst.now)))) }
    ensures front { OnErr result.0 (AppendedFront (W.holds out) (W.holds result.1) (flat_map (var_line []) (vars_of 0 (low_items inst.now)))) }
    ensures cause { IsErrOf result.0 EmitStop.Failed → Rose (W.faults out) (W.faults result.1) }
{
    let mut emit = DeclEmit::new(alloc, named, out);
    match lower_all(alloc, inst, &mut emit) {
        Ok(_) => (Ok(()), emit.into_sink()),
        Err(stop) => (Err(stop), emit.into_sink()),
    }
}

// The lines of the calls, and the line of the goal.
fn write_calls<W: Sink>(
    alloc: Global,
    inst: &Instance,
    named: FzVars,
    out: W,
) -> (Result<(), EmitStop>, W)
    requires accepted { IsAccepted inst.now }
    requires named { named ≡ shown_vars inst.now.decls }
    ensures count { W.faults out ≤ W.faults result.1 }
    ensures ok { OnOk result.0 (Appended (W.holds out) (W.holds result.1) (end_lines named (low_items inst.now))) }
    ensures front { OnErr result.0 (AppendedFront (W.holds out) (W.holds result.1) (end_lines named (low_items inst.now))) }
    ensures cause { IsErrOf result.0 EmitStop.Failed → Rose (W.faults out) (W.faults result.1) }
{
    let mut emit = CallEmit::new(alloc, named, out);
    let result = emit_calls(alloc, inst, &mut emit);
    (result, emit.into_sink())
}

fn emit_calls<W: Sink>(
    alloc: Global,
    inst: &Instance,
    emit: &mut CallEmit<W>,
) -> Result<(), EmitStop>
    requires accepted { IsAccepted inst.now }
    requires named { length emit.old.named ≡ length (words inst.now.decls) }
    requires room { emit.old.count ≡ length (words inst.now.decls) }
    ensures count { W.faults emit.old.out ≤ W.faults emit.new.out }
    ensures ok { OnOk result (Appended (W.holds emit.old.out) (W.holds emit.new.out) (end_lines emit.old.named (low_items inst.now))) }
    ensures front { OnErr result (AppendedFront (W.holds emit.old.out) (W.holds emit.new.out) (end_lines emit.old.named (low_items inst.now))) }
    ensures cause { IsErrOf result EmitStop.Failed → Rose (W.faults emit.old.out) (W.faults emit.new.out) }
{
    let goal = lower_all(alloc, inst, emit)?;
    emit.write_goal(goal)?;
    Ok(())
}
