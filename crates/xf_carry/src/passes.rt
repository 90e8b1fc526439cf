//! Objects that write the lines of what is lowered, and keep none of it.

ghost use Rattle.std.specs.Prelude.{◌≡◌, [], ◌≤◌, ◌<◌, ◌^◌, ◌-◌, ◌+◌, length, IfOk, OnOk, OnErr, IsErrOf};
ghost use Rattle.fz_file.specs.Layout.{var_line, call_line, goal_line, names_of};
ghost use Rattle.lo_base.specs.Lowered.{auxiliary};
ghost use Rattle.xf_text.specs.Outside.{Appended, AppendedFront, Rose};

use fz_file::{push_call, push_goal, push_var};
use fz_model::{Call, FzVars, Goal};
use lo_base::{Emit, EmitStop, auxiliary, truth_values};
use std::alloc::Global;
use xf_num::Span;
use xf_text::{Sink, write_whole};

/// Writes the line of each variable that is made, and counts the variables. It drops calls.
#[derive(Drop)]
pub struct DeclEmit<W> {
    alloc: Global,
    named: u64,
    count: u64,
    line: Vec<u8>,
    out: W,
    ghost enough: { named ≤ count },
}

/// Writes the line of each call that is posted, and counts the variables. It writes no variable.
#[derive(Drop)]
pub struct CallEmit<W> {
    named: FzVars,
    count: u64,
    line: Vec<u8>,
    out: W,
    ghost enough: { length named ≤ count },
}

/// Writes a line; after `Failed` a front of it was appended.
pub(crate) fn write_line<W: Sink>(out: &mut W, line: &[u8]) -> Result<(), EmitStop>
    ensures count { W.faults out.old ≤ W.faults out.new }
    ensures ok { OnOk result (Appended (W.holds out.old) (W.holds out.new) line.now) }
    ensures front { OnErr result (AppendedFront (W.holds out.old) (W.holds out.new) line.now) }
    ensures cause { OnErr result (Rose (W.faults out.old) (W.faults out.new)) }
{
    match write_whole(out, line) {
        Ok(()) => Ok(()),
        Err(_) => Err(EmitStop::Failed),
    }
}

impl<W: Sink> DeclEmit<W> {
    /// Has so many variables, and writes nothing yet. Takes no memory.
    pub fn new(alloc: Global, named: u64, out: W) -> DeclEmit<W>
        ensures named { result.named ≡ named }
        ensures count { result.count ≡ named }
        ensures out { result.out ≡ out }
    {
        DeclEmit {
            alloc,
            named,
            count: named,
            line: Vec::new(alloc),
            out,
        }
    }

    /// What it writes to.
    pub fn into_sink(self) -> W
        ensures { result ≡ self.out }
    {
        let DeclEmit { out, .. } = self;
        out
    }

    // Writes the line of the next variable. On an `Err` the variable is not counted.
    fn write_next(&mut self, boolean: bool, span: Span) -> Result<u64, EmitStop>
        requires { self.old.count < 2 ^ 61 }
        ensures number { IfOk result (λ k. k ≡ self.old.count) }
        ensures named { self.new.named ≡ self.old.named }
        ensures counted { OnOk result (self.new.count ≡ self.old.count + 1) }
        ensures uncounted { OnErr result (self.new.count ≡ self.old.count) }
        ensures ok { OnOk result (Appended (W.holds self.old.out) (W.holds self.new.out) (var_line [] (auxiliary (self.old.count - self.old.named) boolean span))) }
        ensures front { OnErr result (AppendedFront (W.holds self.old.out) (W.holds self.new.out) (var_line [] (auxiliary (self.old.count - self.old.named) boolean span))) }
        ensures faults { W.faults self.old.out ≤ W.faults self.new.out }
        ensures cause { IsErrOf result EmitStop.Failed → Rose (W.faults self.old.out) (W.faults self.new.out) }
    {
        let number = self.count;
        let var = auxiliary(self.alloc, number - self.named, boolean, span)?;
        self.line.clear();
        push_var(&mut self.line, &var, &[])?;
        write_line(&mut self.out, &self.line)?;
        self.count += 1;
        Ok(number)
    }
}

impl<W: Sink> Emit for DeclEmit<W> {
    ghost use Rattle.xf_carry.specs.Passes.{DeclGrew, DeclBegan, decl_laws};

    ghost named = { λ e. e.named };

    ghost count = { λ e. e.count };

    ghost faults = { λ e. W.faults e.out };

    ghost grew = { DeclGrew W.holds W.faults };

    ghost began = { DeclBegan W.holds W.faults };

    ghost laws = { decl_laws W.holds W.faults };

    fn new_int(&mut self, span: Span) -> Result<u64, EmitStop> {
        self.write_next(false, span)
    }

    fn new_bool(&mut self) -> Result<u64, EmitStop> {
        self.write_next(true, truth_values())
    }

    fn post(&mut self, _call: Call) -> Result<(), EmitStop> {
        Ok(())
    }
}

impl<W: Sink> CallEmit<W> {
    /// Has these variables, and writes nothing yet. Takes no memory.
    pub fn new(alloc: Global, named: FzVars, out: W) -> CallEmit<W>
        ensures named { result.named ≡ named }
        ensures count { result.count ≡ length named }
        ensures out { result.out ≡ out }
    {
        CallEmit {
            count: named.len() as u64,
            named,
            line: Vec::new(alloc),
            out,
        }
    }

    /// What it writes to.
    pub fn into_sink(self) -> W
        ensures { result ≡ self.out }
    {
        let CallEmit { out, .. } = self;
        out
    }

    // Writes the line of a call.
    fn write_call(&mut self, call: &Call) -> Result<(), EmitStop>
        ensures named { self.new.named ≡ self.old.named }
        ensures count { self.new.count ≡ self.old.count }
        ensures ok { OnOk result (Appended (W.holds self.old.out) (W.holds self.new.out) (call_line (names_of self.old.named) call.now)) }
        ensures front { OnErr result (AppendedFront (W.holds self.old.out) (W.holds self.new.out) (call_line (names_of self.old.named) call.now)) }
        ensures faults { W.faults self.old.out ≤ W.faults self.new.out }
        ensures cause { IsErrOf result EmitStop.Failed → Rose (W.faults self.old.out) (W.faults self.new.out) }
    {
        self.line.clear();
        push_call(&mut self.line, call, self.named.as_slice())?;
        write_line(&mut self.out, &self.line)?;
        Ok(())
    }

    /// Writes the line of the goal, which is the last one.
    pub(crate) fn write_goal(&mut self, goal: Goal) -> Result<(), EmitStop>
        ensures ok { OnOk result (Appended (W.holds self.old.out) (W.holds self.new.out) (goal_line (names_of self.old.named) goal)) }
        ensures front { OnErr result (AppendedFront (W.holds self.old.out) (W.holds self.new.out) (goal_line (names_of self.old.named) goal)) }
        ensures faults { W.faults self.old.out ≤ W.faults self.new.out }
        ensures cause { IsErrOf result EmitStop.Failed → Rose (W.faults self.old.out) (W.faults self.new.out) }
    {
        self.line.clear();
        push_goal(&mut self.line, goal, self.named.as_slice())?;
        write_line(&mut self.out, &self.line)?;
        Ok(())
    }
}

impl<W: Sink> Emit for CallEmit<W> {
    ghost use Rattle.std.specs.Prelude.{length};
    ghost use Rattle.xf_carry.specs.Passes.{CallGrew, CallBegan, call_laws};

    ghost named = { λ e. length e.named };

    ghost count = { λ e. e.count };

    ghost faults = { λ e. W.faults e.out };

    ghost grew = { CallGrew W.holds W.faults };

    ghost began = { CallBegan W.holds W.faults };

    ghost laws = { call_laws W.holds W.faults };

    fn new_int(&mut self, _span: Span) -> Result<u64, EmitStop> {
        let number = self.count;
        self.count += 1;
        Ok(number)
    }

    fn new_bool(&mut self) -> Result<u64, EmitStop> {
        let number = self.count;
        self.count += 1;
        Ok(number)
    }

    fn post(&mut self, call: Call) -> Result<(), EmitStop> {
        self.write_call(&call)
    }
}
