//! An object that keeps its items.

ghost use Rattle.std.specs.Prelude.{◌≡◌, ◌+◌, ◌≤◌, ◌^◌, ◌++◌, [], length, IfOk, OnOk, codes, pos};
ghost use Rattle.std.specs.Fmt.{decimal};
ghost use Rattle.lo_base.specs.Lowered.{auxiliary};

use crate::{Emit, EmitStop};
use fz_model::{Call, Calls, FzVar, FzVars, Goal, Model};
use itoa::Buffer;
use std::alloc::Global;
use xf_num::{Domain, NoMemory, Row, Span, Text};

/// An `Emit` that keeps its variables and calls. It never answers `Failed`.
#[derive(Drop)]
pub struct Held {
    alloc: Global,
    named: u64,
    vars: FzVars,
    calls: Calls,
    ghost enough: { named ≤ length vars },
}

impl Emit for Held {
    ghost use Rattle.std.specs.Prelude.{ℕ, length};
    ghost use Rattle.lo_base.specs.Held.{HeldGrew, HeldBegan, held_laws};

    ghost named = { λ h. h.named };

    ghost count = { λ h. length h.vars };

    ghost faults = { λ h. 0 };

    ghost grew = { HeldGrew };

    ghost began = { HeldBegan };

    ghost laws = { held_laws };

    fn new_int(&mut self, span: Span) -> Result<u64, EmitStop> {
        let number = self.vars.len() as u64;
        self.vars
            .push(auxiliary(self.alloc, number - self.named, false, span)?)?;
        Ok(number)
    }

    fn new_bool(&mut self) -> Result<u64, EmitStop> {
        let number = self.vars.len() as u64;
        self.vars.push(auxiliary(self.alloc, number - self.named, true, truth_values())?)?;
        Ok(number)
    }

    fn post(&mut self, call: Call) -> Result<(), EmitStop> {
        self.calls.push(call)?;
        Ok(())
    }
}

impl Held {
    /// Keeps nothing yet; `vars` are the variables that come before all that it makes.
    pub fn new(alloc: Global, vars: FzVars) -> Held
        ensures named { result.named ≡ length vars }
        ensures vars { result.vars ≡ vars }
        ensures calls { result.calls ≡ [] }
    {
        Held {
            alloc,
            named: vars.len() as u64,
            vars,
            calls: Row::new(alloc),
        }
    }

    /// The model of the variables and calls that it keeps, which has no output array.
    pub fn finish(self, goal: Goal) -> Model
        ensures { result ≡ record { vars = self.vars; outputs = []; calls = self.calls; goal = goal } }
    {
        Model {
            vars: self.vars,
            outputs: Row::new(self.alloc),
            calls: self.calls,
            goal,
        }
    }
}

/// The values of a Boolean.
pub fn truth_values() -> Span
    ensures { result ≡ record { lo = pos 0; hi = pos 1 } }
{
    Span::new(0, 1).unwrap()
}

/// The name of the auxiliary with this number.
fn auxiliary_name(alloc: Global, number: u64) -> Result<Text, NoMemory>
    ensures { IfOk result (λ name. name ≡ codes "a_" ++ decimal number) }
{
    let mut name = Row::new(alloc);
    name.extend(b"a_")?;
    let mut buffer = Buffer::new();
    name.extend(buffer.format(number).as_bytes())?;
    Ok(name)
}

/// The auxiliary with this number, which no solver prints.
pub fn auxiliary(alloc: Global, number: u64, boolean: bool, span: Span) -> Result<FzVar, NoMemory>
    ensures { IfOk result (λ var. var ≡ auxiliary number boolean span) }
{
    let name = auxiliary_name(alloc, number)?;
    let domain = Domain::of(alloc, span)?;
    Ok(FzVar {
        name,
        boolean,
        domain,
        equal: None,
        shown: false,
    })
}

#[cfg(test)]
mod tests {
    use super::*;
    use fz_model::int_ne;
    use std::test::Fail;

    // An integer, a Boolean and a call of the first variable and the integer.
    fn fill<E: Emit>(alloc: Global, out: &mut E) -> Result<(u64, u64), EmitStop>
        requires { E.count out.old ≤ 2 ^ 60 }
        ensures { OnOk result (E.count out.new ≡ E.count out.old + 2) }
    {
        let span = Span::new(-3, 5).unwrap();
        let integer = out.new_int(span)?;
        let boolean = out.new_bool()?;
        out.post(int_ne(alloc, 0, integer)?)?;
        Ok((integer, boolean))
    }

    fn first(alloc: Global) -> Result<FzVars, NoMemory>
        ensures { IfOk result (λ vars. length vars ≡ 1) }
    {
        let mut name = Row::new(alloc);
        name.extend(b"v_x")?;
        let domain = Domain::of(alloc, Span::new(7, 9).unwrap())?;
        let mut vars = Row::new(alloc);
        vars.push(FzVar {
            name,
            boolean: false,
            domain,
            equal: None,
            shown: true,
        })?;
        Ok(vars)
    }

    #[test]
    fn variables_are_kept_in_order(rt: HostRuntime) -> Result<(), Fail> {
        let mut held = Held::new(rt.alloc(), first(rt.alloc())?);
        assert_eq!(rt; fill(rt.alloc(), &mut held)?, (1, 2));
        assert_eq!(rt; fill(rt.alloc(), &mut held)?, (3, 4));
        let model = held.finish(Goal::Satisfy);
        assert_eq!(rt; model.vars.len(), 5);
        let wanted: [(&[u8], bool, i128, i128, bool); 5] = [
            (b"v_x", false, 7, 9, true),
            (b"a_0", false, -3, 5, false),
            (b"a_1", true, 0, 1, false),
            (b"a_2", false, -3, 5, false),
            (b"a_3", true, 0, 1, false),
        ];
        for (var, (name, boolean, lo, hi, shown)) in model
            .vars
            .as_slice()
            .iter()
            .zip(wanted.iter())
        {
            assert_eq!(rt; var.name.as_slice(), *name);
            assert_eq!(rt; (var.boolean, var.shown), (*boolean, *shown));
            assert_eq!(rt;
                (
                    var.domain.ranges(),
                    var.domain.least(),
                    var.domain.greatest()
                ),
                (1, *lo, *hi)
            );
        }
        Ok(())
    }

    #[test]
    fn calls_and_goal_are_kept(rt: HostRuntime) -> Result<(), Fail> {
        let mut held = Held::new(rt.alloc(), first(rt.alloc())?);
        fill(rt.alloc(), &mut held)?;
        let model = held.finish(Goal::Minimize(1));
        assert_eq!(rt; model.goal, Goal::Minimize(1));
        let calls = model.calls.as_slice();
        assert_eq!(rt; calls.len(), 1);
        assert_eq!(rt; calls[0].builtin.name(), b"int_ne".as_slice());
        assert_eq!(rt; (calls[0].place, calls[0].args.len()), (0, 2));
        Ok(())
    }
}
