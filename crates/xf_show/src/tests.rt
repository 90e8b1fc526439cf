//! Summaries of an instance and of a model.

ghost use Rattle.std.specs.Prelude.{◌≡◌, [], IfOk};

use crate::{instance_summary, model_summary};
use fz_model::{Goal, Model, int_ne};
use std::alloc::Global;
use std::test::Fail;
use xf_num::{NoMemory, Row};
use xs_model::{Constraint, Constraints, Direction, Expr, Instance};

// Two constraints of one form and one of another, without variables.
fn constraints(alloc: Global) -> Result<Constraints, NoMemory> {
    let mut row = Row::new(alloc);
    for _ in 0..2 {
        row.push(Constraint::AllDifferent {
            list: Row::new(alloc),
            except: Row::new(alloc),
        })?;
    }
    row.push(Constraint::Intension { expr: Expr::Int(1) })?;
    Ok(row)
}

fn instance(alloc: Global) -> Result<Instance, NoMemory>
    ensures { IfOk result (λ instance. instance.decls ≡ []) }
{
    let constraints = constraints(alloc)?;
    Ok(Instance {
        decls: Row::new(alloc),
        constraints,
        objective: None,
    })
}

fn model(alloc: Global) -> Result<Model, NoMemory> {
    let mut calls = Row::new(alloc);
    calls.push(int_ne(alloc, 0, 1)?)?;
    Ok(Model {
        vars: Row::new(alloc),
        outputs: Row::new(alloc),
        calls,
        goal: Goal::Minimize(1),
    })
}

#[test]
fn lines(rt: HostRuntime) -> Result<(), Fail> {
    let alloc = rt.alloc();
    let text = instance_summary(alloc, &instance(alloc)?)?;
    let wanted = "xcsp3\nvariables 0\nconstraints 3\ngoal satisfy\nintension 1\nallDifferent 2\n";
    assert_eq!(rt; text.as_slice(), wanted.as_bytes());
    let text = model_summary(alloc, &model(alloc)?)?;
    let wanted = "flatzinc\nvariables 0\nconstraints 1\ngoal minimize\nint_ne 1\n";
    assert_eq!(rt; text.as_slice(), wanted.as_bytes());
    Ok(())
}
