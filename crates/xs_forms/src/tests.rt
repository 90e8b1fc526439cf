ghost use Rattle.std.specs.Prelude.{◌≡◌, ◌≤◌, ◌∷◌, [], pos, IfOk};
ghost use Rattle.xs_model.specs.Formed.{items_of};
ghost use Rattle.xs_forms.specs.Room.{longest_in, most_longest, most_states, states_in};

use super::*;
use std::alloc::Global;
use std::test::Fail;
use xf_num::{Ints, NoMemory, Row, Vars};
use xs_model::{Body, Cond, Constraint, Direction, Edge, Edges, Instance, Objective, Term, Terms};

fn vars(alloc: Global, variables: &[u32]) -> Result<Vars, NoMemory>
    ensures { IfOk result (λ row. row ≡ variables.now) }
{
    let mut row = Row::new(alloc);
    row.extend(variables)?;
    Ok(row)
}

fn ints(alloc: Global, values: &[i128]) -> Result<Ints, NoMemory>
    ensures { IfOk result (λ row. row ≡ values.now) }
{
    let mut row = Row::new(alloc);
    row.extend(values)?;
    Ok(row)
}

fn terms(alloc: Global, list: &[Term]) -> Result<Terms, NoMemory>
    ensures { IfOk result (λ row. row ≡ list.now) }
{
    let mut row = Row::new(alloc);
    row.extend(list)?;
    Ok(row)
}

// From 0 by 5 to 1, and from 1 by 6 to 2.
fn edges(alloc: Global) -> Result<Edges, NoMemory>
    ensures { IfOk result (λ row. row ≡ record { from = 0; value = pos 5; to = 1 } ∷ record { from = 1; value = pos 6; to = 2 } ∷ []) }
{
    let mut row = Row::new(alloc);
    row.push(Edge {
        from: 0,
        value: 5,
        to: 1,
    })?;
    row.push(Edge {
        from: 1,
        value: 6,
        to: 2,
    })?;
    Ok(row)
}

fn regular(alloc: Global) -> Result<Constraint, NoMemory>
    ensures items { IfOk result (λ c. items_of c ≡ 11) }
    ensures states { IfOk result (λ c. states_in c ≡ 3) }
{
    Ok(Constraint::Regular {
        list: vars(alloc, &[0, 1])?,
        edges: edges(alloc)?,
        start: 0,
        finals: vars(alloc, &[2, 1])?,
    })
}

fn different(alloc: Global) -> Result<Constraint, NoMemory>
    ensures items { IfOk result (λ c. items_of c ≡ 4) }
    ensures longest { IfOk result (λ c. longest_in c ≡ 3) }
{
    Ok(Constraint::AllDifferent {
        list: vars(alloc, &[0, 0, 1])?,
        except: ints(alloc, &[7])?,
    })
}

fn sum(alloc: Global) -> Result<Constraint, NoMemory>
    ensures { IfOk result (λ c. items_of c ≡ 7) }
{
    Ok(Constraint::Sum {
        list: vars(alloc, &[0, 1])?,
        coeffs: terms(alloc, &[Term::Int(2), Term::Var(3)])?,
        cond: Cond::InSet(ints(alloc, &[1, 2, 3])?),
    })
}

fn circuit(alloc: Global) -> Result<Constraint, NoMemory>
    ensures { IfOk result (λ c. items_of c ≡ 4) }
{
    Ok(Constraint::Circuit {
        list: vars(alloc, &[0, 1])?,
        start: 0,
        size: Some(Term::Int(2)),
    })
}

fn automaton(alloc: Global) -> Result<u64, NoMemory> {
    Ok(count_items(&regular(alloc)?))
}

fn exceptions(alloc: Global) -> Result<u64, NoMemory> {
    Ok(count_items(&different(alloc)?))
}

fn products(alloc: Global) -> Result<u64, NoMemory> {
    Ok(count_items(&sum(alloc)?))
}

fn size(alloc: Global) -> Result<u64, NoMemory> {
    Ok(count_items(&circuit(alloc)?))
}

#[test]
fn items(rt: HostRuntime) -> Result<(), Fail> {
    let alloc = rt.alloc();
    let counts = [
        (automaton(alloc)?, 2 + 6 + 1 + 2),
        (exceptions(alloc)?, 3 + 1),
        (products(alloc)?, 2 + 2 + 3),
        (size(alloc)?, 2 + 1 + 1),
    ];
    for (count, wanted) in counts {
        assert_eq!(rt; count, wanted);
    }
    Ok(())
}

#[test]
fn names(rt: HostRuntime) -> Result<(), Fail> {
    let rows: [(&[u8], Option<Form>); 6] = [
        (b"intension", Some(Form::Intension)),
        (b"nValues", Some(Form::NValues)),
        (b"instantiation", Some(Form::Instantiation)),
        (b"nvalues", None),
        (b"stretch", None),
        (b"", None),
    ];
    for (name, form) in rows {
        assert_eq!(rt; Form::from_name(name), form);
    }
    let form = Form::of(&sum(rt.alloc())?);
    assert_eq!(rt; form, Form::Sum);
    assert!(rt; form.name() == b"sum".as_slice());
    Ok(())
}

fn instance(alloc: Global) -> Result<Instance, NoMemory>
    ensures states { IfOk result (λ i. 3 ≤ most_states i.constraints) }
    ensures longest { IfOk result (λ i. 3 ≤ most_longest i.constraints) }
{
    let mut constraints = Row::new(alloc);
    constraints.push(different(alloc)?)?;
    constraints.push(regular(alloc)?)?;
    let body = Body::Distinct(vars(alloc, &[0, 1])?);
    Ok(Instance {
        decls: Row::new(alloc),
        constraints,
        objective: Some(Objective {
            direction: Direction::Minimize,
            body,
        }),
    })
}

// Three states, and three values at most.
#[test]
fn room(rt: HostRuntime) -> Result<(), Fail> {
    let instance = instance(rt.alloc())?;
    let mut scratch = Scratch::new(rt.alloc(), &instance)?;
    scratch.mark(true, 2, true);
    let flags = (scratch.marked(true, 2), scratch.marked(false, 2));
    assert_eq!(rt; flags, (true, false));
    scratch.put(5);
    scratch.put(-1);
    scratch.put(5);
    assert!(rt; scratch.values() == [5, -1, 5].as_slice());
    scratch.sort();
    assert!(rt; scratch.values() == [-1, 5, 5].as_slice());
    scratch.clear();
    assert!(rt; scratch.values().is_empty());
    scratch.put(4);
    assert!(rt; scratch.values() == [4].as_slice());
    Ok(())
}
