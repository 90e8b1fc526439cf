//! Automata and diagrams, and what they are lowered to. The tables have the calls as FlatZinc writes them, worked out by
//! hand, behind the variables x, y and z.

ghost use Rattle.std.specs.Prelude.{◌≡◌, ◌≤◌, length, IfOk};

use crate::{lower_mdd, lower_regular};
use fz_file::call_line;
use fz_model::{FzVar, FzVars, Goal, Model};
use lo_base::Held;
use std::alloc::Global;
use std::test::Fail;
use xf_num::{Domain, NoMemory, Row, Span, Text};
use xs_model::Edge;

/// From a state by a value to a state.
type Step = (u32, i128, u32);

/// An automaton: the variables, the transitions, the final states, how many variables are made, and the calls. It starts at
/// state 0.
type Automaton = (
    &'static [u32],
    &'static [Step],
    &'static [u32],
    usize,
    &'static str,
);

/// A diagram from state 0 to the leaf.
type Diagram = (&'static [u32], &'static [Step], u32, usize, &'static str);

const AUTOMATA: &[Automaton] = &[
    // One layer: a literal needs no conjunction.
    (
        &[0],
        &[(0, 1, 1)],
        &[1],
        2,
        "constraint int_eq_reif(x,1,a_0);\n\
         constraint array_bool_or([a_0],a_1);\n\
         constraint bool_clause([a_1],[]);\n",
    ),
    // A literal is shared within a layer, and a state is reached by two values.
    (
        &[0],
        &[(0, 1, 1), (0, 1, 2), (0, 2, 1)],
        &[1, 2],
        4,
        "constraint int_eq_reif(x,1,a_0);\n\
         constraint int_eq_reif(x,2,a_1);\n\
         constraint array_bool_or([a_0,a_1],a_2);\n\
         constraint array_bool_or([a_0],a_3);\n\
         constraint bool_clause([a_2,a_3],[]);\n",
    ),
    // A state that is not live yet has no part in the first layer, the start none in the second.
    (
        &[0, 1],
        &[(0, 1, 1), (1, 2, 2)],
        &[2],
        5,
        "constraint int_eq_reif(x,1,a_0);\n\
         constraint array_bool_or([a_0],a_1);\n\
         constraint int_eq_reif(y,2,a_2);\n\
         constraint array_bool_and([a_1,a_2],a_3);\n\
         constraint array_bool_or([a_3],a_4);\n\
         constraint bool_clause([a_4],[]);\n",
    ),
    // A state that is reached again, from two states by one value.
    (
        &[0, 1],
        &[(0, 0, 0), (0, 1, 1), (1, 0, 1)],
        &[1],
        11,
        "constraint int_eq_reif(x,0,a_0);\n\
         constraint int_eq_reif(x,1,a_1);\n\
         constraint array_bool_or([a_0],a_2);\n\
         constraint array_bool_or([a_1],a_3);\n\
         constraint int_eq_reif(y,0,a_4);\n\
         constraint array_bool_and([a_2,a_4],a_5);\n\
         constraint int_eq_reif(y,1,a_6);\n\
         constraint array_bool_and([a_2,a_6],a_7);\n\
         constraint array_bool_and([a_3,a_4],a_8);\n\
         constraint array_bool_or([a_5],a_9);\n\
         constraint array_bool_or([a_7,a_8],a_10);\n\
         constraint bool_clause([a_10],[]);\n",
    ),
    // No final state is live.
    (
        &[0],
        &[(0, 1, 1)],
        &[0],
        2,
        "constraint int_eq_reif(x,1,a_0);\n\
         constraint array_bool_or([a_0],a_1);\n\
         constraint bool_clause([],[]);\n",
    ),
    // No transition leads from the start; no transition at all; no final state.
    (
        &[0],
        &[(1, 1, 0)],
        &[0],
        0,
        "constraint bool_clause([],[]);\n",
    ),
    (&[0, 1], &[], &[0], 0, "constraint bool_clause([],[]);\n"),
    (
        &[2],
        &[(0, 7, 0)],
        &[],
        2,
        "constraint int_eq_reif(z,7,a_0);\n\
         constraint array_bool_or([a_0],a_1);\n\
         constraint bool_clause([],[]);\n",
    ),
    // A final state that is named twice stands once.
    (
        &[0],
        &[(0, 1, 1)],
        &[1, 1],
        2,
        "constraint int_eq_reif(x,1,a_0);\n\
         constraint array_bool_or([a_0],a_1);\n\
         constraint bool_clause([a_1],[]);\n",
    ),
    // Final states stand in the order of first target, whatever their own order.
    (
        &[0],
        &[(0, 1, 2), (0, 2, 1)],
        &[1, 2],
        4,
        "constraint int_eq_reif(x,1,a_0);\n\
         constraint int_eq_reif(x,2,a_1);\n\
         constraint array_bool_or([a_0],a_2);\n\
         constraint array_bool_or([a_1],a_3);\n\
         constraint bool_clause([a_2,a_3],[]);\n",
    ),
    // A state to which no path leads is dead, also where it leads to a live one.
    (
        &[0, 1],
        &[(0, 1, 1), (2, 1, 1), (1, 3, 0)],
        &[0],
        5,
        "constraint int_eq_reif(x,1,a_0);\n\
         constraint array_bool_or([a_0],a_1);\n\
         constraint int_eq_reif(y,3,a_2);\n\
         constraint array_bool_and([a_1,a_2],a_3);\n\
         constraint array_bool_or([a_3],a_4);\n\
         constraint bool_clause([a_4],[]);\n",
    ),
    // No state is live behind the second value.
    (
        &[0, 1],
        &[(0, 1, 1)],
        &[1],
        2,
        "constraint int_eq_reif(x,1,a_0);\n\
         constraint array_bool_or([a_0],a_1);\n\
         constraint bool_clause([],[]);\n",
    ),
    // Literals are not shared between layers, also where the variable is the same.
    (
        &[0, 0],
        &[(0, 1, 0)],
        &[0],
        5,
        "constraint int_eq_reif(x,1,a_0);\n\
         constraint array_bool_or([a_0],a_1);\n\
         constraint int_eq_reif(x,1,a_2);\n\
         constraint array_bool_and([a_1,a_2],a_3);\n\
         constraint array_bool_or([a_3],a_4);\n\
         constraint bool_clause([a_4],[]);\n",
    ),
    // A transition that is named twice, by a negative value.
    (
        &[1],
        &[(0, -5, 1), (0, -5, 1)],
        &[1],
        2,
        "constraint int_eq_reif(y,-5,a_0);\n\
         constraint array_bool_or([a_0,a_0],a_1);\n\
         constraint bool_clause([a_1],[]);\n",
    ),
    // A state that is left and reached at once keeps its place: here 1 stands before 0 in the second layer.
    (
        &[0, 1],
        &[(1, 4, 1), (0, 4, 0), (0, 5, 1)],
        &[0, 1],
        11,
        "constraint int_eq_reif(x,4,a_0);\n\
         constraint int_eq_reif(x,5,a_1);\n\
         constraint array_bool_or([a_0],a_2);\n\
         constraint array_bool_or([a_1],a_3);\n\
         constraint int_eq_reif(y,4,a_4);\n\
         constraint array_bool_and([a_3,a_4],a_5);\n\
         constraint array_bool_and([a_2,a_4],a_6);\n\
         constraint int_eq_reif(y,5,a_7);\n\
         constraint array_bool_and([a_2,a_7],a_8);\n\
         constraint array_bool_or([a_5,a_8],a_9);\n\
         constraint array_bool_or([a_6],a_10);\n\
         constraint bool_clause([a_9,a_10],[]);\n",
    ),
];

const DIAGRAMS: &[Diagram] = &[
    // Two ways to the leaf, which share the literal of the second value.
    (
        &[0, 1],
        &[(0, 1, 1), (0, 2, 2), (1, 1, 3), (2, 1, 3)],
        3,
        8,
        "constraint int_eq_reif(x,1,a_0);\n\
         constraint int_eq_reif(x,2,a_1);\n\
         constraint array_bool_or([a_0],a_2);\n\
         constraint array_bool_or([a_1],a_3);\n\
         constraint int_eq_reif(y,1,a_4);\n\
         constraint array_bool_and([a_2,a_4],a_5);\n\
         constraint array_bool_and([a_3,a_4],a_6);\n\
         constraint array_bool_or([a_5,a_6],a_7);\n\
         constraint bool_clause([a_7],[]);\n",
    ),
    // No values: the root is no leaf.
    (&[], &[(0, 1, 1)], 1, 0, "constraint bool_clause([],[]);\n"),
    (
        &[0],
        &[(0, 4, 1), (0, 5, 1)],
        1,
        3,
        "constraint int_eq_reif(x,4,a_0);\n\
         constraint int_eq_reif(x,5,a_1);\n\
         constraint array_bool_or([a_0,a_1],a_2);\n\
         constraint bool_clause([a_2],[]);\n",
    ),
    // More values than the diagram is deep.
    (
        &[0, 1],
        &[(0, 1, 1)],
        1,
        2,
        "constraint int_eq_reif(x,1,a_0);\n\
         constraint array_bool_or([a_0],a_1);\n\
         constraint bool_clause([],[]);\n",
    ),
    // Three layers.
    (
        &[0, 1, 2],
        &[(0, 0, 1), (1, 0, 2), (2, 0, 3)],
        3,
        8,
        "constraint int_eq_reif(x,0,a_0);\n\
         constraint array_bool_or([a_0],a_1);\n\
         constraint int_eq_reif(y,0,a_2);\n\
         constraint array_bool_and([a_1,a_2],a_3);\n\
         constraint array_bool_or([a_3],a_4);\n\
         constraint int_eq_reif(z,0,a_5);\n\
         constraint array_bool_and([a_4,a_5],a_6);\n\
         constraint array_bool_or([a_6],a_7);\n\
         constraint bool_clause([a_7],[]);\n",
    ),
    // The leaf is reached too early, and again.
    (
        &[0, 1],
        &[(0, 1, 2), (0, 2, 1), (1, 1, 2)],
        2,
        7,
        "constraint int_eq_reif(x,1,a_0);\n\
         constraint int_eq_reif(x,2,a_1);\n\
         constraint array_bool_or([a_0],a_2);\n\
         constraint array_bool_or([a_1],a_3);\n\
         constraint int_eq_reif(y,1,a_4);\n\
         constraint array_bool_and([a_3,a_4],a_5);\n\
         constraint array_bool_or([a_5],a_6);\n\
         constraint bool_clause([a_6],[]);\n",
    ),
];

fn variable(alloc: Global, name: &[u8]) -> Result<FzVar, NoMemory> {
    Ok(FzVar {
        name: Row::from_slice(alloc, name)?,
        boolean: false,
        domain: Domain::of(alloc, Span::new(0, 9).unwrap())?,
        equal: None,
        shown: true,
    })
}

// The variables x, y and z.
fn variables(alloc: Global) -> Result<FzVars, NoMemory>
    ensures { IfOk result (λ vars. length vars ≡ 3) }
{
    let mut vars = Row::new(alloc);
    vars.push(variable(alloc, b"x")?)?;
    vars.push(variable(alloc, b"y")?)?;
    vars.push(variable(alloc, b"z")?)?;
    Ok(vars)
}

fn edges_of(alloc: Global, steps: &[Step]) -> Result<Row<Edge>, NoMemory>
    ensures { IfOk result (λ edges. length edges ≡ length steps.now) }
{
    let mut edges = Row::new(alloc);
    for (from, value, to) in steps {
        edges.push(Edge {
            from: *from,
            value: *value,
            to: *to,
        })?;
    }
    Ok(edges)
}

// The calls of a model.
fn calls_in(alloc: Global, model: &Model) -> Result<Text, NoMemory> {
    let mut text = Row::new(alloc);
    for call in model.calls.as_slice() {
        let line = call_line(alloc, call, model.vars.as_slice())?;
        text.extend(line.as_slice())?;
    }
    Ok(text)
}

// The model of an automaton that starts at state 0.
fn automaton(alloc: Global, list: &[u32], steps: &[Step], finals: &[u32]) -> Result<Model, Fail>
    requires short { length list.now ≤ 8 }
    requires few { length steps.now ≤ 8 }
{
    let edges = edges_of(alloc, steps)?;
    let mut held = Held::new(alloc, variables(alloc)?);
    lower_regular(alloc, list, edges.as_slice(), 0, finals, &mut held)?;
    Ok(held.finish(Goal::Satisfy))
}

// The model of a diagram from state 0.
fn diagram(alloc: Global, list: &[u32], steps: &[Step], leaf: u32) -> Result<Model, Fail>
    requires short { length list.now ≤ 8 }
    requires few { length steps.now ≤ 8 }
{
    let edges = edges_of(alloc, steps)?;
    let mut held = Held::new(alloc, variables(alloc)?);
    lower_mdd(alloc, list, edges.as_slice(), 0, leaf, &mut held)?;
    Ok(held.finish(Goal::Satisfy))
}

#[test]
fn automata_and_diagrams(rt: HostRuntime) -> Result<(), Fail> {
    let alloc = rt.alloc();
    for (list, steps, finals, made, calls) in AUTOMATA {
        assert!(rt; list.len() <= 8 && steps.len() <= 8);
        let model = automaton(alloc, list, steps, finals)?;
        assert_eq!(rt; model.vars.len().checked_sub(3), Some(*made));
        assert_eq!(rt; calls_in(alloc, &model)?.as_slice(), calls.as_bytes());
    }
    for (list, steps, leaf, made, calls) in DIAGRAMS {
        assert!(rt; list.len() <= 8 && steps.len() <= 8);
        let model = diagram(alloc, list, steps, *leaf)?;
        assert_eq!(rt; model.vars.len().checked_sub(3), Some(*made));
        assert_eq!(rt; calls_in(alloc, &model)?.as_slice(), calls.as_bytes());
    }
    Ok(())
}
