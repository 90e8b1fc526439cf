//! `regular` and `mdd`, layer by layer.

ghost use Rattle.std.specs.Prelude.{◌≡◌, ◌+◌, ◌*◌, ◌≤◌, ◌<◌, ◌^◌, ◌++◌, [], length, OnOk, OnErr, IsErrOf, IfOk};
ghost use Rattle.xf_text.specs.Outside.{Rose};
ghost use Rattle.lo_base.specs.Item.{made};
ghost use Rattle.lo_emit.specs.Literals.{literal_of};
ghost use Rattle.lo_paths.specs.Groups.{any_of};
ghost use Rattle.lo_paths.specs.Path.{reach, passed, taken, arrive_step, gathered, targets_of, reached, next_layer, final_one, final_truths, first_layer, low_layers, low_regular, low_mdd};

use crate::groups::{Groups, group_all};
use crate::states::{States, states_of};
use fz_model::Builtin;
use lo_base::{Emit, EmitStop};
use lo_emit::{Cell, Term, clause, truth_of_list};
use lo_literals::{Literals, literal_of};
use std::alloc::Global;
use xf_num::{NoMemory, Row};
use xs_model::Edge;

/// A state, and what tells whether a transition arrives there.
#[derive(Clone, Copy)]
pub struct Arrival {
    pub state: u32,
    pub truth: Term,
}

/// The live states of a layer, and what tells of each whether it is reached.
#[derive(Drop)]
pub struct Layer {
    pub states: States,
    pub truths: Row<Term>,
}

/// What tells whether the state is reached, where it is live.
fn reach(layer: &Layer, state: u32) -> Option<Term>
    requires { length layer.now.truths ≡ length layer.now.states }
    ensures { result ≡ reach layer.now.states layer.now.truths state }
{
    match layer.states.place(state) {
        Some(at) => Some(layer.truths.as_slice()[at]),
        None => None,
    }
}

/// Whether both are true; where the first is known to be, that is the second.
fn pass<E: Emit>(alloc: Global, first: Term, second: Term, out: &mut E) -> Result<Term, EmitStop>
    requires { E.count out.old < 2 ^ 61 }
    ensures value { IfOk result (λ t. t ≡ (passed (E.count out.old) first second).term) }
    ensures ok { OnOk result (E.grew out.old out.new (passed (E.count out.old) first second).items) }
    ensures count { OnOk result (E.count out.new ≡ E.count out.old + made (passed (E.count out.old) first second).items) }
    ensures few { OnOk result (E.count out.new ≤ E.count out.old + 1) }
    ensures stopped { OnErr result (E.began out.old out.new (passed (E.count out.old) first second).items) }
    ensures cause { IsErrOf result EmitStop.Failed → Rose (E.faults out.old) (E.faults out.new) }
{
    match first {
        Term::Truth(true) => Ok(second),
        Term::Truth(false) | Term::Int(_) | Term::Var(_) => {
            truth_of_list(alloc, Builtin::ArrayBoolAnd, &[first, second], out)
        }
    }
}

/// Whether the variable of the cell has its value, from a state that is reached as is told.
#[tactic(auto, using(lo_base::proofs::Solving::made_laws))]
fn take<E: Emit>(
    alloc: Global,
    reached: Term,
    cell: Cell,
    table: &mut Literals,
    out: &mut E,
) -> Result<Term, EmitStop>
    requires { E.count out.old + 1 < 2 ^ 61 }
    ensures value { IfOk result (λ t. t ≡ (taken (E.count out.old) reached (literal_of (E.count out.old) table.old cell)).term) }
    ensures table { OnOk result (table.new ≡ (taken (E.count out.old) reached (literal_of (E.count out.old) table.old cell)).table) }
    ensures ok { OnOk result (E.grew out.old out.new (taken (E.count out.old) reached (literal_of (E.count out.old) table.old cell)).items) }
    ensures count { OnOk result (E.count out.new ≡ E.count out.old + made (taken (E.count out.old) reached (literal_of (E.count out.old) table.old cell)).items) }
    ensures few { OnOk result (E.count out.new ≤ E.count out.old + 2) }
    ensures stopped { OnErr result (E.began out.old out.new (taken (E.count out.old) reached (literal_of (E.count out.old) table.old cell)).items) }
    ensures cause { IsErrOf result EmitStop.Failed → Rose (E.faults out.old) (E.faults out.new) }
{
    let literal = literal_of(alloc, cell, table, out)?;
    pass(alloc, reached, literal, out)
}

/// Puts what a transition arrives at to the arrivals, where it leads from a live state.
#[tactic(auto, using(lo_base::proofs::Solving::made_laws))]
fn arrive<E: Emit>(
    alloc: Global,
    edge: Edge,
    layer: &Layer,
    x: u32,
    table: &mut Literals,
    arrivals: &mut Row<Arrival>,
    out: &mut E,
) -> Result<(), EmitStop>
    requires room { E.count out.old + 1 < 2 ^ 61 }
    requires even { length layer.now.truths ≡ length layer.now.states }
    ensures table { OnOk result (table.new ≡ (arrive_step x layer.now (E.count out.old) (record { table = table.old; arrivals = arrivals.old }) edge).state.table) }
    ensures arrivals { OnOk result (arrivals.new ≡ (arrive_step x layer.now (E.count out.old) (record { table = table.old; arrivals = arrivals.old }) edge).state.arrivals) }
    ensures ok { OnOk result (E.grew out.old out.new (arrive_step x layer.now (E.count out.old) (record { table = table.old; arrivals = arrivals.old }) edge).items) }
    ensures count { OnOk result (E.count out.new ≡ E.count out.old + made (arrive_step x layer.now (E.count out.old) (record { table = table.old; arrivals = arrivals.old }) edge).items) }
    ensures few { OnOk result (E.count out.new ≤ E.count out.old + 2) }
    ensures fewer { OnOk result (length arrivals.new ≤ length arrivals.old + 1) }
    ensures stopped { OnErr result (E.began out.old out.new (arrive_step x layer.now (E.count out.old) (record { table = table.old; arrivals = arrivals.old }) edge).items) }
    ensures cause { IsErrOf result EmitStop.Failed → Rose (E.faults out.old) (E.faults out.new) }
{
    match reach(layer, edge.from) {
        Some(reached) => {
            let cell = Cell {
                place: 0,
                variable: u64::from(x),
                value: edge.value,
            };
            let truth = take(alloc, reached, cell, table, out)?;
            arrivals.push(Arrival {
                state: edge.to,
                truth,
            })?;
            Ok(())
        }
        None => Ok(()),
    }
}

/// What the transitions from live states arrive at, by the value of the variable.
fn gather<E: Emit>(
    alloc: Global,
    edges: &[Edge],
    layer: &Layer,
    x: u32,
    out: &mut E,
) -> Result<Row<Arrival>, EmitStop>
    requires room { E.count out.old + 2 * length edges.now < 2 ^ 61 }
    requires even { length layer.now.truths ≡ length layer.now.states }
    ensures value { IfOk result (λ all. all ≡ (gathered edges.now (E.count out.old) layer.now x).state.arrivals) }
    ensures fewer { IfOk result (λ all. length all ≤ length edges.now) }
    ensures ok { OnOk result (E.grew out.old out.new (gathered edges.now (E.count out.old) layer.now x).items) }
    ensures count { OnOk result (E.count out.new ≡ E.count out.old + made (gathered edges.now (E.count out.old) layer.now x).items) }
    ensures few { OnOk result (E.count out.new ≤ E.count out.old + 2 * length edges.now) }
    ensures stopped { OnErr result (E.began out.old out.new (gathered edges.now (E.count out.old) layer.now x).items) }
    ensures cause { IsErrOf result EmitStop.Failed → Rose (E.faults out.old) (E.faults out.new) }
{
    let mut table = Literals::new(alloc);
    let mut all = Row::new(alloc);
    for edge in edges {
        arrive(alloc, *edge, layer, x, &mut table, &mut all, out)?;
    }
    Ok(all)
}

/// What tells of each state whether it is arrived at, by what tells of the transitions there.
fn reached<E: Emit>(alloc: Global, groups: &[Row<Term>], out: &mut E) -> Result<Row<Term>, EmitStop>
    requires room { E.count out.old + length groups.now ≤ 2 ^ 61 }
    ensures value { IfOk result (λ all. all ≡ (any_of (E.count out.old) groups.now).terms) }
    ensures even { IfOk result (λ all. length all ≡ length groups.now) }
    ensures ok { OnOk result (E.grew out.old out.new (any_of (E.count out.old) groups.now).items) }
    ensures count { OnOk result (E.count out.new ≡ E.count out.old + made (any_of (E.count out.old) groups.now).items) }
    ensures few { OnOk result (E.count out.new ≤ E.count out.old + length groups.now) }
    ensures stopped { OnErr result (E.began out.old out.new (any_of (E.count out.old) groups.now).items) }
    ensures cause { IsErrOf result EmitStop.Failed → Rose (E.faults out.old) (E.faults out.new) }
{
    let mut all = Row::new(alloc);
    for ways in groups {
        let truth = truth_of_list(alloc, Builtin::ArrayBoolOr, ways.as_slice(), out)?;
        all.push(truth)?;
    }
    Ok(all)
}

/// The states that are arrived at, and what tells of each whether it is.
fn settle<E: Emit>(alloc: Global, arrivals: &[Arrival], out: &mut E) -> Result<Layer, EmitStop>
    requires room { E.count out.old + length arrivals.now ≤ 2 ^ 61 }
    ensures value { IfOk result (λ next. next ≡ record { states = targets_of arrivals.now; truths = (reached arrivals.now (E.count out.old) (targets_of arrivals.now)).terms }) }
    ensures even { IfOk result (λ next. length next.truths ≡ length next.states) }
    ensures ok { OnOk result (E.grew out.old out.new (reached arrivals.now (E.count out.old) (targets_of arrivals.now)).items) }
    ensures count { OnOk result (E.count out.new ≡ E.count out.old + made (reached arrivals.now (E.count out.old) (targets_of arrivals.now)).items) }
    ensures few { OnOk result (E.count out.new ≤ E.count out.old + length arrivals.now) }
    ensures stopped { OnErr result (E.began out.old out.new (reached arrivals.now (E.count out.old) (targets_of arrivals.now)).items) }
    ensures cause { IsErrOf result EmitStop.Failed → Rose (E.faults out.old) (E.faults out.new) }
{
    let Groups { states, ways } = group_all(alloc, arrivals)?;
    let truths = reached(alloc, ways.as_slice(), out)?;
    Ok(Layer { states, truths })
}

/// The layer behind the next value.
#[tactic(auto, using(lo_base::proofs::Solving::made_laws))]
fn next_layer<E: Emit>(
    alloc: Global,
    edges: &[Edge],
    layer: &Layer,
    x: u32,
    out: &mut E,
) -> Result<Layer, EmitStop>
    requires room { E.count out.old + 3 * length edges.now < 2 ^ 61 }
    requires even { length layer.now.truths ≡ length layer.now.states }
    ensures value { IfOk result (λ next. next ≡ (next_layer edges.now (E.count out.old) layer.now x).state) }
    ensures even { IfOk result (λ next. length next.truths ≡ length next.states) }
    ensures ok { OnOk result (E.grew out.old out.new (next_layer edges.now (E.count out.old) layer.now x).items) }
    ensures count { OnOk result (E.count out.new ≡ E.count out.old + made (next_layer edges.now (E.count out.old) layer.now x).items) }
    ensures few { OnOk result (E.count out.new ≤ E.count out.old + 3 * length edges.now) }
    ensures stopped { OnErr result (E.began out.old out.new (next_layer edges.now (E.count out.old) layer.now x).items) }
    ensures cause { IsErrOf result EmitStop.Failed → Rose (E.faults out.old) (E.faults out.new) }
{
    let arrivals = gather(alloc, edges, layer, x, out)?;
    settle(alloc, arrivals.as_slice(), out)
}

/// The start alone, which is reached.
fn first_layer(alloc: Global, start: u32) -> Result<Layer, NoMemory>
    ensures { IfOk result (λ layer. layer ≡ first_layer start) }
{
    let mut states = States::new(alloc);
    states.push(start)?;
    let mut truths = Row::new(alloc);
    truths.push(Term::Truth(true))?;
    Ok(Layer { states, truths })
}

fn push_final(finals: &States, state: u32, truth: Term, all: &mut Row<Term>) -> Result<(), NoMemory>
    ensures { OnOk result (all.new ≡ all.old ++ final_one finals.now state truth) }
{
    if finals.contains(state) {
        all.push(truth)?;
    }
    Ok(())
}

/// What tells of the final states among these whether they are reached.
fn truths_among(
    alloc: Global,
    finals: &States,
    states: &[u32],
    truths: &[Term],
) -> Result<Row<Term>, NoMemory>
    requires { length truths.now ≡ length states.now }
    ensures { IfOk result (λ all. all ≡ final_truths finals.now states.now truths.now) }
{
    let mut all = Row::new(alloc);
    for i in 0..states.len() {
        push_final(finals, states[i], truths[i], &mut all)?;
    }
    Ok(all)
}

/// What tells of the final states of a layer whether they are reached.
fn final_truths(alloc: Global, finals: &[u32], layer: &Layer) -> Result<Row<Term>, NoMemory>
    requires { length layer.now.truths ≡ length layer.now.states }
    ensures { IfOk result (λ all. all ≡ final_truths finals.now layer.now.states layer.now.truths) }
{
    let known = states_of(alloc, finals)?;
    truths_among(
        alloc,
        &known,
        layer.states.as_slice(),
        layer.truths.as_slice(),
    )
}

/// Some final state of the last layer is reached.
fn state_finals<E: Emit>(
    alloc: Global,
    finals: &[u32],
    layer: &Layer,
    out: &mut E,
) -> Result<(), EmitStop>
    requires even { length layer.now.truths ≡ length layer.now.states }
    ensures ok { OnOk result (E.grew out.old out.new (low_layers [] finals.now (E.count out.old) layer.now [])) }
    ensures stopped { OnErr result (E.began out.old out.new (low_layers [] finals.now (E.count out.old) layer.now [])) }
    ensures cause { IsErrOf result EmitStop.Failed → Rose (E.faults out.old) (E.faults out.new) }
{
    let all = final_truths(alloc, finals, layer)?;
    out.post(clause(alloc, all.as_slice(), &[])?)?;
    Ok(())
}

fn lower_layers<E: Emit>(
    alloc: Global,
    list: &[u32],
    edges: &[Edge],
    start: u32,
    finals: &[u32],
    out: &mut E,
) -> Result<(), EmitStop>
    requires few { length list.now * (3 * length edges.now) + 3 * length edges.now ≤ 2 ^ 60 }
    requires room { E.count out.old ≤ 2 ^ 60 }
    ensures ok { OnOk result (E.grew out.old out.new (low_regular (E.count out.old) list.now edges.now start finals.now)) }
    ensures stopped { OnErr result (E.began out.old out.new (low_regular (E.count out.old) list.now edges.now start finals.now)) }
    ensures cause { IsErrOf result EmitStop.Failed → Rose (E.faults out.old) (E.faults out.new) }
{
    let mut layer = first_layer(alloc, start)?;
    for x in list {
        layer = next_layer(alloc, edges, &layer, *x, out)?;
    }
    state_finals(alloc, finals, &layer, out)?;
    Ok(())
}

/// Appends what says that a path of transitions spells the values of the variables, from the start to a final state. On an
/// `Err` it began that.
pub fn lower_regular<E: Emit>(
    alloc: Global,
    list: &[u32],
    edges: &[Edge],
    start: u32,
    finals: &[u32],
    out: &mut E,
) -> Result<(), EmitStop>
    requires few { length list.now * (3 * length edges.now) + 3 * length edges.now ≤ 2 ^ 60 }
    requires room { E.count out.old ≤ 2 ^ 60 }
    ensures ok { OnOk result (E.grew out.old out.new (low_regular (E.count out.old) list.now edges.now start finals.now)) }
    ensures count { OnOk result (E.count out.new ≡ E.count out.old + made (low_regular (E.count out.old) list.now edges.now start finals.now)) }
    ensures stopped { OnErr result (E.began out.old out.new (low_regular (E.count out.old) list.now edges.now start finals.now)) }
    ensures cause { IsErrOf result EmitStop.Failed → Rose (E.faults out.old) (E.faults out.new) }
{
    lower_layers(alloc, list, edges, start, finals, out)?;
    Ok(())
}

/// Appends what says that a path of transitions spells the values of the variables, from the root to the leaf. On an `Err`
/// it began that.
pub fn lower_mdd<E: Emit>(
    alloc: Global,
    list: &[u32],
    edges: &[Edge],
    root: u32,
    leaf: u32,
    out: &mut E,
) -> Result<(), EmitStop>
    requires few { length list.now * (3 * length edges.now) + 3 * length edges.now ≤ 2 ^ 60 }
    requires room { E.count out.old ≤ 2 ^ 60 }
    ensures ok { OnOk result (E.grew out.old out.new (low_mdd (E.count out.old) list.now edges.now root leaf)) }
    ensures count { OnOk result (E.count out.new ≡ E.count out.old + made (low_mdd (E.count out.old) list.now edges.now root leaf)) }
    ensures stopped { OnErr result (E.began out.old out.new (low_mdd (E.count out.old) list.now edges.now root leaf)) }
    ensures cause { IsErrOf result EmitStop.Failed → Rose (E.faults out.old) (E.faults out.new) }
{
    lower_layers(alloc, list, edges, root, &[leaf], out)?;
    Ok(())
}
