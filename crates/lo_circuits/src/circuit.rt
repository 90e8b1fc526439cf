//! `circuit`: every moved place is met by the walk.

ghost use Rattle.std.specs.Prelude.{◌≡◌, ◌+◌, ◌*◌, ◌≤◌, ◌<◌, ◌^◌, ◌∷◌, ◌++◌, [], length, IfOk, OnOk, OnErr, IsErrOf};
ghost use Rattle.xf_text.specs.Outside.{Rose};
ghost use Rattle.lo_base.specs.Item.{made};
ghost use Rattle.lo_emit.specs.Conditions.{term_of};
ghost use Rattle.lo_emit.specs.Loops.{for_all, paired};
ghost use Rattle.lo_emit.specs.Sums.{IsNegatable, IsNegatableTerm};
ghost use Rattle.xs_model.specs.declared.term.Term.{Term as Operand};
ghost use Rattle.std.specs.Prelude.{Some};
ghost use Rattle.lo_circuits.specs.Circuit.{indices, meetings, low_met, low_size, low_meetings, low_walk, low_first, low_some, low_counted, low_seen, low_marked, low_moves, low_checks, low_nodes, low_places, low_circuit, IsNegatableSize};

use crate::nodes::Nodes;
use crate::places::{bits, index_range, indices, lower_inside, moves, ones, seen};
use crate::walk::{first_index, walk};
use fz_model::Builtin;
use lo_base::{Emit, EmitStop};
use lo_conditions::term_of;
use lo_emit::{Relation, Term, clause, sum_call, truth_of_two, variables_of};
use lo_forms::lower_different;
use std::alloc::Global;
use xf_num::Row;

/// For each index of the walk whether it is this one.
fn meetings<E: Emit>(
    alloc: Global,
    walk: &[Term],
    index: Term,
    out: &mut E,
) -> Result<Row<Term>, EmitStop>
    requires room { E.count out.old + length walk.now ≤ 2 ^ 61 }
    ensures value { IfOk result (λ all. all ≡ (meetings (E.count out.old) walk.now index).terms) }
    ensures ok { OnOk result (E.grew out.old out.new (meetings (E.count out.old) walk.now index).items) }
    ensures count { OnOk result (E.count out.new ≡ E.count out.old + made (meetings (E.count out.old) walk.now index).items) }
    ensures few { OnOk result (E.count out.new ≤ E.count out.old + length walk.now) }
    ensures stopped { OnErr result (E.began out.old out.new (meetings (E.count out.old) walk.now index).items) }
    ensures cause { IsErrOf result EmitStop.Failed → Rose (E.faults out.old) (E.faults out.new) }
{
    let mut all = Row::new(alloc);
    for met in walk {
        let truth = truth_of_two(alloc, Builtin::IntEqReif, *met, index, out)?;
        all.push(truth)?;
    }
    Ok(all)
}

/// The place of an index, where it is moved, is met by the walk.
#[tactic(auto, using(lo_base::proofs::Solving::made_laws))]
fn lower_met<E: Emit>(
    alloc: Global,
    walk: &[Term],
    moved: Term,
    index: Term,
    out: &mut E,
) -> Result<(), EmitStop>
    requires room { E.count out.old + length walk.now ≤ 2 ^ 61 }
    ensures ok { OnOk result (E.grew out.old out.new (low_met walk.now (E.count out.old) (moved, index))) }
    ensures count { OnOk result (E.count out.new ≡ E.count out.old + made (low_met walk.now (E.count out.old) (moved, index))) }
    ensures few { OnOk result (E.count out.new ≤ E.count out.old + length walk.now) }
    ensures stopped { OnErr result (E.began out.old out.new (low_met walk.now (E.count out.old) (moved, index))) }
    ensures cause { IsErrOf result EmitStop.Failed → Rose (E.faults out.old) (E.faults out.new) }
{
    let all = meetings(alloc, walk, index, out)?;
    out.post(clause(alloc, all.as_slice(), &[moved])?)?;
    Ok(())
}

/// Every moved place is met by the walk.
fn lower_all_met<E: Emit>(
    alloc: Global,
    walk: &[Term],
    moves: &[Term],
    indices: &[Term],
    out: &mut E,
) -> Result<(), EmitStop>
    requires short { length walk.now ≤ 2 ^ 29 }
    requires few { length moves.now ≤ 2 ^ 29 }
    requires even { length indices.now ≡ length moves.now }
    requires room { E.count out.old ≤ 2 ^ 60 + 2 ^ 40 }
    ensures ok { OnOk result (E.grew out.old out.new (for_all (low_met walk.now) (E.count out.old) (paired moves.now indices.now))) }
    ensures count { OnOk result (E.count out.new ≡ E.count out.old + made (for_all (low_met walk.now) (E.count out.old) (paired moves.now indices.now))) }
    ensures few { OnOk result (E.count out.new ≤ E.count out.old + 2 ^ 58) }
    ensures stopped { OnErr result (E.began out.old out.new (for_all (low_met walk.now) (E.count out.old) (paired moves.now indices.now))) }
    ensures cause { IsErrOf result EmitStop.Failed → Rose (E.faults out.old) (E.faults out.new) }
{
    for i in 0..moves.len() {
        lower_met(alloc, walk, moves[i], indices[i], out)?;
    }
    Ok(())
}

/// As many places are moved as the size says.
#[tactic(auto, using(lo_base::proofs::Solving::made_laws))]
fn lower_some_size<E: Emit>(
    alloc: Global,
    moves: &[Term],
    size: xs_model::Term,
    out: &mut E,
) -> Result<(), EmitStop>
    requires bound { IsNegatableTerm (term_of size) }
    requires room { E.count out.old + length moves.now ≤ 2 ^ 61 }
    ensures ok { OnOk result (E.grew out.old out.new (low_size (E.count out.old) moves.now (Some size))) }
    ensures stopped { OnErr result (E.began out.old out.new (low_size (E.count out.old) moves.now (Some size))) }
    ensures cause { IsErrOf result EmitStop.Failed → Rose (E.faults out.old) (E.faults out.new) }
{
    let all = bits(alloc, moves, out)?;
    let coefficients = ones(alloc, all.as_slice())?;
    let sum = sum_call(
        alloc,
        Relation::Eq,
        coefficients.as_slice(),
        all.as_slice(),
        term_of(size),
    )?;
    out.post(sum)?;
    Ok(())
}

/// As many places are moved as the size says, where there is one.
fn lower_size<E: Emit>(
    alloc: Global,
    moves: &[Term],
    size: Option<xs_model::Term>,
    out: &mut E,
) -> Result<(), EmitStop>
    requires size { IsNegatableSize size }
    requires room { E.count out.old + length moves.now ≤ 2 ^ 61 }
    ensures ok { OnOk result (E.grew out.old out.new (low_size (E.count out.old) moves.now size)) }
    ensures stopped { OnErr result (E.began out.old out.new (low_size (E.count out.old) moves.now size)) }
    ensures cause { IsErrOf result EmitStop.Failed → Rose (E.faults out.old) (E.faults out.new) }
{
    match size {
        None => Ok(()),
        Some(term) => lower_some_size(alloc, moves, term, out),
    }
}

/// Every moved place is met by the walk, and as many are moved as the size says.
fn lower_meetings<E: Emit>(
    alloc: Global,
    nodes: &Nodes,
    moves: &[Term],
    walk: &[Term],
    out: &mut E,
) -> Result<(), EmitStop>
    requires start { IsNegatable nodes.now.start }
    requires few { length nodes.now.list ≤ 2 ^ 29 }
    requires size { IsNegatableSize nodes.now.size }
    requires moves { length moves.now ≡ length nodes.now.list }
    requires walk { length walk.now ≡ length nodes.now.list }
    requires room { E.count out.old ≤ 2 ^ 60 + 2 ^ 40 }
    ensures ok { OnOk result (E.grew out.old out.new (low_meetings (E.count out.old) nodes.now moves.now walk.now)) }
    ensures stopped { OnErr result (E.began out.old out.new (low_meetings (E.count out.old) nodes.now moves.now walk.now)) }
    ensures cause { IsErrOf result EmitStop.Failed → Rose (E.faults out.old) (E.faults out.new) }
{
    let all = indices(alloc, nodes)?;
    lower_all_met(alloc, walk, moves, all.as_slice(), out)?;
    lower_size(alloc, moves, nodes.size, out)
}

/// The walk from the first index, which meets every moved place, and the size.
fn lower_walk<E: Emit>(
    alloc: Global,
    nodes: &Nodes,
    moves: &[Term],
    first: Term,
    out: &mut E,
) -> Result<(), EmitStop>
    requires start { IsNegatable nodes.now.start }
    requires some { 1 ≤ length nodes.now.list }
    requires few { length nodes.now.list ≤ 2 ^ 29 }
    requires size { IsNegatableSize nodes.now.size }
    requires moves { length moves.now ≡ length nodes.now.list }
    requires room { E.count out.old ≤ 2 ^ 60 + 2 ^ 39 }
    ensures ok { OnOk result (E.grew out.old out.new (low_walk (E.count out.old) nodes.now moves.now first)) }
    ensures stopped { OnErr result (E.began out.old out.new (low_walk (E.count out.old) nodes.now moves.now first)) }
    ensures cause { IsErrOf result EmitStop.Failed → Rose (E.faults out.old) (E.faults out.new) }
{
    let all = walk(alloc, nodes, first, out)?;
    lower_meetings(alloc, nodes, moves, all.as_slice(), out)
}

/// The first index of a moved place, and the walk from it.
fn lower_first<E: Emit>(
    alloc: Global,
    nodes: &Nodes,
    moves: &[Term],
    bits: &[Term],
    out: &mut E,
) -> Result<(), EmitStop>
    requires start { IsNegatable nodes.now.start }
    requires some { 1 ≤ length nodes.now.list }
    requires few { length nodes.now.list ≤ 2 ^ 29 }
    requires size { IsNegatableSize nodes.now.size }
    requires moves { length moves.now ≡ length nodes.now.list }
    requires room { E.count out.old ≤ 2 ^ 60 + 2 ^ 38 }
    ensures ok { OnOk result (E.grew out.old out.new (low_first (E.count out.old) nodes.now moves.now bits.now)) }
    ensures stopped { OnErr result (E.began out.old out.new (low_first (E.count out.old) nodes.now moves.now bits.now)) }
    ensures cause { IsErrOf result EmitStop.Failed → Rose (E.faults out.old) (E.faults out.new) }
{
    let first = first_index(alloc, nodes, bits, out)?;
    lower_walk(alloc, nodes, moves, first, out)
}

/// Some place is moved: the last of what tells of each whether it or one before it is.
fn lower_some<E: Emit>(alloc: Global, seen: &[Term], out: &mut E) -> Result<(), EmitStop>
    requires some { 1 ≤ length seen.now }
    ensures ok { OnOk result (E.grew out.old out.new (low_some seen.now)) }
    ensures count { OnOk result (E.count out.new ≡ E.count out.old) }
    ensures stopped { OnErr result (E.began out.old out.new (low_some seen.now)) }
    ensures cause { IsErrOf result EmitStop.Failed → Rose (E.faults out.old) (E.faults out.new) }
{
    let last = seen[seen.len() - 1];
    out.post(clause(alloc, &[last], &[])?)?;
    Ok(())
}

/// The bits of what tells of each place whether it or one before it is moved, and the walk from the first that is.
fn lower_counted<E: Emit>(
    alloc: Global,
    nodes: &Nodes,
    moves: &[Term],
    seen: &[Term],
    out: &mut E,
) -> Result<(), EmitStop>
    requires start { IsNegatable nodes.now.start }
    requires some { 1 ≤ length nodes.now.list }
    requires few { length nodes.now.list ≤ 2 ^ 29 }
    requires size { IsNegatableSize nodes.now.size }
    requires moves { length moves.now ≡ length nodes.now.list }
    requires seen { length seen.now ≡ length nodes.now.list }
    requires room { E.count out.old ≤ 2 ^ 60 + 2 ^ 37 }
    ensures ok { OnOk result (E.grew out.old out.new (low_counted (E.count out.old) nodes.now moves.now seen.now)) }
    ensures stopped { OnErr result (E.began out.old out.new (low_counted (E.count out.old) nodes.now moves.now seen.now)) }
    ensures cause { IsErrOf result EmitStop.Failed → Rose (E.faults out.old) (E.faults out.new) }
{
    let all = bits(alloc, seen, out)?;
    lower_first(alloc, nodes, moves, all.as_slice(), out)
}

/// Some place is moved, and the walk from the first.
fn lower_seen<E: Emit>(
    alloc: Global,
    nodes: &Nodes,
    moves: &[Term],
    seen: &[Term],
    out: &mut E,
) -> Result<(), EmitStop>
    requires start { IsNegatable nodes.now.start }
    requires some { 1 ≤ length nodes.now.list }
    requires few { length nodes.now.list ≤ 2 ^ 29 }
    requires size { IsNegatableSize nodes.now.size }
    requires moves { length moves.now ≡ length nodes.now.list }
    requires seen { length seen.now ≡ length nodes.now.list }
    requires room { E.count out.old ≤ 2 ^ 60 + 2 ^ 37 }
    ensures ok { OnOk result (E.grew out.old out.new (low_seen (E.count out.old) nodes.now moves.now seen.now)) }
    ensures stopped { OnErr result (E.began out.old out.new (low_seen (E.count out.old) nodes.now moves.now seen.now)) }
    ensures cause { IsErrOf result EmitStop.Failed → Rose (E.faults out.old) (E.faults out.new) }
{
    lower_some(alloc, seen, out)?;
    lower_counted(alloc, nodes, moves, seen, out)
}

/// Where it is told which places are moved: some is, and the walk from the first of them meets them all.
fn lower_marked<E: Emit>(
    alloc: Global,
    nodes: &Nodes,
    moves: &[Term],
    out: &mut E,
) -> Result<(), EmitStop>
    requires start { IsNegatable nodes.now.start }
    requires some { 1 ≤ length nodes.now.list }
    requires few { length nodes.now.list ≤ 2 ^ 29 }
    requires size { IsNegatableSize nodes.now.size }
    requires moves { length moves.now ≡ length nodes.now.list }
    requires room { E.count out.old ≤ 2 ^ 60 + 2 ^ 36 }
    ensures ok { OnOk result (E.grew out.old out.new (low_marked (E.count out.old) nodes.now moves.now)) }
    ensures stopped { OnErr result (E.began out.old out.new (low_marked (E.count out.old) nodes.now moves.now)) }
    ensures cause { IsErrOf result EmitStop.Failed → Rose (E.faults out.old) (E.faults out.new) }
{
    let all = seen(alloc, moves, out)?;
    lower_seen(alloc, nodes, moves, all.as_slice(), out)
}

/// Which places are moved, by their own indices, and the walk from the first of them, which meets them all.
fn lower_moves<E: Emit>(
    alloc: Global,
    nodes: &Nodes,
    own: &[Term],
    out: &mut E,
) -> Result<(), EmitStop>
    requires start { IsNegatable nodes.now.start }
    requires some { 1 ≤ length nodes.now.list }
    requires few { length nodes.now.list ≤ 2 ^ 29 }
    requires size { IsNegatableSize nodes.now.size }
    requires own { own.now ≡ indices nodes.now }
    requires even { length own.now ≡ length nodes.now.list }
    requires room { E.count out.old ≤ 2 ^ 60 + 2 ^ 35 }
    ensures ok { OnOk result (E.grew out.old out.new (low_moves (E.count out.old) nodes.now)) }
    ensures stopped { OnErr result (E.began out.old out.new (low_moves (E.count out.old) nodes.now)) }
    ensures cause { IsErrOf result EmitStop.Failed → Rose (E.faults out.old) (E.faults out.new) }
{
    let all = moves(alloc, nodes.list.as_slice(), own, out)?;
    lower_marked(alloc, nodes, all.as_slice(), out)
}

/// Every value is an index, and no two are the same.
#[tactic(auto, using(lo_base::proofs::Solving::made_laws))]
fn lower_checks<E: Emit>(alloc: Global, nodes: &Nodes, out: &mut E) -> Result<(), EmitStop>
    requires start { IsNegatable nodes.now.start }
    requires some { 1 ≤ length nodes.now.list }
    requires few { length nodes.now.list ≤ 2 ^ 29 }
    ensures ok { OnOk result (E.grew out.old out.new (low_checks (E.count out.old) nodes.now)) }
    ensures count { OnOk result (E.count out.new ≡ E.count out.old + made (low_checks (E.count out.old) nodes.now)) }
    ensures stopped { OnErr result (E.began out.old out.new (low_checks (E.count out.old) nodes.now)) }
    ensures cause { IsErrOf result EmitStop.Failed → Rose (E.faults out.old) (E.faults out.new) }
{
    lower_inside(alloc, index_range(nodes), nodes.list.as_slice(), out)?;
    lower_different(alloc, nodes.list.as_slice(), out)?;
    Ok(())
}

/// What a list that is not empty is lowered to.
#[tactic(auto, using(crate::proofs::CodeLemmas::checks_made))]
fn lower_nodes<E: Emit>(alloc: Global, nodes: &Nodes, out: &mut E) -> Result<(), EmitStop>
    requires start { IsNegatable nodes.now.start }
    requires some { 1 ≤ length nodes.now.list }
    requires few { length nodes.now.list ≤ 2 ^ 29 }
    requires size { IsNegatableSize nodes.now.size }
    requires room { E.count out.old ≤ 2 ^ 60 }
    ensures ok { OnOk result (E.grew out.old out.new (low_nodes (E.count out.old) nodes.now)) }
    ensures stopped { OnErr result (E.began out.old out.new (low_nodes (E.count out.old) nodes.now)) }
    ensures cause { IsErrOf result EmitStop.Failed → Rose (E.faults out.old) (E.faults out.new) }
{
    let all = indices(alloc, nodes)?;
    lower_checks(alloc, nodes, out)?;
    lower_moves(alloc, nodes, all.as_slice(), out)
}

/// What a list is lowered to; no circuit is empty.
fn lower_places<E: Emit>(
    alloc: Global,
    nodes: &Nodes,
    places: &[Term],
    out: &mut E,
) -> Result<(), EmitStop>
    requires places { places.now ≡ nodes.now.list }
    requires start { IsNegatable nodes.now.start }
    requires few { length nodes.now.list ≤ 2 ^ 29 }
    requires size { IsNegatableSize nodes.now.size }
    requires room { E.count out.old ≤ 2 ^ 60 }
    ensures ok { OnOk result (E.grew out.old out.new (low_places (E.count out.old) nodes.now places.now)) }
    ensures stopped { OnErr result (E.began out.old out.new (low_places (E.count out.old) nodes.now places.now)) }
    ensures cause { IsErrOf result EmitStop.Failed → Rose (E.faults out.old) (E.faults out.new) }
{
    match places {
        [] => {
            out.post(clause(alloc, &[], &[])?)?;
            Ok(())
        }
        _ => lower_nodes(alloc, nodes, out),
    }
}

/// Appends what a circuit is lowered to: the first index of the list is `start`, and `size` is how many nodes the circuit
/// has, where that is asked. There are at most 2^29 members, and at most 2^60 variables before; integers can be negated
/// within 2^126. On an `Err` it began that.
pub fn lower_circuit<E: Emit>(
    alloc: Global,
    list: &[u32],
    start: i128,
    size: Option<xs_model::Term>,
    out: &mut E,
) -> Result<(), EmitStop>
    requires few { length list.now ≤ 2 ^ 29 }
    requires start { IsNegatable start }
    requires size { IsNegatableSize size }
    requires room { E.count out.old ≤ 2 ^ 60 }
    ensures ok { OnOk result (E.grew out.old out.new (low_circuit (E.count out.old) list.now start size)) }
    ensures count { OnOk result (E.count out.new ≡ E.count out.old + made (low_circuit (E.count out.old) list.now start size)) }
    ensures stopped { OnErr result (E.began out.old out.new (low_circuit (E.count out.old) list.now start size)) }
    ensures cause { IsErrOf result EmitStop.Failed → Rose (E.faults out.old) (E.faults out.new) }
{
    let list = variables_of(alloc, list)?;
    let nodes = Nodes { start, list, size };
    lower_places(alloc, &nodes, nodes.list.as_slice(), out)?;
    Ok(())
}
