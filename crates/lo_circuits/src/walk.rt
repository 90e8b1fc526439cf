//! The walk of a circuit: its first index, and the value at each index that it comes to.

ghost use Rattle.std.specs.Prelude.{◌≡◌, ◌+◌, ◌*◌, ◌≤◌, ◌<◌, ◌^◌, ◌∷◌, ◌++◌, [], length, drop, map, pos, negsuc, IfOk, OnOk, OnErr, IsErrOf};
ghost use Rattle.xf_text.specs.Outside.{Rose};
ghost use Rattle.lo_base.specs.Item.{made};
ghost use Rattle.lo_emit.specs.Emitted.{integer_of_sum, integer_of_place, standing, after};
ghost use Rattle.lo_emit.specs.Sums.{IsNegatable};
ghost use Rattle.lo_circuits.specs.Circuit.{chained, index_range, first_index, place_of, value_at, walk};

use crate::nodes::Nodes;
use crate::places::{index_range, ones};
use lo_base::{Emit, EmitStop};
use lo_emit::{Term, integer_of_place, integer_of_sum};
use std::alloc::Global;
use xf_num::{Row, Span};

/// The first index of a moved place, of the bits that say from which place on some place was moved.
pub fn first_index<E: Emit>(
    alloc: Global,
    nodes: &Nodes,
    bits: &[Term],
    out: &mut E,
) -> Result<Term, EmitStop>
    requires start { IsNegatable nodes.now.start }
    requires some { 1 ≤ length nodes.now.list }
    requires few { length nodes.now.list ≤ 2 ^ 29 }
    requires room { E.count out.old < 2 ^ 61 }
    ensures value { IfOk result (λ t. t ≡ (first_index (E.count out.old) nodes.now bits.now).term) }
    ensures ok { OnOk result (E.grew out.old out.new (first_index (E.count out.old) nodes.now bits.now).items) }
    ensures count { OnOk result (E.count out.new ≡ E.count out.old + made (first_index (E.count out.old) nodes.now bits.now).items) }
    ensures few { OnOk result (E.count out.new ≡ E.count out.old + 1) }
    ensures stopped { OnErr result (E.began out.old out.new (first_index (E.count out.old) nodes.now bits.now).items) }
    ensures cause { IsErrOf result EmitStop.Failed → Rose (E.faults out.old) (E.faults out.new) }
{
    let mut coefficients = ones(alloc, bits)?;
    coefficients.push(1)?;
    let end = nodes.start + nodes.list.len() as i128;
    integer_of_sum(
        alloc,
        index_range(nodes),
        coefficients.as_slice(),
        bits,
        end,
        out,
    )
}

/// The place of an index, counted from 1.
fn place_of<E: Emit>(
    alloc: Global,
    nodes: &Nodes,
    index: Term,
    out: &mut E,
) -> Result<Term, EmitStop>
    requires start { IsNegatable nodes.now.start }
    requires some { 1 ≤ length nodes.now.list }
    requires few { length nodes.now.list ≤ 2 ^ 29 }
    requires room { E.count out.old < 2 ^ 61 }
    ensures value { IfOk result (λ t. t ≡ (place_of (E.count out.old) nodes.now index).term) }
    ensures ok { OnOk result (E.grew out.old out.new (place_of (E.count out.old) nodes.now index).items) }
    ensures count { OnOk result (E.count out.new ≡ E.count out.old + made (place_of (E.count out.old) nodes.now index).items) }
    ensures few { OnOk result (E.count out.new ≤ E.count out.old + 1) }
    ensures stopped { OnErr result (E.began out.old out.new (place_of (E.count out.old) nodes.now index).items) }
    ensures cause { IsErrOf result EmitStop.Failed → Rose (E.faults out.old) (E.faults out.new) }
{
    if nodes.start == 1 {
        return Ok(index);
    }
    let places = Span::new(1, nodes.list.len() as i128).unwrap();
    let before = nodes.start - 1;
    integer_of_sum(alloc, places, &[1, -1], &[index], before, out)
}

/// The value at an index.
#[tactic(auto, using(lo_base::proofs::Solving::made_laws))]
fn value_at<E: Emit>(
    alloc: Global,
    nodes: &Nodes,
    index: Term,
    out: &mut E,
) -> Result<Term, EmitStop>
    requires start { IsNegatable nodes.now.start }
    requires some { 1 ≤ length nodes.now.list }
    requires few { length nodes.now.list ≤ 2 ^ 29 }
    requires room { E.count out.old + 2 ≤ 2 ^ 61 }
    ensures value { IfOk result (λ t. t ≡ (value_at nodes.now (E.count out.old) index).term) }
    ensures ok { OnOk result (E.grew out.old out.new (value_at nodes.now (E.count out.old) index).items) }
    ensures count { OnOk result (E.count out.new ≡ E.count out.old + made (value_at nodes.now (E.count out.old) index).items) }
    ensures few { OnOk result (E.count out.new ≤ E.count out.old + 2) }
    ensures stopped { OnErr result (E.began out.old out.new (value_at nodes.now (E.count out.old) index).items) }
    ensures cause { IsErrOf result EmitStop.Failed → Rose (E.faults out.old) (E.faults out.new) }
{
    let place = place_of(alloc, nodes, index, out)?;
    let range = index_range(nodes);
    integer_of_place(alloc, range, place, nodes.list.as_slice(), out)
}

/// Puts the value at an index to the others.
fn push_value_at<E: Emit>(
    alloc: Global,
    nodes: &Nodes,
    index: Term,
    all: &mut Row<Term>,
    out: &mut E,
) -> Result<Term, EmitStop>
    requires start { IsNegatable nodes.now.start }
    requires some { 1 ≤ length nodes.now.list }
    requires few { length nodes.now.list ≤ 2 ^ 29 }
    requires room { E.count out.old + 2 ≤ 2 ^ 61 }
    ensures value { IfOk result (λ t. t ≡ (value_at nodes.now (E.count out.old) index).term) }
    ensures pushed { OnOk result (all.new ≡ all.old ++ (value_at nodes.now (E.count out.old) index).term ∷ []) }
    ensures ok { OnOk result (E.grew out.old out.new (value_at nodes.now (E.count out.old) index).items) }
    ensures count { OnOk result (E.count out.new ≡ E.count out.old + made (value_at nodes.now (E.count out.old) index).items) }
    ensures few { OnOk result (E.count out.new ≤ E.count out.old + 2) }
    ensures stopped { OnErr result (E.began out.old out.new (value_at nodes.now (E.count out.old) index).items) }
    ensures cause { IsErrOf result EmitStop.Failed → Rose (E.faults out.old) (E.faults out.new) }
{
    let value = value_at(alloc, nodes, index, out)?;
    all.push(value)?;
    Ok(value)
}

/// The indices that the walk meets from the first on, one for each of the places behind.
fn walk_behind<E: Emit>(
    alloc: Global,
    nodes: &Nodes,
    first: Term,
    behind: &[Term],
    out: &mut E,
) -> Result<Row<Term>, EmitStop>
    requires start { IsNegatable nodes.now.start }
    requires some { 1 ≤ length nodes.now.list }
    requires few { length nodes.now.list ≤ 2 ^ 29 }
    requires room { E.count out.old + 2 * length behind.now ≤ 2 ^ 61 }
    ensures value { IfOk result (λ all. all ≡ first ∷ (chained (λ k i t. value_at nodes.now k i) (E.count out.old) first behind.now).terms) }
    ensures even { IfOk result (λ all. length all ≡ length behind.now + 1) }
    ensures ok { OnOk result (E.grew out.old out.new (chained (λ k i t. value_at nodes.now k i) (E.count out.old) first behind.now).items) }
    ensures count { OnOk result (E.count out.new ≡ E.count out.old + made (chained (λ k i t. value_at nodes.now k i) (E.count out.old) first behind.now).items) }
    ensures few { OnOk result (E.count out.new ≤ E.count out.old + 2 * length behind.now) }
    ensures stopped { OnErr result (E.began out.old out.new (chained (λ k i t. value_at nodes.now k i) (E.count out.old) first behind.now).items) }
    ensures cause { IsErrOf result EmitStop.Failed → Rose (E.faults out.old) (E.faults out.new) }
{
    let mut all = Row::new(alloc);
    all.push(first)?;
    let mut last = first;
    for _ in behind {
        last = push_value_at(alloc, nodes, last, &mut all, out)?;
    }
    Ok(all)
}

/// The indices that the walk meets from the first on, as many as there are places.
pub fn walk<E: Emit>(
    alloc: Global,
    nodes: &Nodes,
    first: Term,
    out: &mut E,
) -> Result<Row<Term>, EmitStop>
    requires start { IsNegatable nodes.now.start }
    requires some { 1 ≤ length nodes.now.list }
    requires few { length nodes.now.list ≤ 2 ^ 29 }
    requires room { E.count out.old + 2 * length nodes.now.list ≤ 2 ^ 61 }
    ensures value { IfOk result (λ all. all ≡ (walk (E.count out.old) nodes.now first).terms) }
    ensures even { IfOk result (λ all. length all ≡ length nodes.now.list) }
    ensures ok { OnOk result (E.grew out.old out.new (walk (E.count out.old) nodes.now first).items) }
    ensures count { OnOk result (E.count out.new ≡ E.count out.old + made (walk (E.count out.old) nodes.now first).items) }
    ensures few { OnOk result (E.count out.new ≤ E.count out.old + 2 * length nodes.now.list) }
    ensures stopped { OnErr result (E.began out.old out.new (walk (E.count out.old) nodes.now first).items) }
    ensures cause { IsErrOf result EmitStop.Failed → Rose (E.faults out.old) (E.faults out.new) }
{
    walk_behind(alloc, nodes, first, &nodes.list.as_slice()[1..], out)
}
