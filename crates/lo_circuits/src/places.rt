//! The places of a circuit: their indices, the checks of their values, and which of them are moved.

ghost use Rattle.std.specs.Prelude.{◌≡◌, ◌+◌, ◌≤◌, ◌<◌, ◌^◌, ◌∷◌, ◌++◌, [], length, map, pos, ◌+ℤ◌, IfOk, OnOk, OnErr, IsErrOf};
ghost use Rattle.xf_text.specs.Outside.{Rose};
ghost use Rattle.lo_base.specs.Item.{made};
ghost use Rattle.lo_emit.specs.declared.term.Term.TheVariants.{Int};
ghost use Rattle.lo_emit.specs.Emitted.{integer_of_truth};
ghost use Rattle.lo_emit.specs.Loops.{for_all, each, paired};
ghost use Rattle.lo_emit.specs.Sums.{IsNegatable};
ghost use Rattle.lo_circuits.specs.Circuit.{chained, index_range, indices, low_inside, is_moved_one, or_next, seen, bits};

use crate::nodes::Nodes;
use fz_model::{Arg, Builtin, call_of_two};
use lo_base::{Emit, EmitStop};
use lo_emit::{Term, arg_of, integer_of_truth, truth_of_list, truth_of_two};
use std::alloc::Global;
use xf_num::{Ints, NoMemory, Row, Span};

/// The least and the greatest index.
pub fn index_range(nodes: &Nodes) -> Span
    requires start { IsNegatable nodes.now.start }
    requires some { 1 ≤ length nodes.now.list }
    requires few { length nodes.now.list ≤ 2 ^ 29 }
    ensures { result ≡ index_range nodes.now }
{
    let last = nodes.start + nodes.list.len() as i128 - 1;
    Span::new(nodes.start, last).unwrap()
}

/// The index of a place.
fn index_of(nodes: &Nodes, place: usize) -> Term
    requires start { IsNegatable nodes.now.start }
    requires few { length nodes.now.list ≤ 2 ^ 29 }
    requires place { place < length nodes.now.list }
    ensures { result ≡ Int (nodes.now.start +ℤ pos place) }
{
    Term::Int(nodes.start + place as i128)
}

/// The indices in order.
pub fn indices(alloc: Global, nodes: &Nodes) -> Result<Row<Term>, NoMemory>
    requires start { IsNegatable nodes.now.start }
    requires few { length nodes.now.list ≤ 2 ^ 29 }
    ensures value { IfOk result (λ all. all ≡ indices nodes.now) }
    ensures even { IfOk result (λ all. length all ≡ length nodes.now.list) }
{
    let mut all = Row::new(alloc);
    for place in 0..nodes.list.len() {
        all.push(index_of(nodes, place))?;
    }
    Ok(all)
}

/// Each value is an index.
pub fn lower_inside<E: Emit>(
    alloc: Global,
    range: Span,
    places: &[Term],
    out: &mut E,
) -> Result<(), EmitStop>
    ensures ok { OnOk result (E.grew out.old out.new (for_all (low_inside range) (E.count out.old) places.now)) }
    ensures count { OnOk result (E.count out.new ≡ E.count out.old + made (for_all (low_inside range) (E.count out.old) places.now)) }
    ensures few { OnOk result (E.count out.new ≡ E.count out.old) }
    ensures stopped { OnErr result (E.began out.old out.new (for_all (low_inside range) (E.count out.old) places.now)) }
    ensures cause { IsErrOf result EmitStop.Failed → Rose (E.faults out.old) (E.faults out.new) }
{
    for place in places {
        out.post(call_of_two(alloc, Builtin::SetIn, arg_of(*place), Arg::Range(range))?)?;
    }
    Ok(())
}

/// For each place whether it is moved: its value is not its own index.
pub fn moves<E: Emit>(
    alloc: Global,
    places: &[Term],
    indices: &[Term],
    out: &mut E,
) -> Result<Row<Term>, EmitStop>
    requires room { E.count out.old + length places.now ≤ 2 ^ 61 }
    requires even { length indices.now ≡ length places.now }
    ensures value { IfOk result (λ all. all ≡ (each is_moved_one (E.count out.old) (paired places.now indices.now)).terms) }
    ensures even { IfOk result (λ all. length all ≡ length places.now) }
    ensures ok { OnOk result (E.grew out.old out.new (each is_moved_one (E.count out.old) (paired places.now indices.now)).items) }
    ensures count { OnOk result (E.count out.new ≡ E.count out.old + made (each is_moved_one (E.count out.old) (paired places.now indices.now)).items) }
    ensures few { OnOk result (E.count out.new ≤ E.count out.old + length places.now) }
    ensures stopped { OnErr result (E.began out.old out.new (each is_moved_one (E.count out.old) (paired places.now indices.now)).items) }
    ensures cause { IsErrOf result EmitStop.Failed → Rose (E.faults out.old) (E.faults out.new) }
{
    let mut all = Row::new(alloc);
    for i in 0..places.len() {
        let moved = truth_of_two(alloc, Builtin::IntNeReif, places[i], indices[i], out)?;
        all.push(moved)?;
    }
    Ok(all)
}

/// For each place whether it or one before it is moved, where there are a first place and others.
fn seen_from<E: Emit>(
    alloc: Global,
    first: Term,
    others: &[Term],
    out: &mut E,
) -> Result<Row<Term>, EmitStop>
    requires room { E.count out.old + length others.now ≤ 2 ^ 61 }
    ensures value { IfOk result (λ all. all ≡ first ∷ (chained or_next (E.count out.old) first others.now).terms) }
    ensures even { IfOk result (λ all. length all ≡ length others.now + 1) }
    ensures ok { OnOk result (E.grew out.old out.new (chained or_next (E.count out.old) first others.now).items) }
    ensures count { OnOk result (E.count out.new ≡ E.count out.old + made (chained or_next (E.count out.old) first others.now).items) }
    ensures few { OnOk result (E.count out.new ≤ E.count out.old + length others.now) }
    ensures stopped { OnErr result (E.began out.old out.new (chained or_next (E.count out.old) first others.now).items) }
    ensures cause { IsErrOf result EmitStop.Failed → Rose (E.faults out.old) (E.faults out.new) }
{
    let mut all = Row::new(alloc);
    all.push(first)?;
    let mut last = first;
    for other in others {
        last = truth_of_list(alloc, Builtin::ArrayBoolOr, &[last, *other], out)?;
        all.push(last)?;
    }
    Ok(all)
}

/// For each place whether it or one before it is moved.
pub fn seen<E: Emit>(alloc: Global, moves: &[Term], out: &mut E) -> Result<Row<Term>, EmitStop>
    requires room { E.count out.old + length moves.now ≤ 2 ^ 61 }
    ensures value { IfOk result (λ all. all ≡ (seen (E.count out.old) moves.now).terms) }
    ensures even { IfOk result (λ all. length all ≡ length moves.now) }
    ensures ok { OnOk result (E.grew out.old out.new (seen (E.count out.old) moves.now).items) }
    ensures count { OnOk result (E.count out.new ≡ E.count out.old + made (seen (E.count out.old) moves.now).items) }
    ensures few { OnOk result (E.count out.new ≤ E.count out.old + length moves.now) }
    ensures stopped { OnErr result (E.began out.old out.new (seen (E.count out.old) moves.now).items) }
    ensures cause { IsErrOf result EmitStop.Failed → Rose (E.faults out.old) (E.faults out.new) }
{
    match moves {
        [] => Ok(Row::new(alloc)),
        [first, others @ ..] => seen_from(alloc, *first, others, out),
    }
}

/// The integers that truth values are.
pub fn bits<E: Emit>(alloc: Global, truths: &[Term], out: &mut E) -> Result<Row<Term>, EmitStop>
    requires room { E.count out.old + length truths.now ≤ 2 ^ 61 }
    ensures value { IfOk result (λ all. all ≡ (bits (E.count out.old) truths.now).terms) }
    ensures even { IfOk result (λ all. length all ≡ length truths.now) }
    ensures ok { OnOk result (E.grew out.old out.new (bits (E.count out.old) truths.now).items) }
    ensures count { OnOk result (E.count out.new ≡ E.count out.old + made (bits (E.count out.old) truths.now).items) }
    ensures few { OnOk result (E.count out.new ≤ E.count out.old + length truths.now) }
    ensures stopped { OnErr result (E.began out.old out.new (bits (E.count out.old) truths.now).items) }
    ensures cause { IsErrOf result EmitStop.Failed → Rose (E.faults out.old) (E.faults out.new) }
{
    let mut all = Row::new(alloc);
    for truth in truths {
        let bit = integer_of_truth(alloc, *truth, out)?;
        all.push(bit)?;
    }
    Ok(all)
}

/// As many ones as terms.
pub fn ones(alloc: Global, terms: &[Term]) -> Result<Ints, NoMemory>
    ensures { IfOk result (λ all. all ≡ map (λ t. pos 1) terms.now) }
{
    let mut all = Row::new(alloc);
    for _ in terms {
        all.push(1)?;
    }
    Ok(all)
}
