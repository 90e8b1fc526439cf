//! The calls that keep boxes apart.

ghost use Rattle.std.specs.Prelude.{◌≡◌, ◌+◌, ◌*◌, ◌≤◌, ◌<◌, ◌^◌, ◌++◌, ◌∷◌, [], length, OnOk, OnErr, IsErrOf, IfOk};
ghost use Rattle.std.specs.List.{All};
ghost use Rattle.xf_text.specs.Outside.{Rose};
ghost use Rattle.lo_base.specs.Item.{made};
ghost use Rattle.lo_emit.specs.Loops.{each, for_all, for_pairs};
ghost use Rattle.lo_boxes.specs.Boxes.{sides, gap, ends_before, separations, apart, variables_in, is_zero, zero_truths, is_kept, place_step, placed, low_no_overlap};
ghost use Rattle.xs_laws.specs.Boxes.{has_zero};
ghost use Rattle.xs_model.specs.declared.instance.Constraint.TheVariants.{NoOverlap};
ghost use Rattle.xs_model.specs.Accepted.{items_of};
ghost use Rattle.xs_model.specs.Fitting.{AreBoxes};
ghost use Rattle.xs_model.specs.Lists.{width};

use crate::placed::{Placed, Side};
use fz_model::Builtin;
use lo_base::{Emit, EmitStop};
use lo_conditions::term_of;
use lo_emit::{Term, clause, truth_of_sum, truth_of_two};
use std::alloc::Global;
use xf_num::{NoMemory, Row, Vars};
use xs_model::Terms;

/// The sides of a box.
fn sides_of(
    alloc: Global,
    origin: &[u32],
    lengths: &[xs_model::Term],
) -> Result<Row<Side>, NoMemory>
    requires even { length lengths.now ≡ length origin.now }
    ensures value { IfOk result (λ all. all ≡ sides origin.now lengths.now) }
    ensures long { IfOk result (λ all. length all ≡ length origin.now) }
{
    let mut all = Row::new(alloc);
    for i in 0..origin.len() {
        all.push(Side {
            origin: Term::Var(u64::from(origin[i])),
            extent: term_of(lengths[i]),
        })?;
    }
    Ok(all)
}

/// Whether some length is the integer 0.
fn has_zero(lengths: &[xs_model::Term]) -> bool
    ensures { result ≡ has_zero lengths.now }
{
    for length in lengths {
        if matches!(length, xs_model::Term::Int(0)) {
            return true;
        }
    }
    false
}

/// Whether a box with these lengths is not dropped.
fn is_kept(zero_ignored: bool, lengths: &[xs_model::Term]) -> bool
    ensures { result ≡ is_kept zero_ignored lengths.now }
{
    !(zero_ignored && has_zero(lengths))
}

/// Whether each length that is a variable is 0.
fn zeros_in<E: Emit>(
    alloc: Global,
    lengths: &[xs_model::Term],
    out: &mut E,
) -> Result<Row<Term>, EmitStop>
    requires room { E.count out.old + length lengths.now ≤ 2 ^ 61 }
    ensures value { IfOk result (λ all. all ≡ (each is_zero (E.count out.old) (variables_in lengths.now)).terms) }
    ensures ok { OnOk result (E.grew out.old out.new (each is_zero (E.count out.old) (variables_in lengths.now)).items) }
    ensures few { OnOk result (E.count out.new ≤ E.count out.old + length lengths.now) }
    ensures stopped { OnErr result (E.began out.old out.new (each is_zero (E.count out.old) (variables_in lengths.now)).items) }
    ensures cause { IsErrOf result EmitStop.Failed → Rose (E.faults out.old) (E.faults out.new) }
{
    let mut all = Row::new(alloc);
    for length in lengths {
        if let xs_model::Term::Var(number) = length {
            let variable = Term::Var(u64::from(*number));
            let zero = truth_of_two(alloc, Builtin::IntEqReif, variable, Term::Int(0), out)?;
            all.push(zero)?;
        }
    }
    Ok(all)
}

/// The same, where zeros are ignored.
fn zeros_of<E: Emit>(
    alloc: Global,
    zero_ignored: bool,
    lengths: &[xs_model::Term],
    out: &mut E,
) -> Result<Row<Term>, EmitStop>
    requires room { E.count out.old + length lengths.now ≤ 2 ^ 61 }
    ensures value { IfOk result (λ all. all ≡ (zero_truths zero_ignored (E.count out.old) lengths.now).terms) }
    ensures ok { OnOk result (E.grew out.old out.new (zero_truths zero_ignored (E.count out.old) lengths.now).items) }
    ensures few { OnOk result (E.count out.new ≤ E.count out.old + length lengths.now) }
    ensures stopped { OnErr result (E.began out.old out.new (zero_truths zero_ignored (E.count out.old) lengths.now).items) }
    ensures cause { IsErrOf result EmitStop.Failed → Rose (E.faults out.old) (E.faults out.new) }
{
    if zero_ignored {
        zeros_in(alloc, lengths, out)
    } else {
        Ok(Row::new(alloc))
    }
}

/// Puts a box to those that there are, unless it is dropped, with the truth values that tell which of its lengths are 0.
fn place<E: Emit>(
    alloc: Global,
    origin: &[u32],
    lengths: &[xs_model::Term],
    zero_ignored: bool,
    all: &mut Row<Placed>,
    out: &mut E,
) -> Result<(), EmitStop>
    requires even { length lengths.now ≡ length origin.now }
    requires room { E.count out.old + length lengths.now ≤ 2 ^ 61 }
    ensures value { OnOk result (all.new ≡ (place_step zero_ignored (E.count out.old) all.old (record { origin = origin.now; lengths = lengths.now })).state) }
    ensures wide { OnOk result (All (λ p. length p.sides ≡ length origin.now) all.old → All (λ p. length p.sides ≡ length origin.now) all.new) }
    ensures more { OnOk result (length all.new ≤ length all.old + 1) }
    ensures ok { OnOk result (E.grew out.old out.new (place_step zero_ignored (E.count out.old) all.old (record { origin = origin.now; lengths = lengths.now })).items) }
    ensures few { OnOk result (E.count out.new ≤ E.count out.old + length lengths.now) }
    ensures stopped { OnErr result (E.began out.old out.new (place_step zero_ignored (E.count out.old) all.old (record { origin = origin.now; lengths = lengths.now })).items) }
    ensures cause { IsErrOf result EmitStop.Failed → Rose (E.faults out.old) (E.faults out.new) }
{
    if !is_kept(zero_ignored, lengths) {
        return Ok(());
    }
    let zeros = zeros_of(alloc, zero_ignored, lengths, out)?;
    let sides = sides_of(alloc, origin, lengths)?;
    all.push(Placed { sides, zeros })?;
    Ok(())
}

/// The boxes that are not dropped.
fn place_all<E: Emit>(
    alloc: Global,
    origins: &[Vars],
    lengths: &[Terms],
    zero_ignored: bool,
    out: &mut E,
) -> Result<Row<Placed>, EmitStop>
    requires as_many { length lengths.now ≡ length origins.now }
    requires even { All (λ row. length row ≡ width origins.now) origins.now }
    requires as_wide { All (λ row. length row ≡ width origins.now) lengths.now }
    requires room { E.count out.old + length origins.now * width origins.now ≤ 2 ^ 61 }
    ensures value { IfOk result (λ all. all ≡ (placed zero_ignored (E.count out.old) origins.now lengths.now).state) }
    ensures wide { IfOk result (λ all. All (λ p. length p.sides ≡ width origins.now) all) }
    ensures long { IfOk result (λ all. length all ≤ length origins.now) }
    ensures ok { OnOk result (E.grew out.old out.new (placed zero_ignored (E.count out.old) origins.now lengths.now).items) }
    ensures few { OnOk result (E.count out.new ≤ E.count out.old + length origins.now * width origins.now) }
    ensures stopped { OnErr result (E.began out.old out.new (placed zero_ignored (E.count out.old) origins.now lengths.now).items) }
    ensures cause { IsErrOf result EmitStop.Failed → Rose (E.faults out.old) (E.faults out.new) }
{
    let mut all = Row::new(alloc);
    for i in 0..origins.len() {
        let origin = origins[i].as_slice();
        place(
            alloc,
            origin,
            lengths[i].as_slice(),
            zero_ignored,
            &mut all,
            out,
        )?;
    }
    Ok(all)
}

/// Whether a side ends at the origin or before.
fn ends_before<E: Emit>(
    alloc: Global,
    side: Side,
    origin: Term,
    out: &mut E,
) -> Result<Term, EmitStop>
    requires { E.count out.old < 2 ^ 61 }
    ensures value { IfOk result (λ t. t ≡ (ends_before (E.count out.old) (side, origin)).term) }
    ensures ok { OnOk result (E.grew out.old out.new (ends_before (E.count out.old) (side, origin)).items) }
    ensures count { OnOk result (E.count out.new ≡ E.count out.old + 1) }
    ensures stopped { OnErr result (E.began out.old out.new (ends_before (E.count out.old) (side, origin)).items) }
    ensures cause { IsErrOf result EmitStop.Failed → Rose (E.faults out.old) (E.faults out.new) }
{
    truth_of_sum(
        alloc,
        &[1, 1, -1],
        &[side.origin, side.extent, origin],
        0,
        out,
    )
}

/// Whether each of two sides ends where the other begins or before, put to what there is.
fn separate_sides<E: Emit>(
    alloc: Global,
    here: Side,
    there: Side,
    all: &mut Row<Term>,
    out: &mut E,
) -> Result<(), EmitStop>
    requires { E.count out.old + 2 ≤ 2 ^ 61 }
    ensures value { OnOk result (all.new ≡ all.old ++ (each ends_before (E.count out.old) (gap here there)).terms) }
    ensures ok { OnOk result (E.grew out.old out.new (each ends_before (E.count out.old) (gap here there)).items) }
    ensures count { OnOk result (E.count out.new ≡ E.count out.old + 2) }
    ensures stopped { OnErr result (E.began out.old out.new (each ends_before (E.count out.old) (gap here there)).items) }
    ensures cause { IsErrOf result EmitStop.Failed → Rose (E.faults out.old) (E.faults out.new) }
{
    let first = ends_before(alloc, here, there.origin, out)?;
    let second = ends_before(alloc, there, here.origin, out)?;
    all.extend(&[first, second])?;
    Ok(())
}

/// Per dimension whether each of two boxes ends where the other begins or before.
fn separate<E: Emit>(
    alloc: Global,
    dimensions: usize,
    first: &[Side],
    second: &[Side],
    out: &mut E,
) -> Result<Row<Term>, EmitStop>
    requires first { length first.now ≡ dimensions }
    requires second { length second.now ≡ dimensions }
    requires room { E.count out.old + 2 * dimensions ≤ 2 ^ 61 }
    ensures value { IfOk result (λ all. all ≡ (separations (E.count out.old) first.now second.now).terms) }
    ensures ok { OnOk result (E.grew out.old out.new (separations (E.count out.old) first.now second.now).items) }
    ensures count { OnOk result (E.count out.new ≡ E.count out.old + 2 * dimensions) }
    ensures stopped { OnErr result (E.began out.old out.new (separations (E.count out.old) first.now second.now).items) }
    ensures cause { IsErrOf result EmitStop.Failed → Rose (E.faults out.old) (E.faults out.new) }
{
    let mut all = Row::new(alloc);
    for i in 0..dimensions {
        separate_sides(alloc, first[i], second[i], &mut all, out)?;
    }
    Ok(all)
}

/// Two boxes are apart, or a length of one is 0.
#[tactic(auto, using(lo_base::proofs::Solving::made_laws))]
fn keep_apart<E: Emit>(
    alloc: Global,
    dimensions: usize,
    first: &Placed,
    second: &Placed,
    out: &mut E,
) -> Result<(), EmitStop>
    requires first { length first.now.sides ≡ dimensions }
    requires second { length second.now.sides ≡ dimensions }
    requires room { E.count out.old + 2 * dimensions ≤ 2 ^ 61 }
    ensures ok { OnOk result (E.grew out.old out.new (apart (E.count out.old) first.now second.now)) }
    ensures count { OnOk result (E.count out.new ≡ E.count out.old + 2 * dimensions) }
    ensures stopped { OnErr result (E.began out.old out.new (apart (E.count out.old) first.now second.now)) }
    ensures cause { IsErrOf result EmitStop.Failed → Rose (E.faults out.old) (E.faults out.new) }
{
    let mut reasons = separate(
        alloc,
        dimensions,
        first.sides.as_slice(),
        second.sides.as_slice(),
        out,
    )?;
    reasons.extend(first.zeros.as_slice())?;
    reasons.extend(second.zeros.as_slice())?;
    out.post(clause(alloc, reasons.as_slice(), &[])?)?;
    Ok(())
}

/// A box and each of the others are apart, or a length is 0.
fn keep_apart_from<E: Emit>(
    alloc: Global,
    dimensions: usize,
    first: &Placed,
    others: &[Placed],
    out: &mut E,
) -> Result<(), EmitStop>
    requires first { length first.now.sides ≡ dimensions }
    requires others { All (λ p. length p.sides ≡ dimensions) others.now }
    requires room { E.count out.old + length others.now * (2 * dimensions) ≤ 2 ^ 61 }
    ensures ok { OnOk result (E.grew out.old out.new (for_all (λ n q. apart n first.now q) (E.count out.old) others.now)) }
    ensures count { OnOk result (E.count out.new ≡ E.count out.old + made (for_all (λ n q. apart n first.now q) (E.count out.old) others.now)) }
    ensures few { OnOk result (E.count out.new ≤ E.count out.old + length others.now * (2 * dimensions)) }
    ensures stopped { OnErr result (E.began out.old out.new (for_all (λ n q. apart n first.now q) (E.count out.old) others.now)) }
    ensures cause { IsErrOf result EmitStop.Failed → Rose (E.faults out.old) (E.faults out.new) }
{
    for other in others {
        keep_apart(alloc, dimensions, first, other, out)?;
    }
    Ok(())
}

/// Each two boxes are apart, or a length of one is 0.
fn keep_all_apart<E: Emit>(
    alloc: Global,
    dimensions: usize,
    boxes: &[Placed],
    out: &mut E,
) -> Result<(), EmitStop>
    requires wide { All (λ p. length p.sides ≡ dimensions) boxes.now }
    requires room { E.count out.old + length boxes.now * (length boxes.now * (2 * dimensions)) ≤ 2 ^ 61 }
    ensures ok { OnOk result (E.grew out.old out.new (for_pairs apart (E.count out.old) boxes.now)) }
    ensures stopped { OnErr result (E.began out.old out.new (for_pairs apart (E.count out.old) boxes.now)) }
    ensures cause { IsErrOf result EmitStop.Failed → Rose (E.faults out.old) (E.faults out.new) }
{
    for i in 0..boxes.len() {
        keep_apart_from(alloc, dimensions, &boxes[i], &boxes[i + 1..], out)?;
    }
    Ok(())
}

/// How many dimensions boxes with these origins have.
fn dimensions_of(origins: &[Vars]) -> usize
    ensures { result ≡ width origins.now }
{
    match origins {
        [] => 0,
        [first, ..] => first.len(),
    }
}

/// Appends what says that no two boxes overlap, each of which has an origin and a length in each dimension. Where zeros
/// are ignored, a box with a length of 0 is passed over. The boxes have fewer than 2^30 items, and there are at most 2^60
/// variables before. On an `Err` it began that.
#[tactic(auto, using(lo_base::proofs::Solving::made_laws))]
pub fn lower_no_overlap<E: Emit>(
    alloc: Global,
    origins: &[Vars],
    lengths: &[Terms],
    zero_ignored: bool,
    out: &mut E,
) -> Result<(), EmitStop>
    requires fitting { AreBoxes origins.now lengths.now }
    requires few { items_of (NoOverlap origins.now lengths.now zero_ignored) < 2 ^ 30 }
    requires room { E.count out.old ≤ 2 ^ 60 }
    ensures ok { OnOk result (E.grew out.old out.new (low_no_overlap (E.count out.old) origins.now lengths.now zero_ignored)) }
    ensures count { OnOk result (E.count out.new ≡ E.count out.old + made (low_no_overlap (E.count out.old) origins.now lengths.now zero_ignored)) }
    ensures stopped { OnErr result (E.began out.old out.new (low_no_overlap (E.count out.old) origins.now lengths.now zero_ignored)) }
    ensures cause { IsErrOf result EmitStop.Failed → Rose (E.faults out.old) (E.faults out.new) }
{
    let boxes = place_all(alloc, origins, lengths, zero_ignored, out)?;
    keep_all_apart(alloc, dimensions_of(origins), boxes.as_slice(), out)?;
    Ok(())
}
