//! `extension` of tuples: the values of the variables agree with some tuple, or with none.

ghost use Rattle.std.specs.Prelude.{◌≡◌, ◌+◌, ◌*◌, ◌≤◌, ◌<◌, ◌^◌, ◌++◌, [], length, OnOk, OnErr, IsErrOf, IfOk};
ghost use Rattle.std.specs.List.{All};
ghost use Rattle.xf_text.specs.Outside.{Rose};
ghost use Rattle.lo_base.specs.Item.{made};
ghost use Rattle.lo_tables.specs.Table.{cell_of, cells, matched, refused, supports, conflicts, tabled, low_extension};

use fz_model::Builtin;
use lo_base::{Emit, EmitStop};
use lo_emit::{Cell, Term, clause, truth_of_list};
use lo_literals::{Literals, literals_of};
use std::alloc::Global;
use xf_num::{NoMemory, Row};
use xs_model::Tuple;

/// Puts the integer of an entry to the cells.
fn push_cell(
    place: u64,
    variable: u32,
    entry: Option<i128>,
    cells: &mut Row<Cell>,
) -> Result<(), NoMemory>
    ensures value { OnOk result (cells.new ≡ cells.old ++ cell_of place variable entry) }
    ensures few { OnOk result (length cells.new ≤ length cells.old + 1) }
{
    match entry {
        Some(value) => {
            let variable = u64::from(variable);
            cells.push(Cell {
                place,
                variable,
                value,
            })?;
            Ok(())
        }
        None => Ok(()),
    }
}

/// The integers of a tuple with their places, and the variables there.
fn cells_of(alloc: Global, list: &[u32], tuple: &[Option<i128>]) -> Result<Row<Cell>, NoMemory>
    requires { length tuple.now ≡ length list.now }
    ensures value { IfOk result (λ all. all ≡ cells 0 list.now tuple.now) }
    ensures few { IfOk result (λ all. length all ≤ length list.now) }
{
    let mut all = Row::new(alloc);
    for i in 0..list.len() {
        push_cell(i as u64, list[i], tuple[i], &mut all)?;
    }
    Ok(all)
}

/// Whether the variables of the cells have the values there.
#[tactic(auto, using(lo_base::proofs::Solving::made_laws))]
fn match_cells<E: Emit>(
    alloc: Global,
    cells: &[Cell],
    table: &mut Literals,
    out: &mut E,
) -> Result<Term, EmitStop>
    requires room { E.count out.old + length cells.now + 1 ≤ 2 ^ 61 }
    ensures value { IfOk result (λ t. t ≡ (matched (E.count out.old) table.old cells.now).term) }
    ensures table { OnOk result (table.new ≡ (matched (E.count out.old) table.old cells.now).table) }
    ensures ok { OnOk result (E.grew out.old out.new (matched (E.count out.old) table.old cells.now).items) }
    ensures count { OnOk result (E.count out.new ≡ E.count out.old + made (matched (E.count out.old) table.old cells.now).items) }
    ensures few { OnOk result (E.count out.new ≤ E.count out.old + length cells.now + 1) }
    ensures stopped { OnErr result (E.began out.old out.new (matched (E.count out.old) table.old cells.now).items) }
    ensures cause { IsErrOf result EmitStop.Failed → Rose (E.faults out.old) (E.faults out.new) }
{
    let literals = literals_of(alloc, cells, table, out)?;
    truth_of_list(alloc, Builtin::ArrayBoolAnd, literals.as_slice(), out)
}

/// Some variable of the cells has not the value there.
#[tactic(auto, using(lo_base::proofs::Solving::made_laws))]
fn refuse_cells<E: Emit>(
    alloc: Global,
    cells: &[Cell],
    table: &mut Literals,
    out: &mut E,
) -> Result<(), EmitStop>
    requires room { E.count out.old + length cells.now ≤ 2 ^ 61 }
    ensures table { OnOk result (table.new ≡ (refused (E.count out.old) table.old cells.now).state) }
    ensures ok { OnOk result (E.grew out.old out.new (refused (E.count out.old) table.old cells.now).items) }
    ensures count { OnOk result (E.count out.new ≡ E.count out.old + made (refused (E.count out.old) table.old cells.now).items) }
    ensures few { OnOk result (E.count out.new ≤ E.count out.old + length cells.now) }
    ensures stopped { OnErr result (E.began out.old out.new (refused (E.count out.old) table.old cells.now).items) }
    ensures cause { IsErrOf result EmitStop.Failed → Rose (E.faults out.old) (E.faults out.new) }
{
    let literals = literals_of(alloc, cells, table, out)?;
    out.post(clause(alloc, &[], literals.as_slice())?)?;
    Ok(())
}

/// Whether the variables agree with each tuple.
fn match_tuples<E: Emit>(
    alloc: Global,
    list: &[u32],
    tuples: &[Tuple],
    table: &mut Literals,
    out: &mut E,
) -> Result<Row<Term>, EmitStop>
    requires room { E.count out.old + length tuples.now * (length list.now + 1) ≤ 2 ^ 61 }
    requires long { All (λ tuple. length tuple ≡ length list.now) tuples.now }
    ensures value { IfOk result (λ all. all ≡ (supports (E.count out.old) table.old list.now tuples.now).state.terms) }
    ensures table { OnOk result (table.new ≡ (supports (E.count out.old) table.old list.now tuples.now).state.table) }
    ensures ok { OnOk result (E.grew out.old out.new (supports (E.count out.old) table.old list.now tuples.now).items) }
    ensures stopped { OnErr result (E.began out.old out.new (supports (E.count out.old) table.old list.now tuples.now).items) }
    ensures cause { IsErrOf result EmitStop.Failed → Rose (E.faults out.old) (E.faults out.new) }
{
    let mut all = Row::new(alloc);
    for tuple in tuples {
        let cells = cells_of(alloc, list, tuple.as_slice())?;
        let truth = match_cells(alloc, cells.as_slice(), table, out)?;
        all.push(truth)?;
    }
    Ok(all)
}

/// The variables agree with no tuple.
fn refuse_tuples<E: Emit>(
    alloc: Global,
    list: &[u32],
    tuples: &[Tuple],
    table: &mut Literals,
    out: &mut E,
) -> Result<(), EmitStop>
    requires room { E.count out.old + length tuples.now * length list.now ≤ 2 ^ 61 }
    requires long { All (λ tuple. length tuple ≡ length list.now) tuples.now }
    ensures table { OnOk result (table.new ≡ (conflicts (E.count out.old) table.old list.now tuples.now).state) }
    ensures ok { OnOk result (E.grew out.old out.new (conflicts (E.count out.old) table.old list.now tuples.now).items) }
    ensures stopped { OnErr result (E.began out.old out.new (conflicts (E.count out.old) table.old list.now tuples.now).items) }
    ensures cause { IsErrOf result EmitStop.Failed → Rose (E.faults out.old) (E.faults out.new) }
{
    for tuple in tuples {
        let cells = cells_of(alloc, list, tuple.as_slice())?;
        refuse_cells(alloc, cells.as_slice(), table, out)?;
    }
    Ok(())
}

/// The same as `lower_extension`, where the literals of the table are there.
fn lower_tuples<E: Emit>(
    alloc: Global,
    list: &[u32],
    tuples: &[Tuple],
    positive: bool,
    table: &mut Literals,
    out: &mut E,
) -> Result<(), EmitStop>
    requires few { length tuples.now * (length list.now + 1) ≤ 2 ^ 60 }
    requires long { All (λ tuple. length tuple ≡ length list.now) tuples.now }
    requires room { E.count out.old ≤ 2 ^ 60 }
    ensures table { OnOk result (table.new ≡ (tabled (E.count out.old) table.old list.now tuples.now positive).state) }
    ensures ok { OnOk result (E.grew out.old out.new (tabled (E.count out.old) table.old list.now tuples.now positive).items) }
    ensures stopped { OnErr result (E.began out.old out.new (tabled (E.count out.old) table.old list.now tuples.now positive).items) }
    ensures cause { IsErrOf result EmitStop.Failed → Rose (E.faults out.old) (E.faults out.new) }
{
    if !positive {
        return refuse_tuples(alloc, list, tuples, table, out);
    }
    let all = match_tuples(alloc, list, tuples, table, out)?;
    out.post(clause(alloc, all.as_slice(), &[])?)?;
    Ok(())
}

/// Appends what says that the values of the variables agree with some tuple or, where not positive, with none. On an
/// `Err` it began that.
pub fn lower_extension<E: Emit>(
    alloc: Global,
    list: &[u32],
    tuples: &[Tuple],
    positive: bool,
    out: &mut E,
) -> Result<(), EmitStop>
    requires few { length tuples.now * (length list.now + 1) ≤ 2 ^ 60 }
    requires long { All (λ tuple. length tuple ≡ length list.now) tuples.now }
    requires room { E.count out.old ≤ 2 ^ 60 }
    ensures ok { OnOk result (E.grew out.old out.new (low_extension (E.count out.old) list.now tuples.now positive)) }
    ensures count { OnOk result (E.count out.new ≡ E.count out.old + made (low_extension (E.count out.old) list.now tuples.now positive)) }
    ensures stopped { OnErr result (E.began out.old out.new (low_extension (E.count out.old) list.now tuples.now positive)) }
    ensures cause { IsErrOf result EmitStop.Failed → Rose (E.faults out.old) (E.faults out.new) }
{
    let mut table = Literals::new(alloc);
    lower_tuples(alloc, list, tuples, positive, &mut table, out)?;
    Ok(())
}
