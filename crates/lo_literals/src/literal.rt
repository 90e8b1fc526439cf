//! Literals that are made where they are first needed.

ghost use Rattle.std.specs.Prelude.{◌≡◌, ◌+◌, ◌≤◌, ◌<◌, ◌^◌, [], length, OnOk, OnErr, IsErrOf, IfOk};
ghost use Rattle.xf_text.specs.Outside.{Rose};
ghost use Rattle.lo_base.specs.Item.{made};
ghost use Rattle.lo_emit.specs.Literals.{literal_of, literals_of};

use crate::table::Literals;
use fz_model::Builtin;
use lo_base::{Emit, EmitStop};
use lo_emit::{Cell, Term, truth_of_two};
use std::alloc::Global;
use xf_num::Row;

/// Answers the literal of a cell, which it appends and puts into the table where there is none. On an `Err` it began that.
pub fn literal_of<E: Emit>(
    alloc: Global,
    cell: Cell,
    table: &mut Literals,
    out: &mut E,
) -> Result<Term, EmitStop>
    requires { E.count out.old < 2 ^ 61 }
    ensures value { IfOk result (λ t. t ≡ (literal_of (E.count out.old) table.old cell).term) }
    ensures table { OnOk result (table.new ≡ (literal_of (E.count out.old) table.old cell).table) }
    ensures ok { OnOk result (E.grew out.old out.new (literal_of (E.count out.old) table.old cell).items) }
    ensures count { OnOk result (E.count out.new ≡ E.count out.old + made (literal_of (E.count out.old) table.old cell).items) }
    ensures few { OnOk result (E.count out.new ≤ E.count out.old + 1) }
    ensures stopped { OnErr result (E.began out.old out.new (literal_of (E.count out.old) table.old cell).items) }
    ensures cause { IsErrOf result EmitStop.Failed → Rose (E.faults out.old) (E.faults out.new) }
{
    match table.find(cell) {
        Some(truth) => Ok(truth),
        None => {
            let x = Term::Var(cell.variable);
            let truth = truth_of_two(alloc, Builtin::IntEqReif, x, Term::Int(cell.value), out)?;
            table.push(cell, truth)?;
            Ok(truth)
        }
    }
}

/// Answers the literals of some cells, in turn. On an `Err` it began what it appends.
pub fn literals_of<E: Emit>(
    alloc: Global,
    cells: &[Cell],
    table: &mut Literals,
    out: &mut E,
) -> Result<Row<Term>, EmitStop>
    requires { E.count out.old + length cells.now ≤ 2 ^ 61 }
    ensures value { IfOk result (λ all. all ≡ (literals_of (E.count out.old) table.old cells.now).state.terms) }
    ensures table { OnOk result (table.new ≡ (literals_of (E.count out.old) table.old cells.now).state.table) }
    ensures ok { OnOk result (E.grew out.old out.new (literals_of (E.count out.old) table.old cells.now).items) }
    ensures count { OnOk result (E.count out.new ≡ E.count out.old + made (literals_of (E.count out.old) table.old cells.now).items) }
    ensures few { OnOk result (E.count out.new ≤ E.count out.old + length cells.now) }
    ensures stopped { OnErr result (E.began out.old out.new (literals_of (E.count out.old) table.old cells.now).items) }
    ensures cause { IsErrOf result EmitStop.Failed → Rose (E.faults out.old) (E.faults out.new) }
{
    let mut all = Row::new(alloc);
    for cell in cells {
        let truth = literal_of(alloc, *cell, table, out)?;
        all.push(truth)?;
    }
    Ok(all)
}
