//! Literals, each of which says whether a variable has a value.

ghost use Rattle.std.specs.Prelude.{◌≡◌, ◌+◌, ◌≤◌, ◌<◌, ◌^◌, [], length, OnOk, OnErr, IsErrOf, IfOk};
ghost use Rattle.xf_text.specs.Outside.{Rose};
ghost use Rattle.lo_base.specs.Item.{made};
ghost use Rattle.lo_emit.specs.Literals.{is_same, find, literal_of, literals_of};

use crate::define::truth_of_two;
use crate::term::Term;
use fz_model::Builtin;
use lo_base::{Emit, EmitStop};
use std::alloc::Global;
use xf_num::Row;

/// A variable and a value. Those of one place share a literal; where they need not be of one place, it is 0.
#[derive(Clone, Copy)]
pub struct Cell {
    pub place: u64,
    pub variable: u64,
    pub value: i128,
}

/// What tells whether the variable of the cell has its value.
#[derive(Clone, Copy)]
pub struct Literal {
    pub cell: Cell,
    pub truth: Term,
}

fn is_same(first: Cell, second: Cell) -> bool
    ensures { result ≡ is_same first second }
{
    first.place == second.place
        && (first.variable == second.variable && first.value == second.value)
}

/// The literal of a cell, where there is one.
pub fn find(table: &[Literal], cell: Cell) -> Option<Term>
    ensures { result ≡ find table.now cell }
{
    for literal in table {
        if is_same(literal.cell, cell) {
            return Some(literal.truth);
        }
    }
    None
}

/// Answers the literal of a cell, which it appends and puts into the table where there is none. On an `Err` it began that.
pub fn literal_of<E: Emit>(
    alloc: Global,
    cell: Cell,
    table: &mut Row<Literal>,
    out: &mut E,
) -> Result<Term, EmitStop>
    requires { E.count out.old < 2 ^ 61 }
    ensures value { IfOk result (λ t. t ≡ (literal_of (E.count out.old) table.old cell).term) }
    ensures table { OnOk result (table.new ≡ (literal_of (E.count out.old) table.old cell).table) }
    ensures ok { OnOk result (E.grew out.old out.new (literal_of (E.count out.old) table.old cell).items) }
    ensures count { OnOk result (E.count out.new ≡ E.count out.old + made (literal_of (E.count out.old) table.old cell).items) }
    ensures few { OnOk result (E.count out.new ≤ E.count out.old + 1) }
    ensures stopped { OnErr result (E.began out.old out.new (literal_of (E.count out.old) table.old cell).items) }
    ensures cause { IsErrOf result EmitStop.Failed → Rose (E.faults out.old) (E.faults out.new) }
{
    match find(table.as_slice(), cell) {
        Some(truth) => Ok(truth),
        None => {
            let x = Term::Var(cell.variable);
            let truth = truth_of_two(alloc, Builtin::IntEqReif, x, Term::Int(cell.value), out)?;
            table.push(Literal { cell, truth })?;
            Ok(truth)
        }
    }
}

/// Answers the literals of some cells, in turn. On an `Err` it began what it appends.
pub fn literals_of<E: Emit>(
    alloc: Global,
    cells: &[Cell],
    table: &mut Row<Literal>,
    out: &mut E,
) -> Result<Row<Term>, EmitStop>
    requires { E.count out.old + length cells.now ≤ 2 ^ 61 }
    ensures value { IfOk result (λ all. all ≡ (literals_of (E.count out.old) table.old cells.now).state.terms) }
    ensures table { OnOk result (table.new ≡ (literals_of (E.count out.old) table.old cells.now).state.table) }
    ensures ok { OnOk result (E.grew out.old out.new (literals_of (E.count out.old) table.old cells.now).items) }
    ensures count { OnOk result (E.count out.new ≡ E.count out.old + made (literals_of (E.count out.old) table.old cells.now).items) }
    ensures few { OnOk result (E.count out.new ≤ E.count out.old + length cells.now) }
    ensures stopped { OnErr result (E.began out.old out.new (literals_of (E.count out.old) table.old cells.now).items) }
    ensures cause { IsErrOf result EmitStop.Failed → Rose (E.faults out.old) (E.faults out.new) }
{
    let mut all = Row::new(alloc);
    for cell in cells {
        let truth = literal_of(alloc, *cell, table, out)?;
        all.push(truth)?;
    }
    Ok(all)
}
