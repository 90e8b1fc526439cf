//! Literals of cells, made once.

ghost use Rattle.std.specs.Prelude.{◌≡◌, []};

use crate::{Literals, literal_of, literals_of};
use fz_model::Goal;
use lo_base::Held;
use lo_emit::{Cell, Term};
use std::alloc::Global;
use std::test::Fail;
use xf_num::Row;

fn empty(alloc: Global) -> Held
    ensures { result.vars ≡ [] }
{
    Held::new(alloc, Row::new(alloc))
}

fn cell(place: u64, value: i128) -> Cell {
    Cell {
        place,
        variable: 3,
        value,
    }
}

// The number of the variable that a term is.
fn number(term: Term) -> Option<u64> {
    match term {
        Term::Var(number) => Some(number),
        _ => None,
    }
}

#[test]
fn literals_are_found_again(rt: HostRuntime) -> Result<(), Fail> {
    let alloc = rt.alloc();
    let mut held = empty(alloc);
    let mut table = Literals::new(alloc);
    assert!(rt; table.find(cell(0, 5)).is_none());
    let cells = [cell(0, 5), cell(0, 6), cell(0, 5), cell(1, 5)];
    let terms = literals_of(alloc, &cells, &mut table, &mut held)?;
    assert_eq!(rt; terms.len(), 4);
    for (term, wanted) in terms.as_slice().iter().zip([0, 1, 0, 2].iter()) {
        assert_eq!(rt; number(*term), Some(*wanted));
    }
    let again = literal_of(alloc, cell(1, 5), &mut table, &mut held)?;
    assert_eq!(rt; number(again), Some(2));
    let model = held.finish(Goal::Satisfy);
    assert_eq!(rt; (model.vars.len(), model.calls.len()), (3, 3));
    for call in model.calls.as_slice() {
        assert_eq!(rt; call.builtin.name(), b"int_eq_reif".as_slice());
    }
    Ok(())
}
