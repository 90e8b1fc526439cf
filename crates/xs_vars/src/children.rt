//! The children of `variables`, one after another.

ghost use Rattle.std.specs.Prelude.{◌≡◌, [], ◌∷◌, IfOk, map};
ghost use Rattle.xs_var.specs.Elements.{children_of};
ghost use Rattle.xs_var.specs.Taken.{IsRead, IsSoundTaken, IsTaken};
ghost use Rattle.xs_var.specs.Units.{outcome};
ghost use Rattle.xs_fields.specs.Conditions.{kind_of};
ghost use Rattle.xs_vars.specs.Declarations.{child_unit, declared_of, nothing};
ghost use Rattle.xs_vars.specs.Kept.{IsKept};

use crate::declarations::Declarations;
use crate::taking::take;
use crate::variable::read_variable;
use std::alloc::Global;
use xf_markup::{Node, Piece};
use xf_num::{NoMemory, Row};
use xf_text::{Fault, Stop};
use xs_array::read_array;
use xs_fields::Condition;
use xs_model::Names;
use xs_var::Counted;

/// The refusal of a unit at a place, where this is the first condition that it misses.
pub fn refused(condition: Condition, place: u64) -> Stop
    ensures { result ≡ Stop.Refused (record { kind = kind_of condition; place = place }) }
{
    Stop::Refused(Fault {
        kind: condition.kind(),
        place,
    })
}

// What a child declares beside what is declared before it, or the first condition that it misses.
fn read_child(
    alloc: Global,
    node: &Node,
    known: &Declarations,
) -> Result<Result<Counted, Condition>, NoMemory>
    requires { IsKept known.now }
    ensures value { IfOk result (λ r. IsTaken (declared_of known.now) (child_unit node.now) r) }
    ensures sound { IfOk result (λ r. IfOk r (λ c. IsSoundTaken (declared_of known.now) c)) }
{
    let decls = known.decls.as_slice();
    if node.name.as_slice() == b"var".as_slice() {
        read_variable(alloc, node, decls, &known.names, known.cells, known.values)
    } else {
        read_array(alloc, node, decls, &known.names, known.cells, known.values)
    }
}

// What is declared with one child more.
fn with_child(alloc: Global, node: &Node, known: Declarations) -> Result<Declarations, Stop>
    requires { IsKept known }
    ensures outcome { IsRead declared_of result (outcome (declared_of known) (child_unit node.now ∷ [])) }
    ensures kept { IfOk result (λ d. IsKept d) }
{
    let read = read_child(alloc, node, &known)?;
    match read {
        Ok(counted) => {
            let more = take(known, counted)?;
            Ok(more)
        }
        Err(condition) => Err(refused(condition, node.place)),
    }
}

/// What the children among these pieces declare. Refused exactly where a child misses a condition, with the fault
/// of the first. Each child is let go once it is read, so that what it declares takes the room that it had.
pub fn read_children(alloc: Global, mut pieces: Row<Piece>) -> Result<Declarations, Stop>
    ensures outcome { IsRead declared_of result (outcome nothing (map child_unit (children_of pieces))) }
    ensures kept { IfOk result (λ d. IsKept d) }
{
    let mut known = Declarations {
        decls: Row::new(alloc),
        names: Names::new(alloc),
        cells: 0,
        values: 0,
    };
    for i in 0..pieces.len() {
        let piece = pieces.replace(i, Piece::Words(Row::new(alloc)));
        match piece {
            Piece::Inner(node) => known = with_child(alloc, &node, known)?,
            Piece::Words(_) => {}
        }
    }
    Ok(known)
}

/// The same of children that stay.
pub fn read_each(alloc: Global, pieces: &[Piece]) -> Result<Declarations, Stop>
    ensures outcome { IsRead declared_of result (outcome nothing (map child_unit (children_of pieces.now))) }
    ensures kept { IfOk result (λ d. IsKept d) }
{
    let mut known = Declarations {
        decls: Row::new(alloc),
        names: Names::new(alloc),
        cells: 0,
        values: 0,
    };
    for piece in pieces {
        match piece {
            Piece::Inner(node) => known = with_child(alloc, node, known)?,
            Piece::Words(_) => {}
        }
    }
    Ok(known)
}
