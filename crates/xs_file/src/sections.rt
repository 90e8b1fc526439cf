//! The sections of an instance.

ghost use Rattle.std.specs.Prelude.{◌≡◌, ◌≢◌, ◌∷◌, [], length, map, nat_le, true, Ok, IfOk, MatchOption};
ghost use Rattle.xf_text.specs.declared.fault.Stop.TheVariants.{Refused as StopRefused};
ghost use Rattle.xs_fields.specs.Conditions.{kind_of};
ghost use Rattle.xs_file.specs.Held.{IsWhole};
ghost use Rattle.xs_file.specs.Sections.{begun, constraints_outcome, instance_outcome, objective_unit, objectives_units, section_outcome, sections_behind, sections_outcome};
ghost use Rattle.xs_model.specs.Outline.{outlines_of};
ghost use Rattle.xs_var.specs.Elements.{children_of};
ghost use Rattle.xs_var.specs.Taken.{IsRead};
ghost use Rattle.xs_var.specs.Units.{outcome};
ghost use Rattle.xs_vars.specs.Declarations.{declared_of};

use crate::held::Held;
use crate::judge::{judge_instance, judge_objectives};
use crate::lent::Lent;
use crate::objective::read_objective;
use std::alloc::Global;
use xf_markup::{Node, Piece};
use xf_num::Row;
use xf_text::{Fault, Stop};
use xs_expand::walk_section;
use xs_fields::Condition;
use xs_model::Names;
use xs_units::{Known, next_child};
use xs_vars::{Declarations, read_declarations};

// A unit at this place misses the condition first.
fn refused(missed: Condition, place: u64) -> Stop
    ensures { result ≡ StopRefused (record { kind = kind_of missed; place = place }) }
{
    Stop::Refused(Fault {
        kind: missed.kind(),
        place,
    })
}

// Appends the constraints of `constraints`.
fn read_constraints(alloc: Global, names: &Names, node: &Node, held: Held) -> Result<Held, Stop>
    requires { names.now ≡ outlines_of held.declared.decls }
    ensures outcome { IsRead (λ h. h) result (constraints_outcome true held node.now) }
    ensures declared { IfOk result (λ h. h.declared ≡ held.declared) }
{
    let mut known = Known {
        words: 0,
        state: Lent::new(alloc, names, held),
    };
    let fault = walk_section(alloc, names, node, &mut known)?;
    let Known { words: _, state } = known;
    match fault {
        Some(fault) => Err(Stop::Refused(fault)),
        None => Ok(state.into_held()),
    }
}

// The objective, where there is one; no second stands beside it.
fn read_only(pieces: &[Piece], held: Held) -> Result<Held, Stop>
    requires { nat_le (length (children_of pieces.now)) 1 ≡ true }
    ensures outcome { IsRead (λ h. h) result (outcome held (map (objective_unit true) (children_of pieces.now))) }
    ensures declared { IfOk result (λ h. h.declared ≡ held.declared) }
{
    match next_child(pieces) {
        Some((objective, _)) => read_objective(objective, held),
        None => Ok(held),
    }
}

// What `objectives` holds.
fn read_objectives(alloc: Global, node: &Node, held: Held) -> Result<Held, Stop>
    ensures outcome { IsRead (λ h. h) result (outcome held (objectives_units true node.now)) }
    ensures declared { IfOk result (λ h. h.declared ≡ held.declared) }
{
    let missed = judge_objectives(alloc, node)?;
    match missed {
        Some(missed) => Err(refused(missed, node.place)),
        None => read_only(node.pieces.as_slice(), held),
    }
}

// A section behind `variables`; `annotations` is dropped.
fn read_section(alloc: Global, names: &Names, node: &Node, held: Held) -> Result<Held, Stop>
    requires { names.now ≡ outlines_of held.declared.decls }
    ensures outcome { IsRead (λ h. h) result (section_outcome true held node.now) }
    ensures declared { IfOk result (λ h. h.declared ≡ held.declared) }
{
    let name = node.name.as_slice();
    if name == b"constraints".as_slice() {
        read_constraints(alloc, names, node, held)
    } else if name == b"objectives".as_slice() {
        read_objectives(alloc, node, held)
    } else {
        Ok(held)
    }
}

// The sections behind `variables`.
fn read_rest(alloc: Global, names: &Names, pieces: &[Piece], held: Held) -> Result<Held, Stop>
    requires { names.now ≡ outlines_of held.declared.decls }
    ensures { IsRead (λ h. h) result (sections_behind true (Ok held) (children_of pieces.now)) }
{
    let mut held = held;
    let mut rest = pieces;
    while let Some((node, more)) = next_child(rest) {
        match read_section(alloc, names, node, held) {
            Ok(next) => {
                held = next;
                rest = more;
            }
            Err(stop) => return Err(stop),
        }
    }
    Ok(held)
}

// Takes out the first child. An empty text is left at its place, so that the other children are those of the pieces.
fn take_child(alloc: Global, pieces: &mut Row<Piece>) -> Option<Node>
    ensures { MatchOption result (children_of pieces.old ≡ []) (λ n. children_of pieces.old ≡ n ∷ children_of pieces.new) }
{
    for i in 0..pieces.len() {
        let piece = pieces.replace(i, Piece::Words(Row::new(alloc)));
        match piece {
            Piece::Inner(node) => return Some(node),
            Piece::Words(_) => {}
        }
    }
    None
}

// The sections behind what is declared.
fn read_behind(alloc: Global, declarations: Declarations, pieces: &[Piece]) -> Result<Held, Stop>
    requires names { declarations.names ≡ outlines_of declarations.decls }
    requires whole { IsWhole (declared_of declarations) }
    ensures { IsRead (λ h. h) result (sections_behind true (Ok (begun (declared_of declarations))) (children_of pieces.now)) }
{
    let Declarations {
        decls,
        names,
        cells,
        values,
    } = declarations;
    let held = Held::new(alloc, decls, cells, values)?;
    read_rest(alloc, &names, pieces, held)
}

// `variables`, which is the first child and is let go while it is read, and the sections behind it.
fn read_sections(alloc: Global, mut pieces: Row<Piece>) -> Result<Held, Stop>
    requires { children_of pieces ≢ [] }
    ensures { IsRead (λ h. h) result (sections_outcome true (children_of pieces)) }
{
    match take_child(alloc, &mut pieces) {
        Some(variables) => {
            let declarations = read_declarations(alloc, variables)?;
            read_behind(alloc, declarations, pieces.as_slice())
        }
        None => unreachable!(),
    }
}

/// What is read of an instance. Refused exactly where a unit misses a condition, with the fault of the first.
pub fn read_root(alloc: Global, node: Node) -> Result<Held, Stop>
    ensures { IsRead (λ h. h) result (instance_outcome true node) }
{
    let missed = judge_instance(alloc, &node)?;
    match missed {
        Some(missed) => Err(refused(missed, node.place)),
        None => read_sections(alloc, node.pieces),
    }
}
