//! The units of `variables`.

ghost use Rattle.std.specs.Prelude.{◌≡◌, ◌<◌, ◌^◌, IfOk, IfErr, length};
ghost use Rattle.xs_model.specs.Names.{words};
ghost use Rattle.xs_model.specs.Outline.{outlines_of};
ghost use Rattle.xs_var.specs.Taken.{IsRead};
ghost use Rattle.xs_vars.specs.Declarations.{AreSound, IsSoundDeclared, declared_of, decls_in, variables_outcome};

use crate::children::{read_children, read_each, refused};
use std::alloc::Global;
use xf_markup::Node;
use xf_text::Stop;
use xs_model::{Decls, Names};
use xs_var::judge_variables;

/// What an instance declares.
#[derive(Drop)]
pub struct Declarations {
    pub decls: Decls,
    /// The names of the declarations.
    pub names: Names,
    /// Cells of all declarations, undefined ones too.
    pub cells: u64,
    /// Values of all domains of more than one range.
    pub values: u64,
}

/// What `variables` declares. Refused exactly where a unit misses a condition, with the fault of the first. Each unit
/// is let go once it is read.
pub fn read_declarations(alloc: Global, node: Node) -> Result<Declarations, Stop>
    ensures outcome { IsRead declared_of result (variables_outcome node) }
    ensures names { IfOk result (λ d. d.names ≡ outlines_of d.decls) }
    ensures sound { IfOk result (λ d. IsSoundDeclared (declared_of d)) }
    ensures few { IfOk result (λ d. length (words d.decls) < 2 ^ 32) }
{
    let missed = judge_variables(alloc, &node)?;
    match missed {
        Some(condition) => Err(refused(condition, node.place)),
        None => read_children(alloc, node.pieces),
    }
}

/// The declarations of `variables` and their names. Refused exactly where a unit misses a condition, with the fault
/// of the first. What is read is sound: names that differ, sound declarations, and counts within the limits.
pub fn read_variables(alloc: Global, node: &Node) -> Result<(Decls, Names), Stop>
    ensures outcome { IsRead (λ x. x.0) result (decls_in (variables_outcome node.now)) }
    ensures names { IfOk result (λ x. x.1 ≡ outlines_of x.0) }
    ensures sound { IfOk result (λ x. AreSound x.0) }
{
    let missed = judge_variables(alloc, node)?;
    match missed {
        Some(condition) => Err(refused(condition, node.place)),
        None => {
            let read = read_each(alloc, node.pieces.as_slice())?;
            Ok((read.decls, read.names))
        }
    }
}
