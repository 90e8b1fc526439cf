//! Who takes the constraints of an instance, one after the other.

ghost use Rattle.std.specs.Prelude.{◌≡◌, true};
ghost use Rattle.xs_file.specs.Sections.{taken};
ghost use Rattle.xs_model.specs.Outline.{outlines_of};

use crate::constraint::take_constraint;
use crate::held::Held;
use std::alloc::Global;
use std::marker::Model;
use xf_num::NoMemory;
use xf_text::Kind;
use xs_model::{Concrete, Names};
use xs_units::Take;

/// What is read so far, beside the names of its declarations.
#[derive(Drop)]
pub struct Lent<'a> {
    alloc: Global,
    names: &'a Names,
    held: Held,
}

impl<'a> Model for Lent<'a> {
    ghost use Rattle.std.specs.Prelude.{◌≡◌};
    ghost use Rattle.xs_file.specs.Sections.{Progress};
    ghost use Rattle.xs_model.specs.Outline.{outlines_of};
    ghost use Rattle.xs_model.specs.contracts.expr.Expr as e;
    ghost use Rattle.std.specs.Coded.{codes};

    ghost Value = { Progress };

    ghost coded = { Prim.hlevel (codes, e.the_row.coded) };

    ghost view = { λ l. l.held };

    ghost invariant = { λ l. l.names.now ≡ outlines_of l.held.declared.decls };
}

impl<'a> Lent<'a> {
    /// What is read so far, with the names of its declarations.
    pub fn new(alloc: Global, names: &'a Names, held: Held) -> Lent<'a>
        requires { names.now ≡ outlines_of held.declared.decls }
        ensures { result ≡ held }
    {
        Lent { alloc, names, held }
    }

    /// What is read, without the names.
    pub fn into_held(self) -> Held
        ensures { result ≡ self.entry }
    {
        self.held
    }
}

impl Take for Lent<'_> {
    ghost taken = { taken true };

    fn take(&mut self, made: Concrete) -> Result<Option<Kind>, NoMemory> {
        take_constraint(self.alloc, self.names, &made, &mut self.held)
    }
}
