//! A table of literals by their cells.

ghost use Rattle.std.specs.Prelude.{◌≡◌, ◌++◌, ◌∷◌, [], None, OnOk, OnErr};
ghost use Rattle.std.specs.Option.{option_map};
ghost use Rattle.lo_emit.specs.Literals.{find};

use indexmap::IndexMap;
use lo_emit::{Cell, Literal, Term};
use std::alloc::Global;
use std::marker::Model;
use xf_num::NoMemory;

/// A cell by which a literal is found.
#[derive(Clone, Copy, PartialEq, Eq, Hash)]
pub struct Key {
    pub place: u64,
    pub variable: u64,
    pub value: i128,
}

fn key_of(cell: Cell) -> Key
    ensures { result ≡ record { place = cell.place; variable = cell.variable; value = cell.value } }
{
    Key {
        place: cell.place,
        variable: cell.variable,
        value: cell.value,
    }
}

/// Literals of different cells, seen as the list of them in order.
#[derive(Drop)]
pub struct Literals {
    truths: IndexMap<Key, Term>,
}

impl Model for Literals {
    ghost use Rattle.std.specs.Prelude.{List, map};
    ghost use Rattle.lo_emit.specs.declared.literal.Literal.{Literal};

    ghost Value = { List Literal };

    ghost view = { λ table. map (λ e. record { cell = record { place = e.0.place; variable = e.0.variable; value = e.0.value }; truth = e.1 }) table.truths.entries };
}

impl Literals {
    /// No literals.
    pub fn new(alloc: Global) -> Literals
        ensures { result ≡ [] }
    {
        Literals {
            truths: IndexMap::new(alloc),
        }
    }

    /// The literal of a cell, where there is one.
    pub fn find(&self, cell: Cell) -> Option<Term>
        ensures { result ≡ find self.now cell }
    {
        self.truths.get(&key_of(cell)).copied()
    }

    /// Appends the literal of a cell that has none, or changes nothing.
    pub fn push(&mut self, cell: Cell, truth: Term) -> Result<(), NoMemory>
        requires { find self.old cell ≡ None }
        ensures ok { OnOk result (self.new ≡ self.old ++ record { cell = cell; truth = truth } ∷ []) }
        ensures err { OnErr result (self.new ≡ self.old) }
    {
        self.truths.insert(key_of(cell), truth)?;
        Ok(())
    }
}
