//! A table of names in the order in which they came.

ghost use Rattle.std.specs.Prelude.{◌≡◌, ◌++◌, ◌∷◌, [], ◌<◌, ℕ, length, map, slice_get, slice_index_or, Some, None, IfSome, OnOk, OnErr};
ghost use Rattle.xs_model.specs.Table.{HasName, sizes_of, numbers_of};

use indexmap::IndexMap;
use std::alloc::Global;
use std::marker::Model;
use xf_num::{Ints, NoMemory, Row};

/// The numbers of the cells of an array in row-major order. An undefined cell has none.
pub type Numbers = Row<Option<u32>>;

/// What a name stands for.
#[derive(Drop)]
pub enum Entry {
    /// A variable, with its number.
    One(u32),
    /// An array.
    Array { sizes: Ints, numbers: Numbers },
}

impl Entry {
    /// The sizes of the array; none of a variable.
    pub fn sizes(&self) -> &[i128]
        ensures { result.now ≡ sizes_of self.now }
    {
        match self {
            Entry::One(_) => &[],
            Entry::Array { sizes, .. } => sizes.as_slice(),
        }
    }

    /// The number of the cell at this place; a variable is its own cell, at place 0.
    pub fn number(&self, place: u64) -> Option<u32>
        ensures { result ≡ slice_index_or (numbers_of self.now) place None }
    {
        match self {
            Entry::One(number) if place == 0 => Some(*number),
            Entry::One(_) => None,
            Entry::Array { numbers, .. } => number_at(numbers.as_slice(), place as usize),
        }
    }
}

// The number at this place, if there is one.
fn number_at(numbers: &[Option<u32>], place: usize) -> Option<u32>
    ensures { result ≡ slice_index_or numbers.now place None }
{
    if place < numbers.len() {
        numbers[place]
    } else {
        None
    }
}

/// Names that differ, each with what it stands for, seen as the list of these pairs.
#[derive(Drop)]
pub struct Table {
    entries: IndexMap<Vec<u8>, Entry>,
}

impl Model for Table {
    ghost use Rattle.std.specs.Prelude.{ℕ, List, map};
    ghost use Rattle.xs_model.specs.declared.table.Entry.{Entry};

    ghost Value = { List (List ℕ × Entry) };

    ghost view = { λ table. map (λ e. (e.0.items, e.1)) table.entries.entries };
}

impl Table {
    pub fn new(alloc: Global) -> Table
        ensures { result ≡ [] }
    {
        Table {
            entries: IndexMap::new(alloc),
        }
    }

    /// The place of a name.
    pub fn position(&self, name: &[u8]) -> Option<usize>
        ensures found { IfSome result (λ at. HasName self.now at name.now) }
        ensures only { (at : ℕ) → HasName self.now at name.now → result ≡ Some at }
    {
        self.entries.get_index_of(name)
    }

    /// What the name at this place stands for.
    pub fn entry(&self, at: usize) -> &Entry
        requires { at < length self.now }
        ensures { slice_get (map (λ row. row.1) self.now) at ≡ Some result.now }
    {
        match self.entries.get_index(at) {
            Some((_, entry)) => entry,
            None => unreachable!(),
        }
    }

    /// Appends a name, or changes nothing.
    pub fn push(&mut self, name: Vec<u8>, entry: Entry) -> Result<(), NoMemory>
        requires { (at : ℕ) → ¬ (HasName self.old at name.items) }
        ensures ok { OnOk result (self.new ≡ self.old ++ (name.items, entry) ∷ []) }
        ensures err { OnErr result (self.new ≡ self.old) }
    {
        self.entries.insert(name, entry)?;
        Ok(())
    }
}
