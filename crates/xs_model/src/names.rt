//! The names of declarations, and the variables that direct words denote.

ghost use Rattle.std.specs.Prelude.{◌≡◌, ◌++◌, ◌∷◌, [], ◌+◌, ◌<◌, ◌^◌, ◌↔◌, ℕ, List, None, Some, length, map, is_some, slice_index_or, IfOk, IfSome, IsErrOf, OnErr, OnOk};
ghost use Rattle.std.specs.List.{AllByRecursion, prefix_len};
ghost use Rattle.xs_model.specs.Identifier.{is_word};
ghost use Rattle.xs_model.specs.Denotes.{Denotes};
ghost use Rattle.xs_model.specs.Outline.{IsArrayNamed, IsNamed, IsSoundOutline, cell_numbers, defined_count, number_cells, outline_of, sizes_at, variables_in};
ghost use Rattle.xs_model.specs.Places.{DenotesCell};
ghost use Rattle.xs_model.specs.Sound.{IsSize, IsSoundDecl, cell_count, name_of};
ghost use Rattle.xs_model.specs.Table.{numbers_of, sizes_of};

use crate::brackets::place_of;
use crate::decl::Decl;
use crate::table::{Entry, Numbers, Table};
use std::alloc::Global;
use std::marker::Model;
use xf_num::{Domain, NoMemory, Row};

/// Why a declaration was not added to names.
#[derive(Clone, Copy, Debug, PartialEq, Eq)]
pub enum NameStop {
    /// The identifier is there.
    Taken,
    /// Want of memory.
    Memory,
}

/// The names of declarations in order, seen as the list of their outlines: for each its identifier, its sizes, and
/// which of its cells are variables. Variables are numbered from 0 over them.
#[derive(Drop)]
pub struct Names {
    alloc: Global,
    table: Table,
    next: u32,
}

impl Model for Names {
    ghost use Rattle.std.specs.Prelude.{List};
    ghost use Rattle.xs_model.specs.Outline.{Outline};
    ghost use Rattle.xs_model.specs.Table.{outlines, IsTable};

    ghost Value = { List Outline };

    ghost view = { λ names. outlines names.table };

    ghost invariant = { λ names. IsTable names.table names.next };
}

impl Names {
    /// The names of no declarations.
    pub fn new(alloc: Global) -> Names
        ensures { result ≡ [] }
    {
        Names {
            alloc,
            table: Table::new(alloc),
            next: 0,
        }
    }

    /// How many variables are declared.
    pub fn variables(&self) -> u32
        ensures { result ≡ variables_in self.now }
    {
        self.next
    }

    /// Adds a declaration behind the others.
    ///
    /// Asks that it is as one of a sound instance, and that fewer than 2^32 variables are then declared. `Taken`
    /// comes exactly where its identifier is there; `Taken` and `Memory` change nothing.
    pub fn declare(&mut self, decl: &Decl) -> Result<(), NameStop>
        requires sound { IsSoundDecl decl.now }
        requires few { variables_in self.old + defined_count (outline_of decl.now).cells < 2 ^ 32 }
        ensures ok { OnOk result (self.new ≡ self.old ++ outline_of decl.now ∷ []) }
        ensures err { OnErr result (self.new ≡ self.old) }
        ensures taken { IsErrOf result NameStop.Taken ↔ ((at : ℕ) × IsNamed self.old at (name_of decl.now)) }
    {
        if self.position(decl.name()).is_some() {
            return Err(NameStop::Taken);
        }
        match self.add(decl) {
            Ok(()) => Ok(()),
            Err(NoMemory) => Err(NameStop::Memory),
        }
    }

    /// The variable that a direct word denotes. None exactly where it denotes none.
    pub fn find(&self, word: &[u8]) -> Option<u32>
        ensures found { IfSome result (λ k. Denotes self.now word.now k) }
        ensures only { (k : ℕ) → Denotes self.now word.now k → result ≡ Some k }
    {
        let end = identifier_end(word);
        match self.position(&word[..end]) {
            Some(at) => self.find_cell(at, &word[end..]),
            None => None,
        }
    }

    /// The number of the declaration of the array with this name. None exactly where there is no such array.
    pub fn array(&self, name: &[u8]) -> Option<usize>
        ensures found { IfSome result (λ at. IsArrayNamed self.now at name.now) }
        ensures only { (at : ℕ) → IsArrayNamed self.now at name.now → result ≡ Some at }
    {
        match self.position(name) {
            Some(at) if !self.sizes(at).is_empty() => Some(at),
            _ => None,
        }
    }

    /// The sizes of the array with this number among the declarations; none where it is a single variable.
    pub fn sizes(&self, at: usize) -> &[i128]
        requires { at < length self.now }
        ensures value { result.now ≡ sizes_at self.now at }
        ensures sound { AllByRecursion IsSize result.now }
        ensures few { cell_count result.now < 2 ^ 64 }
    {
        self.table.entry(at).sizes()
    }

    /// The variable of the cell at this place in row-major order, of the array with this number among the
    /// declarations. None exactly where the cell is undefined.
    pub fn cell(&self, at: usize, place: u64) -> Option<u32>
        requires { at < length self.now }
        ensures { result ≡ slice_index_or (cell_numbers self.now at) place None }
    {
        self.table.entry(at).number(place)
    }

    /// The number of the declaration with this name, of a variable or an array. None exactly where there is none.
    pub fn position(&self, name: &[u8]) -> Option<usize>
        ensures found { IfSome result (λ at. IsNamed self.now at name.now) }
        ensures only { (at : ℕ) → IsNamed self.now at name.now → result ≡ Some at }
        ensures sound { AllByRecursion IsSoundOutline self.now }
    {
        self.table.position(name)
    }

    // Adds a declaration of a new name, or changes nothing.
    fn add(&mut self, decl: &Decl) -> Result<(), NoMemory>
        requires sound { IsSoundDecl decl.now }
        requires few { variables_in self.old + defined_count (outline_of decl.now).cells < 2 ^ 32 }
        requires new { (at : ℕ) → ¬ (IsNamed self.old at (name_of decl.now)) }
        ensures ok { OnOk result (self.new ≡ self.old ++ outline_of decl.now ∷ []) }
        ensures err { OnErr result (self.new ≡ self.old) }
    {
        let name = Vec::from_slice(self.alloc, decl.name())?;
        let (entry, next) = numbered(self.alloc, decl, self.next)?;
        self.table.push(name, entry)?;
        self.next = next;
        Ok(())
    }

    // The variable of the cell whose indices the brackets of a text spell.
    fn find_cell(&self, at: usize, brackets: &[u8]) -> Option<u32>
        requires { at < length self.now }
        ensures found { IfSome result (λ k. DenotesCell self.now at brackets.now k) }
        ensures only { (k : ℕ) → DenotesCell self.now at brackets.now k → result ≡ Some k }
    {
        match place_of(brackets, self.sizes(at)) {
            Some(place) => self.cell(at, place as u64),
            None => None,
        }
    }
}

// Where the letters, digits and `_` that a word begins with end.
fn identifier_end(word: &[u8]) -> usize
    ensures { result ≡ prefix_len is_word word.now }
{
    word.iter().take_while(|byte| is_word(**byte)).count()
}

// Whether the byte is an ASCII letter, a digit or `_`.
fn is_word(byte: u8) -> bool
    ensures { result ≡ is_word byte }
{
    byte.is_ascii_alphanumeric() || byte == b'_'
}

// What a declaration's name stands for, where its variables are numbered from `first` on, and the number behind.
fn numbered(alloc: Global, decl: &Decl, first: u32) -> Result<(Entry, u32), NoMemory>
    requires { first + defined_count (outline_of decl.now).cells < 2 ^ 32 }
    ensures numbers { IfOk result (λ r. numbers_of r.0 ≡ number_cells first (outline_of decl.now).cells) }
    ensures sizes { IfOk result (λ r. sizes_of r.0 ≡ (outline_of decl.now).sizes) }
    ensures next { IfOk result (λ r. r.1 ≡ first + defined_count (outline_of decl.now).cells) }
    ensures few { IfOk result (λ r. length (outline_of decl.now).cells < 2 ^ 64) }
{
    match decl {
        Decl::One { .. } => Ok((Entry::One(first), first + 1)),
        Decl::Array { sizes, cells, .. } => {
            let sizes = sizes.copy(alloc)?;
            let (numbers, next) = number_cells(alloc, cells.as_slice(), first)?;
            Ok((Entry::Array { sizes, numbers }, next))
        }
    }
}

// The numbers of the cells from `first` on, and the number behind.
fn number_cells(
    alloc: Global,
    cells: &[Option<Domain>],
    first: u32,
) -> Result<(Numbers, u32), NoMemory>
    requires { first + defined_count (map is_some cells.now) < 2 ^ 32 }
    ensures numbers { IfOk result (λ r. r.0 ≡ number_cells first (map is_some cells.now)) }
    ensures next { IfOk result (λ r. r.1 ≡ first + defined_count (map is_some cells.now)) }
    ensures few { length cells.now < 2 ^ 64 }
{
    let mut numbers = Row::new(alloc);
    let mut next = first;
    for cell in cells {
        if cell.is_some() {
            numbers.push(Some(next))?;
            next += 1;
        } else {
            numbers.push(None)?;
        }
    }
    Ok((numbers, next))
}
