//! The direct words of variables.

ghost use Rattle.std.specs.Prelude.{◌≡◌, ◌++◌, ◌<◌, length, slice_index_or, [], None, IfOk, OnOk};
ghost use Rattle.std.specs.List.{AllByRecursion};
ghost use Rattle.xs_model.specs.Names.{words, words_of, bracket, cell_word, row_major, defined};
ghost use Rattle.xs_model.specs.Sound.{IsSoundDecl, IsSize, cell_count};
ghost use Rattle.xs_model.specs.Cells.{IsDefinedPlace};
ghost use Rattle.xs_model.specs.Denotes.{Denotes, DenotesIn};
ghost use Rattle.xs_model.specs.Outline.{outline_of, outlines_of};

use crate::decl::{Decl, Decls};
use itoa::Buffer;
use std::alloc::Global;
use xf_num::{Domain, NoMemory};

/// The direct word of a variable: the identifier of a single variable, or the identifier of an array with one
/// bracket for each index of the cell.
///
/// Asks that the declarations are as those of a sound instance, and that the variable is one of them.
pub fn word(alloc: Global, decls: &Decls, variable: u32) -> Result<Vec<u8>, NoMemory>
    requires sound { AllByRecursion IsSoundDecl decls.now }
    requires declared { variable < length (words decls.now) }
    ensures word { IfOk result (λ word. word.items ≡ slice_index_or (words decls.now) variable []) }
    ensures denotes { IfOk result (λ word. Denotes (outlines_of decls.now) word.items variable) }
{
    let mut left = variable as usize;
    for decl in decls.as_slice() {
        let count = variables_in(decl);
        if left < count {
            return word_in(alloc, decl, left);
        }
        left -= count;
    }
    Ok(Vec::new(alloc))
}

// How many variables the declaration has.
fn variables_in(decl: &Decl) -> usize
    requires { IsSoundDecl decl.now }
    ensures { result ≡ length (words_of decl.now) }
{
    match decl {
        Decl::One { .. } => 1,
        Decl::Array { cells, .. } => defined_in(cells.as_slice()),
    }
}

// How many cells are defined.
fn defined_in(cells: &[Option<Domain>]) -> usize
    ensures { result ≡ length (defined cells.now) }
{
    let mut count = 0;
    for cell in cells {
        if cell.is_some() {
            count += 1;
        }
    }
    count
}

// The direct word of the declaration's `nth` variable.
fn word_in(alloc: Global, decl: &Decl, nth: usize) -> Result<Vec<u8>, NoMemory>
    requires sound { IsSoundDecl decl.now }
    requires declared { nth < length (words_of decl.now) }
    ensures word { IfOk result (λ word. word.items ≡ slice_index_or (words_of decl.now) nth []) }
    ensures denotes { IfOk result (λ word. DenotesIn (outline_of decl.now) word.items nth) }
{
    match decl {
        Decl::One { name, .. } => Ok(Vec::from_slice(alloc, name.as_slice())?),
        Decl::Array { name, sizes, cells } => {
            let place = defined_place(cells.as_slice(), nth);
            let mut word = Vec::from_slice(alloc, name.as_slice())?;
            push_brackets(&mut word, sizes.as_slice(), cells.len(), place)?;
            Ok(word)
        }
    }
}

// The place of the `nth` defined cell.
fn defined_place(cells: &[Option<Domain>], nth: usize) -> usize
    requires { nth < length (defined cells.now) }
    ensures { IsDefinedPlace cells.now nth result }
{
    let mut left = nth;
    for place in 0..cells.len() {
        if cells[place].is_some() {
            if left == 0 {
                return place;
            }
            left -= 1;
        }
    }
    cells.len()
}

/// Appends a bracket for each index of the cell at this place in row-major order.
///
/// Asks that the sizes are at least 1, that `count` is their product, and that the place is below it.
pub fn push_brackets(
    word: &mut Vec<u8>,
    sizes: &[i128],
    count: usize,
    place: usize,
) -> Result<(), NoMemory>
    requires sizes { AllByRecursion IsSize sizes.now }
    requires count { count ≡ cell_count sizes.now }
    requires place { place < count }
    ensures { OnOk result (word.new.items ≡ cell_word word.old.items (slice_index_or (row_major sizes.now) place [])) }
{
    let mut span = count;
    let mut left = place;
    for size in sizes {
        span /= *size as usize;
        push_bracket(word, left / span)?;
        left %= span;
    }
    Ok(())
}

// Appends an index in brackets.
fn push_bracket(word: &mut Vec<u8>, index: usize) -> Result<(), NoMemory>
    ensures { OnOk result (word.new.items ≡ word.old.items ++ bracket index) }
{
    let mut digits = Buffer::new();
    word.push(b'[')?;
    word.extend_from_slice(digits.format(index).as_bytes())?;
    word.push(b']')?;
    Ok(())
}
