//! Variables.

ghost use Rattle.std.specs.Prelude.{◌≡◌, ◌++◌, ◌∷◌, [], ◌<◌, ◌^◌, ◌≤ℤ◌, pos, length, IfOk, OnOk};
ghost use Rattle.std.specs.List.{AllByRecursion, flat_map};
ghost use Rattle.xs_model.specs.Names.{bracket, places_of, words_of, domains_of, cell_words, defined, row_major};
ghost use Rattle.xs_model.specs.Sound.{IsSoundDecl, cell_count};
ghost use Rattle.lo_names.specs.Indices.{indices_at};
ghost use Rattle.lo_names.specs.Shown.{shown_var, shown_each, shown_vars, ShowsAll};

use crate::names::spell;
use fz_model::{FzVar, FzVars};
use itoa::Buffer;
use std::alloc::Global;
use xf_num::{Domain, NoMemory, Row, Text};
use xs_model::Decl;

/// The variables of sound declarations have the names that their words are spelled by, and their domains.
pub fn all_shown()
    ensures { ShowsAll }
{}

/// The FlatZinc variables of sound declarations, in order: a cell of an array that has no domain has none.
pub fn named_vars(alloc: Global, decls: &[Decl]) -> Result<FzVars, NoMemory>
    requires { AllByRecursion IsSoundDecl decls.now }
    ensures { IfOk result (λ vars. vars ≡ shown_vars decls.now) }
{
    let mut vars = Row::new(alloc);
    for decl in decls {
        push_decl(alloc, decl, &mut vars)?;
    }
    Ok(vars)
}

fn push_decl(alloc: Global, decl: &Decl, vars: &mut FzVars) -> Result<(), NoMemory>
    requires { IsSoundDecl decl.now }
    ensures { OnOk result (vars.new ≡ vars.old ++ shown_each (words_of decl.now) (domains_of decl.now)) }
{
    match decl {
        Decl::One { name, domain } => push_var(alloc, name.as_slice(), domain, vars)?,
        Decl::Array { name, sizes, cells } => push_cells(
            alloc,
            name.as_slice(),
            sizes.as_slice(),
            cells.as_slice(),
            vars,
        )?,
    }
    Ok(())
}

fn push_var(alloc: Global, word: &[u8], domain: &Domain, vars: &mut FzVars) -> Result<(), NoMemory>
    ensures { OnOk result (vars.new ≡ vars.old ++ shown_var word.now domain.now ∷ []) }
{
    vars.push(FzVar {
        name: spell(alloc, word)?,
        boolean: false,
        domain: domain.copy(alloc)?,
        equal: None,
        shown: true,
    })?;
    Ok(())
}

// The variables of an array: `word` is written anew for each defined cell.
fn push_cells(
    alloc: Global,
    name: &[u8],
    sizes: &[i128],
    cells: &[Option<Domain>],
    vars: &mut FzVars,
) -> Result<(), NoMemory>
    requires sizes { AllByRecursion (λ n. pos 1 ≤ℤ n) sizes.now }
    requires cells { length cells.now ≡ cell_count sizes.now }
    ensures { OnOk result (vars.new ≡ vars.old ++ shown_each (cell_words name.now (row_major sizes.now) cells.now) (defined cells.now)) }
{
    let mut word = Row::new(alloc);
    word.extend(name)?;
    for (place, cell) in cells.iter().enumerate() {
        if let Some(domain) = cell {
            word.truncate(name.len());
            push_indices(&mut word, sizes, place as u64, cells.len() as u64)?;
            push_var(alloc, word.as_slice(), domain, vars)?;
        }
    }
    Ok(())
}

// The indices of the cell at a place of an array of `count` cells, counted in row-major order.
fn push_indices(word: &mut Text, sizes: &[i128], place: u64, count: u64) -> Result<(), NoMemory>
    requires sizes { AllByRecursion (λ n. pos 1 ≤ℤ n) sizes.now }
    requires cells { count ≡ cell_count sizes.now }
    ensures { OnOk result (word.new ≡ word.old ++ flat_map bracket (indices_at sizes.now place)) }
{
    let mut stride = count;
    let mut rest = place;
    for size in sizes {
        stride /= places(*size);
        push_index(word, rest / stride)?;
        rest %= stride;
    }
    Ok(())
}

// A size as a number of places.
fn places(size: i128) -> u64
    requires positive { pos 1 ≤ℤ size }
    requires fits { places_of size < 2 ^ 64 }
    ensures { result ≡ places_of size }
{
    size as u64
}

fn push_index(word: &mut Text, index: u64) -> Result<(), NoMemory>
    ensures { OnOk result (word.new ≡ word.old ++ bracket index) }
{
    let mut buffer = Buffer::new();
    word.extend(b"[")?;
    word.extend(buffer.format(index).as_bytes())?;
    word.extend(b"]")?;
    Ok(())
}
