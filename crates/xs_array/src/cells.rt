//! The cells of an array: how many there are, and their domains.

ghost use Rattle.std.specs.Prelude.{◌≡◌, ◌≤◌, ◌≤ℤ◌, ◌*◌, ◌&&◌, true, pos, map, replicate, sum, Some, is_some, codes, IfOk, SomeIff};
ghost use Rattle.std.specs.List.{AllByRecursion, list_any};
ghost use Rattle.std.specs.Option.{option_map};
ghost use Rattle.xs_model.specs.Names.{places_of};
ghost use Rattle.xs_model.specs.Outline.{outlines_of};
ghost use Rattle.xs_model.specs.Sound.{IsSize, cell_count, most_cells};
ghost use Rattle.xs_var.specs.Elements.{children_of, text_in, value_in};
ghost use Rattle.xs_var.specs.Like.{declaration};
ghost use Rattle.xs_var.specs.VarDomain.{values_in};
ghost use Rattle.xs_array.specs.Cells.{are_full, are_positive, array_cells, cells_from, cells_like, cells_named, is_content_full, is_same_list, stated_sizes};
ghost use Rattle.xs_array.specs.DomainChild.{are_apart, named_by};
ghost use Rattle.xs_array.specs.Owners.{HasCells};
ghost use Rattle.xs_array.specs.Reading.{HasContent, same_cells};

use crate::owners::{child_cells, copied_cell};
use std::alloc::Global;
use xf_markup::Node;
use xf_num::{Domain, MAX_ITEMS, MAX_VARIABLES, NoMemory, Row};
use xs_model::{Cells, Decl, Names};
use xs_var::{attribute, has_no_child, single_domain, text_domain, text_of, values_of};

/// Whether each size is at least 1.
pub fn are_positive(sizes: &[i128]) -> bool
    ensures { result ≡ are_positive sizes.now }
{
    for size in sizes {
        if *size < 1 {
            return false;
        }
    }
    true
}

// The product, where it is at most the greatest number of cells.
fn times(count: u64, size: i128) -> Option<u64>
    requires few { count ≤ most_cells }
    requires some { 1 ≤ count }
    requires size { pos 1 ≤ℤ size }
    ensures { SomeIff result (count * places_of size ≤ most_cells) (count * places_of size) }
{
    if size > i128::from(MAX_VARIABLES) {
        return None;
    }
    let next = count * size as u64;
    if next <= MAX_VARIABLES {
        Some(next)
    } else {
        None
    }
}

/// The number of cells, where it is at most the greatest.
pub fn cell_count(sizes: &[i128]) -> Option<u64>
    requires { are_positive sizes.now ≡ true }
    ensures { SomeIff result (cell_count sizes.now ≤ most_cells) (cell_count sizes.now) }
{
    let mut count: u64 = 1;
    for size in sizes {
        match times(count, *size) {
            Some(next) => count = next,
            None => return None,
        }
    }
    Some(count)
}

// So many cells with one domain.
fn equal_cells(alloc: Global, domain: &Option<Domain>, count: u64) -> Result<Cells, NoMemory>
    ensures { IfOk result (λ cells. cells ≡ replicate count domain.now) }
{
    let mut cells = Row::with_room(alloc, count as usize)?;
    for _ in 0..count {
        cells.push(copied_cell(alloc, domain)?)?;
    }
    Ok(cells)
}

// A copy of the cells.
fn copied_cells(alloc: Global, cells: &[Option<Domain>]) -> Result<Cells, NoMemory>
    ensures { IfOk result (λ copy. copy ≡ cells.now) }
{
    let mut copy = Row::with_room(alloc, cells.len())?;
    for cell in cells {
        copy.push(copied_cell(alloc, cell)?)?;
    }
    Ok(copy)
}

// Whether two lists of sizes are the same.
fn is_same_list(sizes: &[i128], others: &[i128]) -> bool
    ensures { result ≡ is_same_list sizes.now others.now }
{
    let mut rest = others;
    for size in sizes {
        match rest.split_first() {
            Some((first, more)) => {
                if *size != *first {
                    return false;
                }
                rest = more;
            }
            None => return false,
        }
    }
    rest.is_empty()
}

// The cells of a declaration of an array of these sizes.
fn cells_of<'a>(decl: &'a Decl, sizes: &[i128]) -> Option<&'a [Option<Domain>]>
    ensures { option_map (λ x. x.now) result ≡ same_cells sizes.now decl.now }
{
    match decl {
        Decl::Array {
            sizes: others,
            cells,
            ..
        } if is_same_list(sizes, others.as_slice()) => Some(cells.as_slice()),
        _ => None,
    }
}

// So many cells with a domain, where there is one.
fn one_for_all(
    alloc: Global,
    domain: Option<&Domain>,
    count: u64,
) -> Result<Option<Cells>, NoMemory>
    ensures { IfOk result (λ cells. cells ≡ option_map (λ d. replicate count (Some d)) (option_map (λ d. d.now) domain.entry)) }
{
    match domain {
        Some(domain) => {
            let cell = Some(domain.copy(alloc)?);
            Ok(Some(equal_cells(alloc, &cell, count)?))
        }
        None => Ok(None),
    }
}

// The cells that are taken from a declaration.
fn cells_like(
    alloc: Global,
    sizes: &[i128],
    decl: &Decl,
    count: u64,
) -> Result<Option<Cells>, NoMemory>
    requires { cell_count sizes.now ≡ count }
    ensures { IfOk result (λ cells. cells ≡ cells_like sizes.now decl.now) }
{
    match cells_of(decl, sizes) {
        Some(cells) => Ok(Some(copied_cells(alloc, cells)?)),
        None => one_for_all(alloc, single_domain(decl), count),
    }
}

// The declaration of a name. The names are those of the declarations.
fn declaration<'a>(decls: &'a [Decl], names: &Names, name: &[u8]) -> Option<&'a Decl>
    requires { names.now ≡ outlines_of decls.now }
    ensures { option_map (λ d. d.now) result ≡ declaration decls.now name.now }
{
    match names.position(name) {
        Some(at) => Some(&decls[at]),
        None => None,
    }
}

// The cells that are taken from the declaration of a name.
fn cells_from(
    alloc: Global,
    sizes: &[i128],
    decl: Option<&Decl>,
    count: u64,
) -> Result<Option<Cells>, NoMemory>
    requires { cell_count sizes.now ≡ count }
    ensures { IfOk result (λ cells. cells ≡ cells_from sizes.now (option_map (λ d. d.now) decl.entry)) }
{
    match decl {
        Some(decl) => cells_like(alloc, sizes, decl, count),
        None => Ok(None),
    }
}

// The cells by `domain` children, or by the text where there is none, and whether they are full.
fn named_cells(
    alloc: Global,
    sizes: &[i128],
    node: &Node,
    count: u64,
) -> Result<(Cells, bool), NoMemory>
    requires sizes { AllByRecursion IsSize sizes.now }
    requires count { cell_count sizes.now ≡ count }
    requires cells { AllByRecursion (HasCells sizes.now) (children_of node.now.pieces) }
    ensures cells { IfOk result (λ r. r.0 ≡ cells_named sizes.now (map (named_by sizes.now) (children_of node.now.pieces)) (text_in node.now.pieces)) }
    ensures full { IfOk result (λ r. r.1 ≡ (are_full (map (named_by sizes.now) (children_of node.now.pieces)) (text_in node.now.pieces) && are_apart (map (named_by sizes.now) (children_of node.now.pieces)))) }
{
    let pieces = node.pieces.as_slice();
    if has_no_child(pieces) {
        let text = text_of(alloc, node)?;
        let domain = text_domain(alloc, text.as_slice())?;
        let cells = equal_cells(alloc, &domain, count)?;
        Ok((cells, domain.is_some()))
    } else {
        child_cells(alloc, sizes, pieces, count)
    }
}

/// The cells of an array.
#[derive(Drop)]
pub struct Content {
    /// None where `as` does not fit.
    pub cells: Option<Cells>,
    /// No domain is empty, and no cell is named by two children.
    pub full: bool,
}

/// The cells of an array of so many.
pub fn read_content(
    alloc: Global,
    node: &Node,
    decls: &[Decl],
    names: &Names,
    sizes: &[i128],
    count: u64,
) -> Result<Content, NoMemory>
    requires names { names.now ≡ outlines_of decls.now }
    requires sizes { AllByRecursion IsSize sizes.now }
    requires stated { sizes.now ≡ stated_sizes node.now }
    requires count { cell_count sizes.now ≡ count }
    requires cells { HasContent node.now }
    ensures cells { IfOk result (λ r. r.cells ≡ array_cells decls.now node.now) }
    ensures full { IfOk result (λ r. r.full ≡ is_content_full (value_in (codes "as") node.now.attrs) node.now) }
{
    match attribute(node.attrs.as_slice(), b"as") {
        Some(name) => {
            let decl = declaration(decls, names, name);
            let cells = cells_from(alloc, sizes, decl, count)?;
            Ok(Content { cells, full: true })
        }
        None => {
            let (cells, full) = named_cells(alloc, sizes, node, count)?;
            Ok(Content {
                cells: Some(cells),
                full,
            })
        }
    }
}

// The number of values of a cell that are counted, where it is at most `left`.
fn cell_values(cell: &Option<Domain>, left: u64) -> Option<u64>
    ensures { SomeIff result (values_in cell.now ≤ left) (values_in cell.now) }
{
    match cell {
        Some(domain) => values_of(domain, left),
        None => Some(0),
    }
}

/// The number of values of cells that are counted, where it is at most `left`.
pub fn count_values(cells: &[Option<Domain>], left: u64) -> Option<u64>
    ensures { SomeIff result (sum (map values_in cells.now) ≤ left) (sum (map values_in cells.now)) }
{
    let mut count: u64 = 0;
    for cell in cells {
        match cell_values(cell, left - count) {
            Some(more) => count += more,
            None => return None,
        }
    }
    Some(count)
}

/// Whether some cell is defined.
pub fn has_cell(cells: &[Option<Domain>]) -> bool
    ensures { result ≡ list_any is_some cells.now }
{
    for cell in cells {
        if cell.is_some() {
            return true;
        }
    }
    false
}
