//! Which `domain` child names each cell first.

ghost use Rattle.std.specs.Prelude.{◌≡◌, ◌<◌, ◌≤◌, ◌^◌, ◌&&◌, true, length, map, nat_eq, replicate, is_some, IfOk};
ghost use Rattle.std.specs.List.{AllByRecursion, list_all, list_any, range_with_len};
ghost use Rattle.xs_model.specs.Sound.{IsSize, cell_count};
ghost use Rattle.xs_var.specs.Elements.{children_of};
ghost use Rattle.xs_array.specs.DomainChild.{are_apart, cell_at, named_by, names_place};
ghost use Rattle.xs_array.specs.Owners.{AreClaimed, HasCells, are_free, child_domain, for_text, owner_from, picked};

use crate::child::{is_others, places_of};
use std::alloc::Global;
use xf_markup::{Node, Piece};
use xf_num::{Domain, NoMemory, Row};
use xs_model::Cells;
use xs_var::{attribute, one_text, text_domain, text_of};

// Whether no cell at these places is named yet.
fn are_free(owners: &[usize], places: &[u64]) -> bool
    requires { AllByRecursion (λ p. p < length owners.now) places.now }
    ensures { result ≡ are_free owners.now places.now }
{
    for place in places {
        if owners[*place as usize] != 0 {
            return false;
        }
    }
    true
}

// Gives the free cells at these places to the child of this number.
fn claim(owners: &mut [usize], places: &[u64], number: usize)
    requires inside { AllByRecursion (λ p. p < length owners.old) places.now }
    requires number { 0 < number }
    ensures { AreClaimed owners.old owners.new (λ p. list_any (nat_eq p) places.now) number }
{
    for place in places {
        if owners[*place as usize] == 0 {
            owners[*place as usize] = number;
        }
    }
}

// Gives all free cells to the child of this number.
fn claim_others(owners: &mut [usize], number: usize)
    ensures { AreClaimed owners.old owners.new (λ p. true) number }
{
    for owner in owners.iter_mut() {
        if *owner == 0 {
            *owner = number;
        }
    }
}

// The value of `for`.
fn for_text(node: &Node) -> &[u8]
    ensures { result.now ≡ for_text node.now }
{
    match attribute(node.attrs.as_slice(), b"for") {
        Some(text) => text,
        None => &[],
    }
}

// Gives the cells that a `domain` child names, where they are free, to its number. Answers whether those that it
// names by words were all free.
fn claim_child(
    alloc: Global,
    owners: &mut [usize],
    sizes: &[i128],
    node: &Node,
    number: usize,
) -> Result<bool, NoMemory>
    requires sizes { AllByRecursion IsSize sizes.now }
    requires count { length owners.old ≡ cell_count sizes.now }
    requires few { cell_count sizes.now < 2 ^ 64 }
    requires cells { HasCells sizes.now node.now }
    requires number { 0 < number }
    ensures free { IfOk result (λ free. free ≡ are_free owners.old (named_by sizes.now node.now).places) }
    ensures claimed { IfOk result (λ _. AreClaimed owners.old owners.new (names_place (named_by sizes.now node.now)) number) }
{
    let text = for_text(node);
    if is_others(text) {
        claim_others(owners, number);
        return Ok(true);
    }
    let places = places_of(alloc, sizes, text)?;
    let free = are_free(owners, places.as_slice());
    claim(owners, places.as_slice(), number);
    Ok(free)
}

// The domain of a `domain` child.
fn child_domain(alloc: Global, node: &Node) -> Result<Option<Domain>, NoMemory>
    ensures { IfOk result (λ domain. domain ≡ child_domain node.now) }
{
    match one_text(node.pieces.as_slice()) {
        Some(text) => {
            let domain = text_domain(alloc, text)?;
            Ok(domain)
        }
        None => {
            let text = text_of(alloc, node)?;
            let domain = text_domain(alloc, text.as_slice())?;
            Ok(domain)
        }
    }
}

/// What is known of the `domain` children of an array.
#[derive(Drop)]
struct Children {
    /// The domain of each.
    domains: Cells,
    /// No cell is named by the words of one where one before it names it.
    apart: bool,
}

fn both(a: bool, b: bool) -> bool
    ensures { result ≡ (a && b) }
{
    a && b
}

// Gives each cell to the first `domain` child that names it, by its number from 1 on.
fn claim_all(
    alloc: Global,
    owners: &mut [usize],
    sizes: &[i128],
    pieces: &[Piece],
) -> Result<Children, NoMemory>
    requires sizes { AllByRecursion IsSize sizes.now }
    requires count { length owners.old ≡ cell_count sizes.now }
    requires few { cell_count sizes.now < 2 ^ 64 }
    requires free { owners.old ≡ replicate (cell_count sizes.now) 0 }
    requires cells { AllByRecursion (HasCells sizes.now) (children_of pieces.now) }
    ensures domains { IfOk result (λ c. c.domains ≡ map child_domain (children_of pieces.now)) }
    ensures apart { IfOk result (λ c. c.apart ≡ are_apart (map (named_by sizes.now) (children_of pieces.now))) }
    ensures owners { IfOk result (λ _. owners.new ≡ map (owner_from 0 (map (named_by sizes.now) (children_of pieces.now))) (range_with_len 0 (cell_count sizes.now))) }
{
    let mut domains = Row::new(alloc);
    let mut apart = true;
    for piece in pieces {
        match piece {
            Piece::Inner(node) => {
                let domain = child_domain(alloc, node)?;
                domains.push(domain)?;
                let free = claim_child(alloc, owners, sizes, node, domains.len())?;
                apart = both(apart, free);
            }
            Piece::Words(_) => {}
        }
    }
    Ok(Children { domains, apart })
}

// A copy of a cell.
pub fn copied_cell(alloc: Global, cell: &Option<Domain>) -> Result<Option<Domain>, NoMemory>
    ensures { IfOk result (λ copy. copy ≡ cell.now) }
{
    match cell {
        Some(domain) => Ok(Some(domain.copy(alloc)?)),
        None => Ok(None),
    }
}

// The domain of the child of this number.
fn picked(
    alloc: Global,
    domains: &[Option<Domain>],
    number: usize,
) -> Result<Option<Domain>, NoMemory>
    requires { number ≤ length domains.now }
    ensures { IfOk result (λ cell. cell ≡ picked domains.now number) }
{
    if number == 0 {
        Ok(None)
    } else {
        copied_cell(alloc, &domains[number - 1])
    }
}

// The cells, where the number of the child of each is told.
fn picked_cells(
    alloc: Global,
    domains: &[Option<Domain>],
    owners: &[usize],
) -> Result<Cells, NoMemory>
    requires { AllByRecursion (λ k. k ≤ length domains.now) owners.now }
    ensures { IfOk result (λ cells. cells ≡ map (picked domains.now) owners.now) }
{
    let mut cells = Row::with_room(alloc, owners.len())?;
    for owner in owners {
        cells.push(picked(alloc, domains, *owner)?)?;
    }
    Ok(cells)
}

// Whether each cell is defined.
fn are_defined(cells: &[Option<Domain>]) -> bool
    ensures { result ≡ list_all is_some cells.now }
{
    for cell in cells {
        if cell.is_none() {
            return false;
        }
    }
    true
}

/// The cells by `domain` children, and whether no domain is empty and no cell is named by two children.
pub fn child_cells(
    alloc: Global,
    sizes: &[i128],
    pieces: &[Piece],
    count: u64,
) -> Result<(Cells, bool), NoMemory>
    requires sizes { AllByRecursion IsSize sizes.now }
    requires count { cell_count sizes.now ≡ count }
    requires cells { AllByRecursion (HasCells sizes.now) (children_of pieces.now) }
    ensures cells { IfOk result (λ r. r.0 ≡ map (cell_at (map (named_by sizes.now) (children_of pieces.now))) (range_with_len 0 (cell_count sizes.now))) }
    ensures full { IfOk result (λ r. r.1 ≡ (list_all (λ d. is_some d.domain) (map (named_by sizes.now) (children_of pieces.now)) && are_apart (map (named_by sizes.now) (children_of pieces.now)))) }
{
    let mut owners = vec![in alloc; 0usize; count as usize]?;
    let children = claim_all(alloc, owners.as_mut_slice(), sizes, pieces)?;
    let domains = children.domains.as_slice();
    let cells = picked_cells(alloc, domains, owners.as_slice())?;
    Ok((cells, are_defined(domains) && children.apart))
}
