ghost use Rattle.std.specs.Prelude.{◌≡◌, ◌+◌, ◌*◌, ◌<◌, ◌≤◌, ◌≤ℤ◌, ◌++◌, ◌^◌, true, ℕ, [], ◌∷◌, length, map, pos, IfOk};
ghost use Rattle.std.specs.List.{AllByRecursion, flat_map, range_with_len};
ghost use Rattle.xs_model.specs.Names.{places_of};
ghost use Rattle.xs_model.specs.Sound.{IsSize, cell_count};
ghost use Rattle.xs_fields.specs.Cells.{are_inside, covered_places, first_index, index_count, indices, is_inside, widened_by, HaveRoom};

use crate::variable::Bracket;
use std::alloc::Global;
use xf_num::{NoMemory, Row};

/// Places of cells of an array in row-major order.
pub type Places = Row<u64>;

/// Whether the indices that the bracket covers lie below the size.
fn is_inside(size: i128, bracket: Bracket) -> bool
    ensures { result ≡ is_inside size bracket }
{
    match bracket {
        Bracket::At(index) => 0 <= index && index < size,
        Bracket::Between(span) => { 0 <= span.lo() && span.lo() <= span.hi() && span.hi() < size }
        Bracket::Every => true,
    }
}

/// Whether there is one bracket for each size, and each lies inside.
pub fn are_inside(sizes: &[i128], brackets: &[Bracket]) -> bool
    ensures { result ≡ are_inside sizes.now brackets.now }
{
    if sizes.len() != brackets.len() {
        return false;
    }
    for i in 0..sizes.len() {
        if !is_inside(sizes[i], brackets[i]) {
            return false;
        }
    }
    true
}

/// The first index that a bracket covers, and how many it covers.
fn extent(size: i128, bracket: Bracket) -> (u64, u64)
    requires size { pos 1 ≤ℤ size }
    requires few { places_of size < 2 ^ 64 }
    requires inside { is_inside size bracket ≡ true }
    ensures first { result.0 ≡ first_index bracket }
    ensures count { result.1 ≡ index_count size bracket }
    ensures within { result.0 + result.1 ≤ places_of size }
{
    match bracket {
        Bracket::At(index) => (index as u64, 1),
        Bracket::Between(span) => (span.lo() as u64, (span.hi() - span.lo()) as u64 + 1),
        Bracket::Every => (0, size as u64),
    }
}

/// Appends as many places from `start` on, or some of them.
fn push_run(places: &mut Places, start: u64, count: u64) -> Result<(), NoMemory>
    requires { start + count < 2 ^ 64 }
    ensures { IfOk result (λ _. places.new ≡ places.old ++ range_with_len start count) }
{
    for place in start..start + count {
        places.push(place)?;
    }
    Ok(())
}

/// The places of the cells one dimension further.
fn widened(alloc: Global, places: &[u64], size: i128, bracket: Bracket) -> Result<Places, NoMemory>
    requires size { pos 1 ≤ℤ size }
    requires few { places_of size < 2 ^ 64 }
    requires inside { is_inside size bracket ≡ true }
    requires room { HaveRoom (places_of size) (2 ^ 64) places.now }
    ensures { IfOk result (λ next. next ≡ widened_by size bracket places.now) }
{
    let (first, count) = extent(size, bracket);
    let mut next = Row::new(alloc);
    for place in places {
        push_run(&mut next, *place * size as u64 + first, count)?;
    }
    Ok(next)
}

/// The places of the cells that the brackets cover, in row-major order.
pub fn covered(alloc: Global, sizes: &[i128], brackets: &[Bracket]) -> Result<Places, NoMemory>
    requires sizes { AllByRecursion IsSize sizes.now }
    requires few { cell_count sizes.now < 2 ^ 64 }
    requires inside { are_inside sizes.now brackets.now ≡ true }
    ensures { IfOk result (λ places. places ≡ covered_places sizes.now brackets.now) }
{
    let mut places = Row::new(alloc);
    places.push(0)?;
    for i in 0..sizes.len() {
        places = widened(alloc, places.as_slice(), sizes[i], brackets[i])?;
    }
    Ok(places)
}
