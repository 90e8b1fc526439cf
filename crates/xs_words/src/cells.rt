//! The direct words of the cells that compact words cover.

ghost use Rattle.std.specs.Prelude.{◌≡◌, ◌≤◌, ◌<◌, ◌++◌, ◌^◌, ◌*◌, ◌≤ℤ◌, pos, true, Some, length, OnOk, IfOk};
ghost use Rattle.std.specs.List.{AllByRecursion, filter};
ghost use Rattle.xs_fields.specs.Cells.{are_inside};
ghost use Rattle.xs_model.specs.Names.{places_of};
ghost use Rattle.xs_model.specs.Outline.{IsSoundOutline, sizes_at};
ghost use Rattle.xs_model.specs.Sound.{IsSize, cell_count};
ghost use Rattle.xs_words.specs.Compact.{cell_words_of, cells_in, cells_of, is_defined, is_spelt, word_at, words_at};

use crate::args::{Words, copied};
use crate::compact::{covered_in, small_word};
use std::alloc::Global;
use xf_num::{NoMemory, Text};
use xs_fields::{Word, covered};
use xs_model::{Names, push_brackets};

fn times(count: usize, size: i128) -> usize
    requires size { pos 1 ≤ℤ size }
    requires small { places_of size < 2 ^ 64 }
    requires few { count * places_of size < 2 ^ 64 }
    ensures { result ≡ count * places_of size }
{
    count * size as usize
}

/// The number of cells of an array.
fn cell_total(sizes: &[i128]) -> usize
    requires sizes { AllByRecursion IsSize sizes.now }
    requires few { cell_count sizes.now < 2 ^ 64 }
    ensures { result ≡ cell_count sizes.now }
{
    let mut count: usize = 1;
    for size in sizes {
        count = times(count, *size);
    }
    count
}

/// The direct word of the cell at a place.
fn word_at(alloc: Global, sizes: &[i128], name: &[u8], place: u64) -> Result<Text, NoMemory>
    requires sizes { AllByRecursion IsSize sizes.now }
    requires few { cell_count sizes.now < 2 ^ 64 }
    requires place { place < cell_count sizes.now }
    ensures { IfOk result (λ word. word ≡ word_at sizes.now name.now place) }
{
    let mut word = Vec::from_slice(alloc, name)?;
    push_brackets(&mut word, sizes, cell_total(sizes), place as usize)?;
    copied(alloc, word.as_slice())
}

/// Whether the cell at a place is defined.
fn is_defined(names: &Names, at: usize, place: u64) -> bool
    requires { at < length names.now }
    ensures { result ≡ is_defined names.now at place }
{
    names.cell(at, place).is_some()
}

/// How many of these cells are defined.
fn count_defined(names: &Names, at: usize, places: &[u64]) -> u64
    requires { at < length names.now }
    ensures value { result ≡ length (filter (is_defined names.now at) places.now) }
    ensures within { result ≤ length places.now }
{
    let mut count = 0;
    for place in places {
        if is_defined(names, at, *place) {
            count += 1;
        }
    }
    count
}

/// Appends the direct words of the defined ones among these cells, or some of them.
fn push_words(
    alloc: Global,
    words: &mut Words,
    names: &Names,
    at: usize,
    name: &[u8],
    places: &[u64],
) -> Result<(), NoMemory>
    requires within { at < length names.now }
    requires sound { AllByRecursion IsSoundOutline names.now }
    ensures { OnOk result (words.new ≡ words.old ++ words_at names.now name.now at places.now) }
{
    for place in places {
        if is_defined(names, at, *place) {
            let word = word_at(alloc, names.sizes(at), name, *place)?;
            words.push(word)?;
        }
    }
    Ok(())
}

/// Appends the direct words of the defined cells that a word covers in a declaration, or some of them.
fn push_at(
    alloc: Global,
    words: &mut Words,
    names: &Names,
    word: &Word,
    at: usize,
) -> Result<(), NoMemory>
    requires within { at < length names.now }
    requires inside { are_inside (sizes_at names.now at) word.now.brackets ≡ true }
    requires sound { AllByRecursion IsSoundOutline names.now }
    ensures { OnOk result (words.new ≡ words.old ++ cells_of names.now word.now (Some at)) }
{
    let places = covered(alloc, names.sizes(at), word.brackets.as_slice())?;
    push_words(
        alloc,
        words,
        names,
        at,
        word.name.as_slice(),
        places.as_slice(),
    )
}

/// Appends the direct words of the defined cells that a word covers, or some of them.
fn push_covered(
    alloc: Global,
    words: &mut Words,
    names: &Names,
    word: &Word,
) -> Result<(), NoMemory>
    ensures { OnOk result (words.new ≡ words.old ++ cells_in names.now (Some word.now)) }
{
    match covered_in(names, word) {
        Some(at) => push_at(alloc, words, names, word, at),
        None => Ok(()),
    }
}

/// Appends the direct words that a compact word stands for, or some of them.
pub(crate) fn push_cells(
    alloc: Global,
    words: &mut Words,
    names: &Names,
    word: &[u8],
) -> Result<(), NoMemory>
    requires { is_spelt word.now ≡ true }
    ensures { OnOk result (words.new ≡ words.old ++ cell_words_of names.now word.now) }
{
    let word = small_word(alloc, word)?;
    match &word {
        Some(word) => push_covered(alloc, words, names, word),
        None => Ok(()),
    }
}

fn count_at(alloc: Global, names: &Names, word: &Word, at: usize) -> Result<u64, NoMemory>
    requires within { at < length names.now }
    requires inside { are_inside (sizes_at names.now at) word.now.brackets ≡ true }
    ensures { IfOk result (λ count. count ≡ length (cells_of names.now word.now (Some at))) }
{
    let places = covered(alloc, names.sizes(at), word.brackets.as_slice())?;
    Ok(count_defined(names, at, places.as_slice()))
}

fn count_covered(alloc: Global, names: &Names, word: &Word) -> Result<u64, NoMemory>
    ensures { IfOk result (λ count. count ≡ length (cells_in names.now (Some word.now))) }
{
    match covered_in(names, word) {
        Some(at) => count_at(alloc, names, word, at),
        None => Ok(0),
    }
}

/// How many direct words a compact word stands for.
pub(crate) fn count_cells(alloc: Global, names: &Names, word: &[u8]) -> Result<u64, NoMemory>
    requires { is_spelt word.now ≡ true }
    ensures { IfOk result (λ count. count ≡ length (cell_words_of names.now word.now)) }
{
    let word = small_word(alloc, word)?;
    match &word {
        Some(word) => count_covered(alloc, names, word),
        None => Ok(0),
    }
}
