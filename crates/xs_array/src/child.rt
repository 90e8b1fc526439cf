//! A `domain` child of an array: which cells it names, and what it misses.

ghost use Rattle.std.specs.Prelude.{◌≡◌, ◌<◌, ◌^◌, ◌++◌, IfOk};
ghost use Rattle.std.specs.List.{AllByRecursion, flat_map, list_all};
ghost use Rattle.std.specs.Option.{option_map};
ghost use Rattle.xs_fields.specs.Conditions.{first_missed};
ghost use Rattle.xs_fields.specs.Lists.{pieces_meet};
ghost use Rattle.xs_fields.specs.Words.{words_of};
ghost use Rattle.xs_model.specs.Sound.{IsSize, cell_count};
ghost use Rattle.xs_var.specs.Elements.{children_of, text_in};
ghost use Rattle.xs_array.specs.ArrayUnit.{domains_meet};
ghost use Rattle.xs_array.specs.DomainChild.{cell_word_meets, cell_words_meet, domain_child_meets, for_meets, is_cell_word, is_others, word_places};
ghost use Rattle.xs_array.specs.Owners.{IsCellWord};

use std::alloc::Global;
use xf_markup::{Node, Piece};
use xf_num::{NoMemory, Row};
use xf_text::FieldStop;
use xs_fields::{
    Condition, Word, are_inside, covered, earlier, is_blank, judge_pieces, judge_word, next_word,
    read_word,
};
use xs_var::{attribute, has_no_child, judge_naming, judge_spelling, one_text, text_of};

/// Whether the value of `for` is the one word `others`.
pub fn is_others(text: &[u8]) -> bool
    ensures { result ≡ is_others text.now }
{
    match next_word(text) {
        Some((word, rest)) => word == b"others".as_slice() && is_blank(rest),
        None => false,
    }
}

// Whether a word is one of the array with this name and these sizes.
fn is_cell_word(name: &[u8], sizes: &[i128], word: &Word) -> bool
    ensures { result ≡ is_cell_word name.now sizes.now word.now }
{
    word.name.as_slice() == name && are_inside(sizes, word.brackets.as_slice())
}

// What a word of `for` misses first.
fn judge_cell_word(
    alloc: Global,
    name: &[u8],
    sizes: &[i128],
    word: &[u8],
) -> Result<Option<Condition>, NoMemory>
    ensures { IfOk result (λ missed. missed ≡ first_missed (cell_word_meets name.now sizes.now word.now)) }
{
    match read_word(alloc, word) {
        Ok(read) => Ok(judge_naming(is_cell_word(name, sizes, &read))),
        // A word that is misspelt misses that before its name.
        Err(FieldStop::Refused(_)) => Ok(judge_word(word)),
        Err(FieldStop::Memory) => Err(NoMemory),
    }
}

// What the words of `for` miss first.
fn judge_cell_words(
    alloc: Global,
    name: &[u8],
    sizes: &[i128],
    text: &[u8],
) -> Result<Option<Condition>, NoMemory>
    ensures { IfOk result (λ missed. missed ≡ first_missed (cell_words_meet name.now sizes.now text.now)) }
{
    let mut missed = None;
    let mut rest = text;
    while let Some((word, more)) = next_word(rest) {
        let judged = judge_cell_word(alloc, name, sizes, word)?;
        missed = earlier(missed, judged);
        rest = more;
    }
    Ok(missed)
}

// What the value of `for` misses first.
fn judge_for(
    alloc: Global,
    name: &[u8],
    sizes: &[i128],
    value: Option<&[u8]>,
) -> Result<Option<Condition>, NoMemory>
    ensures { IfOk result (λ missed. missed ≡ first_missed (for_meets name.now sizes.now (option_map (λ x. x.now) value.entry))) }
{
    match value {
        Some(text) => {
            if is_others(text) {
                Ok(None)
            } else {
                judge_cell_words(alloc, name, sizes, text)
            }
        }
        None => Ok(judge_spelling(false)),
    }
}

// What a `domain` child misses first beside its attributes and children.
fn judge_domain_child(
    alloc: Global,
    name: &[u8],
    sizes: &[i128],
    node: &Node,
) -> Result<Option<Condition>, NoMemory>
    ensures { IfOk result (λ missed. missed ≡ first_missed (domain_child_meets name.now sizes.now node.now)) }
{
    let cells = attribute(node.attrs.as_slice(), b"for");
    let named = judge_for(alloc, name, sizes, cells)?;
    let text = judge_text(alloc, node)?;
    Ok(earlier(named, text))
}

// What the domain text of an element misses first.
fn judge_text(alloc: Global, node: &Node) -> Result<Option<Condition>, NoMemory>
    ensures { IfOk result (λ missed. missed ≡ first_missed (pieces_meet (text_in node.now.pieces))) }
{
    match one_text(node.pieces.as_slice()) {
        Some(text) => Ok(judge_pieces(text)),
        None => {
            let text = text_of(alloc, node)?;
            Ok(judge_pieces(text.as_slice()))
        }
    }
}

// What the children miss first, all `domain`.
fn judge_domain_children(
    alloc: Global,
    name: &[u8],
    sizes: &[i128],
    pieces: &[Piece],
) -> Result<Option<Condition>, NoMemory>
    ensures { IfOk result (λ missed. missed ≡ first_missed (λ k. list_all (λ d. domain_child_meets name.now sizes.now d k) (children_of pieces.now))) }
{
    let mut missed = None;
    for piece in pieces {
        match piece {
            Piece::Inner(node) => {
                let judged = judge_domain_child(alloc, name, sizes, node)?;
                missed = earlier(missed, judged);
            }
            Piece::Words(_) => {}
        }
    }
    Ok(missed)
}

/// What the domains of an array without `as` miss first: those of its `domain` children, or that of its text.
pub fn judge_domains(
    alloc: Global,
    name: &[u8],
    sizes: &[i128],
    pieces: &[Piece],
    text: &[u8],
) -> Result<Option<Condition>, NoMemory>
    ensures { IfOk result (λ missed. missed ≡ first_missed (domains_meet name.now sizes.now (children_of pieces.now) text.now)) }
{
    if has_no_child(pieces) {
        Ok(judge_pieces(text))
    } else {
        let children = judge_domain_children(alloc, name, sizes, pieces)?;
        Ok(earlier(judge_spelling(is_blank(text)), children))
    }
}

// Appends the places of the cells that a word covers.
fn push_word_places(
    alloc: Global,
    places: &mut Row<u64>,
    sizes: &[i128],
    word: &[u8],
) -> Result<(), NoMemory>
    requires sizes { AllByRecursion IsSize sizes.now }
    requires few { cell_count sizes.now < 2 ^ 64 }
    requires cell { IsCellWord sizes.now word.now }
    ensures { IfOk result (λ _. places.new ≡ places.old ++ word_places sizes.now word.now) }
{
    match read_word(alloc, word) {
        Ok(read) => {
            let more = covered(alloc, sizes, read.brackets.as_slice())?;
            places.extend(more.as_slice())
        }
        Err(FieldStop::Refused(_)) => Ok(()),
        Err(FieldStop::Memory) => Err(NoMemory),
    }
}

/// The places of the cells that the words of `for` cover.
pub fn places_of(alloc: Global, sizes: &[i128], text: &[u8]) -> Result<Row<u64>, NoMemory>
    requires sizes { AllByRecursion IsSize sizes.now }
    requires few { cell_count sizes.now < 2 ^ 64 }
    requires cells { AllByRecursion (IsCellWord sizes.now) (words_of text.now) }
    ensures { IfOk result (λ places. places ≡ flat_map (word_places sizes.now) (words_of text.now)) }
{
    let mut places = Row::new(alloc);
    let mut rest = text;
    while let Some((word, more)) = next_word(rest) {
        push_word_places(alloc, &mut places, sizes, word)?;
        rest = more;
    }
    Ok(places)
}
