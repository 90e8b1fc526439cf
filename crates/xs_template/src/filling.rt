//! The gaps of a template's texts, filled.

ghost use Rattle.std.specs.Prelude.{◌≡◌, ◌++◌, drop, slice_index_or, [], IfOk, OnOk};
ghost use Rattle.std.specs.List.{flat_map};
ghost use Rattle.xs_template.specs.Template.{filled, gap_text, spaced, spot_text, with_space};

use crate::cutting::{Gap, Spot};
use std::alloc::Global;
use xf_num::{NoMemory, Row, Text};

/// The words from a place on.
fn words_from(words: &[Text], at: usize) -> &[Text]
    ensures { result.now ≡ drop at words.now }
{
    if at <= words.len() { &words[at..] } else { &[] }
}

/// Appends words, each behind a space.
fn push_behind(text: &mut Text, words: &[Text]) -> Result<(), NoMemory>
    ensures { OnOk result (text.new ≡ text.old ++ flat_map with_space words.now) }
{
    for word in words {
        text.push(b' ')?;
        text.extend(word.as_slice())?;
    }
    Ok(())
}

/// Appends words with a space between each two.
fn push_spaced(text: &mut Text, words: &[Text]) -> Result<(), NoMemory>
    ensures { OnOk result (text.new ≡ text.old ++ spaced words.now) }
{
    match words {
        [first, rest @ ..] => {
            text.extend(first.as_slice())?;
            push_behind(text, rest)
        }
        [] => Ok(()),
    }
}

/// Appends the word at a place, where there is one.
pub(crate) fn push_word(text: &mut Text, words: &[Text], place: usize) -> Result<(), NoMemory>
    ensures { OnOk result (text.new ≡ text.old ++ slice_index_or words.now place []) }
{
    match words.get(place) {
        Some(word) => text.extend(word.as_slice()),
        None => Ok(()),
    }
}

/// Appends what comes into a gap.
fn push_gap(text: &mut Text, gap: Gap, words: &[Text], asked: usize) -> Result<(), NoMemory>
    ensures { OnOk result (text.new ≡ text.old ++ gap_text words.now asked gap) }
{
    match gap {
        Gap::Place(place) => push_word(text, words, place as usize),
        Gap::Rest => push_spaced(text, words_from(words, asked)),
    }
}

/// Appends what a spot becomes.
fn push_spot(text: &mut Text, spot: &Spot, words: &[Text], asked: usize) -> Result<(), NoMemory>
    ensures { OnOk result (text.new ≡ text.old ++ spot_text words.now asked spot.now) }
{
    match spot {
        Spot::Plain(bytes) => text.extend(bytes.as_slice()),
        Spot::Open(gap) => push_gap(text, *gap, words, asked),
    }
}

/// The text of these spots with its gaps filled, where `asked` words have a place.
pub fn fill(alloc: Global, spots: &[Spot], words: &[Text], asked: usize) -> Result<Text, NoMemory>
    ensures { IfOk result (λ text. text ≡ filled words.now asked spots.now) }
{
    let mut text = Row::new(alloc);
    for spot in spots {
        push_spot(&mut text, spot, words, asked)?;
    }
    Ok(text)
}
