//! The windows of a slide.

ghost use Rattle.std.specs.Prelude.{◌≡◌, ◌<◌, ◌≤◌, ◌+◌, ◌-◌, ◌%◌, ◌∷◌, ◌++◌, ◌^◌, length, slice_index_or, [], IfOk, OnOk};
ghost use Rattle.xs_template.specs.Template.{filled, gap_text, spot_text};
ghost use Rattle.xs_template.specs.Windows.{multiples_from, room, window};

use crate::cutting::{Gap, Spot};
use crate::filling::push_word;
use std::alloc::Global;
use xf_num::{NoMemory, Row, Text};

/// How many members a window may begin at.
pub fn room(circular: bool, wide: u64, len: u64) -> u64
    requires { len < 2 ^ 64 - 1 }
    ensures { result ≡ room circular wide len }
{
    if circular {
        len
    } else {
        (len + 1).saturating_sub(wide)
    }
}

/// Where the next window begins, before `end`; `end`, where there is none.
pub fn next_start(start: u64, offset: u128, end: u64) -> u64
    requires offset { 0 < offset }
    requires before { start < end }
    requires multiple { start % offset ≡ 0 }
    ensures value { multiples_from offset start end ≡ start ∷ multiples_from offset result end }
    ensures onward { start < result }
    ensures within { result ≤ end }
    ensures multiple { result < end → result % offset ≡ 0 }
{
    if offset < u128::from(end - start) {
        start + offset as u64
    } else {
        end
    }
}

/// Appends the member at a place of the window.
fn push_member(
    text: &mut Text,
    list: &[Text],
    start: usize,
    wide: usize,
    place: usize,
) -> Result<(), NoMemory>
    ensures { OnOk result (text.new ≡ text.old ++ slice_index_or (window wide list.now start) place []) }
{
    if place >= wide {
        return Ok(());
    }
    let left = list.len().saturating_sub(start);
    if place < left {
        push_word(text, list, start + place)
    } else {
        push_word(text, list, place - left)
    }
}

/// Appends what comes into a gap.
fn push_gap(
    text: &mut Text,
    gap: Gap,
    list: &[Text],
    start: usize,
    wide: usize,
) -> Result<(), NoMemory>
    ensures { OnOk result (text.new ≡ text.old ++ gap_text (window wide list.now start) wide gap) }
{
    match gap {
        Gap::Place(place) => push_member(text, list, start, wide, place as usize),
        Gap::Rest => Ok(()),
    }
}

/// Appends what a spot becomes.
fn push_spot(
    text: &mut Text,
    spot: &Spot,
    list: &[Text],
    start: usize,
    wide: usize,
) -> Result<(), NoMemory>
    ensures { OnOk result (text.new ≡ text.old ++ spot_text (window wide list.now start) wide spot.now) }
{
    match spot {
        Spot::Plain(bytes) => text.extend(bytes.as_slice()),
        Spot::Open(gap) => push_gap(text, *gap, list, start, wide),
    }
}

/// The text of these spots with its gaps filled by the window at `start`.
pub fn fill_window(
    alloc: Global,
    spots: &[Spot],
    list: &[Text],
    start: usize,
    wide: usize,
) -> Result<Text, NoMemory>
    ensures { IfOk result (λ text. text ≡ filled (window wide list.now start) wide spots.now) }
{
    let mut text = Row::new(alloc);
    for spot in spots {
        push_spot(&mut text, spot, list, start, wide)?;
    }
    Ok(text)
}
