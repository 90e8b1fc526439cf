//! Origins that are tuples of direct words.

ghost use Rattle.std.specs.Prelude.{◌≡◌, ◌∷◌, ◌++◌, [], ◌+◌, length, map, None, IfOk};
ghost use Rattle.xs_boxes.specs.Tuples.{origin_of, tuple_meets, width_of};
ghost use Rattle.xs_conditions.specs.Single.{direct_meets, direct_of};
ghost use Rattle.xs_fields.specs.Conditions.{all_meet, first_missed};
ghost use Rattle.xs_fields.specs.Scanning.{joined};
ghost use Rattle.xs_fields.specs.Words.{is_byte, parts};
ghost use Rattle.xs_tables.specs.Groups.{groups_meet, groups_of, is_room_for};

use crate::widths::count_parts;
use std::alloc::Global;
use xf_num::{NoMemory, Row, Vars};
use xs_conditions::scan_direct;
use xs_fields::{Condition, Reading, cut, earlier};
use xs_model::Names;
use xs_tables::{has_room, inner, joined, judge_behind, next_group};

// The variables between commas, and the first condition that they miss.
fn scan_entries(alloc: Global, inner: &[u8], names: &Names) -> Result<Reading<Vars>, NoMemory>
    ensures missed { IfOk result (λ r. r.missed ≡ first_missed (all_meet (direct_meets names.now) (parts (is_byte 44) inner.now))) }
    ensures value { IfOk result (λ r. r.missed ≡ None → r.value ≡ map (direct_of names.now) (parts (is_byte 44) inner.now)) }
    ensures width { IfOk result (λ r. length r.value ≡ length (parts (is_byte 44) inner.now)) }
{
    let mut entries = Row::with_room(alloc, count_parts(inner))?;
    let mut missed = None;
    let mut rest = Some(inner);
    while let Some(bytes) = rest {
        let (word, more) = cut(bytes, b',');
        let entry = scan_direct(alloc, names, word)?;
        entries.push(entry.value)?;
        missed = earlier(missed, entry.missed);
        rest = more;
    }
    Ok(Reading {
        value: entries,
        missed,
    })
}

// The variables of a tuple, and the first condition that it misses.
fn scan_tuple(alloc: Global, group: &[u8], names: &Names) -> Result<Reading<Vars>, NoMemory>
    ensures missed { IfOk result (λ r. r.missed ≡ first_missed (tuple_meets (direct_meets names.now) group.now)) }
    ensures value { IfOk result (λ r. r.missed ≡ None → r.value ≡ origin_of names.now group.now) }
    ensures width { IfOk result (λ r. length r.value ≡ width_of group.now) }
{
    match inner(group) {
        Some(inner) => scan_entries(alloc, inner, names),
        None => Ok(Reading {
            value: Row::new(alloc),
            missed: Some(Condition::Spelling),
        }),
    }
}

// Appends the variables of a tuple, where nothing is missed and they have room. What is missed with it.
fn take_tuple(
    alloc: Global,
    rows: &mut Row<Vars>,
    count: &mut u64,
    missed: Option<Condition>,
    group: &[u8],
    names: &Names,
    left: u64,
) -> Result<Option<Condition>, NoMemory>
    ensures missed { IfOk result (λ m. m ≡ joined missed (first_missed (tuple_meets (direct_meets names.now) group.now)) (is_room_for left count.old (width_of group.now))) }
    ensures value { IfOk result (λ m. m ≡ None → rows.new ≡ rows.old ++ origin_of names.now group.now ∷ []) }
    ensures count { IfOk result (λ m. m ≡ None → count.new ≡ count.old + width_of group.now) }
{
    let reading = scan_tuple(alloc, group, names)?;
    let more = reading.value.len() as u64;
    let room = has_room(left, *count, more);
    let next = joined(missed, reading.missed, room);
    if next.is_none() {
        rows.push(reading.value)?;
        *count += more;
    }
    Ok(next)
}

/// The origins that a text of tuples denotes, and the first condition that the text misses where at most `left` entries are
/// allowed. Past the limit no row is kept, and the tuples are judged to the end.
pub(crate) fn scan_origins(
    alloc: Global,
    text: &[u8],
    names: &Names,
    left: u64,
) -> Result<Reading<Row<Vars>>, NoMemory>
    ensures missed { IfOk result (λ r. r.missed ≡ first_missed (groups_meet (tuple_meets (direct_meets names.now)) (origin_of names.now) text.now left)) }
    ensures value { IfOk result (λ r. r.missed ≡ None → r.value ≡ map (origin_of names.now) (groups_of text.now)) }
{
    let mut rows = Row::new(alloc);
    let mut count = 0;
    let mut missed = None;
    let mut rest = text;
    while let Some((group, more)) = next_group(rest) {
        missed = take_tuple(alloc, &mut rows, &mut count, missed, group, names, left)?;
        rest = more;
    }
    Ok(Reading {
        value: rows,
        missed: earlier(missed, judge_behind(rest)),
    })
}
