//! Tuples of a table.

ghost use Rattle.std.specs.Prelude.{◌≡◌, ◌∷◌, ◌++◌, [], ◌+◌, length, None, Some, IfOk};
ghost use Rattle.std.specs.List.{flat_map};
ghost use Rattle.std.specs.Option.{option_map};
ghost use Rattle.std.specs.Result.{result_err};
ghost use Rattle.xs_fields.specs.Conditions.{all_meet, earlier_of, first_missed, judged};
ghost use Rattle.xs_fields.specs.Integers.{integer_of};
ghost use Rattle.xs_fields.specs.Scanning.{joined};
ghost use Rattle.xs_fields.specs.Words.{is_byte, parts};
ghost use Rattle.xs_tables.specs.Groups.{is_room_for};
ghost use Rattle.xs_tables.specs.Tuples.{entries_in, entry_list, entry_meets, entry_of, is_small_entry, tuple_meets, tuple_of, tuples_meet, tuples_of};

use crate::groups::{has_room, inner, joined, judge_behind, next_group};
use smallvec::SmallVec;
use std::alloc::Global;
use xf_num::{NoMemory, Row};
use xs_fields::{Condition, Reading, cut, earlier, read_integer};
use xs_model::Tuple;

/// Tuples in order.
pub type Tuples = Row<Tuple>;

fn integer_entry(word: &[u8]) -> Result<Option<i128>, Condition>
    ensures { result ≡ judged is_small_entry (option_map Some (integer_of word.now)) }
{
    match read_integer(word) {
        Ok(value) => Ok(Some(value)),
        Err(missed) => Err(missed),
    }
}

/// What a word of a tuple spells, or the first of `Spelling` and `Magnitude` that it misses.
fn read_entry(word: &[u8]) -> Result<Option<i128>, Condition>
    ensures { result ≡ judged is_small_entry (entry_of word.now) }
{
    if word == b"*".as_slice() {
        Ok(None)
    } else {
        integer_entry(word)
    }
}

/// The entries of a tuple while it is read: those of a short one take no memory.
type Entries = SmallVec<Option<i128>, 8>;

/// Appends what a word spells. What is missed with it.
fn take_entry(
    entries: &mut Entries,
    missed: Option<Condition>,
    entry: Result<Option<i128>, Condition>,
) -> Result<Option<Condition>, NoMemory>
    ensures missed { IfOk result (λ m. m ≡ earlier_of missed (result_err entry)) }
    ensures value { IfOk result (λ _. entries.new.items ≡ entries.old.items ++ entry_list entry) }
{
    match entry {
        Ok(entry) => {
            entries.push(entry)?;
            Ok(earlier(missed, None))
        }
        Err(condition) => Ok(earlier(missed, Some(condition))),
    }
}

/// The entries between commas, and the first condition that they miss.
fn scan_entries(alloc: Global, inner: &[u8]) -> Result<Reading<Entries>, NoMemory>
    ensures missed { IfOk result (λ r. r.missed ≡ first_missed (all_meet entry_meets (parts (is_byte 44) inner.now))) }
    ensures value { IfOk result (λ r. r.value.items ≡ flat_map entries_in (parts (is_byte 44) inner.now)) }
{
    let mut entries = SmallVec::new(alloc);
    let mut missed = None;
    let mut rest = Some(inner);
    while let Some(bytes) = rest {
        let (word, more) = cut(bytes, b',');
        missed = take_entry(&mut entries, missed, read_entry(word))?;
        rest = more;
    }
    Ok(Reading {
        value: entries,
        missed,
    })
}

/// The entries of a group, and the first condition that it misses.
fn scan_tuple(alloc: Global, group: &[u8]) -> Result<Reading<Entries>, NoMemory>
    ensures missed { IfOk result (λ r. r.missed ≡ first_missed (tuple_meets group.now)) }
    ensures value { IfOk result (λ r. r.value.items ≡ tuple_of group.now) }
{
    match inner(group) {
        Some(inner) => scan_entries(alloc, inner),
        None => Ok(Reading {
            value: SmallVec::new(alloc),
            missed: Some(Condition::Spelling),
        }),
    }
}

/// Appends a tuple of these entries, with no room to spare.
fn push_tuple(alloc: Global, tuples: &mut Tuples, entries: &[Option<i128>]) -> Result<(), NoMemory>
    ensures { IfOk result (λ _. tuples.new ≡ tuples.old ++ entries.now ∷ []) }
{
    let tuple = Row::from_slice(alloc, entries)?;
    tuples.push(tuple)?;
    Ok(())
}

/// Appends the tuple of a group, where nothing is missed and its entries have room. What is missed with it.
fn take_tuple(
    alloc: Global,
    tuples: &mut Tuples,
    count: &mut u64,
    missed: Option<Condition>,
    group: &[u8],
    left: u64,
) -> Result<Option<Condition>, NoMemory>
    ensures missed { IfOk result (λ m. m ≡ joined missed (first_missed (tuple_meets group.now)) (is_room_for left count.old (length (tuple_of group.now)))) }
    ensures value { IfOk result (λ m. m ≡ None → tuples.new ≡ tuples.old ++ tuple_of group.now ∷ []) }
    ensures count { IfOk result (λ m. m ≡ None → count.new ≡ count.old + length (tuple_of group.now)) }
{
    let reading = scan_tuple(alloc, group)?;
    let more = reading.value.len() as u64;
    let room = has_room(left, *count, more);
    let next = joined(missed, reading.missed, room);
    if next.is_none() {
        push_tuple(alloc, tuples, reading.value.as_slice())?;
        *count += more;
    }
    Ok(next)
}

/// The tuples that a text denotes, and the first condition that the text misses where at most `left` entries are allowed:
/// `Spelling`, `Magnitude` or `Counting`. Past the limit no tuple is made, and the groups are judged to the end.
pub fn scan_tuples(alloc: Global, text: &[u8], left: u64) -> Result<Reading<Tuples>, NoMemory>
    ensures missed { IfOk result (λ r. r.missed ≡ first_missed (tuples_meet text.now left)) }
    ensures value { IfOk result (λ r. r.missed ≡ None → r.value ≡ tuples_of text.now) }
{
    let mut tuples = Row::new(alloc);
    let mut count = 0;
    let mut missed = None;
    let mut rest = text;
    while let Some((group, more)) = next_group(rest) {
        missed = take_tuple(alloc, &mut tuples, &mut count, missed, group, left)?;
        rest = more;
    }
    Ok(Reading {
        value: tuples,
        missed: earlier(missed, judge_behind(rest)),
    })
}
