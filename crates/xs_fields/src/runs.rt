ghost use Rattle.std.specs.Prelude.{◌≡◌, ◌++◌, length, nat_abs, replicate, IfOk};
ghost use Rattle.std.specs.Result.{result_err};
ghost use Rattle.xs_fields.specs.Conditions.{answer, first_missed, judged, IsOrMemory};
ghost use Rattle.xs_fields.specs.Integers.{integer_of};
ghost use Rattle.xs_fields.specs.Lists.{copies, once, ints_meet, ints_of, is_small_run, members_in, run_of};
ghost use Rattle.xs_fields.specs.Scanning.{have_room, joined};

use crate::compare::at_most;
use crate::condition::Condition;
use crate::integer::{is_integer, read_integer, small_value};
use crate::reading::Reading;
use crate::scan::{has_room, joined};
use crate::words::{cut, next_word};
use std::alloc::Global;
use xf_num::{Ints, NoMemory, Row};
use xf_text::FieldStop;
use xs_model::Names;

/// An integer of a list, and how many copies of it stand there.
#[derive(Clone, Copy, Debug)]
pub struct Run {
    pub value: i128,
    pub times: i128,
}

/// The copies that `vxk` stands for.
fn copies(value: &[u8], times: &[u8]) -> Result<Run, Condition>
    ensures { result ≡ judged is_small_run (copies (integer_of value.now) (integer_of times.now)) }
{
    if !is_integer(value) || !is_integer(times) || !at_most(b"1", times) {
        return Err(Condition::Spelling);
    }
    match (small_value(value), small_value(times)) {
        (Some(value), Some(times)) => Ok(Run { value, times }),
        _ => Err(Condition::Magnitude),
    }
}

/// One copy of the integer that the word spells.
fn once(word: &[u8]) -> Result<Run, Condition>
    ensures { result ≡ judged is_small_run (once (integer_of word.now)) }
{
    match read_integer(word) {
        Ok(value) => Ok(Run { value, times: 1 }),
        Err(missed) => Err(missed),
    }
}

/// What a word of a list of integers spells, or the first of `Spelling` and `Magnitude` that it misses.
pub(crate) fn read_run(word: &[u8]) -> Result<Run, Condition>
    ensures { result ≡ judged is_small_run (run_of word.now) }
{
    let (value, behind) = cut(word, b'x');
    match behind {
        None => once(value),
        Some(behind) => {
            let (times, more) = cut(behind, b'x');
            match more {
                None => copies(value, times),
                Some(_) => Err(Condition::Spelling),
            }
        }
    }
}

/// Appends the copies, or some of them.
fn push_copies(ints: &mut Ints, run: Run) -> Result<(), NoMemory>
    ensures { IfOk result (λ _. ints.new ≡ ints.old ++ replicate (nat_abs run.times) run.value) }
{
    for _ in 0..run.times.unsigned_abs() {
        ints.push(run.value)?;
    }
    Ok(())
}

/// Appends the members of a word, where nothing is missed and they have room. What is missed with it.
fn take_run(
    ints: &mut Ints,
    missed: Option<Condition>,
    run: Result<Run, Condition>,
    left: u64,
) -> Result<Option<Condition>, NoMemory>
    ensures missed { IfOk result (λ m. m ≡ joined missed (result_err run) (have_room left ints.old (length (members_in run)))) }
    ensures value { IfOk result (λ m. m ≡ None → ints.new ≡ ints.old ++ members_in run) }
{
    match run {
        Ok(run) => {
            let room = has_room(left, ints.len(), run.times.unsigned_abs());
            let next = joined(missed, None, room);
            if next.is_none() {
                push_copies(ints, run)?;
            }
            Ok(next)
        }
        Err(condition) => {
            let room = has_room(left, ints.len(), 0);
            Ok(joined(missed, Some(condition), room))
        }
    }
}

/// The list of integers that a text denotes, and the first condition that the text misses where at most `left` members
/// are allowed: `Spelling`, `Magnitude` or `Counting`. Past the limit no member is made, and the words are judged to the
/// end.
pub fn scan_ints(alloc: Global, text: &[u8], left: u64) -> Result<Reading<Ints>, NoMemory>
    ensures missed { IfOk result (λ r. r.missed ≡ first_missed (ints_meet text.now left)) }
    ensures value { IfOk result (λ r. r.missed ≡ None → r.value ≡ ints_of text.now) }
{
    let mut ints = Row::new(alloc);
    let mut missed = None;
    let mut rest = text;
    while let Some((word, more)) = next_word(rest) {
        missed = take_run(&mut ints, missed, read_run(word), left)?;
        rest = more;
    }
    Ok(Reading {
        value: ints,
        missed,
    })
}

/// The list of integers that a text denotes: integers, and words `vxk` for `k` copies of `v`.
///
/// A misspelt word is F4, a magnitude above 2^126 - 1 is F10, and more than `left` members are F6: the first of these
/// over the whole text. No member past `left` is made. Names stand in no such list; it takes them as the readers of
/// other lists do.
pub fn read_ints(alloc: Global, text: &[u8], names: &Names, left: u64) -> Result<Ints, FieldStop>
    ensures { IsOrMemory result (answer (ints_meet text.now left) (ints_of text.now)) }
{
    let _names = names;
    let reading = scan_ints(alloc, text, left)?;
    match reading.missed {
        Some(missed) => Err(FieldStop::Refused(missed.kind())),
        None => Ok(reading.value),
    }
}
