//! The table of words: its rows, what each word of a row may be, and the call of words that are a row.

ghost use Rattle.std.specs.Prelude.{◌≡◌, Some, None, map, string_bytes, if◌then◌else◌};
ghost use Rattle.xf_words.specs.Rows.{RowsAlone};
ghost use Rattle.xf_words.specs.Words.{call_by, call_of, command_of, first_call, fit, has_one_dash, names_file, no_numbers, put, rows, slots_of, spelling};

use crate::call::{Call, Command, Numbers};
use crate::numbers::number_in;

/// A word that is asked for as it is.
#[derive(Clone, Copy, Debug, PartialEq, Eq)]
pub enum Name {
    ToFzn,
    Show,
}

/// What a word may stand for.
#[derive(Clone, Copy, Debug, PartialEq, Eq)]
pub enum Slot {
    /// This word.
    Word(Name),
    File,
    Solution,
    /// Digits of a value up to 2^63 - 1.
    Bound,
    /// Digits of a value from 1 to this one.
    Size(u64),
    /// Digits of a value up to 2^64 - 1.
    Number,
}

/// The rows of the table of words.
#[derive(Clone, Copy, Debug, PartialEq, Eq)]
pub enum Row {
    ToFzn,
    Show,
}

const ROWS: [Row; 2] = [Row::ToFzn, Row::Show];

impl Name {
    fn spelling(self) -> &'static str
        ensures { result.now ≡ spelling self }
    {
        match self {
            Name::ToFzn => "to-fzn",
            Name::Show => "show",
        }
    }
}

impl Row {
    fn slots(self) -> &'static [Slot]
        ensures { result.now ≡ slots_of self }
    {
        match self {
            Row::ToFzn => &[Slot::Word(Name::ToFzn), Slot::File],
            Row::Show => &[Slot::Word(Name::Show), Slot::File],
        }
    }

    fn command(self) -> Command
        ensures { result ≡ command_of self }
    {
        match self {
            Row::ToFzn => Command::ToFzn,
            Row::Show => Command::Show,
        }
    }

    // The call of the words by this row.
    fn read(self, words: &[String]) -> Option<Call>
        ensures { result ≡ call_by self (map string_bytes words.now) }
    {
        match fit(self.slots(), words, NO_NUMBERS) {
            Some(numbers) => Some(Call {
                command: self.command(),
                numbers,
            }),
            None => None,
        }
    }
}

// The numbers where no word is one.
const NO_NUMBERS: Numbers = Numbers {
    bound: None,
    size: 0,
    number: 0,
};

/// The call of the words; None exactly where they are no row of the table. Takes no memory.
pub fn read_call(words: &[String]) -> Option<Call>
    ensures { result ≡ call_of (map string_bytes words.now) }
{
    if !has_one_dash(words) {
        return None;
    }
    first_call(&ROWS, words)
}

/// Does nothing: its clause is the law of rows. Words have a call exactly where at most one of them is `-` and they
/// are a row, and their call is the command of such a row, with the numbers that its words say.
pub fn rows_alone()
    ensures { RowsAlone }
{}

// The call of the words by the first of these rows that has one.
fn first_call(rows: &[Row], words: &[String]) -> Option<Call>
    ensures { result ≡ first_call rows.now (map string_bytes words.now) }
{
    for row in rows {
        if let Some(call) = row.read(words) {
            return Some(call);
        }
    }
    None
}

// At most one of the words is `-`.
fn has_one_dash(words: &[String]) -> bool
    ensures { result ≡ has_one_dash (map string_bytes words.now) }
{
    words.iter().filter(|word| word.as_str() == "-").count() <= 1
}

// The numbers of the words, where each stands for its slot.
pub(crate) fn fit(slots: &[Slot], words: &[String], numbers: Numbers) -> Option<Numbers>
    ensures { result ≡ fit slots.now (map string_bytes words.now) numbers }
{
    match slots {
        [] => {
            if words.is_empty() {
                Some(numbers)
            } else {
                None
            }
        }
        [slot, slots @ ..] => match words {
            [] => None,
            [word, words @ ..] => match put(*slot, word.as_str(), numbers) {
                Some(numbers) => fit(slots, words, numbers),
                None => None,
            },
        },
    }
}

// The numbers with that of the word, where the word stands for the slot.
fn put(slot: Slot, word: &str, numbers: Numbers) -> Option<Numbers>
    ensures { result ≡ put slot word.now numbers }
{
    match slot {
        Slot::Word(name) => keep(word == name.spelling(), numbers),
        Slot::File | Slot::Solution => keep(names_file(word), numbers),
        Slot::Bound => match number_in(0, (1 << 63) - 1, word) {
            Some(bound) => Some(Numbers {
                bound: Some(bound),
                ..numbers
            }),
            None => None,
        },
        Slot::Size(most) => match number_in(1, most, word) {
            Some(size) => Some(Numbers { size, ..numbers }),
            None => None,
        },
        Slot::Number => match number_in(0, u64::MAX, word) {
            Some(number) => Some(Numbers { number, ..numbers }),
            None => None,
        },
    }
}

fn keep(holds: bool, numbers: Numbers) -> Option<Numbers>
    ensures { result ≡ (if holds then Some numbers else None) }
{
    if holds { Some(numbers) } else { None }
}

// Whether the word names a file: `-`, or a word that is not empty and does not begin with `-`.
fn names_file(word: &str) -> bool
    ensures { result ≡ names_file word.now }
{
    word == "-" || (!word.is_empty() && !word.starts_with("-"))
}
