ghost use Rattle.std.specs.Prelude.{◌≡◌, ◌∷◌, ◌++◌, [], IfOk};
ghost use Rattle.std.specs.List.{flat_map};
ghost use Rattle.std.specs.Option.{option_map};
ghost use Rattle.xs_fields.specs.Conditions.{all_meet, answer, first_missed, judged, IsOrMemory};
ghost use Rattle.xs_fields.specs.Variables.{bracket_in, bracket_meets, bracket_of, brackets_from, is_direct, is_index, is_small_bracket, word_meets, word_of};
ghost use Rattle.xs_fields.specs.Words.{is_byte, parts, parts_behind};

use crate::condition::{Condition, earlier};
use crate::identifier::{copied, judge_identifier};
use crate::integer::read_integer;
use crate::pieces::range;
use crate::sizes::inner;
use crate::words::cut;
use std::alloc::Global;
use xf_num::{NoMemory, Row, Span, Text};
use xf_text::FieldStop;

/// What stands in a bracket of a variable word.
#[derive(Clone, Copy, Debug)]
pub enum Bracket {
    /// `[k]`: one index.
    At(i128),
    /// `[a..b]`: the indices from `a` to `b`.
    Between(Span),
    /// `[]`: every index.
    Every,
}

/// The brackets of a variable word, one per dimension.
pub type Brackets = Row<Bracket>;

/// A variable word: the name of a variable or an array, and brackets.
#[derive(Debug, Drop)]
pub struct Word {
    pub name: Text,
    pub brackets: Brackets,
}

impl Bracket {
    fn is_index(self) -> bool
        ensures { result ≡ is_index self }
    {
        match self {
            Bracket::At(_) => true,
            Bracket::Between(_) => false,
            Bracket::Every => false,
        }
    }
}

impl Word {
    /// Whether the word is direct: each of its brackets is one index.
    pub fn is_direct(&self) -> bool
        ensures { result ≡ is_direct self.now }
    {
        self.brackets
            .as_slice()
            .iter()
            .all(|bracket| bracket.is_index())
    }
}

/// What a text without a dot is in a bracket.
fn index_or_every(text: &[u8]) -> Result<Bracket, Condition>
    ensures { result ≡ judged is_small_bracket (bracket_in (text.now ∷ [])) }
{
    if text.is_empty() {
        return Ok(Bracket::Every);
    }
    match read_integer(text) {
        Ok(index) => Ok(Bracket::At(index)),
        Err(missed) => Err(missed),
    }
}

/// The indices between two integers.
fn between(low: &[u8], high: &[u8]) -> Result<Bracket, Condition>
    ensures { result ≡ judged is_small_bracket (bracket_in (low.now ∷ [] ∷ high.now ∷ [])) }
{
    match range(low, high) {
        Ok(span) => Ok(Bracket::Between(span)),
        Err(missed) => Err(missed),
    }
}

/// The range whose low end and first dot stand before these bytes.
fn between_behind(low: &[u8], behind: &[u8]) -> Result<Bracket, Condition>
    ensures { result ≡ judged is_small_bracket (bracket_in (low.now ∷ parts (is_byte 46) behind.now)) }
{
    let (middle, high) = cut(behind, b'.');
    match high {
        None => Err(Condition::Spelling),
        Some(high) => {
            let (high, more) = cut(high, b'.');
            match more {
                None => {
                    if middle.is_empty() {
                        between(low, high)
                    } else {
                        Err(Condition::Spelling)
                    }
                }
                Some(_) => Err(Condition::Spelling),
            }
        }
    }
}

/// The bracket that a part behind a `[` spells, or the first of `Spelling` and `Magnitude` that it misses.
fn read_bracket(part: &[u8]) -> Result<Bracket, Condition>
    ensures { result ≡ judged is_small_bracket (bracket_of part.now) }
{
    match inner(part) {
        Some(text) => {
            let (low, behind) = cut(text, b'.');
            match behind {
                None => index_or_every(low),
                Some(behind) => between_behind(low, behind),
            }
        }
        None => Err(Condition::Spelling),
    }
}

fn judge_bracket(part: &[u8]) -> Option<Condition>
    ensures { result ≡ first_missed (bracket_meets part.now) }
{
    read_bracket(part).err()
}

/// What the parts behind `[` miss first.
fn judge_brackets(behind: Option<&[u8]>) -> Option<Condition>
    ensures { result ≡ first_missed (all_meet bracket_meets (parts_behind (is_byte 91) (option_map (λ x. x.now) behind.entry))) }
{
    let mut missed = None;
    let mut rest = behind;
    while let Some(bytes) = rest {
        let (part, more) = cut(bytes, b'[');
        missed = earlier(missed, judge_bracket(part));
        rest = more;
    }
    missed
}

/// The first of `Spelling` and `Magnitude` that a variable word misses.
pub fn judge_word(word: &[u8]) -> Option<Condition>
    ensures { result ≡ first_missed (word_meets word.now) }
{
    let (name, behind) = cut(word, b'[');
    earlier(judge_identifier(name), judge_brackets(behind))
}

/// Appends what a part spells, or changes nothing.
fn push_bracket(brackets: &mut Brackets, part: &[u8]) -> Result<(), NoMemory>
    ensures { IfOk result (λ _. brackets.new ≡ brackets.old ++ brackets_from part.now) }
{
    match read_bracket(part) {
        Ok(bracket) => brackets.push(bracket),
        Err(_) => Ok(()),
    }
}

/// The brackets that the parts behind `[` spell.
fn expand_brackets(alloc: Global, behind: Option<&[u8]>) -> Result<Brackets, NoMemory>
    ensures { IfOk result (λ brackets. brackets ≡ flat_map brackets_from (parts_behind (is_byte 91) (option_map (λ x. x.now) behind.entry))) }
{
    let mut brackets = Row::new(alloc);
    let mut rest = behind;
    while let Some(bytes) = rest {
        let (part, more) = cut(bytes, b'[');
        push_bracket(&mut brackets, part)?;
        rest = more;
    }
    Ok(brackets)
}

/// The word of these bytes, of parts that miss nothing.
pub fn expand_word(alloc: Global, word: &[u8]) -> Result<Word, NoMemory>
    ensures { IfOk result (λ w. w ≡ word_of word.now) }
{
    let (name, behind) = cut(word, b'[');
    let name = copied(alloc, name)?;
    let brackets = expand_brackets(alloc, behind)?;
    Ok(Word { name, brackets })
}

/// A variable word: an identifier, and brackets `[k]`, `[a..b]` with `a` at most `b`, and `[]`.
///
/// A misspelt word is F4, a magnitude above 2^126 - 1 is F10: the first of these over the whole word. Whether the name
/// is declared is not asked.
pub fn read_word(alloc: Global, word: &[u8]) -> Result<Word, FieldStop>
    ensures { IsOrMemory result (answer (word_meets word.now) (word_of word.now)) }
{
    match judge_word(word) {
        Some(missed) => Err(FieldStop::Refused(missed.kind())),
        None => Ok(expand_word(alloc, word)?),
    }
}
