ghost use Rattle.std.specs.Prelude.{◌≡◌, ◌∷◌, ◌++◌, IfOk};
ghost use Rattle.std.specs.Option.{option_map};
ghost use Rattle.xs_fields.specs.Conditions.{all_meet, answer, first_missed, judged, IsOrMemory};
ghost use Rattle.xs_fields.specs.Integers.{is_small};
ghost use Rattle.xs_fields.specs.Sizes.{front_meets, inner_of, size_list, size_meets, size_of, sizes_meet, sizes_of};
ghost use Rattle.xs_fields.specs.Words.{is_byte, parts_behind};

use crate::condition::{Condition, earlier};
use crate::integer::read_integer;
use crate::words::cut;
use std::alloc::Global;
use xf_num::{Ints, NoMemory, Row};
use xf_text::FieldStop;

/// The bytes before the `]` that ends the part.
pub fn inner(part: &[u8]) -> Option<&[u8]>
    ensures { option_map (λ x. x.now) result ≡ inner_of part.now }
{
    if part.ends_with(b"]") {
        Some(&part[..part.len() - 1])
    } else {
        None
    }
}

/// The size that a part behind a `[` spells, or the first of `Spelling` and `Magnitude` that it misses.
fn read_size(part: &[u8]) -> Result<i128, Condition>
    ensures { result ≡ judged is_small (size_of part.now) }
{
    match inner(part) {
        Some(text) => read_integer(text),
        None => Err(Condition::Spelling),
    }
}

fn judge_size(part: &[u8]) -> Option<Condition>
    ensures { result ≡ first_missed (size_meets part.now) }
{
    read_size(part).err()
}

/// What the parts behind `[` miss first.
fn judge_parts(behind: Option<&[u8]>) -> Option<Condition>
    ensures { result ≡ first_missed (all_meet size_meets (parts_behind (is_byte 91) (option_map (λ x. x.now) behind.entry))) }
{
    let mut missed = None;
    let mut rest = behind;
    while let Some(bytes) = rest {
        let (part, more) = cut(bytes, b'[');
        missed = earlier(missed, judge_size(part));
        rest = more;
    }
    missed
}

/// Misses `Spelling` where there is no bracket, or something before the first.
fn judge_front(front: &[u8], behind: Option<&[u8]>) -> Option<Condition>
    ensures { result ≡ first_missed (front_meets (front.now ∷ parts_behind (is_byte 91) (option_map (λ x. x.now) behind.entry))) }
{
    match behind {
        Some(_) => {
            if front.is_empty() {
                None
            } else {
                Some(Condition::Spelling)
            }
        }
        None => Some(Condition::Spelling),
    }
}

/// The first of `Spelling` and `Magnitude` that sizes miss.
pub fn judge_sizes(text: &[u8]) -> Option<Condition>
    ensures { result ≡ first_missed (sizes_meet text.now) }
{
    let (front, behind) = cut(text, b'[');
    earlier(judge_front(front, behind), judge_parts(behind))
}

/// Appends what a part spells, or changes nothing.
fn push_size(sizes: &mut Ints, part: &[u8]) -> Result<(), NoMemory>
    ensures { IfOk result (λ _. sizes.new ≡ sizes.old ++ size_list part.now) }
{
    match read_size(part) {
        Ok(size) => sizes.push(size),
        Err(_) => Ok(()),
    }
}

/// The sizes that a text denotes.
fn expand_sizes(alloc: Global, text: &[u8]) -> Result<Ints, NoMemory>
    ensures { IfOk result (λ sizes. sizes ≡ sizes_of text.now) }
{
    let mut sizes = Row::new(alloc);
    let (_, mut rest) = cut(text, b'[');
    while let Some(bytes) = rest {
        let (part, more) = cut(bytes, b'[');
        push_size(&mut sizes, part)?;
        rest = more;
    }
    Ok(sizes)
}

/// The sizes that a text `[n][m]..` denotes, at least one.
///
/// A misspelt text is F4, a magnitude above 2^126 - 1 is F10: the first of these over the whole text.
pub fn read_sizes(alloc: Global, text: &[u8]) -> Result<Ints, FieldStop>
    ensures { IsOrMemory result (answer (sizes_meet text.now) (sizes_of text.now)) }
{
    match judge_sizes(text) {
        Some(missed) => Err(FieldStop::Refused(missed.kind())),
        None => Ok(expand_sizes(alloc, text)?),
    }
}
