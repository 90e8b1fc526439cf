//! Groups in parentheses, one after the other.

ghost use Rattle.std.specs.Prelude.{◌≡◌, ◌∷◌, [], ◌<◌, length, IfSome, MatchOption};
ghost use Rattle.std.specs.Option.{option_map};
ghost use Rattle.xs_fields.specs.Conditions.{first_missed};
ghost use Rattle.xs_fields.specs.Scanning.{joined};
ghost use Rattle.xs_fields.specs.Words.{is_space};
ghost use Rattle.xs_tables.specs.Groups.{behind_of, groups_of, inner_of, is_blank, is_room_for, spelt_meets};

use xs_fields::{Condition, cut, earlier, next_word};

/// What stands before the first `)`, and what behind it. None exactly where there is none; then all stands behind the
/// last.
pub fn next_group(bytes: &[u8]) -> Option<(&[u8], &[u8])>
    ensures groups { MatchOption result (groups_of bytes.now ≡ []) (λ x. groups_of bytes.now ≡ x.0.now ∷ groups_of x.1.now) }
    ensures behind { MatchOption result (behind_of bytes.now ≡ bytes.now) (λ x. behind_of bytes.now ≡ behind_of x.1.now) }
    ensures within { IfSome result (λ x. length x.1.now < length bytes.now) }
{
    let (group, behind) = cut(bytes, b')');
    match behind {
        Some(behind) => Some((group, behind)),
        None => None,
    }
}

fn is_space(byte: u8) -> bool
    ensures { result ≡ is_space byte }
{
    byte == b' ' || byte == b'\t' || byte == b'\r' || byte == b'\n'
}

/// What stands behind the `(` that a group begins with, after whitespace.
pub fn inner(group: &[u8]) -> Option<&[u8]>
    ensures { option_map (λ x. x.now) result ≡ inner_of group.now }
{
    let mut rest = group;
    while let Some((first, more)) = rest.split_first() {
        if !is_space(*first) {
            return if *first == b'(' { Some(more) } else { None };
        }
        rest = more;
    }
    None
}

/// Whether a text is whitespace alone.
pub fn is_empty_text(text: &[u8]) -> bool
    ensures { result ≡ is_blank text.now }
{
    match next_word(text) {
        Some(_) => false,
        None => true,
    }
}

/// `Spelling` exactly where more than whitespace stands behind the last group.
pub fn judge_behind(text: &[u8]) -> Option<Condition>
    ensures { result ≡ first_missed (spelt_meets (is_blank text.now)) }
{
    if is_empty_text(text) {
        None
    } else {
        Some(Condition::Spelling)
    }
}

/// Whether so many members more keep the limit, where there are so many.
pub fn has_room(left: u64, count: u64, more: u64) -> bool
    ensures { result ≡ is_room_for left count more }
{
    more <= left.saturating_sub(count)
}

/// What is missed with one group more, which misses this by itself, where its members have room or not.
pub fn joined(missed: Option<Condition>, judged: Option<Condition>, room: bool) -> Option<Condition>
    ensures { result ≡ joined missed judged room }
{
    match missed {
        Some(_) => earlier(missed, judged),
        None => match judged {
            Some(condition) => Some(condition),
            None => {
                if room {
                    None
                } else {
                    Some(Condition::Counting)
                }
            }
        },
    }
}
