//! How a list is read: each word is cut once and looked at once.

ghost use Rattle.std.specs.Prelude.{◌≡◌, ◌-◌, nat_le};
ghost use Rattle.xs_fields.specs.Scanning.{joined};

use crate::condition::{Condition, earlier};

/// Whether so many members more keep the limit on the length of a list.
pub(crate) fn has_room(left: u64, len: usize, count: u128) -> bool
    ensures { result ≡ nat_le count (left - len) }
{
    count <= u128::from(left.saturating_sub(len as u64))
}

/// What is missed with one word more, which misses this by itself, where its members have room or not.
pub(crate) fn joined(
    missed: Option<Condition>,
    judged: Option<Condition>,
    room: bool,
) -> Option<Condition>
    ensures { result ≡ joined missed judged room }
{
    match missed {
        Some(_) => earlier(missed, judged),
        None => match judged {
            Some(condition) => Some(condition),
            None => {
                if room {
                    None
                } else {
                    Some(Condition::Counting)
                }
            }
        },
    }
}
