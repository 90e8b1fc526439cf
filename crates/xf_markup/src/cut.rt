ghost use Rattle.std.specs.Prelude.{◌≡◌, ◌+◌, ◌<◌, ◌≤◌, ◌^◌, length, IfSome, IfOk};
ghost use Rattle.xf_markup.specs.Tokens.{HasRoom, remark_at, text_at, cut_at, size};

use crate::tag::{Tag, end_tag, open_tag};
use memchr::{memchr2, memmem};
use std::alloc::Global;
use xf_num::NoMemory;

/// What stands at the front of some bytes: a tag with a name of so many bytes, a comment with so many bytes inside,
/// or so many bytes of text.
#[derive(Debug, Drop)]
pub enum Cut {
    Opens(Tag),
    Closes(usize, usize),
    Remark(usize),
    Says(usize),
}

fn remark(bytes: &[u8]) -> Option<usize>
    ensures value { result ≡ remark_at bytes.now }
    ensures within { IfSome result (λ n. n + 3 ≤ length bytes.now) }
{
    memmem::find(bytes, b"-->")
}

fn text_len(bytes: &[u8]) -> usize
    ensures value { result ≡ text_at bytes.now }
    ensures within { result ≤ length bytes.now }
{
    match memchr2(b'<', b'&', bytes) {
        Some(at) => at,
        None => bytes.len(),
    }
}

/// The token at the front.
#[tactic(auto, unfolding(crate::specs::Tokens::cut_at))]
pub fn front(alloc: Global, bytes: &[u8]) -> Result<Option<Cut>, NoMemory>
    ensures value { IfOk result (λ r. r ≡ cut_at bytes.now) }
    ensures within { IfOk result (λ r. IfSome r (λ cut. (0 < size cut) × (size cut ≤ length bytes.now) × HasRoom cut (length bytes.now))) }
{
    if bytes.starts_with(b"<!--") {
        match remark(&bytes[4..]) {
            Some(len) => Ok(Some(Cut::Remark(len))),
            None => Ok(None),
        }
    } else if bytes.starts_with(b"</") {
        match end_tag(bytes) {
            Some((name, whole)) => Ok(Some(Cut::Closes(name, whole))),
            None => Ok(None),
        }
    } else if bytes.starts_with(b"<") {
        match open_tag(alloc, bytes)? {
            Some(tag) => Ok(Some(Cut::Opens(tag))),
            None => Ok(None),
        }
    } else {
        let len = text_len(bytes);
        if len == 0 {
            Ok(None)
        } else {
            Ok(Some(Cut::Says(len)))
        }
    }
}

impl Cut {
    /// How many bytes the token has.
    pub fn size(&self) -> usize
        requires { size self.now < 2 ^ 64 }
        ensures { result ≡ size self.now }
    {
        match self {
            Cut::Opens(tag) => tag.size,
            Cut::Closes(_, whole) => *whole,
            Cut::Remark(len) => *len + 7,
            Cut::Says(len) => *len,
        }
    }
}
