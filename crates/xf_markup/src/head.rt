ghost use Rattle.std.specs.Prelude.{◌≡◌, ◌+◌, ◌≤◌, length, codes, IfSome};
ghost use Rattle.memchr.specs.Find.{matches, first_of};
ghost use Rattle.xf_markup.specs.Head.{mark_len, declared_len, head_at};

use crate::tag::past;
use memchr::memmem;

fn declaration_end(bytes: &[u8]) -> Option<usize>
    ensures value { result ≡ first_of (matches bytes.now (codes "?>") 0) }
    ensures within { IfSome result (λ n. n + 2 ≤ length bytes.now) }
{
    memmem::find(bytes, b"?>")
}

fn mark_len(bytes: &[u8]) -> usize
    ensures value { result ≡ mark_len bytes.now }
    ensures within { result ≤ length bytes.now }
{
    if bytes.starts_with(b"\xEF\xBB\xBF") {
        3
    } else {
        0
    }
}

fn declared_len(bytes: &[u8]) -> usize
    ensures value { result ≡ declared_len bytes.now }
    ensures within { result ≤ length bytes.now }
{
    if !bytes.starts_with(b"<?xml") {
        return 0;
    }
    match declaration_end(past(bytes, 5)) {
        Some(len) => len + 7,
        None => 0,
    }
}

/// Where the tokens begin, behind a byte order mark and a declaration.
pub fn head(text: &[u8]) -> usize
    ensures value { result ≡ head_at text.now }
    ensures within { result ≤ length text.now }
{
    let mark = mark_len(text);
    mark + declared_len(past(text, mark))
}
