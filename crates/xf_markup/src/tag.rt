ghost use Rattle.std.specs.Prelude.{◌≡◌, ◌+◌, ◌<◌, ◌≤◌, [], length, drop, slice_index, IfSome, IfOk};
ghost use Rattle.std.specs.Option.{option_map};
ghost use Rattle.memchr.specs.Find.{first_of, places, is_byte2};
ghost use Rattle.xf_markup.specs.Names.{run, is_name, is_name_start};
ghost use Rattle.xf_markup.specs.Tag.{is_blank, past_blanks, spaced_at, named_at, equals_at, until_quote, quoted_at, attr_at, end_at, tail_at, seen, tag_at, end_tag_at, closing_at};

use crate::names::{is_name_start, name_len};
use crate::tree::Attr;
use memchr::memchr2;
use std::alloc::Global;
use xf_num::{NoMemory, Row, Text};

// Whether the byte is whitespace.
fn is_blank(byte: u8) -> bool
    ensures { result ≡ is_blank byte }
{
    byte == b' ' || byte == b'\t' || byte == b'\n' || byte == b'\r'
}

// How many bytes of whitespace stand at the front.
fn blanks(bytes: &[u8]) -> usize
    ensures value { result ≡ run is_blank bytes.now }
    ensures within { result ≤ length bytes.now }
{
    for (i, byte) in bytes.iter().enumerate() {
        if !is_blank(*byte) {
            return i;
        }
    }
    bytes.len()
}

/// The bytes behind the first `len`.
pub fn past(bytes: &[u8], len: usize) -> &[u8]
    requires { len ≤ length bytes.now }
    ensures { result.now ≡ drop len bytes.now }
{
    &bytes[len..]
}

// The bytes behind the whitespace at the front.
fn past_blanks(bytes: &[u8]) -> &[u8]
    ensures value { result.now ≡ past_blanks bytes.now }
    ensures within { length result.now ≤ length bytes.now }
{
    past(bytes, blanks(bytes))
}

// The first byte, 0 where there is none.
fn first(bytes: &[u8]) -> u8
    ensures { result ≡ slice_index bytes.now 0 }
{
    if bytes.len() > 0 { bytes[0] } else { 0 }
}

// The bytes behind whitespace of at least one byte.
fn spaced(bytes: &[u8]) -> Option<&[u8]>
    ensures value { option_map (λ x. x.now) result ≡ spaced_at bytes.now }
    ensures within { IfSome result (λ x. length x.now < length bytes.now) }
{
    let len = blanks(bytes);
    if len == 0 {
        None
    } else {
        Some(past(bytes, len))
    }
}

// A name, and the bytes behind it.
fn named(bytes: &[u8]) -> Option<(&[u8], &[u8])>
    ensures value { option_map (λ x. (x.0.now, x.1.now)) result ≡ named_at bytes.now }
    ensures within { IfSome result (λ x. (length x.0.now + length x.1.now ≤ length bytes.now) × (length x.1.now ≤ length bytes.now)) }
{
    if !is_name_start(first(bytes)) {
        return None;
    }
    let len = name_len(bytes);
    Some((&bytes[..len], past(bytes, len)))
}

// The bytes behind `=` and the whitespace round it.
fn equals(bytes: &[u8]) -> Option<&[u8]>
    ensures value { option_map (λ x. x.now) result ≡ equals_at bytes.now }
    ensures within { IfSome result (λ x. length x.now ≤ length bytes.now) }
{
    let bytes = past_blanks(bytes);
    if bytes.len() > 0 && bytes[0] == b'=' {
        Some(past_blanks(past(bytes, 1)))
    } else {
        None
    }
}

// Where the first quote or `<` stands.
fn quote_place(quote: u8, bytes: &[u8]) -> Option<usize>
    ensures value { result ≡ first_of (places (is_byte2 quote 60) bytes.now) }
    ensures within { IfSome result (λ n. n < length bytes.now) }
{
    memchr2(quote, b'<', bytes)
}

// The bytes before the quote, which hold no `<`, and those behind it.
fn until_quote(quote: u8, bytes: &[u8]) -> Option<(&[u8], &[u8])>
    ensures value { option_map (λ x. (x.0.now, x.1.now)) result ≡ until_quote quote bytes.now }
    ensures within { IfSome result (λ x. length x.1.now ≤ length bytes.now) }
{
    match quote_place(quote, bytes) {
        Some(at) => {
            if bytes[at] == quote {
                Some((&bytes[..at], past(bytes, at + 1)))
            } else {
                None
            }
        }
        None => None,
    }
}

// A value in quotes, and the bytes behind it.
fn quoted(bytes: &[u8]) -> Option<(&[u8], &[u8])>
    ensures value { option_map (λ x. (x.0.now, x.1.now)) result ≡ quoted_at bytes.now }
    ensures within { IfSome result (λ x. length x.1.now ≤ length bytes.now) }
{
    if bytes.len() > 0 && (bytes[0] == b'"' || bytes[0] == b'\'') {
        until_quote(bytes[0], past(bytes, 1))
    } else {
        None
    }
}

// An attribute's name and value, and the bytes behind it.
#[tactic(auto, unfolding(crate::specs::Tag::attr_at))]
fn one_attr(bytes: &[u8]) -> Option<(&[u8], &[u8], &[u8])>
    ensures value { option_map (λ x. (x.0.now, x.1.now, x.2.now)) result ≡ attr_at bytes.now }
    ensures within { IfSome result (λ x. length x.2.now < length bytes.now) }
{
    let bytes = spaced(bytes)?;
    let (name, bytes) = named(bytes)?;
    let bytes = equals(bytes)?;
    let (value, bytes) = quoted(bytes)?;
    Some((name, value, bytes))
}

// Whether the tag that ends here is an empty one, and the bytes behind it.
#[tactic(auto, unfolding(crate::specs::Tag::end_at))]
fn end(bytes: &[u8]) -> Option<(bool, &[u8])>
    ensures value { option_map (λ x. (x.0, x.1.now)) result ≡ end_at bytes.now }
    ensures within { IfSome result (λ x. length x.1.now ≤ length bytes.now) }
{
    let bytes = past_blanks(bytes);
    if bytes.len() > 0 && bytes[0] == b'>' {
        Some((false, past(bytes, 1)))
    } else if bytes.len() > 1 && bytes[0] == b'/' && bytes[1] == b'>' {
        Some((true, past(bytes, 2)))
    } else {
        None
    }
}

/// A text of the bytes.
pub fn copied(alloc: Global, bytes: &[u8]) -> Result<Text, NoMemory>
    ensures { IfOk result (λ text. text ≡ bytes.now) }
{
    Row::from_slice(alloc, bytes)
}

/// An open or empty tag: the length of its name, its attributes, and its whole length.
#[derive(Debug, Drop)]
pub struct Tag {
    pub name: usize,
    pub attrs: Row<Attr>,
    pub is_empty: bool,
    pub size: usize,
}

/// The tag that the bytes begin with, behind one byte.
pub fn open_tag(alloc: Global, bytes: &[u8]) -> Result<Option<Tag>, NoMemory>
    requires { 0 < length bytes.now }
    ensures value { IfOk result (λ r. r ≡ tag_at bytes.now) }
    ensures within { IfOk result (λ r. IfSome r (λ t. (0 < t.size) × (t.size ≤ length bytes.now) × (t.name + 1 ≤ length bytes.now))) }
{
    let (name, rest) = match named(past(bytes, 1)) {
        Some((name, rest)) => (name, rest),
        None => return Ok(None),
    };
    let mut attrs = Row::new(alloc);
    match tail(alloc, rest, &mut attrs)? {
        Some((is_empty, after)) => {
            attrs.shrink_to_fit();
            Ok(Some(Tag {
                name: name.len(),
                attrs,
                is_empty,
                size: bytes.len() - after.len(),
            }))
        }
        None => Ok(None),
    }
}

// The bytes behind whitespace and `>`.
fn closing(bytes: &[u8]) -> Option<&[u8]>
    ensures value { option_map (λ x. x.now) result ≡ closing_at bytes.now }
    ensures within { IfSome result (λ x. length x.now ≤ length bytes.now) }
{
    let bytes = past_blanks(bytes);
    if bytes.len() > 0 && bytes[0] == b'>' {
        Some(past(bytes, 1))
    } else {
        None
    }
}

/// The length of an end tag's name, and its whole length.
pub fn end_tag(bytes: &[u8]) -> Option<(usize, usize)>
    requires { 1 < length bytes.now }
    ensures value { result ≡ end_tag_at bytes.now }
    ensures within { IfSome result (λ t. (0 < t.1) × (t.1 ≤ length bytes.now) × (t.0 + 2 ≤ length bytes.now)) }
{
    let (name, rest) = named(past(bytes, 2))?;
    let after = closing(rest)?;
    Some((name.len(), bytes.len() - after.len()))
}

/// Appends the attributes, and says whether the tag is an empty one, with the bytes behind it.
pub fn tail<'a>(
    alloc: Global,
    bytes: &'a [u8],
    out: &mut Row<Attr>,
) -> Result<Option<(bool, &'a [u8])>, NoMemory>
    requires { out.old ≡ [] }
    ensures value { IfOk result (λ r. seen (option_map (λ x. (x.0, x.1.now)) r) out.new ≡ tail_at (length bytes.now + 1) bytes.now) }
    ensures within { IfOk result (λ r. IfSome r (λ x. length x.1.now ≤ length bytes.now)) }
{
    let mut rest = bytes;
    loop {
        if let Some((is_empty, after)) = end(rest) {
            return Ok(Some((is_empty, after)));
        }
        match one_attr(rest) {
            None => return Ok(None),
            Some((name, value, after)) => {
                let name = copied(alloc, name)?;
                let value = copied(alloc, value)?;
                out.push(Attr { name, value })?;
                rest = after;
            }
        }
    }
}
