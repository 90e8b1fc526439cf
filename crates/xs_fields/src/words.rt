ghost use Rattle.std.specs.Prelude.{◌≡◌, ◌<◌, ◌≤◌, ◌∷◌, [], false, not, drop, length, slice_index, position, ◌↔◌, IfSome, IsTrue, MatchOption};
ghost use Rattle.std.specs.Option.{option_map};
ghost use Rattle.xs_fields.specs.Words.{is_space, is_byte, parts, parts_behind, words_of};

fn is_space(byte: u8) -> bool
    ensures { result ≡ is_space byte }
{
    byte == b' ' || byte == b'\t' || byte == b'\r' || byte == b'\n'
}

/// Where the first byte stands that is not whitespace.
fn word_start(bytes: &[u8]) -> Option<usize>
    ensures { result ≡ position (λ b. not (is_space b)) bytes.now }
{
    bytes.iter().position(|byte| !is_space(*byte))
}

/// Where the first whitespace stands.
fn word_end(bytes: &[u8]) -> Option<usize>
    ensures { result ≡ position is_space bytes.now }
{
    bytes.iter().position(|byte| is_space(*byte))
}

/// Where the first `stop` stands.
fn part_end(bytes: &[u8], stop: u8) -> Option<usize>
    ensures { result ≡ position (is_byte stop) bytes.now }
{
    bytes.iter().position(|byte| *byte == stop)
}

/// The bytes from a place on.
pub fn from(bytes: &[u8], at: usize) -> &[u8]
    requires { at ≤ length bytes.now }
    ensures { result.now ≡ drop at bytes.now }
{
    &bytes[at..]
}

/// The bytes before the first `stop`, and those behind it, if there is one.
pub fn cut(bytes: &[u8], stop: u8) -> (&[u8], Option<&[u8]>)
    ensures value { parts (is_byte stop) bytes.now ≡ result.0.now ∷ parts_behind (is_byte stop) (option_map (λ x. x.now) result.1) }
    ensures within { IfSome result.1 (λ x. length x.now < length bytes.now) }
{
    match part_end(bytes, stop) {
        Some(end) => (&bytes[..end], Some(from(bytes, end + 1))),
        None => (bytes, None),
    }
}

/// The bytes that begin with a word, and the word's first byte; the others are those behind it.
fn front_word(bytes: &[u8]) -> (&[u8], &[u8])
    requires some { 0 < length bytes.now }
    requires front { is_space (slice_index bytes.now 0) ≡ false }
    ensures value { words_of bytes.now ≡ result.0.now ∷ words_of result.1.now }
    ensures within { length result.1.now < length bytes.now }
{
    match word_end(bytes) {
        Some(end) => (&bytes[..end], from(bytes, end)),
        None => (bytes, &[]),
    }
}

/// The first word of a text and the bytes behind it. None exactly where the text has no word.
pub fn next_word(bytes: &[u8]) -> Option<(&[u8], &[u8])>
    ensures value { MatchOption result (words_of bytes.now ≡ []) (λ x. words_of bytes.now ≡ x.0.now ∷ words_of x.1.now) }
    ensures within { IfSome result (λ x. length x.1.now < length bytes.now) }
{
    match word_start(bytes) {
        Some(start) => Some(front_word(from(bytes, start))),
        None => None,
    }
}

/// Whether a text has no word: it is whitespace alone.
pub fn is_blank(text: &[u8]) -> bool
    ensures { IsTrue result ↔ (words_of text.now ≡ []) }
{
    next_word(text).is_none()
}
