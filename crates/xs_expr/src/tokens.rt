ghost use Rattle.std.specs.Prelude.{◌≡◌, ◌<◌, ◌≤◌, ◌∷◌, [], false, drop, length, slice_index, IfSome, MatchOption};
ghost use Rattle.std.specs.List.{prefix_len};
ghost use Rattle.xs_expr.specs.Tokens.{is_mark, is_in_word, token_len, tokens_of};
ghost use Rattle.xs_fields.specs.Words.{is_space};

fn is_space(byte: u8) -> bool
    ensures { result ≡ is_space byte }
{
    byte == b' ' || byte == b'\t' || byte == b'\r' || byte == b'\n'
}

fn is_mark(byte: u8) -> bool
    ensures { result ≡ is_mark byte }
{
    byte == b'(' || byte == b')' || byte == b','
}

fn is_in_word(byte: u8) -> bool
    ensures { result ≡ is_in_word byte }
{
    !is_space(byte) && !is_mark(byte)
}

/// How much whitespace stands at the front.
fn space_len(bytes: &[u8]) -> usize
    ensures value { result ≡ prefix_len is_space bytes.now }
    ensures within { result ≤ length bytes.now }
{
    bytes.iter().take_while(|byte| is_space(**byte)).count()
}

/// How many bytes of a word stand at the front.
fn word_len(bytes: &[u8]) -> usize
    ensures value { result ≡ prefix_len is_in_word bytes.now }
    ensures within { result ≤ length bytes.now }
{
    bytes.iter().take_while(|byte| is_in_word(**byte)).count()
}

/// The bytes from a place on.
fn from(bytes: &[u8], at: usize) -> &[u8]
    requires { at ≤ length bytes.now }
    ensures { result.now ≡ drop at bytes.now }
{
    &bytes[at..]
}

/// How long the token is that the bytes begin with.
fn token_len(bytes: &[u8]) -> usize
    requires { 0 < length bytes.now }
    ensures value { result ≡ token_len bytes.now }
    ensures within { result ≤ length bytes.now }
{
    if is_mark(bytes[0]) {
        1
    } else {
        word_len(bytes)
    }
}

/// The token that the bytes begin with, and the bytes behind it.
fn front_token(bytes: &[u8]) -> (&[u8], &[u8])
    requires some { 0 < length bytes.now }
    requires front { is_space (slice_index bytes.now 0) ≡ false }
    ensures value { tokens_of bytes.now ≡ result.0.now ∷ tokens_of result.1.now }
    ensures within { length result.1.now < length bytes.now }
{
    let end = token_len(bytes);
    (&bytes[..end], from(bytes, end))
}

/// The first token of an expression's text, a parenthesis, a comma or a word, and the bytes behind it. None exactly
/// where the text has no token.
pub fn next_token(text: &[u8]) -> Option<(&[u8], &[u8])>
    ensures value { MatchOption result (tokens_of text.now ≡ []) (λ x. tokens_of text.now ≡ x.0.now ∷ tokens_of x.1.now) }
    ensures within { IfSome result (λ x. length x.1.now < length text.now) }
{
    let rest = from(text, space_len(text));
    if rest.is_empty() {
        None
    } else {
        Some(front_token(rest))
    }
}
