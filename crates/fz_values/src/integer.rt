//! The integers that digits spell.

ghost use Rattle.std.specs.Prelude.{◌≡◌, ◌≤◌, ◌+◌, ◌*◌, SomeIff, length, drop, true};
ghost use Rattle.fz_values.specs.Integers.{digit, onward, marked, unsigned, is_minus, magnitude, limit, is_small, signed, int_of};

/// The greatest magnitude of an integer.
use xf_num::MAX_MAGNITUDE;

// The worth of a digit.
fn digit(byte: u8) -> u128
    ensures { result ≡ digit byte }
{
    if byte <= 57 {
        u128::from(byte.saturating_sub(48))
    } else if byte <= 70 {
        u128::from(byte - 55)
    } else {
        u128::from(byte.saturating_sub(87))
    }
}

// The number with one more digit, where that is small.
fn with_digit(value: u128, base: u128, byte: u8) -> Option<u128>
    ensures { SomeIff result (value * base + digit byte ≤ limit) (value * base + digit byte) }
{
    match value.checked_mul(base) {
        Some(shifted) => match shifted.checked_add(digit(byte)) {
            Some(sum) if sum <= MAX_MAGNITUDE => Some(sum),
            _ => None,
        },
        None => None,
    }
}

// The number of the digits in this base, where it is small.
fn number(base: u128, digits: &[u8]) -> Option<u128>
    requires { 1 ≤ base }
    ensures { SomeIff result (onward base 0 digits.now ≤ limit) (onward base 0 digits.now) }
{
    let mut value = 0;
    for byte in digits {
        match with_digit(value, base, *byte) {
            Some(more) => value = more,
            None => return None,
        }
    }
    Some(value)
}

fn behind(bytes: &[u8], at: usize) -> &[u8]
    requires { at ≤ length bytes.now }
    ensures { result.now ≡ drop at bytes.now }
{
    &bytes[at..]
}

// Whether `0` and this mark stand at the front.
fn is_marked(mark: u8, bytes: &[u8]) -> bool
    ensures value { result ≡ marked mark bytes.now }
    ensures room { result ≡ true → 2 ≤ length bytes.now }
{
    match bytes {
        [zero, second, ..] => *zero == b'0' && *second == mark,
        _ => false,
    }
}

// The number of digits without a sign, where it is small.
fn unsigned(bytes: &[u8]) -> Option<u128>
    ensures { SomeIff result (unsigned bytes.now ≤ limit) (unsigned bytes.now) }
{
    if is_marked(b'x', bytes) {
        number(16, behind(bytes, 2))
    } else if is_marked(b'o', bytes) {
        number(8, behind(bytes, 2))
    } else {
        number(10, bytes)
    }
}

fn is_minus(bytes: &[u8]) -> bool
    ensures value { result ≡ is_minus bytes.now }
    ensures room { result ≡ true → 1 ≤ length bytes.now }
{
    match bytes {
        [first, ..] => *first == b'-',
        [] => false,
    }
}

// The magnitude of an integer, where it is small.
fn magnitude(bytes: &[u8]) -> Option<u128>
    ensures { SomeIff result (magnitude bytes.now ≤ limit) (magnitude bytes.now) }
{
    if is_minus(bytes) {
        unsigned(behind(bytes, 1))
    } else {
        unsigned(bytes)
    }
}

/// Whether the magnitude of the integer is at most 2^126 - 1.
pub fn is_small(bytes: &[u8]) -> bool
    ensures { result ≡ is_small bytes.now }
{
    magnitude(bytes).is_some()
}

/// The integer that the bytes spell, and 0 where its magnitude is above 2^126 - 1.
#[tactic(auto, unfolding(crate::specs::Integers::int_of))]
pub fn int_of(bytes: &[u8]) -> i128
    ensures { result ≡ int_of bytes.now }
{
    match magnitude(bytes) {
        Some(size) => {
            if is_minus(bytes) {
                -(size as i128)
            } else {
                size as i128
            }
        }
        None => 0,
    }
}
