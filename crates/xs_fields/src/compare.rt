ghost use Rattle.std.specs.Prelude.{◌≡◌, true, int_le, length, nat_le};
ghost use Rattle.std.specs.Char.{is_ascii_digit};
ghost use Rattle.std.specs.List.{list_all};
ghost use Rattle.std.specs.Str.Parse.{digits_value, signed_digits_value};
ghost use Rattle.xs_fields.specs.Integers.{is_integer, is_minus, is_zero};

use crate::integer::unsigned;
use crate::words::from;

/// Whether the bytes begin with a minus.
fn is_minus(word: &[u8]) -> bool
    ensures { result ≡ is_minus word.now }
{
    !word.is_empty() && word[0] == b'-'
}

fn are_zeros(digits: &[u8]) -> bool
    requires { list_all is_ascii_digit digits.now ≡ true }
    ensures { result ≡ is_zero (digits_value 10 digits.now) }
{
    for digit in digits {
        if *digit != b'0' {
            return false;
        }
    }
    true
}

/// Whether the number of the digits `a` is at most that of `b`, which are as many.
fn same_length_at_most(a: &[u8], b: &[u8]) -> bool
    requires same { length a.now ≡ length b.now }
    requires left { list_all is_ascii_digit a.now ≡ true }
    requires right { list_all is_ascii_digit b.now ≡ true }
    ensures { result ≡ nat_le (digits_value 10 a.now) (digits_value 10 b.now) }
{
    for i in 0..a.len() {
        if a[i] != b[i] {
            return a[i] < b[i];
        }
    }
    true
}

/// Whether the number of the digits `a` is at most that of `b`.
fn digits_at_most(a: &[u8], b: &[u8]) -> bool
    requires left { list_all is_ascii_digit a.now ≡ true }
    requires right { list_all is_ascii_digit b.now ≡ true }
    ensures { result ≡ nat_le (digits_value 10 a.now) (digits_value 10 b.now) }
{
    if a.len() <= b.len() {
        let (front, back) = b.split_at(b.len() - a.len());
        !are_zeros(front) || same_length_at_most(a, back)
    } else {
        let (front, back) = a.split_at(a.len() - b.len());
        are_zeros(front) && same_length_at_most(back, b)
    }
}

/// Whether the integer `a` is at most the integer `b`, of any magnitude.
pub fn at_most(a: &[u8], b: &[u8]) -> bool
    requires left { is_integer a.now ≡ true }
    requires right { is_integer b.now ≡ true }
    ensures { result ≡ int_le (signed_digits_value 10 a.now) (signed_digits_value 10 b.now) }
{
    match (is_minus(a), is_minus(b)) {
        (false, false) => digits_at_most(unsigned(a), unsigned(b)),
        (true, true) => digits_at_most(unsigned(b), unsigned(a)),
        (true, false) => true,
        (false, true) => are_zeros(unsigned(a)) && are_zeros(unsigned(b)),
    }
}
