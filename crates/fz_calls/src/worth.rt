//! What the arguments of a call are worth, at the values of all variables.

ghost use Rattle.std.specs.Prelude.{◌≡◌, pos, nat_abs, map, int_le};
ghost use Rattle.std.specs.List.{list_any, list_all};
ghost use Rattle.std.specs.Ordering.{int_eq};
ghost use Rattle.fz_model.specs.Meaning.{at, truth, number, numbers, members, has, dot, is_one, is_odd, is_element, is_quotient, is_remainder};

use fz_model::Arg;

/// The number that an argument stands for; 0 for a set and for a list.
pub fn number(arg: &Arg, b: &[i128]) -> i128
    ensures { result ≡ number b.now arg.now }
{
    match arg {
        Arg::Int(value) => *value,
        Arg::Bool(flag) => i128::from(*flag),
        Arg::Var(variable) => value_of(*variable, b),
        Arg::Range(_) | Arg::Set(_) | Arg::List(_) => 0,
    }
}

/// The value of a variable.
fn value_of(variable: u64, b: &[i128]) -> i128
    ensures { result ≡ at b.now variable }
{
    b.get(variable as usize).copied().unwrap_or(0)
}

/// The members of a list; none of another argument.
pub fn members(arg: &Arg) -> &[Arg]
    ensures { result.now ≡ members arg.now }
{
    match arg {
        Arg::List(items) => items.as_slice(),
        _ => &[],
    }
}

/// Whether a set has the value as a member; another argument has none.
pub fn has(arg: &Arg, value: i128) -> bool
    ensures { result ≡ has arg.now value }
{
    match arg {
        Arg::Range(span) => span.lo() <= value && value <= span.hi(),
        Arg::Set(values) => is_among(values.as_slice(), value),
        _ => false,
    }
}

fn is_among(values: &[i128], value: i128) -> bool
    ensures { result ≡ list_any (int_eq value) values.now }
{
    for other in values {
        if value == *other {
            return true;
        }
    }
    false
}

/// Whether some member stands for the value.
pub fn some_is(items: &[Arg], value: i128, b: &[i128]) -> bool
    ensures { result ≡ list_any (int_eq value) (map (number b.now) items.now) }
{
    for item in items {
        if value == number(item, b) {
            return true;
        }
    }
    false
}

/// Whether each member stands for the value.
pub fn all_are(items: &[Arg], value: i128, b: &[i128]) -> bool
    ensures { result ≡ list_all (int_eq value) (map (number b.now) items.now) }
{
    for item in items {
        if value != number(item, b) {
            return false;
        }
    }
    true
}

/// Whether no member stands for less than the value.
pub fn none_is_less(items: &[Arg], value: i128, b: &[i128]) -> bool
    ensures { result ≡ list_all (int_le value) (map (number b.now) items.now) }
{
    for item in items {
        if number(item, b) < value {
            return false;
        }
    }
    true
}

/// Whether no member stands for more than the value.
pub fn none_is_greater(items: &[Arg], value: i128, b: &[i128]) -> bool
    ensures { result ≡ list_all (λ x. int_le x value) (map (number b.now) items.now) }
{
    for item in items {
        if number(item, b) > value {
            return false;
        }
    }
    true
}

/// Whether an odd number of members are true.
pub fn is_odd(items: &[Arg], b: &[i128]) -> bool
    ensures { result ≡ is_odd (map (number b.now) items.now) }
{
    let mut odd = false;
    for item in items {
        if number(item, b) == 1 {
            odd = !odd;
        }
    }
    odd
}

/// Whether the member at a place, counted from 1, stands for the value.
pub fn is_element(place: i128, items: &[Arg], value: i128, b: &[i128]) -> bool
    ensures { result ≡ is_element place (map (number b.now) items.now) value }
{
    if place < 1 || place > items.len() as i128 {
        return false;
    }
    number(&items[place as usize - 1], b) == value
}

/// Whether the third is the first divided by the second, rounded towards 0.
pub fn is_quotient(dividend: i128, divisor: i128, quotient: i128) -> bool
    ensures { result ≡ is_quotient dividend divisor quotient }
{
    dividend.checked_div(divisor) == Some(quotient)
}

/// Whether the third is the remainder of the first divided by the second, with the sign of the first.
pub fn is_remainder(dividend: i128, divisor: i128, remainder: i128) -> bool
    ensures { result ≡ is_remainder dividend divisor remainder }
{
    divisor != 0 && dividend.wrapping_rem(divisor) == remainder
}

/// Whether the second is the absolute value of the first.
pub fn is_absolute(value: i128, absolute: i128) -> bool
    ensures { result ≡ int_eq (pos (nat_abs value)) absolute }
{
    if value < 0 {
        absolute > 0 && -absolute == value
    } else {
        absolute == value
    }
}
