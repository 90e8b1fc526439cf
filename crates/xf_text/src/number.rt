//! Numbers in texts.

ghost use Rattle.std.specs.Prelude.{◌≡◌, ◌+◌, ◌*◌, ◌<◌, ◌≤◌, ◌^◌, ◌↔◌, length, drop, SomeIff, IfOk, IsErrOf, FitsSigned};
ghost use Rattle.std.specs.Char.{digit_value, is_ascii_digit};
ghost use Rattle.std.specs.Int.{w128, IsInRange};
ghost use Rattle.std.specs.List.{prefix_len};
ghost use Rattle.std.specs.Str.Parse.{AllDigits, digits_value};
ghost use Rattle.xf_text.specs.Number.{IsNumberAt, number_at, number_end, signed};

/// Why no number was read.
#[derive(Clone, Copy, Debug, PartialEq, Eq)]
pub enum NumberStop {
    /// No number starts at the place.
    NotNumber,
    /// Its value is past i128.
    Range,
}

/// Reads the number that starts at `at`: an optional `-` and the longest run of digits.
///
/// Answers its value and its end. `NotNumber` comes exactly where none starts there, `Range` exactly where its value
/// is past i128.
pub fn read_int(text: &[u8], at: usize) -> Result<(i128, usize), NumberStop>
    requires { at ≤ length text.now }
    ensures number { IfOk result (λ read. IsNumberAt text.now at × (read.0 ≡ number_at text.now at) × (read.1 ≡ number_end text.now at)) }
    ensures within { IfOk result (λ read. (at < read.1) × (read.1 ≤ length text.now)) }
    ensures not_number { IsErrOf result NumberStop.NotNumber ↔ ¬ (IsNumberAt text.now at) }
    ensures range { IsErrOf result NumberStop.Range ↔ (IsNumberAt text.now at × ¬ (FitsSigned w128 (number_at text.now at))) }
{
    let minus = at < text.len() && text[at] == b'-';
    let start = if minus { at + 1 } else { at };
    let end = digits_end(text, start);
    if end == start {
        return Err(NumberStop::NotNumber);
    }
    match value(minus, &text[start..end]) {
        Some(value) => Ok((value, end)),
        None => Err(NumberStop::Range),
    }
}

// Where the digits that begin at `start` end.
fn digits_end(text: &[u8], start: usize) -> usize
    requires { start ≤ length text.now }
    ensures end { result ≡ start + prefix_len is_ascii_digit (drop start text.now) }
    ensures within { result ≤ length text.now }
{
    let mut end = start;
    while end < text.len() && text[end].is_ascii_digit() {
        end += 1;
    }
    end
}

// The number of these digits, with a minus before them or not; None where it is past i128.
fn value(minus: bool, digits: &[u8]) -> Option<i128>
    requires { AllDigits 10 digits.now }
    ensures { SomeIff result (FitsSigned w128 (signed minus (digits_value 10 digits.now))) (signed minus (digits_value 10 digits.now)) }
{
    match magnitude(digits) {
        Some(magnitude) => with_sign(minus, magnitude),
        None => None,
    }
}

// The number of this sign and magnitude; None where it is past i128.
fn with_sign(minus: bool, magnitude: u128) -> Option<i128>
    ensures { SomeIff result (FitsSigned w128 (signed minus magnitude)) (signed minus magnitude) }
{
    match i128::try_from(magnitude) {
        Ok(value) if minus => Some(-value),
        Ok(value) => Some(value),
        Err(_) if minus && magnitude == 1 << 127 => Some(i128::MIN),
        Err(_) => None,
    }
}

// The number of these digits; None where it is past u128.
fn magnitude(digits: &[u8]) -> Option<u128>
    requires { AllDigits 10 digits.now }
    ensures { SomeIff result (digits_value 10 digits.now < 2 ^ 128) (digits_value 10 digits.now) }
{
    let mut value = 0;
    for digit in digits {
        match push_digit(value, *digit) {
            Some(more) => value = more,
            None => return None,
        }
    }
    Some(value)
}

// The number with one more digit; None where it is past u128.
fn push_digit(value: u128, digit: u8) -> Option<u128>
    requires { IsInRange 48 57 digit }
    ensures { SomeIff result (value * 10 + digit_value digit < 2 ^ 128) (value * 10 + digit_value digit) }
{
    match value.checked_mul(10) {
        Some(tens) => tens.checked_add(u128::from(digit - b'0')),
        None => None,
    }
}
