//! Indices in brackets.

ghost use Rattle.std.specs.Prelude.{◌≡◌, ◌<◌, ◌^◌, ◌<ℤ◌, ◌≤ℤ◌, ℕ, List, pos, position, Some, IfSome, IfNone, SomeIff, FitsSigned};
ghost use Rattle.std.specs.Int.{w128};
ghost use Rattle.std.specs.List.{AllByRecursion};
ghost use Rattle.std.specs.Str.Parse.{IsNumeral, without_leading_sign, signed_digits_value};
ghost use Rattle.xs_model.specs.Denotes.{SpellsIndex};
ghost use Rattle.xs_model.specs.Places.{BeginsWith, is_close, HasFront, IsCut, SpellsPlace};
ghost use Rattle.xs_model.specs.Sound.{IsSize, cell_count};

use std::str;

/// The place in row-major order of the cell whose indices the brackets of a text spell: a bracket for each size.
pub(crate) fn place_of(text: &[u8], sizes: &[i128]) -> Option<usize>
    requires sizes { AllByRecursion IsSize sizes.now }
    requires few { cell_count sizes.now < 2 ^ 64 }
    ensures found { IfSome result (λ place. SpellsPlace sizes.now text.now place) }
    ensures only { (place : ℕ) → SpellsPlace sizes.now text.now place → result ≡ Some place }
{
    let mut place = 0;
    let mut rest = text;
    for size in sizes {
        match front_index(rest, *size) {
            Some((index, more)) => {
                place = place * (*size as usize) + index;
                rest = more;
            }
            None => return None,
        }
    }
    if rest.is_empty() { Some(place) } else { None }
}

// The index in the bracket that a text begins with, below the size, and what follows the bracket.
fn front_index(text: &[u8], size: i128) -> Option<(usize, &[u8])>
    requires { size ≤ℤ pos (2 ^ 64) }
    ensures found { IfSome result (λ front. BeginsWith text.now size front.0 front.1.now) }
    ensures none { IfNone result ((index : ℕ) (more : List ℕ) → ¬ (BeginsWith text.now size index more)) }
{
    match front_bracket(text) {
        Some((inner, more)) => match index_below(inner, size) {
            Some(index) => Some((index, more)),
            None => None,
        },
        None => None,
    }
}

// What stands in the bracket that a text begins with, and what follows the bracket.
fn front_bracket(text: &[u8]) -> Option<(&[u8], &[u8])>
    ensures found { IfSome result (λ front. HasFront text.now front.0.now front.1.now) }
    ensures none { IfNone result ((inner more : List ℕ) → ¬ (HasFront text.now inner more)) }
{
    if text.is_empty() || text[0] != b'[' {
        return None;
    }
    cut_at_close(&text[1..])
}

// What stands before the first `]`, and what follows it.
fn cut_at_close(text: &[u8]) -> Option<(&[u8], &[u8])>
    ensures found { IfSome result (λ front. IsCut text.now front.0.now front.1.now) }
    ensures none { IfNone result ((inner more : List ℕ) → ¬ (IsCut text.now inner more)) }
{
    match close_at(text) {
        Some(end) => Some((&text[..end], &text[end + 1..])),
        None => None,
    }
}

// Where the first `]` stands.
fn close_at(text: &[u8]) -> Option<usize>
    ensures { result ≡ position is_close text.now }
{
    text.iter().position(|byte| *byte == b']')
}

// The index that a text spells, where it is below the size.
fn index_below(text: &[u8], size: i128) -> Option<usize>
    requires { size ≤ℤ pos (2 ^ 64) }
    ensures found { IfSome result (λ index. SpellsIndex text.now index × (pos index <ℤ size)) }
    ensures only { (index : ℕ) → SpellsIndex text.now index → pos index <ℤ size → result ≡ Some index }
{
    match integer_of(text) {
        Some(value) if 0 <= value && value < size => Some(value as usize),
        _ => None,
    }
}

// The integer that a text is; None where it is none, or past i128.
fn integer_of(text: &[u8]) -> Option<i128>
    ensures { SomeIff result (IsNumeral 10 (without_leading_sign text.now) × FitsSigned w128 (signed_digits_value 10 text.now)) (signed_digits_value 10 text.now) }
{
    match str::from_utf8(text) {
        Ok(digits) => i128::from_str_radix(digits, 10).ok(),
        Err(_) => None,
    }
}
