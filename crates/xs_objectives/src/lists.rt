//! The lists of an objective.

ghost use Rattle.std.specs.Prelude.{◌≡◌, ◌+◌, ◌&&◌, ◌||◌, None, ℕ, not, nat_eq, nat_le, nat_lt, length, pos, replicate, is_some, IfOk};
ghost use Rattle.std.specs.Option.{option_map};
ghost use Rattle.xs_fields.specs.Cells.{vars_of};
ghost use Rattle.xs_fields.specs.Conditions.{first_missed};
ghost use Rattle.xs_model.specs.declared.instance.Body.TheVariants as body;
ghost use Rattle.xs_model.specs.declared.term.Term.TheVariants.{Int};
ghost use Rattle.xs_objectives.specs.Lists.{coeffs_meet, coeffs_of, is_one_list, is_one_sum, list_meets, list_text, own_text, sum_meets};
ghost use Rattle.xs_tables.specs.Extension.{text_in};
ghost use Rattle.xs_tables.specs.Tables.{sizes_meet};

use std::alloc::Global;
use xf_num::{NoMemory, Row, Vars};
use xs_fields::{Condition, Reading, earlier, scan_terms, scan_vars};
use xs_model::{Body, Names, Part, Term, Terms};
use xs_parts::{is_single, or_else};
use xs_tables::{judge_sizes, text_in};
use xs_var::judge_fitting;

/// The own text.
pub(crate) fn own_text(parts: &[Part]) -> &[u8]
    ensures { result.now ≡ own_text parts.now }
{
    or_else(text_in(parts, b""), b"")
}

/// The text of the list: of its child, or else the own text.
pub(crate) fn list_text(parts: &[Part]) -> &[u8]
    ensures { result.now ≡ list_text parts.now }
{
    or_else(text_in(parts, b"list"), own_text(parts))
}

/// Whether the list is one child or the own text.
pub(crate) fn is_one_list(parts: &[Part]) -> bool
    ensures { result ≡ is_one_list parts.now }
{
    is_single(parts, b"list")
        && !(text_in(parts, b"list").is_some() && text_in(parts, b"").is_some())
}

/// The same, beside coefficients that are given once or not at all.
pub(crate) fn is_one_sum(parts: &[Part]) -> bool
    ensures { result ≡ is_one_sum parts.now }
{
    is_one_list(parts) && is_single(parts, b"coeffs")
}

// Whether a list that may be asked not to be empty is not.
fn is_filled(filled: bool, list: &Vars) -> bool
    ensures { result ≡ (not filled || nat_lt 0 (length list.now)) }
{
    !filled || 0 < list.len()
}

/// The variables of a list, which may be asked not to be empty, and what its text misses first.
pub(crate) fn scan_list(
    alloc: Global,
    text: &[u8],
    names: &Names,
    left: u64,
    filled: bool,
) -> Result<Reading<Vars>, NoMemory>
    ensures missed { IfOk result (λ r. r.missed ≡ first_missed (list_meets names.now left filled text.now)) }
    ensures value { IfOk result (λ r. r.missed ≡ None → r.value ≡ vars_of names.now text.now) }
{
    let list = scan_vars(alloc, text, names, left)?;
    match list.missed {
        Some(_) => Ok(list),
        None => {
            let missed = judge_fitting(is_filled(filled, &list.value));
            Ok(Reading {
                value: list.value,
                missed,
            })
        }
    }
}

// So many coefficients of 1.
fn ones(alloc: Global, count: usize) -> Result<Terms, NoMemory>
    ensures { IfOk result (λ terms. terms ≡ replicate count (Int (pos 1))) }
{
    let mut terms = Row::with_room(alloc, count)?;
    for _ in 0..count {
        terms.push(Term::Int(1))?;
    }
    Ok(terms)
}

// The coefficients of a list, and what their text misses first.
fn scan_coeffs(
    alloc: Global,
    text: Option<&[u8]>,
    names: &Names,
    left: u64,
    list: &Vars,
) -> Result<Reading<Terms>, NoMemory>
    ensures missed { IfOk result (λ r. r.missed ≡ first_missed (coeffs_meet names.now left (option_map (λ x. x.now) text.entry))) }
    ensures value { IfOk result (λ r. r.missed ≡ None → r.value ≡ coeffs_of names.now (option_map (λ x. x.now) text.entry) (length list.now)) }
{
    match text {
        Some(text) => scan_terms(alloc, text, names, left),
        None => {
            let terms = ones(alloc, list.len())?;
            Ok(Reading {
                value: terms,
                missed: None,
            })
        }
    }
}

// What counts and lengths of a list and its coefficients miss first.
fn judge_sum(list: &Vars, coeffs: &Terms, left: u64) -> Option<Condition>
    ensures { result ≡ first_missed (sizes_meet (length list.now + length coeffs.now) left (nat_eq (length coeffs.now) (length list.now))) }
{
    let few = list.len() as u128 + coeffs.len() as u128 <= u128::from(left);
    judge_sizes(few, coeffs.len() == list.len())
}

/// A list and its coefficients, and what their texts, counts and lengths miss first.
pub(crate) fn scan_sum(
    alloc: Global,
    list: &[u8],
    coeffs: Option<&[u8]>,
    names: &Names,
    left: u64,
) -> Result<Reading<Body>, NoMemory>
    ensures missed { IfOk result (λ r. r.missed ≡ first_missed (sum_meets names.now left list.now (option_map (λ x. x.now) coeffs.entry))) }
    ensures value { IfOk result (λ r. r.missed ≡ None → r.value ≡ body.Sum (vars_of names.now list.now) (coeffs_of names.now (option_map (λ x. x.now) coeffs.entry) (length (vars_of names.now list.now)))) }
{
    let list = scan_vars(alloc, list, names, left)?;
    let coeffs = scan_coeffs(alloc, coeffs, names, left, &list.value)?;
    match earlier(list.missed, coeffs.missed) {
        Some(missed) => Ok(Reading {
            value: Body::Sum(list.value, coeffs.value),
            missed: Some(missed),
        }),
        None => {
            let missed = judge_sum(&list.value, &coeffs.value, left);
            Ok(Reading {
                value: Body::Sum(list.value, coeffs.value),
                missed,
            })
        }
    }
}
