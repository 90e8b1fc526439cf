//! The domain of a `var`, and its counts.

ghost use Rattle.std.specs.Prelude.{◌≡◌, ◌≤◌, ◌+◌, ◌↔◌, ℤ, nat_le, IfOk, IfSome, SomeIff};
ghost use Rattle.std.specs.Option.{option_map};
ghost use Rattle.xf_num.specs.Domain.{IsMember};
ghost use Rattle.xs_fields.specs.Conditions.{first_missed};
ghost use Rattle.xs_fields.specs.Lists.{pieces_meet, pieces_of};
ghost use Rattle.xs_model.specs.Outline.{outlines_of};
ghost use Rattle.xs_model.specs.Sound.{most_cells, most_items, values_of};
ghost use Rattle.xs_var.specs.Like.{like_domain};
ghost use Rattle.xs_var.specs.VarDomain.{counting_meets, counts_meet, fitting_meets, is_counted, text_domain, values_in, var_domain};
ghost use Rattle.xs_var.specs.Variable.{domain_meets};

use crate::domain::domain_of;
use crate::like::like_domain;
use crate::var::judge_spelling;
use std::alloc::Global;
use xf_num::{Domain, MAX_ITEMS, MAX_VARIABLES, NoMemory};
use xs_fields::{Condition, Reading, earlier, is_blank, scan_pieces};
use xs_model::{Decl, Names};

/// The domain that a text of integers and ranges denotes, and the first condition that the text misses. There is none
/// where the text misses one, or has no range; the members of a domain are exactly the integers of the ranges.
pub fn scan_domain(alloc: Global, text: &[u8]) -> Result<Reading<Option<Domain>>, NoMemory>
    ensures missed { IfOk result (λ r. r.missed ≡ first_missed (pieces_meet text.now)) }
    ensures value { IfOk result (λ r. r.value ≡ text_domain text.now) }
    ensures members { IfOk result (λ r. IfSome r.value (λ d. (v : ℤ) → IsMember d v ↔ IsMember (pieces_of text.now) v)) }
{
    let pieces = scan_pieces(alloc, text)?;
    match pieces.missed {
        None => {
            let value = domain_of(alloc, pieces.value.as_slice())?;
            Ok(Reading {
                value,
                missed: None,
            })
        }
        Some(missed) => Ok(Reading {
            value: None,
            missed: Some(missed),
        }),
    }
}

/// The domain that a text of integers and ranges denotes. None where it is misspelt, or has no range.
pub fn text_domain(alloc: Global, text: &[u8]) -> Result<Option<Domain>, NoMemory>
    ensures value { IfOk result (λ domain. domain ≡ text_domain text.now) }
    ensures members { IfOk result (λ domain. IfSome domain (λ d. (v : ℤ) → IsMember d v ↔ IsMember (pieces_of text.now) v)) }
{
    let reading = scan_domain(alloc, text)?;
    Ok(reading.value)
}

// A copy of a domain, where there is one.
fn copied(alloc: Global, domain: Option<&Domain>) -> Result<Option<Domain>, NoMemory>
    ensures { IfOk result (λ copy. copy ≡ option_map (λ d. d.now) domain.entry) }
{
    match domain {
        Some(domain) => Ok(Some(domain.copy(alloc)?)),
        None => Ok(None),
    }
}

/// The domain of a `var` by its text, or by the name of an earlier declaration, and what the text misses first. The
/// names are those of the declarations.
pub fn scan_content(
    alloc: Global,
    decls: &[Decl],
    names: &Names,
    like: Option<&[u8]>,
    text: &[u8],
) -> Result<Reading<Option<Domain>>, NoMemory>
    requires { names.now ≡ outlines_of decls.now }
    ensures missed { IfOk result (λ r. r.missed ≡ first_missed (domain_meets (option_map (λ x. x.now) like.entry) text.now)) }
    ensures value { IfOk result (λ r. r.value ≡ var_domain decls.now (option_map (λ x. x.now) like.entry) text.now) }
{
    match like {
        Some(name) => {
            let value = copied(alloc, like_domain(decls, names, name))?;
            let missed = judge_spelling(is_blank(text));
            Ok(Reading { value, missed })
        }
        None => {
            let reading = scan_domain(alloc, text)?;
            Ok(reading)
        }
    }
}

/// The number of values of a domain that are counted, where it is at most `left`: none of a single range.
pub fn values_of(domain: &Domain, left: u64) -> Option<u64>
    ensures { SomeIff result (values_of domain.now ≤ left) (values_of domain.now) }
{
    if domain.ranges() == 1 {
        Some(0)
    } else {
        domain.values_at_most(left)
    }
}

// Whether the values of a domain, beside those counted before, are within the limit.
fn have_room(values: u64, domain: Option<&Domain>) -> bool
    requires { values ≤ most_items }
    ensures { result ≡ nat_le (values + values_in (option_map (λ d. d.now) domain.entry)) most_items }
{
    match domain {
        Some(domain) => values_of(domain, MAX_ITEMS - values).is_some(),
        None => true,
    }
}

// Whether the counts are within the limits with one cell and the values of its domain more.
fn is_counted(cells: u64, values: u64, domain: Option<&Domain>) -> bool
    requires cells { cells ≤ most_cells }
    requires values { values ≤ most_items }
    ensures { result ≡ is_counted cells values (option_map (λ d. d.now) domain.entry) }
{
    cells < MAX_VARIABLES && have_room(values, domain)
}

/// `Counting` exactly where the test fails.
pub fn judge_counting(test: bool) -> Option<Condition>
    ensures { result ≡ first_missed (counting_meets test) }
{
    if test {
        None
    } else {
        Some(Condition::Counting)
    }
}

/// `Fitting` exactly where the test fails.
pub fn judge_fitting(test: bool) -> Option<Condition>
    ensures { result ≡ first_missed (fitting_meets test) }
{
    if test { None } else { Some(Condition::Fitting) }
}

/// What the domain of a `var` misses first, beside the cells and the values that are counted before it.
pub fn judge_counts(cells: u64, values: u64, domain: Option<&Domain>) -> Option<Condition>
    requires cells { cells ≤ most_cells }
    requires values { values ≤ most_items }
    ensures { result ≡ first_missed (counts_meet cells values (option_map (λ d. d.now) domain.entry)) }
{
    let counted = judge_counting(is_counted(cells, values, domain));
    earlier(counted, judge_fitting(domain.is_some()))
}
