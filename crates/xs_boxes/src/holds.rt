//! Whether boxes do not overlap.

ghost use Rattle.std.specs.Prelude.{◌≡◌, ◌↔◌, ◌<◌, ◌∷◌, [], ◌&&◌, ◌||◌, pos, true, length, IfSome, MatchOption};
ghost use Rattle.std.specs.List.{AllByRecursion, list_all};
ghost use Rattle.xs_boxes.specs.Tests.{AreTerms, are_apart, are_clear, ends_before, is_clear, is_clear_of, is_passed, sides};
ghost use Rattle.xs_model.specs.Instance.{rows_of, term_rows, term_values, values};
ghost use Rattle.xs_model.specs.Lists.{is_among};
ghost use Rattle.xs_model.specs.Schedule.{IsNoOverlap, boxes};
ghost use Rattle.xs_testing.specs.Rows.{AreBelow};

use xf_num::Vars;
use xs_model::{Term, Terms};
use xs_testing::term_value;

/// Where a box begins in one dimension, and how long it is there.
#[derive(Clone, Copy)]
pub(crate) struct Side {
    origin: i128,
    length: i128,
}

// Whether one ends where the other begins, or before. An end past all numbers of its type is above each origin or below each.
fn ends_before(one: Side, other: Side) -> bool
    ensures { result ≡ ends_before one other }
{
    match one.origin.checked_add(one.length) {
        Some(end) => end <= other.origin,
        None => one.length < 0,
    }
}

// The first side of a box, and what is left of its origin and of its lengths.
fn first_side<'a>(
    origin: &'a [u32],
    lengths: &'a [Term],
    a: &[i128],
) -> Option<(Side, &'a [u32], &'a [Term])>
    requires origin { AreBelow (length a.now) origin.now }
    requires lengths { AreTerms (length a.now) lengths.now }
    ensures value { MatchOption result (sides (values a.now origin.now) (term_values a.now lengths.now) ≡ []) (λ x. sides (values a.now origin.now) (term_values a.now lengths.now) ≡ x.0 ∷ sides (values a.now x.1.now) (term_values a.now x.2.now)) }
    ensures origin { IfSome result (λ x. AreBelow (length a.now) x.1.now) }
    ensures lengths { IfSome result (λ x. AreTerms (length a.now) x.2.now) }
    ensures within { IfSome result (λ x. length x.1.now < length origin.now) }
{
    match (origin.split_first(), lengths.split_first()) {
        (Some((variable, origin)), Some((term, lengths))) => {
            let side = Side {
                origin: a[*variable as usize],
                length: term_value(*term, a),
            };
            Some((side, origin, lengths))
        }
        _ => None,
    }
}

// Whether two boxes are apart in some dimension.
fn are_apart(
    origin: &[u32],
    lengths: &[Term],
    other_origin: &[u32],
    other_lengths: &[Term],
    a: &[i128],
) -> bool
    requires origin { AreBelow (length a.now) origin.now }
    requires lengths { AreTerms (length a.now) lengths.now }
    requires other_origin { AreBelow (length a.now) other_origin.now }
    requires other_lengths { AreTerms (length a.now) other_lengths.now }
    ensures { result ≡ are_apart (sides (values a.now origin.now) (term_values a.now lengths.now)) (sides (values a.now other_origin.now) (term_values a.now other_lengths.now)) }
{
    let (mut first_left, mut lengths_left) = (origin, lengths);
    let (mut second_left, mut others_left) = (other_origin, other_lengths);
    while let Some((one, first_behind, lengths_behind)) = first_side(first_left, lengths_left, a) {
        match first_side(second_left, others_left, a) {
            None => return false,
            Some((other, second_behind, others_behind)) => {
                if ends_before(one, other) || ends_before(other, one) {
                    return true;
                }
                (first_left, lengths_left) = (first_behind, lengths_behind);
                (second_left, others_left) = (second_behind, others_behind);
            }
        }
    }
    false
}

// Whether some term is 0.
fn has_zero(lengths: &[Term], a: &[i128]) -> bool
    requires { AreTerms (length a.now) lengths.now }
    ensures { result ≡ is_among (term_values a.now lengths.now) (pos 0) }
{
    let mut rest = lengths;
    while let Some((term, behind)) = rest.split_first() {
        if term_value(*term, a) == 0 {
            return true;
        }
        rest = behind;
    }
    false
}

// Whether a box is passed over: zeros are ignored, and it has a length of 0.
fn is_passed(zero_ignored: bool, lengths: &[Term], a: &[i128]) -> bool
    requires { AreTerms (length a.now) lengths.now }
    ensures { result ≡ is_passed zero_ignored (term_values a.now lengths.now) }
{
    zero_ignored && has_zero(lengths, a)
}

// Whether a box is apart from each of others that is not passed over.
fn is_clear_of_all(
    origin: &[u32],
    lengths: &[Term],
    origins: &[Vars],
    others: &[Terms],
    zero_ignored: bool,
    a: &[i128],
) -> bool
    requires origin { AreBelow (length a.now) origin.now }
    requires lengths { AreTerms (length a.now) lengths.now }
    requires origins { AllByRecursion (AreBelow (length a.now)) origins.now }
    requires others { AllByRecursion (AreTerms (length a.now)) others.now }
    ensures { result ≡ list_all (is_clear_of zero_ignored (record { origin = values a.now origin.now; lengths = term_values a.now lengths.now })) (boxes (rows_of a.now origins.now) (term_rows a.now others.now)) }
{
    let mut rows = origins;
    let mut other_rows = others;
    while let Some((other_origin, rows_left)) = rows.split_first() {
        match other_rows.split_first() {
            None => return true,
            Some((other, others_left)) => {
                let (other_origin, other) = (other_origin.as_slice(), other.as_slice());
                if !is_passed(zero_ignored, other, a)
                    && !are_apart(origin, lengths, other_origin, other, a)
                {
                    return false;
                }
                rows = rows_left;
                other_rows = others_left;
            }
        }
    }
    true
}

// Whether a box is passed over, or apart from each of others that is not.
fn is_clear(
    origin: &[u32],
    lengths: &[Term],
    origins: &[Vars],
    others: &[Terms],
    zero_ignored: bool,
    a: &[i128],
) -> bool
    requires origin { AreBelow (length a.now) origin.now }
    requires lengths { AreTerms (length a.now) lengths.now }
    requires origins { AllByRecursion (AreBelow (length a.now)) origins.now }
    requires others { AllByRecursion (AreTerms (length a.now)) others.now }
    ensures { result ≡ is_clear zero_ignored (record { origin = values a.now origin.now; lengths = term_values a.now lengths.now }) (boxes (rows_of a.now origins.now) (term_rows a.now others.now)) }
{
    is_passed(zero_ignored, lengths, a)
        || is_clear_of_all(origin, lengths, origins, others, zero_ignored, a)
}

// Whether each box is clear of those behind it.
fn are_clear(origins: &[Vars], lengths: &[Terms], zero_ignored: bool, a: &[i128]) -> bool
    requires origins { AllByRecursion (AreBelow (length a.now)) origins.now }
    requires lengths { AllByRecursion (AreTerms (length a.now)) lengths.now }
    ensures { result ≡ are_clear zero_ignored (boxes (rows_of a.now origins.now) (term_rows a.now lengths.now)) }
{
    let mut rows = origins;
    let mut others = lengths;
    while let Some((origin, rows_left)) = rows.split_first() {
        match others.split_first() {
            None => return true,
            Some((length, others_left)) => {
                let (origin, length) = (origin.as_slice(), length.as_slice());
                if !is_clear(origin, length, rows_left, others_left, zero_ignored, a) {
                    return false;
                }
                rows = rows_left;
                others = others_left;
            }
        }
    }
    true
}

/// Whether no two boxes overlap: in some dimension the origin and the length of one are together at most the origin of the
/// other. Where zeros are ignored, boxes with a length of 0 are passed over. Takes no memory, is exact for all values, and
/// looks at each pair of boxes at most once.
///
/// Asks that each variable has a value, and that integers are small.
pub fn holds_no_overlap(origins: &[Vars], lengths: &[Terms], zero_ignored: bool, a: &[i128]) -> bool
    requires origins { AllByRecursion (AreBelow (length a.now)) origins.now }
    requires lengths { AllByRecursion (AreTerms (length a.now)) lengths.now }
    ensures { (result ≡ true) ↔ IsNoOverlap zero_ignored (rows_of a.now origins.now) (term_rows a.now lengths.now) }
{
    are_clear(origins, lengths, zero_ignored, a)
}
