//! The test of a `cumulative`.

ghost use Rattle.std.specs.Prelude.{◌≡◌, ◌↔◌, ◌<◌, ◌≤◌, ◌+◌, ◌+ℤ◌, ◌&&◌, nat_abs, true, length, map, IfSome};
ghost use Rattle.std.specs.List.{AllByRecursion, list_all};
ghost use Rattle.std.specs.Ordering.{int_eq};
ghost use Rattle.xs_laws.specs.Meeting.{meets};
ghost use Rattle.xs_laws.specs.Peaks.{AreNatural, is_peaked};
ghost use Rattle.xs_model.specs.Accepted.{IsFormed};
ghost use Rattle.xs_model.specs.Fields.{cond_items, item_of};
ghost use Rattle.xs_model.specs.Fitting.{IsLimit};
ghost use Rattle.xs_model.specs.Formed.{IsFormedItem};
ghost use Rattle.xs_model.specs.Instance.{Holds, term_values, values};
ghost use Rattle.xs_model.specs.Schedule.{load};
ghost use Rattle.xs_model.specs.Sound.{magnitudes};
ghost use Rattle.xs_tasks.specs.Tested.{IsJudgedAt, are_ends, ends_agree, is_cumulative, size_of};
ghost use Rattle.xs_model.specs.Value.{at};
ghost use Rattle.xs_model.specs.declared.instance.Constraint.TheVariants.{Cumulative};
ghost use Rattle.xs_testing.specs.Rows.{AreBelow};

use crate::load::{Run, end, load_at, run_of};
use xf_num::Vars;
use xs_model::{Cond, Constraint, Term, Terms};
use xs_testing::meets;

// Whether the load at each start meets a condition.
fn are_met(origins: &[u32], lengths: &[Term], heights: &[Term], cond: &Cond, a: &[i128]) -> bool
    requires origins { AreBelow (length a.now) origins.now }
    requires lengths { AllByRecursion (IsFormedItem (length a.now)) (map item_of lengths.now) }
    requires heights { AllByRecursion (IsFormedItem (length a.now)) (map item_of heights.now) }
    requires condition { AllByRecursion (IsFormedItem (length a.now)) (cond_items cond.now) }
    requires small { (size_of (values a.now origins.now) + size_of (term_values a.now lengths.now)) + size_of (term_values a.now heights.now) ≤ magnitudes }
    ensures { result ≡ list_all (λ s. meets a.now cond.now (load s (values a.now origins.now) (term_values a.now lengths.now) (term_values a.now heights.now))) (values a.now origins.now) }
{
    for origin in origins {
        let number = load_at(*origin, origins, lengths, heights, a);
        if !meets(cond, &number, a) {
            return false;
        }
    }
    true
}

// Whether tasks meet a condition at every time: when none runs, and when each starts.
fn is_peaked(origins: &[u32], lengths: &[Term], heights: &[Term], cond: &Cond, a: &[i128]) -> bool
    requires origins { AreBelow (length a.now) origins.now }
    requires lengths { AllByRecursion (IsFormedItem (length a.now)) (map item_of lengths.now) }
    requires heights { AllByRecursion (IsFormedItem (length a.now)) (map item_of heights.now) }
    requires condition { AllByRecursion (IsFormedItem (length a.now)) (cond_items cond.now) }
    requires small { (size_of (values a.now origins.now) + size_of (term_values a.now lengths.now)) + size_of (term_values a.now heights.now) ≤ magnitudes }
    ensures { result ≡ is_peaked (meets a.now cond.now) (values a.now origins.now) (term_values a.now lengths.now) (term_values a.now heights.now) }
{
    meets(cond, &0, a) && are_met(origins, lengths, heights, cond, a)
}

// Whether a variable has the end of a task as its value.
fn is_end(run: Run, variable: u32, a: &[i128]) -> bool
    requires variable { variable < length a.now }
    requires small { nat_abs run.start + nat_abs run.length ≤ magnitudes }
    ensures { result ≡ int_eq (at a.now variable) (run.start +ℤ run.length) }
{
    a[variable as usize] == end(run)
}

// Whether each end is its start plus its length.
fn are_ends(origins: &[u32], lengths: &[Term], ends: &[u32], a: &[i128]) -> bool
    requires origins { AreBelow (length a.now) origins.now }
    requires lengths { AllByRecursion (IsFormedItem (length a.now)) (map item_of lengths.now) }
    requires ends { AreBelow (length a.now) ends.now }
    requires small { size_of (values a.now origins.now) + size_of (term_values a.now lengths.now) ≤ magnitudes }
    ensures { result ≡ are_ends (values a.now origins.now) (term_values a.now lengths.now) (values a.now ends.now) }
{
    let mut starts = origins;
    let mut spans = lengths;
    let mut rest = ends;
    while let Some((start, starts_left)) = starts.split_first() {
        match spans.split_first() {
            None => return false,
            Some((span, spans_left)) => match rest.split_first() {
                None => return false,
                Some((end, rest_left)) => {
                    if !is_end(run_of(*start, *span, a), *end, a) {
                        return false;
                    }
                    starts = starts_left;
                    spans = spans_left;
                    rest = rest_left;
                }
            },
        }
    }
    spans.is_empty() && rest.is_empty()
}

// The same, where ends are given.
fn ends_agree(origins: &[u32], lengths: &[Term], ends: &Option<Vars>, a: &[i128]) -> bool
    requires origins { AreBelow (length a.now) origins.now }
    requires lengths { AllByRecursion (IsFormedItem (length a.now)) (map item_of lengths.now) }
    requires ends { IfSome ends.now (λ vs. AreBelow (length a.now) vs) }
    requires small { size_of (values a.now origins.now) + size_of (term_values a.now lengths.now) ≤ magnitudes }
    ensures { result ≡ ends_agree a.now origins.now lengths.now ends.now }
{
    match ends {
        Some(ends) => are_ends(origins, lengths, ends.as_slice(), a),
        None => true,
    }
}

// Whether tasks meet the condition at every time, and the ends agree.
fn tasks_hold(
    origins: &Vars,
    lengths: &Terms,
    heights: &Terms,
    ends: &Option<Vars>,
    cond: &Cond,
    a: &[i128],
) -> bool
    requires formed { IsFormed (length a.now) (Cumulative origins.now lengths.now heights.now ends.now cond.now) }
    requires judged { IsJudgedAt a.now (Cumulative origins.now lengths.now heights.now ends.now cond.now) }
    ensures { result ≡ (is_peaked (meets a.now cond.now) (values a.now origins.now) (term_values a.now lengths.now) (term_values a.now heights.now) && ends_agree a.now origins.now lengths.now ends.now) }
{
    let starts = origins.as_slice();
    let spans = lengths.as_slice();
    is_peaked(starts, spans, heights.as_slice(), cond, a) && ends_agree(starts, spans, ends, a)
}

/// Whether a `cumulative` holds under an assignment: the condition is met by 0, as at times when no task runs, and by the
/// load at each start, and each end, where ends are given, is its start plus its length. Takes no memory, and a number of
/// steps that is the square of the number of tasks.
///
/// Asks that the constraint is a `cumulative` of the shape of its form over the variables that have a value, and that within
/// bounds of these values no length or height may be negative and its magnitude is at most the greatest.
pub fn holds_cumulative(c: &Constraint, a: &[i128]) -> bool
    requires form { is_cumulative c.now ≡ true }
    requires formed { IsFormed (length a.now) c.now }
    requires judged { IsJudgedAt a.now c.now }
    ensures { (result ≡ true) ↔ Holds c.now a.now }
{
    match c {
        Constraint::Cumulative {
            origins,
            lengths,
            heights,
            ends,
            cond,
        } => tasks_hold(origins, lengths, heights, ends, cond, a),
        _ => false,
    }
}
