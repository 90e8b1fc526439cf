//! The tasks that run at a time.

ghost use Rattle.std.specs.Prelude.{◌≡◌, ◌<◌, ◌≤◌, ◌+◌, ◌+ℤ◌, nat_abs, if◌then◌else◌, length, map, pos};
ghost use Rattle.std.specs.List.{AllByRecursion};
ghost use Rattle.xs_model.specs.Conditions.{value_of};
ghost use Rattle.xs_model.specs.Fields.{item_of};
ghost use Rattle.xs_model.specs.Formed.{IsFormedItem};
ghost use Rattle.xs_model.specs.Instance.{term_values, values};
ghost use Rattle.xs_model.specs.Schedule.{load, runs_at};
ghost use Rattle.xs_model.specs.Sound.{magnitudes};
ghost use Rattle.xs_model.specs.Value.{at};
ghost use Rattle.xs_tasks.specs.Tested.{size_of};
ghost use Rattle.xs_testing.specs.Rows.{AreBelow};

use xs_model::Term;
use xs_testing::term_value;

/// When a task starts, and how long it runs from there on.
#[derive(Clone, Copy)]
pub(crate) struct Run {
    pub start: i128,
    pub length: i128,
}

/// When a task no longer runs.
///
/// Asks that the start and the length are together at most the greatest magnitude.
pub(crate) fn end(run: Run) -> i128
    requires { nat_abs run.start + nat_abs run.length ≤ magnitudes }
    ensures { result ≡ run.start +ℤ run.length }
{
    run.start + run.length
}

// A time, with the heights of tasks that run then, summed so far.
#[derive(Clone, Copy)]
struct Sum {
    time: i128,
    height: i128,
}

fn runs(run: Run, sum: Sum) -> bool
    requires { nat_abs run.start + nat_abs run.length ≤ magnitudes }
    ensures { result ≡ runs_at sum.time run.start run.length }
{
    run.start <= sum.time && sum.time < end(run)
}

// With one more height.
fn plus(sum: Sum, height: Term, a: &[i128]) -> Sum
    requires formed { IsFormedItem (length a.now) (item_of height) }
    requires small { nat_abs sum.height + nat_abs (value_of a.now height) ≤ magnitudes }
    ensures time { result.time ≡ sum.time }
    ensures value { result.height ≡ sum.height +ℤ value_of a.now height }
    ensures small { nat_abs result.height ≤ nat_abs sum.height + nat_abs (value_of a.now height) }
{
    Sum {
        time: sum.time,
        height: sum.height + term_value(height, a),
    }
}

// With the height of a task, where it runs then.
fn with_task(sum: Sum, run: Run, height: Term, a: &[i128]) -> Sum
    requires formed { IsFormedItem (length a.now) (item_of height) }
    requires run { nat_abs run.start + nat_abs run.length ≤ magnitudes }
    requires small { nat_abs sum.height + nat_abs (value_of a.now height) ≤ magnitudes }
    ensures time { result.time ≡ sum.time }
    ensures value { result.height ≡ sum.height +ℤ (if runs_at sum.time run.start run.length then value_of a.now height else pos 0) }
    ensures small { nat_abs result.height ≤ nat_abs sum.height + nat_abs (value_of a.now height) }
{
    if runs(run, sum) {
        plus(sum, height, a)
    } else {
        sum
    }
}

/// The start and the length of a task.
pub(crate) fn run_of(origin: u32, duration: Term, a: &[i128]) -> Run
    requires origin { origin < length a.now }
    requires formed { IsFormedItem (length a.now) (item_of duration) }
    ensures start { result.start ≡ at a.now origin }
    ensures span { result.length ≡ value_of a.now duration }
{
    Run {
        start: a[origin as usize],
        length: term_value(duration, a),
    }
}

/// The heights of the tasks that run when a task of this origin starts, summed.
///
/// Asks that each variable has a value, that integers are small, and that starts, lengths and heights are together at most
/// the greatest magnitude.
pub(crate) fn load_at(
    origin: u32,
    origins: &[u32],
    lengths: &[Term],
    heights: &[Term],
    a: &[i128],
) -> i128
    requires origin { origin < length a.now }
    requires origins { AreBelow (length a.now) origins.now }
    requires lengths { AllByRecursion (IsFormedItem (length a.now)) (map item_of lengths.now) }
    requires heights { AllByRecursion (IsFormedItem (length a.now)) (map item_of heights.now) }
    requires small { (size_of (values a.now origins.now) + size_of (term_values a.now lengths.now)) + size_of (term_values a.now heights.now) ≤ magnitudes }
    ensures { result ≡ load (at a.now origin) (values a.now origins.now) (term_values a.now lengths.now) (term_values a.now heights.now) }
{
    let mut sum = Sum {
        time: a[origin as usize],
        height: 0,
    };
    let mut starts = origins;
    let mut spans = lengths;
    let mut rest = heights;
    while let Some((start, starts_left)) = starts.split_first() {
        match spans.split_first() {
            None => return sum.height,
            Some((span, spans_left)) => match rest.split_first() {
                None => return sum.height,
                Some((height, rest_left)) => {
                    sum = with_task(sum, run_of(*start, *span, a), *height, a);
                    starts = starts_left;
                    spans = spans_left;
                    rest = rest_left;
                }
            },
        }
    }
    sum.height
}
