//! Counts and lengths.

ghost use Rattle.std.specs.Prelude.{◌≡◌, nat_le};
ghost use Rattle.xs_fields.specs.Conditions.{first_missed};
ghost use Rattle.xs_model.specs.Formed.{items_of};
ghost use Rattle.xs_model.specs.declared.instance.Constraint.TheVariants.{Cumulative};
ghost use Rattle.xs_tables.specs.Tables.{sizes_meet};
ghost use Rattle.xs_tasks.specs.Sizes.{ends_count};
ghost use Rattle.xs_tasks.specs.Tasks.{are_even};

use xf_num::Vars;
use xs_conditions::count_items;
use xs_fields::Condition;
use xs_model::{Cond, Terms};
use xs_tables::judge_sizes;

fn ends_count(ends: &Option<Vars>) -> usize
    ensures { result ≡ ends_count ends.now }
{
    match ends {
        Some(ends) => ends.len(),
        None => 0,
    }
}

// Whether the tasks and the condition have no more items than are left.
fn are_few(
    origins: &Vars,
    lengths: &Terms,
    heights: &Terms,
    ends: &Option<Vars>,
    cond: &Cond,
    left: u64,
) -> bool
    ensures { result ≡ nat_le (items_of (Cumulative origins.now lengths.now heights.now ends.now cond.now)) left }
{
    let tasks = origins.len() as u128 + lengths.len() as u128 + heights.len() as u128;
    let rest = ends_count(ends) as u128 + u128::from(count_items(cond));
    tasks + rest <= u128::from(left)
}

// Whether there are as many lengths, heights and ends as origins.
fn are_even(
    origins: &Vars,
    lengths: &Terms,
    heights: &Terms,
    ends: &Option<Vars>,
    cond: &Cond,
) -> bool
    ensures { result ≡ are_even (Cumulative origins.now lengths.now heights.now ends.now cond.now) }
{
    let count = origins.len();
    lengths.len() == count
        && heights.len() == count
        && match ends {
            Some(ends) => ends.len() == count,
            None => true,
        }
}

/// What counts and lengths miss first, where at most `left` items may still come: `Counting` or `Fitting`.
pub(crate) fn judge_tasks(
    origins: &Vars,
    lengths: &Terms,
    heights: &Terms,
    ends: &Option<Vars>,
    cond: &Cond,
    left: u64,
) -> Option<Condition>
    ensures { result ≡ first_missed (sizes_meet (items_of (Cumulative origins.now lengths.now heights.now ends.now cond.now)) left (are_even (Cumulative origins.now lengths.now heights.now ends.now cond.now))) }
{
    let few = are_few(origins, lengths, heights, ends, cond, left);
    judge_sizes(few, are_even(origins, lengths, heights, ends, cond))
}
