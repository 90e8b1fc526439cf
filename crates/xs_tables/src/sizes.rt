//! What is asked of counts and lengths.

ghost use Rattle.std.specs.Prelude.{◌≡◌, ℕ, nat_eq, nat_le, length, map};
ghost use Rattle.std.specs.List.{list_all};
ghost use Rattle.xs_fields.specs.Conditions.{first_missed};
ghost use Rattle.xs_model.specs.Formed.{total};
ghost use Rattle.xs_tables.specs.Tables.{sizes_meet};

use xs_fields::Condition;
use xs_model::Tuple;

/// `Counting` where there are more items than are left, which is told, else `Fitting` where lengths do not fit.
pub fn judge_sizes(few: bool, fits: bool) -> Option<Condition>
    ensures { (count left : ℕ) → few ≡ nat_le count left → result ≡ first_missed (sizes_meet count left fits) }
{
    if !few {
        Some(Condition::Counting)
    } else if !fits {
        Some(Condition::Fitting)
    } else {
        None
    }
}

/// Whether tuples have no more entries in all than are left.
pub(crate) fn are_few(tuples: &[Tuple], left: u64) -> bool
    ensures { result ≡ nat_le (total (map length tuples.now)) left }
{
    let mut room = left;
    for tuple in tuples {
        let len = tuple.len() as u64;
        if len > room {
            return false;
        }
        room -= len;
    }
    true
}

/// Whether each tuple is so long.
pub(crate) fn are_long(tuples: &[Tuple], len: usize) -> bool
    ensures { result ≡ list_all (λ t. nat_eq (length t) len) tuples.now }
{
    for tuple in tuples {
        if tuple.len() != len {
            return false;
        }
    }
    true
}
