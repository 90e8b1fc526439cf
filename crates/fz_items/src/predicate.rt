//! Predicates.

ghost use Rattle.std.specs.Prelude.{◌≡◌};
ghost use Rattle.fz_items.specs.Items.{predicate_meets};

use crate::condition::Meets;
use fz_values::are_small_digits;
use xf_num::Text;

/// What a predicate with these integers meets.
pub fn predicate_meets(numbers: &[Text]) -> Meets
    ensures { result ≡ predicate_meets numbers.now }
{
    Meets {
        known: true,
        naming: true,
        kinds: true,
        magnitude: are_small_digits(numbers),
        shape: true,
        counting: true,
        bounded: true,
    }
}
