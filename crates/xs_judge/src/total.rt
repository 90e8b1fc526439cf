//! Sums of magnitudes, with how many there are.

ghost use Rattle.std.specs.Prelude.{◌∷◌, ◌++◌, [], List, ◌≡◌, ◌<◌, ◌^◌, ◌+◌, ◌*◌, ℕ};
ghost use Rattle.xf_num.specs.Span.{magnitude_of};
ghost use Rattle.xs_model.specs.Magnitude.{capped};
ghost use Rattle.xs_judge.specs.Weights.{measured, totalled};

use xf_num::{MAX_MAGNITUDE, Span};

/// A sum with one number more. A sum past the greatest magnitude is none.
fn plus(sum: Option<u128>, more: u128) -> Option<u128>
    requires { more < 2 ^ 128 }
    ensures { (n : ℕ) → sum ≡ capped n → result ≡ capped (n + more) }
{
    match sum {
        Some(sum) if more <= MAX_MAGNITUDE && sum <= MAX_MAGNITUDE - more => Some(sum + more),
        _ => None,
    }
}

/// The nodes of an expression counted, and their magnitudes added. What passes the greatest magnitude is none.
#[derive(Clone, Copy)]
pub(crate) struct Total {
    pub(crate) sum: Option<u128>,
    pub(crate) items: Option<u128>,
}

impl Total {
    pub(crate) fn none() -> Total
        ensures { result ≡ totalled [] }
    {
        Total {
            sum: Some(0),
            items: Some(0),
        }
    }

    /// With the nodes of both.
    pub(crate) fn both(self, other: Total) -> Total
        ensures { (ms ns : List ℕ) → self ≡ totalled ms → other ≡ totalled ns → result ≡ totalled (ms ++ ns) }
    {
        Total {
            sum: joined(self.sum, other.sum),
            items: joined(self.items, other.items),
        }
    }

    /// With one node more.
    pub(crate) fn with(self, span: Span) -> Total
        ensures { (ms : List ℕ) → self ≡ totalled ms → result ≡ totalled (ms ++ magnitude_of span ∷ []) }
    {
        Total {
            sum: plus(self.sum, span.magnitude()),
            items: plus(self.items, 1),
        }
    }

    /// The sum of the nodes' magnitudes and the square of their number.
    pub(crate) fn whole(self) -> Option<u128>
        ensures { (m n : ℕ) → self ≡ measured m n → result ≡ capped (m + n * n) }
    {
        match self.items {
            Some(items) => joined(self.sum, squared(items)),
            None => None,
        }
    }
}

/// The sum of two sums.
pub(crate) fn joined(a: Option<u128>, b: Option<u128>) -> Option<u128>
    ensures { (m n : ℕ) → a ≡ capped m → b ≡ capped n → result ≡ capped (m + n) }
{
    match b {
        Some(b) => plus(a, b),
        None => None,
    }
}

/// The square of a number.
fn squared(items: u128) -> Option<u128>
    ensures { result ≡ capped (items * items) }
{
    match items.checked_mul(items) {
        Some(square) if square <= MAX_MAGNITUDE => Some(square),
        _ => None,
    }
}
