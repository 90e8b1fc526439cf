//! Objects that take new variables and calls, one after the other.

ghost use Rattle.std.specs.Prelude.{◌≡◌, ◌+◌, ◌<◌, ◌≤◌, ◌^◌, ℕ, List, [], ◌∷◌, ◌++◌, refl, IfOk, OnOk, OnErr, IsErrOf};
ghost use Rattle.lo_base.specs.Emit.{EmitLaws, Begins};
ghost use Rattle.xf_text.specs.Outside.{Rose};
ghost use Rattle.lo_base.specs.Partway.{Partway, goes_on as partway_goes_on, stops as partway_stops, joined_is, then_began_is, longer_is, whole_is};
ghost use Rattle.lo_base.specs.Item.{Item, Ranged, Boolean, Posted, made};
ghost use Rattle.lo_base.specs.declared.emit.EmitStop.TheVariants.{Memory, Failed};

use fz_model::Call;
use std::alloc::{AllocError, AllocFailed};
use thiserror::Error;
use xf_num::{NoMemory, Span};

/// Why an item was not appended.
#[derive(Clone, Copy, Debug, PartialEq, Eq, Error)]
pub enum EmitStop {
    /// Memory was wanting.
    #[error("out of memory")]
    Memory,
    /// What the object writes to failed.
    #[error("a write failed")]
    Failed,
}

impl From<NoMemory> for EmitStop {
    ghost from_gives = { λ _ e. e ≡ Memory };

    fn from(_: NoMemory) -> Self {
        EmitStop::Memory
    }
}

impl From<AllocError> for EmitStop {
    ghost from_gives = { λ _ e. e ≡ Memory };

    fn from(_: AllocError) -> Self {
        EmitStop::Memory
    }
}

impl<T: Drop> From<AllocFailed<T>> for EmitStop {
    ghost from_gives = { λ _ e. e ≡ Memory };

    fn from(_: AllocFailed<T>) -> Self {
        EmitStop::Memory
    }
}

/// An object that takes new variables and calls.
///
/// Variables are numbered from 0: first those that the object was made with, then each new one. On an `Err` a
/// prefix of the items was appended: of a variable or a call that is kept, nothing; of one that is written, a
/// prefix of its bytes. `Failed` is answered only where what the object writes to failed.
pub trait Emit {
    /// How many variables it was made with.
    ghost named: { Self → ℕ };

    /// How many variables there are.
    ghost count: { Self → ℕ };

    /// How often what it writes to has failed.
    ghost faults: { Self → ℕ };

    /// The second state is the first with exactly these items appended.
    ghost grew: { Self → Self → List Item → Type 0 };

    /// The second state is the first with a prefix of these items appended.
    ghost began: { Self → Self → List Item → Type 0 };

    /// Makes the next variable, an integer of this range, and answers its number.
    fn new_int(&mut self, span: Span) -> Result<u64, EmitStop>
        requires { count self.old < 2 ^ 61 }
        ensures number { IfOk result (λ k. k ≡ count self.old) }
        ensures ok { OnOk result (grew self.old self.new (Ranged span.lo span.hi ∷ [])) }
        ensures stopped { OnErr result (began self.old self.new (Ranged span.lo span.hi ∷ [])) }
        ensures cause { IsErrOf result Failed → Rose (faults self.old) (faults self.new) };

    /// Makes the next variable, a Boolean, and answers its number.
    fn new_bool(&mut self) -> Result<u64, EmitStop>
        requires { count self.old < 2 ^ 61 }
        ensures number { IfOk result (λ k. k ≡ count self.old) }
        ensures ok { OnOk result (grew self.old self.new (Boolean ∷ [])) }
        ensures stopped { OnErr result (began self.old self.new (Boolean ∷ [])) }
        ensures cause { IsErrOf result Failed → Rose (faults self.old) (faults self.new) };

    /// Posts a call.
    fn post(&mut self, call: Call) -> Result<(), EmitStop>
        ensures ok { OnOk result (grew self.old self.new (Posted call ∷ [])) }
        ensures stopped { OnErr result (began self.old self.new (Posted call ∷ [])) }
        ensures cause { IsErrOf result Failed → Rose (faults self.old) (faults self.new) };

    ghost laws: { EmitLaws named count faults grew began };

    ghost nothing: { (e : Self) → grew e e [] } = { λ e. laws.nothing e };

    ghost joined: { (a b c : Self) (xs ys zs : List Item) → grew a b xs → grew b c ys → xs ++ ys ≡ zs → grew a c zs } = { λ a b c xs ys zs g h e. joined_is laws xs ys zs g h e };

    ghost then_began: { (a b c : Self) (xs ys zs : List Item) → grew a b xs → began b c ys → Begins (xs ++ ys) zs → began a c zs } = { λ a b c xs ys zs g k h. then_began_is laws xs ys zs g k h };

    ghost joined_three: { (a b c d : Self) (xs ys zs all : List Item) → grew a b xs → grew b c ys → grew c d zs → xs ++ ys ++ zs ≡ all → grew a d all } = { λ a b c d xs ys zs all g h k e. joined a c d (xs ++ ys) zs all (joined a b c xs ys (xs ++ ys) g h refl) k e };

    ghost three_began: { (a b c d : Self) (xs ys zs all : List Item) → grew a b xs → grew b c ys → began c d zs → Begins (xs ++ ys ++ zs) all → began a d all } = { λ a b c d xs ys zs all g h k e. then_began a c d (xs ++ ys) zs all (joined a b c xs ys (xs ++ ys) g h refl) k e };

    ghost longer: { (a b : Self) (xs zs : List Item) → began a b xs → Begins xs zs → began a b zs } = { λ a b xs zs g h. longer_is laws xs zs g h };

    ghost whole: { (a b : Self) (xs zs : List Item) → grew a b xs → Begins xs zs → began a b zs } = { λ a b xs zs g h. whole_is laws xs zs g h };

    ghost goes_on: { (a b c : Self) (due all xs rest : List Item) → Partway grew a b due all → grew b c xs → due ≡ xs ++ rest → Partway grew a c rest all } = { λ a b c due all xs rest p g e. partway_goes_on laws xs rest p e g };

    ghost stops: { (a b c : Self) (due all xs rest : List Item) → Partway grew a b due all → began b c xs → due ≡ xs ++ rest → began a c all } = { λ a b c due all xs rest p g e. partway_stops laws xs rest p e g };

    ghost counted: { (a b : Self) (xs : List Item) → grew a b xs → count b ≡ count a + made xs } = { λ a b xs g. laws.grew_count a b xs g };

    ghost same: { (a b : Self) (xs : List Item) → grew a b xs → (named b ≡ named a) × (faults a ≤ faults b) } = { λ a b xs g. (laws.began_named a b xs (laws.whole a b xs g), laws.began_faults a b xs (laws.whole a b xs g)) };

    ghost kept: { (a b : Self) (xs : List Item) → began a b xs → (named b ≡ named a) × (count a ≤ count b) × (faults a ≤ faults b) } = { λ a b xs g. (laws.began_named a b xs g, laws.began_count a b xs g, laws.began_faults a b xs g) };
}

#[cfg(test)]
mod tests {
    use super::*;
    use std::test::Fail;

    #[test]
    fn causes_are_told(rt: HostRuntime) -> Result<(), Fail> {
        for (stop, text) in [
            (EmitStop::Memory, "out of memory"),
            (EmitStop::Failed, "a write failed"),
        ] {
            assert_eq!(rt; stop.to_string(rt.alloc())?.as_str(), text);
        }
        assert_eq!(rt; EmitStop::from(NoMemory), EmitStop::Memory);
        assert_eq!(rt; EmitStop::from(AllocError), EmitStop::Memory);
        Ok(())
    }
}
