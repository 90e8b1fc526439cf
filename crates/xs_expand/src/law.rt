//! The laws of expansion.

ghost use Rattle.std.specs.Prelude.{ℕ, List};
ghost use Rattle.xs_model.specs.Outline.{Outline};
ghost use Rattle.xs_units.specs.Order.{IsOneOrder};
ghost use Rattle.xs_units.specs.Units.{IsByChildren};

use xs_units::Take;

/// Does nothing: its clause says how the units of an element are those of its children.
#[tactic(auto, using(xs_units::proofs::UnitLemmas::by_children))]
pub fn by_children()
    ensures { (told : ℕ → ℕ) (os : List Outline) → IsByChildren told os }
{}

/// Does nothing: its clause says that to judge each constraint as it is made is to expand first and to judge then.
#[tactic(auto, using(crate::proofs::OrderLemmas::one_order))]
pub fn one_order<T: Take>()
    ensures { (told : ℕ → ℕ) (os : List Outline) → IsOneOrder told os T.taken }
{}
