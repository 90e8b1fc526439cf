//! The domain that a text denotes.

ghost use Rattle.std.specs.Prelude.{◌≡◌, ◌↔◌, ℤ, IfOk, IfSome};
ghost use Rattle.xf_num.specs.Domain.{IsDomain, IsMember};
ghost use Rattle.xs_var.specs.Merged.{domain_of};

use std::alloc::Global;
use xf_num::{Domain, DomainFault, NoMemory, Span};

/// The domain of these ranges, which may come in any order, touch and overlap: its members are exactly their integers.
/// None exactly where there is no range.
pub fn domain_of(alloc: Global, pieces: &[Span]) -> Result<Option<Domain>, NoMemory>
    ensures value { IfOk result (λ domain. domain ≡ domain_of pieces.now) }
    ensures members { IfOk result (λ domain. IfSome domain (λ d. (v : ℤ) → IsMember d v ↔ IsMember pieces.now v)) }
{
    match Domain::from_pieces(alloc, pieces) {
        Ok(domain) => Ok(Some(kept(domain))),
        Err(DomainFault::Empty) => Ok(None),
        Err(DomainFault::Memory) => Err(NoMemory),
    }
}

// The domain itself: its ranges ascend, and no two touch.
fn kept(domain: Domain) -> Domain
    ensures value { result ≡ domain }
    ensures ascends { IsDomain result }
{
    domain
}
