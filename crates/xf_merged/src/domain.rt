//! The domain of ranges.

ghost use Rattle.std.specs.Prelude.{◌≡◌, IfOk};
ghost use Rattle.xf_num.specs.Domain.{IsDomain};
ghost use Rattle.xf_merged.specs.Merged.{domain_of};

use std::alloc::Global;
use xf_num::{Domain, DomainFault, NoMemory, Span};

/// The domain of these ranges, which may come in any order, touch and overlap. None exactly where there is no range.
pub fn domain_of(alloc: Global, pieces: &[Span]) -> Result<Option<Domain>, NoMemory>
    ensures { IfOk result (λ domain. domain ≡ domain_of pieces.now) }
{
    match Domain::from_pieces(alloc, pieces) {
        Ok(domain) => Ok(Some(kept(domain))),
        Err(DomainFault::Empty) => Ok(None),
        Err(DomainFault::Memory) => Err(NoMemory),
    }
}

// The domain itself: its ranges ascend, and no two touch.
fn kept(domain: Domain) -> Domain
    ensures value { result ≡ domain }
    ensures ascends { IsDomain result }
{
    domain
}
