//! A text is read as an instance.

ghost use Rattle.std.specs.Prelude.{◌≡◌, ◌⊎◌, Ok, Err, IfOk, IfErr};
ghost use Rattle.xf_text.specs.declared.fault.Fault.{Fault as TheFault};
ghost use Rattle.xf_text.specs.declared.fault.Stop.TheVariants.{Memory, Refused};
ghost use Rattle.xs_file.specs.Reading.{IsFaulty, IsRefusal, OneDenoted, OneReading, SpeltIsAccepted, Spells};
ghost use Rattle.xs_model.specs.Accepted.{IsAccepted};
ghost use Rattle.xs_model.specs.declared.instance.Instance.{Instance as TheInstance};

use crate::sections::read_root;
use std::alloc::Global;
use xf_markup::read_tree;
use xf_text::Stop;
use xs_model::Instance;

// The instance of a text without a fault.
fn read_text(alloc: Global, text: &[u8]) -> Result<Instance, Stop>
    ensures ok { IfOk result (λ i. Spells text.now i) }
    ensures accepted { IfOk result (λ i. IsAccepted i) }
    ensures refused { IfErr result (λ stop. IsRefusal text.now stop) }
{
    let root = read_tree(alloc, text)?;
    let held = read_root(alloc, root)?;
    Ok(held.into_instance())
}

/// The instance that a text spells. It is refused exactly where it has a fault, with that fault; any other error is
/// want of memory.
pub fn read_instance(alloc: Global, text: &[u8]) -> Result<Instance, Stop>
    ensures ok { IfOk result (λ i. Spells text.now i) }
    ensures accepted { IfOk result (λ i. IsAccepted i) }
    ensures refused { IfErr result (λ stop. IsRefusal text.now stop) }
    ensures known { (i : TheInstance) → Spells text.now i → (result ≡ Ok i) ⊎ (result ≡ Err Memory) }
    ensures fault { (f : TheFault) → IsFaulty text.now f → (result ≡ Err (Refused f)) ⊎ (result ≡ Err Memory) }
{
    read_text(alloc, text)
}

/// Does nothing: its clause is the law of reading. A text spells at most one instance or has at most one fault, and
/// never both.
pub fn one_reading()
    ensures { OneReading }
{}

/// Does nothing: its clause is the law of what a text denotes, where no limit on what is read is asked. A text denotes the
/// instance that it spells, and at most one.
pub fn one_denoted()
    ensures { OneDenoted }
{}

/// Does nothing: its clause says that what a text spells is sound, and within the limits on what is read.
pub fn spelt_is_accepted()
    ensures { SpeltIsAccepted }
{}
