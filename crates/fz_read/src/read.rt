//! A text is read as a model.

ghost use Rattle.std.specs.Prelude.{◌≡◌, ◌⊎◌, Ok, Err, IfOk, IfErr};
ghost use Rattle.xf_text.specs.declared.fault.Fault.{Fault as TheFault};
ghost use Rattle.xf_text.specs.declared.fault.Stop.TheVariants.{Memory, Refused};
ghost use Rattle.fz_items.specs.Items.{IsBound};
ghost use Rattle.fz_model.specs.declared.model.Model.{Model as TheModel};
ghost use Rattle.fz_model.specs.Sound.{IsSound};
ghost use Rattle.fz_sound.specs.Laws.{IsCounted};
ghost use Rattle.fz_read.specs.Reading.{DenotesLaw, IsFaulty, IsRefusal, OneReading, SoundReading, Spells, stop_of};

use fz_grammar::{Fault as Unfit, Halt, read_syntax};
use fz_items::read_syntax_items;
use fz_model::Model;
use std::alloc::Global;
use xf_text::{Fault, Kind, Stop};

// The fault of a text of this size that is not of the grammar, or is too deep.
fn stop_of(halt: Halt, size: usize) -> Stop
    ensures { result ≡ stop_of halt size }
{
    match halt {
        Halt::Memory => Stop::Memory,
        Halt::Fault(Unfit::Misfit(left)) => Stop::Refused(Fault {
            kind: Kind::Syntax,
            place: size.saturating_sub(left) as u64,
        }),
        Halt::Fault(Unfit::Deep(left)) => Stop::Refused(Fault {
            kind: Kind::Depth,
            place: size.saturating_sub(left) as u64,
        }),
    }
}

/// The model that a text states, an unbounded integer variable being from -N to N where the bound is N.
///
/// Asks that a bound is from 0 to 2^126 - 1. The model is sound and within the counts. The text is refused exactly where it has a fault, with that fault; any
/// other error is want of memory.
pub fn read_model(alloc: Global, text: &[u8], bound: Option<i128>) -> Result<Model, Stop>
    requires { IsBound bound }
    ensures ok { IfOk result (λ m. Spells bound text.now m) }
    ensures sound { IfOk result (λ m. IsSound m × IsCounted m) }
    ensures refused { IfErr result (λ stop. IsRefusal bound text.now stop) }
    ensures known { (m : TheModel) → Spells bound text.now m → (result ≡ Ok m) ⊎ (result ≡ Err Memory) }
    ensures fault { (f : TheFault) → IsFaulty bound text.now f → (result ≡ Err (Refused f)) ⊎ (result ≡ Err Memory) }
{
    match read_syntax(alloc, text) {
        Ok(reading) => read_syntax_items(alloc, bound, text.len(), &reading),
        Err(halt) => Err(stop_of(halt, text.len())),
    }
}

/// Does nothing: its clause is the law of reading. With one bound a text is read as at most one model or has at most one
/// fault, and never both.
pub fn one_reading()
    ensures { OneReading }
{}

/// Does nothing: its clause is a law. What a text is read as without a bound is what it denotes.
pub fn denotes_law()
    ensures { DenotesLaw }
{}

/// Does nothing: its clause is a law. What a text is read as is sound and within the counts.
pub fn sound_reading()
    ensures { SoundReading }
{}
