//! The text that is due is written. Nothing else touches what takes it.

ghost use Rattle.fz_file.specs.Layout.{layout};
ghost use Rattle.xf_carry.specs.Lowered.{low};
ghost use Rattle.xf_top.specs.Texts.{IsWritable, IsWritten, text_of};
ghost use Rattle.xs_model.specs.Accepted.{IsAccepted};

use crate::due::Due;
use lo_base::EmitStop;
use std::alloc::Global;
use xf_carry::write_lowered;
use xf_text::{Sink, write_whole};
use xs_model::Instance;

/// Writes the text, and gives back what takes it. After an `Err` a front of it was written; `Failed` comes only where
/// what takes it failed.
pub fn write_due<W: Sink>(alloc: Global, due: &Due, out: W) -> (Result<(), EmitStop>, W)
    requires { IsWritable due.now }
    ensures { IsWritten (text_of due.now) (W.faults out) (W.faults result.1) (W.holds out) (W.holds result.1) result.0 }
{
    match due {
        Due::Text(text) => write_bytes(text.as_slice(), out),
        Due::Lowered(instance) => write_model(alloc, instance, out),
    }
}

fn write_bytes<W: Sink>(bytes: &[u8], out: W) -> (Result<(), EmitStop>, W)
    ensures { IsWritten bytes.now (W.faults out) (W.faults result.1) (W.holds out) (W.holds result.1) result.0 }
{
    let mut out = out;
    match write_whole(&mut out, bytes) {
        Ok(()) => (Ok(()), out),
        Err(_) => (Err(EmitStop::Failed), out),
    }
}

// Writes the FlatZinc model of the instance.
fn write_model<W: Sink>(alloc: Global, instance: &Instance, out: W) -> (Result<(), EmitStop>, W)
    requires { IsAccepted instance.now }
    ensures { IsWritten (layout (low instance.now)) (W.faults out) (W.faults result.1) (W.holds out) (W.holds result.1) result.0 }
{
    write_lowered(alloc, instance, out)
}
