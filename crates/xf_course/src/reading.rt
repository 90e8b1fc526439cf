//! Files are read, each as what a command takes it for.

ghost use Rattle.std.specs.Prelude.{◌≡◌, ◌≤◌, ℕ, List, true, length, IfOk, IfErr};
ghost use Rattle.xf_course.specs.Course.{IsUnread, IsUnreadText};
ghost use Rattle.xf_course.specs.Files.{AtFile, IsReadAs, StopsBy, most_bytes};
ghost use Rattle.xf_text.specs.declared.fault.Fault.{Fault as TheFault};

use crate::course::Halt;
use std::alloc::Global;
use xf_num::MAX_BYTES;
use xf_text::{Fault, Kind, ReadStop, Shelf, Stop, read_file};
use xf_words::Which;

/// What bytes are read as.
pub trait Format {
    type Value;

    /// The bytes are read as the value.
    ghost accepts: { Self → List ℕ → Self.Value → Type 0 };

    /// The bytes are refused for the fault.
    ghost refuses: { Self → List ℕ → TheFault → Type 0 };

    /// What is known of a value that was read, besides.
    ghost knows: { Self → Self.Value → Type 0 };

    /// The value that the bytes are read as; `Refused` where they have a fault, with that fault.
    fn parse(&self, alloc: Global, bytes: &[u8]) -> Result<Self::Value, Stop>
        ensures knows { IfOk result (λ x. knows self.now x) }
        ensures ok { IfOk result (λ x. accepts self.now bytes.now x) }
        ensures refused { IfErr result (λ stop. StopsBy (refuses self.now bytes.now) stop) };
}

/// The place of the fault of a file that is too long.
const LONG_PLACE: u64 = MAX_BYTES as u64;

// Reads the bytes of the named file.
fn read_bytes<S: Shelf>(
    alloc: Global,
    which: Which,
    word: &str,
    files: &mut S,
) -> Result<Vec<u8>, Halt>
    requires { S.may_ask files.old word.now ≡ true }
    ensures files { S.files files.new ≡ S.files files.old }
    ensures asks { S.may_ask files.new ≡ S.may_ask files.old }
    ensures count { S.faults files.old ≤ S.faults files.new }
    ensures read { IfOk result (λ v. AtFile (S.files files.old) word.now (λ bytes. v.items ≡ bytes)) }
    ensures short { IfOk result (λ v. length v.items ≤ most_bytes) }
    ensures halted { IfErr result (λ halt. IsUnread (S.files files.old) which word.now (λ bytes fault. ⊥) (S.faults files.old) (S.faults files.new) halt) }
{
    match read_file(alloc, files, word) {
        Ok(bytes) => Ok(bytes),
        Err(ReadStop::Long) => Err(Halt::Refused(
            which,
            Fault {
                kind: Kind::Long,
                place: LONG_PLACE,
            },
        )),
        Err(ReadStop::Failed) => Err(Halt::NotRead(which)),
        Err(ReadStop::Memory) => Err(Halt::Memory),
    }
}

/// Reads a file in its format; the word is its name. `Refused` and `NotRead` name it, as the one of two that it is:
/// it is refused where it is longer than 67,108,864 bytes or its bytes have a fault, and not read only where a call on
/// the files failed.
pub fn read_as<F: Format, S: Shelf>(
    alloc: Global,
    format: &F,
    which: Which,
    word: &str,
    files: &mut S,
) -> Result<F::Value, Halt>
    requires { S.may_ask files.old word.now ≡ true }
    ensures files { S.files files.new ≡ S.files files.old }
    ensures asks { S.may_ask files.new ≡ S.may_ask files.old }
    ensures count { S.faults files.old ≤ S.faults files.new }
    ensures knows { IfOk result (λ x. F.knows format.now x) }
    ensures read { IfOk result (λ x. AtFile (S.files files.old) word.now (λ bytes. IsReadAs (F.accepts format.now) bytes x)) }
    ensures halted { IfErr result (λ halt. IsUnread (S.files files.old) which word.now (F.refuses format.now) (S.faults files.old) (S.faults files.new) halt) }
{
    let bytes = match read_bytes(alloc, which, word, files) {
        Ok(bytes) => bytes,
        Err(halt) => return Err(halt),
    };
    parse(alloc, format, which, &bytes)
}

// Reads bytes in their format.
fn parse<F: Format>(alloc: Global, format: &F, which: Which, bytes: &[u8]) -> Result<F::Value, Halt>
    requires { length bytes.now ≤ most_bytes }
    ensures knows { IfOk result (λ x. F.knows format.now x) }
    ensures read { IfOk result (λ x. IsReadAs (F.accepts format.now) bytes.now x) }
    ensures halted { IfErr result (λ halt. IsUnreadText which (F.refuses format.now) bytes.now halt) }
{
    match format.parse(alloc, bytes) {
        Ok(value) => Ok(value),
        Err(Stop::Refused(fault)) => Err(Halt::Refused(which, fault)),
        Err(Stop::Memory) => Err(Halt::Memory),
    }
}
