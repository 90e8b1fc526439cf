//! Whole files are read, and whole texts written.

ghost use Rattle.std.specs.Prelude.{◌≡◌, ◌⊎◌, ℕ, ◌+◌, ◌<◌, ◌≤◌, true, false, IfOk, OnOk, OnErr, IfSome, IsSome, OnSome, IsErrOf, length, vec_len, []};
ghost use Rattle.xf_text.specs.Outside.{Rose, bytes_at, Appended, AppendedFront, Taken, Took, TookAtMost};
ghost use Rattle.xf_text.specs.declared.whole.ReadStop.TheVariants.{Failed as FailedRead, Memory};

use crate::outside::{Failed, Shelf, Sink};
use std::alloc::{AllocError, Global};
use thiserror::Error;
use xf_num::MAX_BYTES;

/// The most bytes that are asked for at once.
const BLOCK_BYTES: usize = 65_536;

/// Why a file was not read.
#[derive(Clone, Copy, Debug, PartialEq, Eq, Error)]
pub enum ReadStop {
    /// A call on the files failed.
    #[error("a file could not be read")]
    Failed,
    /// The file has more than `MAX_BYTES` bytes.
    #[error("the file is longer than 67108864 bytes")]
    Long,
    /// Memory was wanting.
    #[error("out of memory")]
    Memory,
}

impl From<Failed> for ReadStop {
    ghost from_gives = { λ _ e. e ≡ FailedRead };

    fn from(_: Failed) -> Self {
        ReadStop::Failed
    }
}

impl From<AllocError> for ReadStop {
    ghost from_gives = { λ _ e. e ≡ Memory };

    fn from(_: AllocError) -> Self {
        ReadStop::Memory
    }
}

/// Writes all of the part; after `Failed` a prefix of it was appended.
pub fn write_whole<W: Sink>(out: &mut W, part: &[u8]) -> Result<(), Failed>
    ensures count { W.faults out.old ≤ W.faults out.new }
    ensures ok { OnOk result (Appended (W.holds out.old) (W.holds out.new) part.now) }
    ensures front { OnErr result (AppendedFront (W.holds out.old) (W.holds out.new) part.now) }
    ensures cause { OnErr result (Rose (W.faults out.old) (W.faults out.new)) }
{
    let mut at = 0;
    while at < part.len() {
        at += out.write(&part[at..])?;
    }
    Ok(())
}

// Room for a block.
fn new_block(alloc: Global) -> Result<Vec<u8>, AllocError>
    ensures { IfOk result (λ block. vec_len block ≡ BLOCK_BYTES) }
{
    Ok(vec![in alloc; 0u8; BLOCK_BYTES]?)
}

// How many bytes to ask for after so many: up to one more than a file may have.
fn room_after(taken: usize) -> usize
    requires { taken ≤ MAX_BYTES }
    ensures some { 0 < result }
    ensures block { result ≤ BLOCK_BYTES }
    ensures most { taken + result ≤ MAX_BYTES + 1 }
{
    (MAX_BYTES + 1 - taken).min(BLOCK_BYTES)
}

// Takes the next bytes of the begun file, no more than `room` has, and answers them.
fn take_part<'a, S: Shelf>(files: &mut S, room: &'a mut [u8]) -> Result<&'a [u8], Failed>
    requires { S.is_begun files.old ≡ true }
    ensures files { S.files files.new ≡ S.files files.old }
    ensures asks { S.may_ask files.new ≡ S.may_ask files.old }
    ensures count { S.faults files.old ≤ S.faults files.new }
    ensures begun { S.is_begun files.new ≡ true }
    ensures within { IfOk result (λ part. length part.now ≤ length room.old) }
    ensures next { IfOk result (λ part. Taken (S.left files.old) (S.left files.new) part.now) }
    ensures end { IfOk result (λ part. length part.now ≡ 0 → 0 < length room.old → IfSome (S.left files.old) (λ bytes. bytes ≡ [])) }
    ensures untaken { OnErr result (S.left files.new ≡ S.left files.old) }
    ensures cause { OnErr result (Rose (S.faults files.old) (S.faults files.new)) }
{
    let n = files.read(room)?;
    Ok(&room[..n])
}

/// Reads the named file to its end.
///
/// `Long` comes exactly where `MAX_BYTES + 1` bytes were taken, `Failed` only where the count of faults rose in
/// this call. Where the files are told, a file of which bytes were taken is one of them.
pub fn read_file<S: Shelf>(alloc: Global, files: &mut S, name: &str) -> Result<Vec<u8>, ReadStop>
    requires { S.may_ask files.old name.now ≡ true }
    ensures files { S.files files.new ≡ S.files files.old }
    ensures asks { S.may_ask files.new ≡ S.may_ask files.old }
    ensures count { S.faults files.old ≤ S.faults files.new }
    ensures bytes { IfOk result (λ v. IfSome (bytes_at (S.files files.old) name.now) (λ bytes. v.items ≡ bytes)) }
    ensures short { IfOk result (λ v. length v.items ≤ MAX_BYTES) }
    ensures there { IfOk result (λ _. OnSome (S.files files.old) (IsSome (bytes_at (S.files files.old) name.now))) }
    ensures long_there { IsErrOf result ReadStop.Long → OnSome (S.files files.old) (IsSome (bytes_at (S.files files.old) name.now)) }
    ensures end { IfOk result (λ v. Took (bytes_at (S.files files.old) name.now) (S.left files.new) (length v.items)) }
    ensures long { IsErrOf result ReadStop.Long → Took (bytes_at (S.files files.old) name.now) (S.left files.new) (MAX_BYTES + 1) }
    ensures memory { IsErrOf result ReadStop.Memory → TookAtMost (bytes_at (S.files files.old) name.now) (S.left files.new) MAX_BYTES }
    ensures failed { IsErrOf result ReadStop.Failed → (S.is_begun files.new ≡ false) ⊎ TookAtMost (bytes_at (S.files files.old) name.now) (S.left files.new) MAX_BYTES }
    ensures cause { IsErrOf result ReadStop.Failed → Rose (S.faults files.old) (S.faults files.new) }
{
    files.begin(name)?;
    let mut block = new_block(alloc)?;
    let mut bytes = Vec::new(alloc);
    'parts: loop {
        let room = room_after(bytes.len());
        let part = take_part(files, &mut block[..room])?;
        if part.is_empty() {
            return Ok(bytes);
        }
        if bytes.len() + part.len() > MAX_BYTES {
            return Err(ReadStop::Long);
        }
        bytes.extend_from_slice(part)?;
    }
}
