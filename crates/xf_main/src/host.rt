//! The files and streams of the machine. They tell no bytes: what a file holds and what a stream took is outside of
//! what is proved.

ghost use Rattle.std.specs.Prelude.{◌≡◌, ◌≤◌, ◌<◌, ◌^◌, None, is_some, true, OnErr};
ghost use Rattle.xf_text.specs.Outside.{Rose};

use std::alloc::Global;
use std::fs::File;
use std::io::{self, Read, Stdin, Write};
use xf_text::{Failed, Shelf, Sink};

/// The most bytes that a sink keeps before it writes them.
const BLOCK_BYTES: usize = 65_536;

// A count of faults, which stands still at 2^64 - 1.
#[derive(Drop)]
struct Faults {
    count: u64,
    ghost bound: { count < 2 ^ 64 },
}

impl Faults {
    fn none() -> Faults {
        Faults { count: 0 }
    }

    fn add(&mut self) -> Failed
        ensures count { self.old.count ≤ self.new.count }
        ensures rose { Rose self.old.count self.new.count }
    {
        self.count = self.count.saturating_add(1);
        Failed
    }
}

// What a begun file is read from.
#[derive(Drop)]
enum Source {
    Input(Stdin),
    File(File),
}

/// The files of the machine, and its standard input under the name `-`.
#[derive(Drop)]
pub struct HostShelf<'a> {
    runtime: &'a HostRuntime,
    begun: Option<Source>,
    faults: Faults,
}

impl<'a> HostShelf<'a> {
    pub fn new(runtime: &'a HostRuntime) -> HostShelf<'a> {
        HostShelf {
            runtime,
            begun: None,
            faults: Faults::none(),
        }
    }
}

// Opens the named file, or standard input.
fn open(runtime: &HostRuntime, name: &str) -> io::Result<Source> {
    if name == "-" {
        Ok(Source::Input(runtime.stdin()))
    } else {
        Ok(Source::File(File::open(runtime, name)?))
    }
}

impl<'a> Shelf for HostShelf<'a> {
    ghost files = { λ _. None };

    ghost left = { λ _. None };

    ghost may_ask = { λ _ _. true };

    ghost is_begun = { λ s. is_some s.begun };

    ghost faults = { λ s. s.faults.count };

    ghost bound = { λ s. s.faults.bound };

    fn begin(&mut self, name: &str) -> Result<(), Failed> {
        self.begun = None;
        match open(self.runtime, name) {
            Ok(source) => {
                self.begun = Some(source);
                Ok(())
            }
            Err(_) => Err(self.faults.add()),
        }
    }

    fn read(&mut self, part: &mut [u8]) -> Result<usize, Failed> {
        let taken = match &mut self.begun {
            Some(Source::Input(input)) => input.read(part).ok(),
            Some(Source::File(file)) => file.read(part).ok(),
            None => None,
        };
        match taken {
            Some(count) => Ok(count),
            None => Err(self.faults.add()),
        }
    }
}

/// A stream of the machine. It keeps up to `BLOCK_BYTES` bytes before it writes them: `flush` writes what is left. A
/// stream of which no write was asked is not touched.
#[derive(Drop)]
pub struct HostSink<W> {
    stream: W,
    kept: Vec<u8>,
    is_used: bool,
    faults: Faults,
}

impl<W: Write> HostSink<W> {
    pub fn new(alloc: Global, stream: W) -> HostSink<W> {
        HostSink {
            stream,
            kept: Vec::new(alloc),
            is_used: false,
            faults: Faults::none(),
        }
    }

    /// Writes the bytes that are kept; does nothing where no write was asked.
    pub fn flush(&mut self) -> Result<(), Failed>
        ensures count { self.old.faults.count ≤ self.new.faults.count }
        ensures cause { OnErr result (Rose self.old.faults.count self.new.faults.count) }
    {
        if !self.is_used {
            return Ok(());
        }
        let written = self.stream.write_all(&self.kept);
        self.kept.clear();
        if written.is_err() || self.stream.flush().is_err() {
            return Err(self.faults.add());
        }
        Ok(())
    }

    // Whether so many bytes more may be kept.
    fn has_room(&self, more: usize) -> bool {
        more <= BLOCK_BYTES.saturating_sub(self.kept.len())
    }

    // Keeps the bytes, or writes them.
    fn take(&mut self, part: &[u8]) -> Result<(), Failed>
        ensures count { self.old.faults.count ≤ self.new.faults.count }
        ensures cause { OnErr result (Rose self.old.faults.count self.new.faults.count) }
    {
        if self.has_room(part.len()) && self.kept.extend_from_slice(part).is_ok() {
            return Ok(());
        }
        if self.stream.write_all(part).is_err() {
            return Err(self.faults.add());
        }
        Ok(())
    }
}

impl<W: Write> Sink for HostSink<W> {
    ghost holds = { λ _. None };

    ghost faults = { λ s. s.faults.count };

    ghost bound = { λ s. s.faults.bound };

    fn write(&mut self, part: &[u8]) -> Result<usize, Failed> {
        self.is_used = true;
        if !self.has_room(part.len()) {
            self.flush()?;
        }
        self.take(part)?;
        Ok(part.len())
    }
}
