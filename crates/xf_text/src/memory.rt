//! Files and bytes in memory.

ghost use Rattle.std.specs.Prelude.{◌≡◌, ◌↔◌, ◌⊎◌, ℕ, ◌+◌, ◌<◌, ◌≤◌, ◌^◌, Some, None, List, [], ◌∷◌, ◌++◌, length, drop, take, min, slice_get, is_some, is_ok, true, false, IsTrue, IfOk, OnOk, OnErr, IsErr, IfSome, OnSome, IsSome, IfNone};
ghost use Rattle.std.specs.Bool.{OnTrue};
ghost use Rattle.xf_text.specs.Outside.{Rose, file_named, bytes_at};
ghost use Rattle.xf_text.specs.Memory.{bytes_of, left_of, next_call, IsToFail};

use crate::outside::{Failed, Files, Shelf, Sink, Stored};
use std::alloc::Global;
use xf_num::{Ints, Row};

// The calls on an object, counted from 1, those of them that are to fail, and the count of faults. Both counts stand
// still at 2^64 - 1.
#[derive(Debug, Drop)]
struct Calls {
    fails: Ints,
    made: u64,
    faults: u64,
    ghost bound: { faults < 2 ^ 64 },
}

impl Calls {
    fn new(fails: Ints) -> Calls
        ensures fails { result.fails ≡ fails }
        ensures made { result.made ≡ 0 }
        ensures faults { result.faults ≡ 0 }
    {
        Calls {
            fails,
            made: 0,
            faults: 0,
        }
    }

    // Counts a call, and says whether it is to fail.
    fn next(&mut self) -> bool
        ensures answer { IsTrue result ↔ IsToFail self.old.fails self.old.made }
        ensures fails { self.new.fails ≡ self.old.fails }
        ensures made { self.new.made ≡ next_call self.old.made }
        ensures faults { self.new.faults ≡ self.old.faults }
    {
        self.made = self.made.saturating_add(1);
        self.fails.as_slice().contains(&i128::from(self.made))
    }

    // Counts a fault.
    fn fail(&mut self) -> Failed
        ensures fails { self.new.fails ≡ self.old.fails }
        ensures made { self.new.made ≡ self.old.made }
        ensures count { self.old.faults ≤ self.new.faults }
        ensures rose { Rose self.old.faults self.new.faults }
    {
        self.faults = self.faults.saturating_add(1);
        Failed
    }
}

/// Keeps what it takes.
#[derive(Debug, Drop)]
pub struct MemSink {
    bytes: Vec<u8>,
    calls: Calls,
    most: usize,
    ghost some: { 0 < most },
}

impl MemSink {
    /// A sink that holds nothing yet. It counts its calls from 1; those whose numbers are in `fails` fail, and each
    /// other takes at most `most` bytes. A growth that it is refused is a fault that it counts.
    pub fn new(alloc: Global, fails: Ints, most: usize) -> MemSink
        requires { 0 < most }
        ensures bytes { result.bytes.items ≡ [] }
        ensures fails { result.calls.fails ≡ fails }
        ensures made { result.calls.made ≡ 0 }
        ensures faults { result.calls.faults ≡ 0 }
        ensures most { result.most ≡ most }
    {
        MemSink {
            bytes: Vec::new(alloc),
            calls: Calls::new(fails),
            most,
        }
    }

    /// What it holds.
    pub fn bytes(&self) -> &[u8]
        ensures { result.now ≡ self.now.bytes.items }
    {
        &self.bytes
    }
}

impl Sink for MemSink {
    ghost holds = { λ s. Some s.bytes.items };

    ghost faults = { λ s. s.calls.faults };

    ghost bound = { λ s. s.calls.bound };

    fn write(&mut self, part: &[u8]) -> Result<usize, Failed>
        ensures count { self.old.calls.faults ≤ self.new.calls.faults }
        ensures to_fail { IsToFail self.old.calls.fails self.old.calls.made → IsErr result }
        ensures made { self.new.calls.made ≡ next_call self.old.calls.made }
        ensures fails { self.new.calls.fails ≡ self.old.calls.fails }
        ensures most { self.new.most ≡ self.old.most }
        ensures taken { IfOk result (λ n. n ≡ min (length part.now) self.old.most) }
        ensures appended { IfOk result (λ n. self.new.bytes.items ≡ self.old.bytes.items ++ take n part.now) }
        ensures same { OnErr result (self.new.bytes.items ≡ self.old.bytes.items) }
        ensures cause { OnErr result (Rose self.old.calls.faults self.new.calls.faults) }
    {
        let n = part.len().min(self.most);
        if self.calls.next() || self.bytes.extend_from_slice(&part[..n]).is_err() {
            return Err(self.calls.fail());
        }
        Ok(n)
    }
}

/// Drops what it takes, tells no bytes and never fails.
#[derive(Debug, Drop)]
pub struct SureSink;

impl SureSink {
    pub fn new() -> SureSink {
        SureSink
    }
}

impl Sink for SureSink {
    ghost holds = { λ _. None };

    ghost faults = { λ _. 0 };

    ghost use Rattle.std.proofs.Common.{lit<};

    ghost bound = { λ _. lit< tt };

    fn write(&mut self, part: &[u8]) -> Result<usize, Failed> {
        Ok(part.len())
    }
}

// The place of the first file of this name.
fn place(files: &[Stored], name: &[u8]) -> Option<usize>
    ensures found { IfSome result (λ i. (f : Stored) × (slice_get files.now i ≡ Some f) × (file_named name.now files.now ≡ Some f.bytes)) }
    ensures missing { IfNone result (file_named name.now files.now ≡ None) }
{
    for (i, f) in files.iter().enumerate() {
        if f.name.as_slice() == name {
            return Some(i);
        }
    }
    None
}

// The bytes of the file at a place.
fn bytes_at_place(files: &[Stored], i: usize) -> &[u8]
    ensures { result.now ≡ bytes_of files.now i }
{
    match files.get(i) {
        Some(f) => f.bytes.as_slice(),
        None => &[],
    }
}

// Copies as much of the rest as fits, and says how much.
fn copy_front(rest: &[u8], part: &mut [u8]) -> usize
    ensures count { result ≡ min (length part.old) (length rest.now) }
    ensures same { take result part.new ≡ take result rest.now }
{
    let n = rest.len().min(part.len());
    part[..n].copy_from_slice(&rest[..n]);
    n
}

// Files, which of them is begun, and how many of its bytes are taken.
#[derive(Debug, Drop)]
struct Desk {
    files: Files,
    begun: Option<usize>,
    at: usize,
}

impl Desk {
    fn new(files: Files) -> Desk
        ensures files { result.files ≡ files }
        ensures closed { result.begun ≡ None }
    {
        Desk {
            files,
            begun: None,
            at: 0,
        }
    }

    // Nothing is begun any more.
    fn close(&mut self)
        ensures files { self.new.files ≡ self.old.files }
        ensures closed { self.new.begun ≡ None }
    {
        self.begun = None;
    }

    // Begins the named file where it is there, and says whether it is.
    fn begin(&mut self, name: &str) -> bool
        ensures files { self.new.files ≡ self.old.files }
        ensures there { result ≡ is_some (file_named name.now self.old.files) }
        ensures begun { is_some self.new.begun ≡ result }
        ensures left { OnTrue result (left_of self.new.files self.new.begun self.new.at ≡ file_named name.now self.old.files) }
    {
        self.begun = place(self.files.as_slice(), name.as_bytes());
        self.at = 0;
        self.begun.is_some()
    }

    // Takes the next bytes of the begun file, and says how many.
    fn read(&mut self, part: &mut [u8]) -> usize
        requires { is_some self.old.begun ≡ true }
        ensures files { self.new.files ≡ self.old.files }
        ensures begun { self.new.begun ≡ self.old.begun }
        ensures count { IfSome (left_of self.old.files self.old.begun self.old.at) (λ bytes. result ≡ min (length part.old) (length bytes)) }
        ensures bytes { IfSome (left_of self.old.files self.old.begun self.old.at) (λ bytes. take result part.new ≡ take result bytes) }
        ensures left { IfSome (left_of self.old.files self.old.begun self.old.at) (λ bytes. left_of self.new.files self.new.begun self.new.at ≡ Some (drop result bytes)) }
    {
        let i = self.begun.unwrap();
        let bytes = bytes_at_place(self.files.as_slice(), i);
        let rest = &bytes[self.at.min(bytes.len())..];
        let n = copy_front(rest, part);
        self.at += n;
        n
    }
}

/// Files in memory, with calls that fail.
#[derive(Debug, Drop)]
pub struct MemShelf {
    desk: Desk,
    calls: Calls,
}

impl MemShelf {
    /// Of these files every name may be asked; to begin one that is not there fails. It counts its calls from 1,
    /// those to begin a file and those to read alike; those whose numbers are in `fails` fail. Takes no memory.
    pub fn new(_alloc: Global, files: Files, fails: Ints) -> MemShelf
        ensures files { result.desk.files ≡ files }
        ensures fails { result.calls.fails ≡ fails }
        ensures made { result.calls.made ≡ 0 }
        ensures faults { result.calls.faults ≡ 0 }
    {
        MemShelf {
            desk: Desk::new(files),
            calls: Calls::new(fails),
        }
    }
}

impl Shelf for MemShelf {
    ghost files = { λ s. Some s.desk.files };

    ghost left = { λ s. left_of s.desk.files s.desk.begun s.desk.at };

    ghost may_ask = { λ _ _. true };

    ghost is_begun = { λ s. is_some s.desk.begun };

    ghost faults = { λ s. s.calls.faults };

    ghost bound = { λ s. s.calls.bound };

    fn begin(&mut self, name: &str) -> Result<(), Failed>
        ensures files { self.new.desk.files ≡ self.old.desk.files }
        ensures fails { self.new.calls.fails ≡ self.old.calls.fails }
        ensures made { self.new.calls.made ≡ next_call self.old.calls.made }
        ensures count { self.old.calls.faults ≤ self.new.calls.faults }
        ensures failed { IsErr result ↔ (IsToFail self.old.calls.fails self.old.calls.made ⊎ (file_named name.now self.old.desk.files ≡ None)) }
        ensures begun { is_some self.new.desk.begun ≡ is_ok result }
        ensures left { OnOk result (left_of self.new.desk.files self.new.desk.begun self.new.desk.at ≡ file_named name.now self.old.desk.files) }
        ensures cause { OnErr result (Rose self.old.calls.faults self.new.calls.faults) }
    {
        if self.calls.next() {
            self.desk.close();
            return Err(self.calls.fail());
        }
        if !self.desk.begin(name) {
            return Err(self.calls.fail());
        }
        Ok(())
    }

    fn read(&mut self, part: &mut [u8]) -> Result<usize, Failed>
        requires { is_some self.old.desk.begun ≡ true }
        ensures files { self.new.desk.files ≡ self.old.desk.files }
        ensures fails { self.new.calls.fails ≡ self.old.calls.fails }
        ensures made { self.new.calls.made ≡ next_call self.old.calls.made }
        ensures count { self.old.calls.faults ≤ self.new.calls.faults }
        ensures failed { IsErr result ↔ IsToFail self.old.calls.fails self.old.calls.made }
        ensures begun { self.new.desk.begun ≡ self.old.desk.begun }
        ensures taken { IfOk result (λ n. IfSome (left_of self.old.desk.files self.old.desk.begun self.old.desk.at) (λ bytes. n ≡ min (length part.old) (length bytes))) }
        ensures bytes { IfOk result (λ n. IfSome (left_of self.old.desk.files self.old.desk.begun self.old.desk.at) (λ bytes. take n part.new ≡ take n bytes)) }
        ensures left { IfOk result (λ n. IfSome (left_of self.old.desk.files self.old.desk.begun self.old.desk.at) (λ bytes. left_of self.new.desk.files self.new.desk.begun self.new.desk.at ≡ Some (drop n bytes))) }
        ensures untaken { OnErr result (self.new.desk.at ≡ self.old.desk.at) }
        ensures cause { OnErr result (Rose self.old.calls.faults self.new.calls.faults) }
    {
        if self.calls.next() {
            return Err(self.calls.fail());
        }
        Ok(self.desk.read(part))
    }
}

/// Files in memory, of which exactly those that are there may be asked. It never fails.
#[derive(Debug, Drop)]
pub struct SureShelf {
    desk: Desk,
}

impl SureShelf {
    /// Exactly the names that are there may be asked. Takes no memory.
    pub fn new(_alloc: Global, files: Files) -> SureShelf
        ensures { result.desk.files ≡ files }
    {
        SureShelf {
            desk: Desk::new(files),
        }
    }
}

impl Shelf for SureShelf {
    ghost files = { λ s. Some s.desk.files };

    ghost left = { λ s. left_of s.desk.files s.desk.begun s.desk.at };

    ghost may_ask = { λ s name. is_some (file_named name s.desk.files) };

    ghost is_begun = { λ s. is_some s.desk.begun };

    ghost faults = { λ _. 0 };

    ghost use Rattle.std.proofs.Common.{lit<};

    ghost bound = { λ _. lit< tt };

    fn begin(&mut self, name: &str) -> Result<(), Failed> {
        self.desk.begin(name);
        Ok(())
    }

    fn read(&mut self, part: &mut [u8]) -> Result<usize, Failed> {
        Ok(self.desk.read(part))
    }
}
