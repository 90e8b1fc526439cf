//! What the program reads from and writes to.

ghost use Rattle.std.specs.Prelude.{◌≡◌, ◌↔◌, ℕ, ◌<◌, ◌≤◌, ◌^◌, Bool, true, false, Option, Some, List, [], length, take, drop, IfOk, OnOk, OnErr, IfSome, IsSome, OnSome};
ghost use Rattle.xf_text.specs.declared.outside.Stored.{Stored};
ghost use Rattle.xf_text.specs.Outside.{Rose, bytes_at, Appended};

use xf_num::{Row, Text};

/// A file: its name and its bytes.
#[derive(Debug, Drop)]
pub struct Stored {
    pub name: Text,
    pub bytes: Text,
}

pub type Files = Row<Stored>;

/// A fault of the outside.
#[derive(Clone, Copy, Debug, PartialEq, Eq)]
pub struct Failed;

/// Where files are read from, one after the other.
///
/// Every call leaves the files, and the names that may be asked for, as they are.
pub trait Shelf {
    /// The files, where they are told. Of two files with one name the first counts.
    ghost files: { Self → Option (List Stored) };

    /// What is left of the begun file, where it is told.
    ghost left: { Self → Option (List ℕ) };

    /// Which names may be asked for.
    ghost may_ask: { Self → List ℕ → Bool };

    /// Whether a file is begun.
    ghost is_begun: { Self → Bool };

    /// The count of faults, at most 2^64 - 1.
    ghost faults: { Self → ℕ };

    /// Begins the named file: all of it is left. After `Failed` no file is begun.
    ///
    /// Where the files are told, a file that is begun is one of them.
    fn begin(&mut self, name: &str) -> Result<(), Failed>
        requires { may_ask self.old name.now ≡ true }
        ensures files { files self.new ≡ files self.old }
        ensures asks { may_ask self.new ≡ may_ask self.old }
        ensures count { faults self.old ≤ faults self.new }
        ensures begun { OnOk result (is_begun self.new ≡ true) }
        ensures there { OnOk result (OnSome (files self.old) (IsSome (bytes_at (files self.old) name.now))) }
        ensures left { OnOk result (IfSome (bytes_at (files self.old) name.now) (λ bytes. left self.new ≡ Some bytes)) }
        ensures not_begun { OnErr result (is_begun self.new ≡ false) }
        ensures cause { OnErr result (Rose (faults self.old) (faults self.new)) };

    /// Takes the next bytes of the begun file into a front of `part`, and answers how many.
    ///
    /// 0 for a part that is not empty comes exactly at the end. `Failed` takes nothing.
    fn read(&mut self, part: &mut [u8]) -> Result<usize, Failed>
        requires { is_begun self.old ≡ true }
        ensures files { files self.new ≡ files self.old }
        ensures asks { may_ask self.new ≡ may_ask self.old }
        ensures count { faults self.old ≤ faults self.new }
        ensures begun { is_begun self.new ≡ true }
        ensures within { IfOk result (λ n. n ≤ length part.old) }
        ensures bytes { IfOk result (λ n. IfSome (left self.old) (λ bytes. take n part.new ≡ take n bytes)) }
        ensures taken { IfOk result (λ n. IfSome (left self.old) (λ bytes. n ≤ length bytes)) }
        ensures left { IfOk result (λ n. IfSome (left self.old) (λ bytes. left self.new ≡ Some (drop n bytes))) }
        ensures end { IfOk result (λ n. IfSome (left self.old) (λ bytes. 0 < length part.old → (n ≡ 0) ↔ (bytes ≡ []))) }
        ensures untaken { OnErr result (left self.new ≡ left self.old) }
        ensures cause { OnErr result (Rose (faults self.old) (faults self.new)) };

    ghost bound: { (s : Self) → faults s < 2 ^ 64 };
}

/// What takes bytes.
pub trait Sink {
    /// The bytes that it holds, where they are told.
    ghost holds: { Self → Option (List ℕ) };

    /// The count of faults, at most 2^64 - 1.
    ghost faults: { Self → ℕ };

    /// Appends a front of `part`, and answers its length: at least 1 where `part` is not empty.
    ///
    /// `Failed` appends nothing.
    fn write(&mut self, part: &[u8]) -> Result<usize, Failed>
        ensures count { faults self.old ≤ faults self.new }
        ensures within { IfOk result (λ n. n ≤ length part.now) }
        ensures some { IfOk result (λ n. 0 < length part.now → 0 < n) }
        ensures ok { IfOk result (λ n. Appended (holds self.old) (holds self.new) (take n part.now)) }
        ensures same { OnErr result (holds self.new ≡ holds self.old) }
        ensures cause { OnErr result (Rose (faults self.old) (faults self.new)) };

    ghost bound: { (s : Self) → faults s < 2 ^ 64 };
}
