ghost use Rattle.std.specs.Prelude.{◌≡◌, ◌<◌, ◌≤◌, ℕ, List, length, IfOk, OnOk, Option};
ghost use Rattle.std.specs.Io.KnownBytes.{ReadConsumes, WriteAppends, Keeps};
ghost use Rattle.msl_outside.specs.Causes.{HasCause};
ghost use Rattle.msl_outside.specs.Fetching.{Fetches, FetchCause, Asks};
ghost use Rattle.msl_outside.specs.Known.{Told};

use msl_base::ListOf;
use std::alloc::Global;

/// A list of bytes.
pub type Bytes = ListOf<u8>;

/// A list of the numbers of calls, the first call being number 1.
pub type Calls = ListOf<u64>;

/// The outside failed, and counted it.
#[derive(Clone, Copy, Debug, PartialEq, Eq)]
pub struct Failed;

/// What bytes are read from.
pub trait Source {
    /// The bytes still to come, where the source tells them.
    ghost left: { Self → Option (List ℕ) };

    /// How often a read failed. It never falls.
    ghost faults: { Self → ℕ };

    /// Reads bytes to the front of `buf`, and answers how many. It answers 0 at the end alone. It counts a fault
    /// exactly where it fails, and then the bytes still to come are as before.
    fn read(&mut self, buf: &mut [u8]) -> Result<usize, Failed>
        requires { 0 < length buf.old }
        ensures bound { IfOk result (λ n. n ≤ length buf.new) }
        ensures bytes { ReadConsumes (left self.old) (left self.new) result buf.new }
        ensures cause { HasCause (faults self.old) (faults self.new) result };
}

/// What bytes are written to.
pub trait Sink {
    /// The bytes that the sink took, where it tells them.
    ghost held: { Self → Option (List ℕ) };

    /// Of these the bytes that no longer wait for a flush, where the sink tells them.
    ghost flushed: { Self → Option (List ℕ) };

    /// How often a write or a flush failed. It never falls.
    ghost faults: { Self → ℕ };

    /// Takes bytes from the front of `piece`, at least one, and answers how many. It counts a fault exactly where it
    /// fails, and then it took nothing.
    fn write(&mut self, piece: &[u8]) -> Result<usize, Failed>
        requires { 0 < length piece.now }
        ensures some { IfOk result (λ n. 0 < n) }
        ensures bound { IfOk result (λ n. n ≤ length piece.now) }
        ensures bytes { WriteAppends (held self.old) (held self.new) result piece.now }
        ensures cause { HasCause (faults self.old) (faults self.new) result };

    /// Hands on all bytes that it took. It counts a fault exactly where it fails.
    fn flush(&mut self) -> Result<(), Failed>
        ensures same { Keeps (held self.old) (held self.new) }
        ensures flushed { OnOk result (flushed self.new ≡ held self.new) }
        ensures cause { HasCause (faults self.old) (faults self.new) result };
}

/// What a fetch of a file gives.
#[derive(Drop)]
pub enum Fetched {
    /// The file's bytes.
    Bytes(Bytes),
    /// The file is longer than the limit.
    Long,
    /// The library failed, and counted it.
    Failed,
    /// Memory ran out.
    NoMemory,
}

/// Where files are.
pub trait Library {
    /// The bytes of the file of a name, where the library tells them.
    ghost file: { Self → List ℕ → Option (List ℕ) };

    /// The names that it was asked for, in their order, where the library tells them.
    ghost asked: { Self → Option (List (List ℕ)) };

    /// How often a fetch failed. It never falls.
    ghost faults: { Self → ℕ };

    /// Fetches the file of a name, of at most `limit` bytes. It counts a fault exactly where it fails.
    fn fetch(&mut self, alloc: Global, name: &str, limit: usize) -> Fetched
        ensures file { Fetches (file self.old name.now) limit result }
        ensures same { (other : List ℕ) → file self.new other ≡ file self.old other }
        ensures asked { Told (asked self.old) (asked self.new) (Asks name.now result) }
        ensures cause { FetchCause (faults self.old) (faults self.new) result };
}
