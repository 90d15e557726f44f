ghost use Rattle.std.specs.Prelude.{◌≡◌, [], IfOk, ◌≤◌, length, drop};
ghost use Rattle.msl_outside.specs.Known.{Told};
ghost use Rattle.msl_io.specs.Taking.{Fills, FillsSome, FillCause};

use msl_base::NoMemory;
use msl_outside::Source;
use std::alloc::Global;
use std::marker::Model;

/// How many bytes a chunk may have.
pub const CHUNK_BYTES: usize = 4096;

/// How a chunk was filled.
pub enum Filled {
    /// It has bytes.
    Bytes,
    /// It has none, and none is left.
    End,
    /// It has none, and the source failed.
    Fault,
}

/// Bytes that were read in one piece and aren't used yet, seen as their list. It holds at most 4,096.
#[derive(Drop)]
pub struct Chunk {
    bytes: Vec<u8>,
    from: usize,
    to: usize,
}

impl Model for Chunk {
    ghost use Rattle.std.specs.Prelude.{◌≡◌, ◌≤◌, ℕ, List, drop, take};
    ghost use Rattle.std.specs.Vec.{vec_len};
    ghost use Rattle.msl_io.specs.declared.chunk.TheConstants.{CHUNK_BYTES};

    ghost Value = { List ℕ };

    ghost view = { λ c. drop c.from (take c.to c.bytes.items) };

    ghost invariant = { λ c. (c.from ≤ c.to) × (c.to ≤ vec_len c.bytes) × (vec_len c.bytes ≡ CHUNK_BYTES) };
}

impl Chunk {
    /// A chunk with no byte. It fails for want of memory alone.
    pub fn new(alloc: Global) -> Result<Chunk, NoMemory>
        ensures { IfOk result (λ chunk. chunk ≡ []) }
    {
        let bytes = vec![in alloc; 0u8; CHUNK_BYTES]?;
        Ok(Chunk {
            bytes,
            from: 0,
            to: 0,
        })
    }

    /// Reads from the source where the chunk is used up.
    pub fn fill<S: Source>(&mut self, src: &mut S) -> Filled
        ensures bytes { Told (S.left src.old) (S.left src.new) (λ left left'. Fills result self.old left self.new left') }
        ensures cause { FillCause result (S.faults src.old) (S.faults src.new) }
        ensures some { FillsSome result self.new }
        ensures kept { length self.new ≤ CHUNK_BYTES }
    {
        if self.from < self.to {
            return Filled::Bytes;
        }
        match src.read(self.bytes.as_mut_slice()) {
            Ok(0) => Filled::End,
            Ok(n) => {
                self.from = 0;
                self.to = n;
                Filled::Bytes
            }
            Err(_) => Filled::Fault,
        }
    }

    /// The bytes.
    pub fn as_slice(&self) -> &[u8]
        ensures { result.now ≡ self.now }
    {
        &self.bytes[self.from..self.to]
    }

    /// Takes bytes off the front.
    pub fn advance(&mut self, n: usize)
        requires { n ≤ length self.old }
        ensures { self.new ≡ drop n self.old }
    {
        self.from += n;
    }
}
