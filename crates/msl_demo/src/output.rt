ghost use Rattle.std.specs.Prelude.{◌≡◌, [], Some};

use msl_io::{Bytes, Failed, Sink};
use std::alloc::Global;

// A sink that keeps all that is written. It fails for want of memory alone.
#[derive(Drop)]
pub struct Output {
    bytes: Vec<u8>,
    faults: u64,
}

impl Output {
    // A sink that has taken nothing.
    pub fn new(alloc: Global) -> Output
        ensures { result.bytes.items ≡ [] }
    {
        Output {
            bytes: Vec::new(alloc),
            faults: 0,
        }
    }

    // The bytes that it took.
    pub fn into_bytes(self) -> Bytes
        ensures { result ≡ self.bytes.items }
    {
        Bytes::from_vec(self.bytes)
    }
}

impl Sink for Output {
    ghost held = { λ o. Some o.bytes.items };

    ghost flushed = { λ o. Some o.bytes.items };

    ghost faults = { λ o. o.faults };

    fn write(&mut self, piece: &[u8]) -> Result<usize, Failed> {
        match self.bytes.extend_from_slice(piece) {
            Ok(()) => Ok(piece.len()),
            Err(_) => {
                self.faults = self.faults.saturating_add(1);
                Err(Failed)
            }
        }
    }

    fn flush(&mut self) -> Result<(), Failed> {
        Ok(())
    }
}
