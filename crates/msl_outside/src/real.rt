ghost use Rattle.std.specs.Prelude.{Option, None, List, ℕ, ◌≡◌, false, if◌then◌else◌};

use crate::whole::read_whole;
use crate::{Failed, Fetched, Library, Sink, Source};
use std::alloc::Global;
use std::fs;
use std::io::{Read, Write};
use std::rt::Files;

/// A source over any reader. It counts what the reader fails at, and tells what the reader tells: nothing of a file.
#[derive(Drop)]
pub struct RealSource<R: Read> {
    inner: R,
    faults: u64,
}

impl<R: Read> RealSource<R> {
    /// A source that no read of has failed yet.
    pub fn new(inner: R) -> RealSource<R>
        ensures { result ≡ record { inner = inner; faults = 0 } }
    {
        RealSource { inner, faults: 0 }
    }
}

impl<R: Read> Source for RealSource<R> {
    ghost left = { λ s. R.remaining s.inner };

    ghost faults = { λ s. s.faults };

    fn read(&mut self, buf: &mut [u8]) -> Result<usize, Failed> {
        match self.inner.read(buf) {
            Ok(n) => Ok(n),
            Err(_) => {
                self.faults = self.faults.saturating_add(1);
                Err(Failed)
            }
        }
    }
}

/// A sink over any writer. It counts what the writer fails at, and a write that takes nothing. It tells what the
/// writer tells, nothing of a file, and what is flushed only right after a flush.
#[derive(Drop)]
pub struct RealSink<W: Write> {
    inner: W,
    faults: u64,
    is_flushed: bool,
}

impl<W: Write> RealSink<W> {
    /// A sink that no write of has failed yet.
    pub fn new(inner: W) -> RealSink<W>
        ensures { result ≡ record { inner = inner; faults = 0; is_flushed = false } }
    {
        RealSink {
            inner,
            faults: 0,
            is_flushed: false,
        }
    }
}

impl<W: Write> Sink for RealSink<W> {
    ghost held = { λ s. W.contents s.inner };

    ghost flushed = { λ s. if s.is_flushed then W.contents s.inner else None };

    ghost faults = { λ s. s.faults };

    fn write(&mut self, piece: &[u8]) -> Result<usize, Failed> {
        self.is_flushed = false;
        match self.inner.write(piece) {
            Ok(n) if n > 0 => Ok(n),
            _ => {
                self.faults = self.faults.saturating_add(1);
                Err(Failed)
            }
        }
    }

    fn flush(&mut self) -> Result<(), Failed> {
        match self.inner.flush() {
            Ok(()) => {
                self.is_flushed = true;
                Ok(())
            }
            Err(_) => {
                self.faults = self.faults.saturating_add(1);
                Err(Failed)
            }
        }
    }
}

/// A library over the files of the system. It counts what can't be opened or read, and tells nothing of the files.
#[derive(Drop)]
pub struct RealLibrary<R: Files + Drop> {
    rt: R,
    faults: u64,
}

impl<R: Files + Drop> RealLibrary<R> {
    /// A library that no fetch of has failed yet.
    pub fn new(rt: R) -> RealLibrary<R>
        ensures { result ≡ record { rt = rt; faults = 0 } }
    {
        RealLibrary { rt, faults: 0 }
    }
}

impl<R: Files + Drop> Library for RealLibrary<R> {
    ghost file = { λ l name. None };

    ghost asked = { λ l. None };

    ghost faults = { λ l. l.faults };

    // Inlined, its piece would stand among the variables of the caller's whole run.
    #[inline(never)]
    fn fetch(&mut self, alloc: Global, name: &str, limit: usize) -> Fetched {
        let fetched = match fs::open(&self.rt, name) {
            Ok(file) => read_whole(alloc, &mut RealSource::new(file), limit),
            Err(_) => Fetched::Failed,
        };
        if let Fetched::Failed = &fetched {
            self.faults = self.faults.saturating_add(1);
        }
        fetched
    }
}
