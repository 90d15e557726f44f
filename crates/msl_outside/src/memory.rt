ghost use Rattle.std.specs.Prelude.{true, ◌≡◌, ◌<◌, ◌≤◌, ◌+◌, ◌-◌, ◌^◌, ℕ, List, [], Some, None, Option, IfOk, IsErr, OnOk, OnErr, ◌↔◌, ◌⊎◌, ◌∷◌, ◌++◌, min, length, take, Contains};
ghost use Rattle.std.specs.Io.KnownBytes.{ReadConsumes, WriteAppends, Keeps};
ghost use Rattle.std.specs.Option.{option_copied};
ghost use Rattle.msl_outside.specs.Causes.{HasCause, Counts, Rose};
ghost use Rattle.msl_outside.specs.Fetching.{Fetches, FetchCause, FetchCounts, Asks, bytes_under};
ghost use Rattle.msl_outside.specs.Known.{Told};
ghost use Rattle.msl_outside.specs.declared.outside.Fetched.{Fetched};

use crate::{Bytes, Calls, Failed, Fetched, Library, Sink, Source};
use msl_base::{ListOf, Name, NoMemory};
use std::alloc::Global;
use std::marker::Model;

// The calls of an object in memory: which of them fail, how many were made and how many failed.
#[derive(Drop)]
struct Trouble {
    failing: Calls,
    calls: u64,
    faults: u64,
}

impl Trouble {
    // That of an object that was not called yet.
    fn at(failing: Calls) -> Trouble
        ensures { result ≡ record { failing = failing; calls = 0; faults = 0 } }
    {
        Trouble {
            failing,
            calls: 0,
            faults: 0,
        }
    }

    // Counts a call, and tells whether it is one that fails.
    fn is_due(&mut self) -> bool
        ensures due { (result ≡ true) ↔ Contains self.old.failing self.new.calls }
        ensures calls { self.new.calls ≡ min (self.old.calls + 1) (2 ^ 64 - 1) }
        ensures faults { self.new.faults ≡ self.old.faults }
        ensures failing { self.new.failing ≡ self.old.failing }
    {
        self.calls = self.calls.saturating_add(1);
        self.failing.as_slice().contains(&self.calls)
    }

    // Counts a fault.
    fn count(&mut self)
        ensures counts { self.new.faults ≡ min (self.old.faults + 1) (2 ^ 64 - 1) }
        ensures rose { Rose self.old.faults self.new.faults }
        ensures calls { self.new.calls ≡ self.old.calls }
        ensures failing { self.new.failing ≡ self.old.failing }
    {
        self.faults = self.faults.saturating_add(1);
    }
}

/// A source over bytes in memory. A read gives at most `piece` of them, and fails exactly at the calls whose
/// numbers are listed.
#[derive(Drop)]
pub struct MemSource {
    bytes: Bytes,
    at: usize,
    piece: usize,
    trouble: Trouble,
}

impl Model for MemSource {
    ghost use Rattle.std.specs.Prelude.{drop, length, ◌<◌, ◌≤◌};
    ghost use Rattle.msl_outside.specs.Memory.{SourceView};

    ghost Value = { SourceView };

    ghost view = { λ s. record { left = drop s.at s.bytes; piece = s.piece; failing = s.trouble.failing; calls = s.trouble.calls; faults = s.trouble.faults } };

    ghost invariant = { λ s. (0 < s.piece) × (s.at ≤ length s.bytes) };
}

impl MemSource {
    /// A source of these bytes that has not been read.
    pub fn new(bytes: Bytes, piece: usize, failing: Calls) -> MemSource
        requires { 0 < piece }
        ensures { result ≡ record { left = bytes; piece = piece; failing = failing; calls = 0; faults = 0 } }
    {
        MemSource {
            bytes,
            at: 0,
            piece,
            trouble: Trouble::at(failing),
        }
    }
}

impl Source for MemSource {
    ghost left = { λ s. Some s.left };

    ghost faults = { λ s. s.faults };

    /// A read gives the least of `piece`, the length of `buf` and what is left.
    fn read(&mut self, buf: &mut [u8]) -> Result<usize, Failed>
        requires { 0 < length buf.old }
        ensures bound { IfOk result (λ n. n ≤ length buf.new) }
        ensures bytes { ReadConsumes (Some self.old.left) (Some self.new.left) result buf.new }
        ensures cause { HasCause self.old.faults self.new.faults result }
        ensures counts { Counts self.old.faults self.new.faults result }
        ensures count { IfOk result (λ n. n ≡ min self.old.piece (min (length buf.old) (length self.old.left))) }
        ensures fails { IsErr result ↔ Contains self.old.failing self.new.calls }
        ensures calls { self.new.calls ≡ min (self.old.calls + 1) (2 ^ 64 - 1) }
        ensures piece { self.new.piece ≡ self.old.piece }
        ensures failing { self.new.failing ≡ self.old.failing }
    {
        if self.trouble.is_due() {
            self.trouble.count();
            return Err(Failed);
        }
        let left = &self.bytes.as_slice()[self.at..];
        let n = self.piece.min(buf.len()).min(left.len());
        buf[..n].copy_from_slice(&left[..n]);
        self.at += n;
        Ok(n)
    }
}

/// A source over bytes in memory that never fails.
#[derive(Drop)]
pub struct SteadySource {
    source: MemSource,
}

impl Model for SteadySource {
    ghost use Rattle.std.specs.Prelude.{◌≡◌, [], List, ℕ};

    ghost Value = { List ℕ };

    ghost view = { λ s. s.source.left };

    ghost invariant = { λ s. s.source.failing ≡ [] };
}

impl SteadySource {
    /// A source of these bytes, of which a read gives at most `piece`.
    pub fn new(alloc: Global, bytes: Bytes, piece: usize) -> SteadySource
        requires { 0 < piece }
        ensures { result ≡ bytes }
    {
        SteadySource {
            source: MemSource::new(bytes, piece, Calls::new(alloc)),
        }
    }
}

impl Source for SteadySource {
    ghost left = { λ s. Some s };

    ghost faults = { λ s. 0 };

    fn read(&mut self, buf: &mut [u8]) -> Result<usize, Failed> {
        self.source.read(buf)
    }
}

/// A sink in memory that takes at most `room` bytes, at most `piece` at a time. Its calls, writes and flushes
/// together, fail exactly where their numbers are listed, and a write also where there is no room.
#[derive(Drop)]
pub struct MemSink {
    held: Vec<u8>,
    // so many of them no longer wait for a flush
    flushed: usize,
    room: usize,
    piece: usize,
    trouble: Trouble,
}

impl Model for MemSink {
    ghost use Rattle.std.specs.Prelude.{vec_len, vec_capacity, ◌<◌, ◌≤◌};
    ghost use Rattle.msl_outside.specs.Memory.{SinkView};

    ghost Value = { SinkView };

    ghost view = { λ s. record { held = s.held.items; flushed = s.flushed; room = s.room; piece = s.piece; failing = s.trouble.failing; calls = s.trouble.calls; faults = s.trouble.faults } };

    ghost invariant = { λ s. (0 < s.piece) × (s.flushed ≤ vec_len s.held) × (vec_len s.held ≤ s.room) × (s.room ≤ vec_capacity s.held) };
}

impl MemSink {
    /// An empty sink. It takes memory for `room` bytes at once; no write takes any.
    pub fn new(
        alloc: Global,
        room: usize,
        piece: usize,
        failing: Calls,
    ) -> Result<MemSink, NoMemory>
        requires { 0 < piece }
        ensures { IfOk result (λ sink. sink ≡ record { held = []; flushed = 0; room = room; piece = piece; failing = failing; calls = 0; faults = 0 }) }
    {
        let held = Vec::with_capacity(alloc, room)?;
        Ok(MemSink {
            held,
            flushed: 0,
            room,
            piece,
            trouble: Trouble::at(failing),
        })
    }

    /// The bytes that it took.
    pub fn held(&self) -> &[u8]
        ensures { result.now ≡ self.now.held }
    {
        self.held.as_slice()
    }
}

impl Sink for MemSink {
    ghost held = { λ s. Some s.held };

    ghost flushed = { λ s. Some (take s.flushed s.held) };

    ghost faults = { λ s. s.faults };

    /// A write takes the least of `piece`, what it is given and the room.
    fn write(&mut self, piece: &[u8]) -> Result<usize, Failed>
        requires { 0 < length piece.now }
        ensures some { IfOk result (λ n. 0 < n) }
        ensures bound { IfOk result (λ n. n ≤ length piece.now) }
        ensures bytes { WriteAppends (Some self.old.held) (Some self.new.held) result piece.now }
        ensures cause { HasCause self.old.faults self.new.faults result }
        ensures counts { Counts self.old.faults self.new.faults result }
        ensures count { IfOk result (λ n. n ≡ min self.old.piece (min (length piece.now) (self.old.room - length self.old.held))) }
        ensures fails { IsErr result ↔ ((length self.old.held ≡ self.old.room) ⊎ Contains self.old.failing self.new.calls) }
        ensures unflushed { self.new.flushed ≡ self.old.flushed }
        ensures calls { self.new.calls ≡ min (self.old.calls + 1) (2 ^ 64 - 1) }
        ensures room { self.new.room ≡ self.old.room }
        ensures piece { self.new.piece ≡ self.old.piece }
        ensures failing { self.new.failing ≡ self.old.failing }
    {
        let room = self.room - self.held.len();
        if self.trouble.is_due() || room == 0 {
            self.trouble.count();
            return Err(Failed);
        }
        let n = self.piece.min(piece.len()).min(room);
        self.held.extend_from_slice(&piece[..n]).unwrap();
        Ok(n)
    }

    fn flush(&mut self) -> Result<(), Failed>
        ensures same { Keeps (Some self.old.held) (Some self.new.held) }
        ensures flushed { OnOk result (Some (take self.new.flushed self.new.held) ≡ Some self.new.held) }
        ensures unflushed { OnErr result (self.new.flushed ≡ self.old.flushed) }
        ensures cause { HasCause self.old.faults self.new.faults result }
        ensures counts { Counts self.old.faults self.new.faults result }
        ensures fails { IsErr result ↔ Contains self.old.failing self.new.calls }
        ensures calls { self.new.calls ≡ min (self.old.calls + 1) (2 ^ 64 - 1) }
        ensures room { self.new.room ≡ self.old.room }
        ensures piece { self.new.piece ≡ self.old.piece }
        ensures failing { self.new.failing ≡ self.old.failing }
    {
        if self.trouble.is_due() {
            self.trouble.count();
            return Err(Failed);
        }
        self.flushed = self.held.len();
        Ok(())
    }
}

/// A file.
#[derive(Drop)]
pub struct File {
    /// What it is fetched by.
    pub name: Name,
    /// What is in it.
    pub bytes: Bytes,
}

/// A list of files.
pub type FileList = ListOf<File>;

/// Files in memory. Of several files of one name the first counts. A fetch fails exactly at the calls whose numbers
/// are listed and where no file has the name. The library notes each name that it is asked for.
#[derive(Drop)]
pub struct MemLibrary {
    files: FileList,
    asked: ListOf<Name>,
    trouble: Trouble,
}

impl Model for MemLibrary {
    ghost use Rattle.msl_outside.specs.Memory.{LibraryView};

    ghost Value = { LibraryView };

    ghost view = { λ l. record { files = l.files; asked = l.asked; failing = l.trouble.failing; calls = l.trouble.calls; faults = l.trouble.faults } };
}

impl MemLibrary {
    /// A library of these files that was not asked yet.
    pub fn new(alloc: Global, files: FileList, failing: Calls) -> MemLibrary
        ensures { result ≡ record { files = files; asked = []; failing = failing; calls = 0; faults = 0 } }
    {
        MemLibrary {
            files,
            asked: ListOf::new(alloc),
            trouble: Trouble::at(failing),
        }
    }

    /// The names that it was asked for, in their order. A name that gave no file may be left out.
    pub fn asked(&self) -> &[Name]
        ensures { result.now ≡ self.now.asked }
    {
        self.asked.as_slice()
    }

    // Notes a name, or leaves the names where memory runs out.
    fn note(&mut self, alloc: Global, name: &str) -> Result<(), NoMemory>
        ensures ok { OnOk result (self.new ≡ record self.old { asked = self.old.asked ++ name.now ∷ [] }) }
        ensures err { OnErr result (self.new ≡ self.old) }
    {
        self.asked.add(Name::of(alloc, name)?)
    }
}

impl Library for MemLibrary {
    ghost file = { λ l. bytes_under l.files };

    ghost asked = { λ l. Some l.asked };

    ghost faults = { λ l. l.faults };

    fn fetch(&mut self, alloc: Global, name: &str, limit: usize) -> Fetched
        ensures file { Fetches (bytes_under self.old.files name.now) limit result }
        ensures same { (other : List ℕ) → bytes_under self.new.files other ≡ bytes_under self.old.files other }
        ensures asked { Told (Some self.old.asked) (Some self.new.asked) (Asks name.now result) }
        ensures cause { FetchCause self.old.faults self.new.faults result }
        ensures counts { FetchCounts self.old.faults self.new.faults result }
        ensures fails { (result ≡ Fetched.Failed) ↔ ((bytes_under self.old.files name.now ≡ None) ⊎ Contains self.old.failing self.new.calls) }
        ensures calls { self.new.calls ≡ min (self.old.calls + 1) (2 ^ 64 - 1) }
        ensures failing { self.new.failing ≡ self.old.failing }
    {
        let noted = self.note(alloc, name);
        if self.trouble.is_due() {
            self.trouble.count();
            return Fetched::Failed;
        }
        let Some(bytes) = find(self.files.as_slice(), name) else {
            self.trouble.count();
            return Fetched::Failed;
        };
        if noted.is_err() {
            return Fetched::NoMemory;
        }
        if bytes.len() > limit {
            return Fetched::Long;
        }
        match bytes.to_vec(alloc) {
            Ok(bytes) => Fetched::Bytes(Bytes::from_vec(bytes)),
            Err(_) => Fetched::NoMemory,
        }
    }
}

// The bytes of the first file of that name.
fn find<'a>(files: &'a [File], name: &str) -> Option<&'a [u8]>
    ensures { option_copied result ≡ bytes_under files.now name.now }
{
    for file in files {
        if file.name.as_str() == name {
            return Some(file.bytes.as_slice());
        }
    }
    None
}
