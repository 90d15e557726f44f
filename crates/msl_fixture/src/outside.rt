//! Runs the top call over objects in memory.

use msl_base::{Name, NoMemory};
use msl_io::{Bytes, Calls, File, FileList, MemLibrary, MemSink, MemSource};
use msl_run::{Status, Words, muesli_plain};
use std::alloc::Global;
use std::thread::Threads;

/// Above what any row writes.
const ROOM: usize = 65_536;

/// A piece that holds the whole of an input, and of an output.
const WHOLE: usize = 4096;

/// Which calls of which object fail, from 1, and how much one read gives and one write takes.
#[derive(Clone, Copy)]
pub struct Outside<'a> {
    pub fetches: &'a [u64],
    pub reads: &'a [u64],
    pub writes: &'a [u64],
    pub messages: &'a [u64],
    pub read_piece: usize,
    pub write_piece: usize,
}

/// An outside that works.
pub const WORKING: Outside<'static> = Outside {
    fetches: &[],
    reads: &[],
    writes: &[],
    messages: &[],
    read_piece: WHOLE,
    write_piece: WHOLE,
};

/// What a run left behind.
#[derive(Drop)]
pub struct Left {
    pub status: Status,
    pub lib: MemLibrary,
    pub src: MemSource,
    pub out: MemSink,
    pub err: MemSink,
}

fn bytes(alloc: Global, text: &[u8]) -> Result<Bytes, NoMemory> {
    Ok(Bytes::from_vec(Vec::from_slice(alloc, text)?))
}

fn calls(alloc: Global, numbers: &[u64]) -> Result<Calls, NoMemory> {
    Ok(Calls::from_vec(Vec::from_slice(alloc, numbers)?))
}

fn words_of(alloc: Global, words: &[&str]) -> Result<Words, NoMemory> {
    let mut list = Words::new(alloc);
    for word in words {
        list.add(Name::of(alloc, word)?)?;
    }
    Ok(list)
}

fn file(alloc: Global, script: &str) -> Result<File, NoMemory> {
    let name = Name::of(alloc, "script")?;
    let bytes = bytes(alloc, script.as_bytes())?;
    Ok(File { name, bytes })
}

fn library(alloc: Global, script: &str, failing: &[u64]) -> Result<MemLibrary, NoMemory> {
    let mut files = FileList::new(alloc);
    files.add(file(alloc, script)?)?;
    Ok(MemLibrary::new(alloc, files, calls(alloc, failing)?))
}

fn source(
    alloc: Global,
    input: &[u8],
    piece: usize,
    failing: &[u64],
) -> Result<MemSource, NoMemory> {
    let failing = calls(alloc, failing)?;
    Ok(MemSource::new(bytes(alloc, input)?, piece.max(1), failing))
}

fn sink(alloc: Global, piece: usize, failing: &[u64]) -> Result<MemSink, NoMemory> {
    let failing = calls(alloc, failing)?;
    Ok(MemSink::new(alloc, ROOM, piece.max(1), failing)?)
}

/// Runs the words over a library that holds `script` under the name `script`.
pub fn run(
    rt: &(impl Threads + Sync),
    alloc: Global,
    words: &[&str],
    script: &str,
    input: &[u8],
    outside: &Outside<'_>,
) -> Result<Left, NoMemory> {
    let words = words_of(alloc, words)?;
    let lib = library(alloc, script, outside.fetches)?;
    run_over(rt, alloc, &words, lib, input, outside)
}

fn run_over(
    rt: &(impl Threads + Sync),
    alloc: Global,
    words: &Words,
    mut lib: MemLibrary,
    input: &[u8],
    outside: &Outside<'_>,
) -> Result<Left, NoMemory> {
    let mut src = source(alloc, input, outside.read_piece, outside.reads)?;
    let mut out = sink(alloc, outside.write_piece, outside.writes)?;
    let mut err = sink(alloc, WHOLE, outside.messages)?;
    let status = muesli_plain(rt, alloc, words, &mut lib, &mut src, &mut out, &mut err);
    Ok(Left {
        status,
        lib,
        src,
        out,
        err,
    })
}
