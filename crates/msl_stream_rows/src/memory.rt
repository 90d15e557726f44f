//! Sources, sinks and libraries in memory, and the calls at which they fail.

use msl_base::Name;
use msl_io::{
    Bytes, Calls, Failed, Fetched, File, FileList, Library, MemLibrary, MemSink, MemSource, Sink,
    Source,
};
use std::alloc::Global;
use std::test::Fail;

/// The call of this number.
pub fn call(alloc: Global, number: u64) -> Result<Calls, Fail> {
    Ok(Calls::from_vec(vec![in alloc; number]?))
}

const READS: &[Result<usize, Failed>] = &[Ok(3), Err(Failed), Ok(1), Ok(0)];

#[test]
fn a_source_fails_where_it_is_told_to(rt: HostRuntime) -> Result<(), Fail> {
    let bytes = Bytes::from_vec(Vec::from_slice(rt.alloc(), b"abcd")?);
    let mut source = MemSource::new(bytes, 3, call(rt.alloc(), 2)?);
    let mut buf = [0u8; 8];
    for want in READS {
        assert_eq!(rt; &source.read(&mut buf), want);
    }
    assert_eq!(rt; &buf[..3], b"dbc".as_slice());
    Ok(())
}

// What is written, nothing for a flush, and how many bytes are taken.
const CALLS: &[(&[u8], Result<usize, Failed>)] = &[
    (b"abcd", Ok(3)),
    (b"de", Ok(1)),
    (b"", Err(Failed)),
    (b"", Ok(0)),
    (b"f", Err(Failed)),
];

/// A write of these bytes, or a flush where there are none.
pub fn write<K: Sink>(sink: &mut K, bytes: &[u8]) -> Result<usize, Failed> {
    if !bytes.is_empty() {
        return sink.write(bytes);
    }
    match sink.flush() {
        Ok(()) => Ok(0),
        Err(failed) => Err(failed),
    }
}

#[test]
fn a_sink_fails_where_it_is_told_to(rt: HostRuntime) -> Result<(), Fail> {
    let mut sink = MemSink::new(rt.alloc(), 4, 3, call(rt.alloc(), 3)?)?;
    for (bytes, want) in CALLS {
        assert_eq!(rt; &write(&mut sink, bytes), want);
    }
    assert_eq!(rt; sink.held(), b"abcd".as_slice());
    Ok(())
}

fn file(alloc: Global, name: &str, text: &[u8]) -> Result<File, Fail> {
    let name = Name::of(alloc, name)?;
    let bytes = Bytes::from_vec(Vec::from_slice(alloc, text)?);
    Ok(File { name, bytes })
}

const FILES: &[(&str, &[u8])] = &[("a", b"one"), ("c", b"three"), ("a", b"two")];

// These files, and a failing call.
fn library(alloc: Global, failing: u64) -> Result<MemLibrary, Fail> {
    let mut files = FileList::new(alloc);
    for &(name, text) in FILES {
        files.add(file(alloc, name, text)?)?;
    }
    Ok(MemLibrary::new(alloc, files, call(alloc, failing)?))
}

/// What a fetch gives: the bytes, or a word.
pub fn told(fetched: &Fetched) -> &[u8] {
    match fetched {
        Fetched::Bytes(bytes) => bytes.as_slice(),
        Fetched::Long => b"long",
        Fetched::Failed => b"failed",
        Fetched::NoMemory => b"no memory",
    }
}

// What a library fetches, of at most so many bytes, at one call after the other.
const FETCHES: &[(&str, usize, &str)] = &[
    ("a", 3, "one"),
    ("a", 2, "long"),
    ("b", 3, "failed"),
    ("a", 3, "failed"),
    ("a", 3, "one"),
];

#[test]
fn a_library_fails_where_it_is_told_to(rt: HostRuntime) -> Result<(), Fail> {
    let mut library = library(rt.alloc(), 4)?;
    for &(name, limit, want) in FETCHES {
        let fetched = library.fetch(rt.alloc(), name, limit);
        assert_eq!(rt; told(&fetched), want.as_bytes());
    }
    Ok(())
}

// What is fetched, of at most so many bytes.
const ASKED: &[(&str, usize)] = &[("c", 5), ("a", 3), ("a", 2), ("c", 9)];

// Each name that gives a file, or a file that is too long, is noted in its turn.
#[test]
fn a_library_notes_what_it_is_asked_for(rt: HostRuntime) -> Result<(), Fail> {
    let mut library = library(rt.alloc(), 9)?;
    for &(name, limit) in ASKED {
        library.fetch(rt.alloc(), name, limit);
    }
    assert_eq!(rt; library.asked().len(), ASKED.len());
    for (asked, (want, _)) in library.asked().iter().zip(ASKED) {
        assert_eq!(rt; asked.as_str(), *want);
    }
    Ok(())
}
