//! The adapters over real files: what is written is read back, a flush goes through, a missing file can't be fetched, and
//! a long one is told apart.

use crate::lines::{numbers, stop_of};
use crate::memory::told;
use msl_io::{
    Library, LineReader, RealLibrary, RealSink, RealSource, Sink, Source, Stop, read_whole,
    write_rec,
};
use std::alloc::{AllocError, Global};
use std::fs;
use std::io::BufWriter;
use std::test::Fail;

#[test]
fn what_is_written_is_read_back(rt: HostRuntime) -> Result<(), Fail> {
    let mut sink = RealSink::new(fs::create(&rt, "numbers")?);
    assert!(rt; write_rec(&mut sink, &[3, -4]).is_ok() && sink.flush().is_ok());
    assert_eq!(rt; fs::read(&rt, "numbers")?.as_slice(), b"3 -4\n".as_slice());
    fs::remove_file(&rt, "numbers")?;
    Ok(())
}

#[test]
fn a_flush_goes_through(rt: HostRuntime) -> Result<(), Fail> {
    let writer = BufWriter::new(rt.alloc(), fs::create(&rt, "buffered")?)?;
    let mut sink = RealSink::new(writer);
    for want in [b"".as_slice(), b"3 -4\n"] {
        assert_eq!(rt; fs::read(&rt, "buffered")?.as_slice(), want);
        assert!(rt; write_rec(&mut sink, &[3, -4]).is_ok());
        assert_eq!(rt; fs::read(&rt, "buffered")?.as_slice(), want);
        assert!(rt; sink.flush().is_ok());
    }
    assert_eq!(rt;
        fs::read(&rt, "buffered")?.as_slice(),
        b"3 -4\n3 -4\n".as_slice()
    );
    fs::remove_file(&rt, "buffered")?;
    Ok(())
}

#[test]
fn a_file_is_read(rt: HostRuntime) -> Result<(), Fail> {
    fs::write(&rt, "bytes", b"3 -4\n")?;
    let mut source = RealSource::new(fs::open(&rt, "bytes")?);
    let mut buf = [0u8; 16];
    for want in [5, 0] {
        assert_eq!(rt; source.read(&mut buf), Ok(want));
    }
    assert_eq!(rt; &buf[..5], b"3 -4\n".as_slice());
    fs::remove_file(&rt, "bytes")?;
    Ok(())
}

// What a library fetches of a file, of at most so many bytes.
const FETCHES: &[(&str, usize, &str)] = &[
    ("five", 5, "3 -4\n"),
    ("five", 4, "long"),
    ("nothing", 4, "failed"),
    ("four", 4, "-5\n6"),
    ("five", 9, "3 -4\n"),
];

#[test]
fn a_library_reaches_files(rt: HostRuntime) -> Result<(), Fail> {
    fs::write(&rt, "five", b"3 -4\n")?;
    fs::write(&rt, "four", b"-5\n6")?;
    let mut library = RealLibrary::new(rt.clone()?);
    for &(name, limit, want) in FETCHES {
        let fetched = library.fetch(rt.alloc(), name, limit);
        assert_eq!(rt; told(&fetched), want.as_bytes());
    }
    fs::remove_file(&rt, "five")?;
    fs::remove_file(&rt, "four")?;
    Ok(())
}

// 10,000 bytes: a line for each number from 1000 to 2999.
fn long_text(alloc: Global) -> Result<String, AllocError> {
    let mut text = String::new(alloc);
    for n in 1000..3000 {
        writeln!(text, "{n}")?;
    }
    Ok(text)
}

#[test]
fn a_long_file_is_read_whole(rt: HostRuntime) -> Result<(), Fail> {
    let text = long_text(rt.alloc())?;
    fs::write(&rt, "long", text.as_str())?;
    let mut library = RealLibrary::new(rt.clone()?);
    for (limit, want) in [(10_000, text.as_bytes()), (9_999, b"long")] {
        let fetched = library.fetch(rt.alloc(), "long", limit);
        assert!(rt; told(&fetched) == want, "at {limit}");
        let mut source = RealSource::new(fs::open(&rt, "long")?);
        let fetched = read_whole(rt.alloc(), &mut source, limit);
        assert!(rt; told(&fetched) == want, "at {limit}");
    }
    fs::remove_file(&rt, "long")?;
    Ok(())
}

#[test]
fn a_long_file_gives_its_records(rt: HostRuntime) -> Result<(), Fail> {
    fs::write(&rt, "records", long_text(rt.alloc())?.as_str())?;
    let mut source = RealSource::new(fs::open(&rt, "records")?);
    let mut reader = LineReader::new(rt.alloc(), 2000)?;
    for n in 1000..3000 {
        assert_eq!(rt; numbers(&reader.next(&mut source)), Some([n].as_slice()));
    }
    assert_eq!(rt; stop_of(&reader.next(&mut source)), Some(Stop::End));
    fs::remove_file(&rt, "records")?;
    Ok(())
}
