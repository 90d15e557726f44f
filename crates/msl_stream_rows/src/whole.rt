//! Sources that are read to their end.

use crate::memory::{call, told};
use msl_io::{Bytes, MemSource, Source, SteadySource, read_whole};
use std::alloc::Global;
use std::test::Fail;

fn bytes(alloc: Global) -> Result<Bytes, Fail> {
    Ok(Bytes::from_vec(Vec::from_slice(alloc, b"abcde")?))
}

#[test]
fn a_steady_source_gives_its_bytes_in_pieces(rt: HostRuntime) -> Result<(), Fail> {
    let mut source = SteadySource::new(rt.alloc(), bytes(rt.alloc())?, 2);
    let mut buf = [0u8; 4];
    for want in [b"ab".as_slice(), b"cd", b"e", b"", b""] {
        assert_eq!(rt; source.read(&mut buf), Ok(want.len()));
        assert_eq!(rt; buf.get(..want.len()), Some(want));
    }
    Ok(())
}

// How many bytes a read gives, the read that fails, how many may come, and what comes of the five bytes.
const ROWS: &[(usize, u64, usize, &str)] = &[
    (1, 9, 5, "abcde"),
    (2, 9, 5, "abcde"),
    (9, 9, 6, "abcde"),
    (2, 5, 5, "abcde"),
    (1, 9, 4, "long"),
    (2, 9, 4, "long"),
    (9, 9, 0, "long"),
    (2, 1, 5, "failed"),
    (2, 3, 5, "failed"),
    // The read that would tell that no more comes.
    (2, 4, 5, "failed"),
];

#[test]
fn a_source_is_read_whole(rt: HostRuntime) -> Result<(), Fail> {
    for &(piece, failing, limit, want) in ROWS {
        let failing = call(rt.alloc(), failing)?;
        let mut source = MemSource::new(bytes(rt.alloc())?, piece.max(1), failing);
        let fetched = read_whole(rt.alloc(), &mut source, limit);
        assert_eq!(rt; told(&fetched), want.as_bytes());
    }
    Ok(())
}
