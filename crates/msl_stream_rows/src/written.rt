//! Records and texts that are written.

use msl_io::{Calls, MemSink, Piece, write_rec, write_text};
use std::alloc::Global;
use std::test::Fail;

// A sink that fails at this call, or at none where it is 0.
fn sink(alloc: Global, room: usize, piece: usize, failing: u64) -> Result<MemSink, Fail> {
    let failing = Calls::from_vec(vec![in alloc; failing]?);
    Ok(MemSink::new(alloc, room, piece.max(1), failing)?)
}

const RECORDS: &[&[i64]] = &[&[9, -16], &[], &[i64::MIN, 0]];

#[test]
fn records_are_written(rt: HostRuntime) -> Result<(), Fail> {
    let mut sink = sink(rt.alloc(), 4096, 7, 0)?;
    for xs in RECORDS {
        assert!(rt; write_rec(&mut sink, xs).is_ok());
    }
    let mut piece = Piece::new();
    piece.push_bytes(b"line ");
    piece.push_decimal(12);
    piece.push(b'\n');
    assert!(rt; write_text(&mut sink, piece.as_slice()).is_ok());
    let want = b"9 -16\n\n-9223372036854775808 0\nline 12\n".as_slice();
    assert_eq!(rt; sink.held(), want);
    Ok(())
}

// A record of many numbers goes through the sink in pieces; where the first fails, the rest is not tried.
#[test]
fn a_long_record_is_written_in_pieces(rt: HostRuntime) -> Result<(), Fail> {
    for (failing, held) in [(0, 900), (1, 0)] {
        let mut sink = sink(rt.alloc(), 4096, 4096, failing)?;
        let is_ok = write_rec(&mut sink, &[-1; 300]).is_ok();
        assert_eq!(rt;
            (sink.held().len(), is_ok),
            (held, failing == 0),
            "at {failing}"
        );
    }
    Ok(())
}
