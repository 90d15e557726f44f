//! Lines, and the records that a reader gives of them.

ghost use Rattle.std.specs.Prelude.{None};

use msl_io::{Bytes, Calls, Failed, Line, LineReader, MemSource, Source, Stop};
use std::alloc::Global;
use std::process::Abort;
use std::test::Fail;

// What a reader answers to these bytes, and then again and again.
fn reads_as(
    rt: &impl Abort,
    mut reader: LineReader,
    src: &mut impl Source,
    records: &[&[i64]],
    stop: Stop,
) {
    for want in records {
        assert_eq!(rt; numbers(&reader.next(src)), Some(*want));
    }
    for _ in 0..2 {
        assert_eq!(rt; stop_of(&reader.next(src)), Some(stop));
    }
}

/// The record, where there is one.
pub fn numbers(line: &Line) -> Option<&[i64]> {
    match line {
        Line::Rec(rec) => Some(rec.as_slice()),
        _ => None,
    }
}

/// Why there is no record.
pub fn stop_of(line: &Line) -> Option<Stop> {
    match line {
        Line::Rec(_) => None,
        Line::End => Some(Stop::End),
        Line::BadRecord(n) => Some(Stop::BadRecord(*n)),
        Line::LongLine(n) => Some(Stop::LongLine(*n)),
        Line::WideRecord(n) => Some(Stop::WideRecord(*n)),
        Line::ManyLines => Some(Stop::ManyLines),
        Line::ReadFault => Some(Stop::ReadFault),
        Line::NoMemory => Some(Stop::NoMemory),
    }
}

fn source(alloc: Global, bytes: &[u8], piece: usize, failing: u64) -> Result<MemSource, Fail> {
    let bytes = Bytes::from_vec(Vec::from_slice(alloc, bytes)?);
    let failing = Calls::from_vec(vec![in alloc; failing]?);
    Ok(MemSource::new(bytes, piece.max(1), failing))
}

type Records = &'static [&'static [i64]];

const ROWS: &[(&[u8], Records, Stop)] = &[
    (b"+007 \r\n5", &[&[7], &[5]], Stop::End),
    (b"12 x\n", &[], Stop::BadRecord(1)),
    (b"", &[], Stop::End),
    (b"\n", &[&[]], Stop::End),
    (b"\r\n\t\n \r", &[&[], &[], &[]], Stop::End),
    (b"1 2\n", &[&[1, 2]], Stop::End),
    (b" \t-0  1\t\n", &[&[0, 1]], Stop::End),
    (b"4\n--1\n", &[&[4]], Stop::BadRecord(2)),
    (b"+\n", &[], Stop::BadRecord(1)),
    (b"1-2", &[], Stop::BadRecord(1)),
    (b"9223372036854775808\n", &[], Stop::BadRecord(1)),
    (b"-9223372036854775809", &[], Stop::BadRecord(1)),
    (b"18446744073709551617\n", &[], Stop::BadRecord(1)),
    (b"\xff\n", &[], Stop::BadRecord(1)),
    (b"1\r2\n", &[], Stop::BadRecord(1)),
    (b"1\r\r\n", &[], Stop::BadRecord(1)),
    (b"1\r", &[&[1]], Stop::End),
    (
        b"-9223372036854775808 9223372036854775807\n",
        &[&[-9223372036854775808, 9223372036854775807]],
        Stop::End,
    ),
    (
        b"00000000000000000000000000000000000007\n",
        &[&[7]],
        Stop::End,
    ),
];

#[test]
fn reads_lines_in_any_pieces(rt: HostRuntime) -> Result<(), Fail> {
    for &(bytes, records, stop) in ROWS {
        for piece in [1, 2, 3, 4095, 4096, 4097] {
            let mut src = source(rt.alloc(), bytes, piece, 0)?;
            let reader = LineReader::new(rt.alloc(), 4_294_967_295)?;
            reads_as(&rt, reader, &mut src, records, stop);
        }
    }
    Ok(())
}

// The bytes, how many lines, how many bytes a read, the read that fails, the records and the end.
const ENDS: &[(&[u8], u32, usize, u64, Records, Stop)] = &[
    (b"1\n2\n3\n", 2, 9, 9, &[&[1], &[2]], Stop::ManyLines),
    (b"1\n2\n", 2, 9, 9, &[&[1], &[2]], Stop::End),
    (b"1\n23x4\n", 9, 4, 2, &[&[1]], Stop::ReadFault),
    (b"1\n", 9, 9, 2, &[&[1]], Stop::ReadFault),
];

#[test]
fn stops_at_a_fault_and_at_the_last_line(rt: HostRuntime) -> Result<(), Fail> {
    for &(bytes, lines, piece, failing, records, stop) in ENDS {
        let mut src = source(rt.alloc(), bytes, piece, failing)?;
        let reader = LineReader::new(rt.alloc(), lines)?;
        reads_as(&rt, reader, &mut src, records, stop);
    }
    Ok(())
}

// A source of two bytes over and over. It counts how many bytes it gave.
#[derive(Drop)]
struct Repeat {
    bytes: [u8; 2],
    left: usize,
    given: usize,
}

impl Source for Repeat {
    ghost left = { λ s. None };

    ghost faults = { λ s. 0 };

    fn read(&mut self, buf: &mut [u8]) -> Result<usize, Failed> {
        let n = buf.len().min(self.left);
        for (i, byte) in buf[..n].iter_mut().enumerate() {
            *byte = self.bytes[i % 2];
        }
        self.left -= n;
        self.given = self.given.wrapping_add(n);
        Ok(n)
    }
}

// Two bytes that repeat, how many come, the length of the record if there is one, the end, and how many are read at most.
const LONG: &[([u8; 2], usize, Option<usize>, Stop, usize)] = &[
    ([b'0', b'0'], 33_554_432, Some(1), Stop::End, 33_554_432),
    (
        [b'x', b'x'],
        33_554_433,
        None,
        Stop::LongLine(1),
        33_554_433,
    ),
    (
        [b'x', b'x'],
        99_999_999,
        None,
        Stop::LongLine(1),
        33_558_528,
    ),
    (
        [b'0', b' '],
        2_097_152,
        Some(1_048_576),
        Stop::End,
        2_097_152,
    ),
    (
        [b'0', b' '],
        2_097_153,
        None,
        Stop::WideRecord(1),
        2_097_153,
    ),
];

fn length(line: &Line) -> Option<usize> {
    Some(numbers(line)?.len())
}

#[test]
fn refuses_long_and_wide_lines(rt: HostRuntime) -> Result<(), Fail> {
    for &(bytes, left, len, stop, most) in LONG {
        let mut src = Repeat {
            bytes,
            left,
            given: 0,
        };
        let mut reader = LineReader::new(rt.alloc(), 2)?;
        if len.is_some() {
            assert_eq!(rt; length(&reader.next(&mut src)), len);
        }
        for _ in 0..2 {
            assert_eq!(rt; stop_of(&reader.next(&mut src)), Some(stop));
        }
        assert!(rt; src.given <= most);
    }
    Ok(())
}

// A source that counts how often it is asked.
#[derive(Drop)]
struct Counted {
    left: &'static [u8],
    calls: usize,
}

impl Source for Counted {
    ghost left = { λ s. None };

    ghost faults = { λ s. 0 };

    fn read(&mut self, buf: &mut [u8]) -> Result<usize, Failed> {
        self.calls = self.calls.saturating_add(1);
        let n = buf.len().min(self.left.len());
        let (given, left) = self.left.split_at(n);
        buf[..n].copy_from_slice(given);
        self.left = left;
        Ok(n)
    }
}

// The bytes, how many answers there are up to the one behind which only the end comes, and the end.
const LAST: &[(&[u8], usize, Stop)] = &[
    (b"", 1, Stop::End),
    (b"1\n2\n", 3, Stop::End),
    // The record of a last line that no LF ends is the last that can come.
    (b"1\n2", 2, Stop::End),
    (b"1\nx\n3\n", 2, Stop::BadRecord(2)),
];

#[test]
fn asks_nothing_behind_the_end(rt: HostRuntime) -> Result<(), Fail> {
    for &(left, answers, stop) in LAST {
        let mut src = Counted { left, calls: 0 };
        let mut reader = LineReader::new(rt.alloc(), 9)?;
        for _ in 0..answers {
            reader.next(&mut src);
        }
        let calls = src.calls;
        for _ in 0..2 {
            assert_eq!(rt; stop_of(&reader.next(&mut src)), Some(stop));
        }
        assert_eq!(rt; src.calls, calls);
    }
    Ok(())
}
