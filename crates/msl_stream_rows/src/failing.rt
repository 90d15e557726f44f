//! The adapters over readers and writers that fail at some of their calls: just there they fail too, and where a write
//! takes nothing.

ghost use Rattle.std.specs.Prelude.{◌≤◌, IfOk};

use crate::memory::write;
use msl_io::{Failed, RealSink, RealSource, Source};
use std::io;
use std::io::{ErrorKind, Read, Write};
use std::test::Fail;

// A reader and writer that answers its calls in turn by these numbers, and fails where there is none.
#[derive(Drop)]
struct InTurn {
    answers: &'static [Option<usize>],
}

impl InTurn {
    fn answer(&mut self, most: usize) -> io::Result<usize>
        ensures { IfOk result (λ n. n ≤ most) }
    {
        let Some((answer, others)) = self.answers.split_first() else {
            return Err(io::Error::from(ErrorKind::UnexpectedEof));
        };
        self.answers = others;
        match answer {
            Some(n) => Ok(most.min(*n)),
            None => Err(io::Error::from(ErrorKind::TimedOut)),
        }
    }
}

impl Read for InTurn {
    fn read(&mut self, buf: &mut [u8]) -> io::Result<usize> {
        self.answer(buf.len())
    }
}

impl Write for InTurn {
    fn write(&mut self, buf: &[u8]) -> io::Result<usize> {
        self.answer(buf.len())
    }

    fn flush(&mut self) -> io::Result<()> {
        self.answer(0)?;
        Ok(())
    }
}

// What the reader answers.
const GIVEN: &[Option<usize>] = &[Some(2), None, Some(3), None, None, Some(0)];

// What the source answers to that.
const READS: &[Result<usize, Failed>] = &[
    Ok(2),
    Err(Failed),
    Ok(3),
    Err(Failed),
    Err(Failed),
    Ok(0),
];

#[test]
fn a_source_fails_where_its_reader_does(rt: HostRuntime) -> Result<(), Fail> {
    let mut source = RealSource::new(InTurn { answers: GIVEN });
    let mut buf = [0u8; 8];
    for want in READS {
        assert_eq!(rt; &source.read(&mut buf), want);
    }
    Ok(())
}

// What the writer answers.
const TAKEN: &[Option<usize>] = &[
    Some(2),
    None,
    Some(1),
    Some(0),
    Some(1),
    None,
    Some(0),
    Some(1),
];

// What is written, nothing for a flush, and what the sink answers to that.
const WRITES: &[(&[u8], Result<usize, Failed>)] = &[
    (b"ab", Ok(2)),
    (b"cd", Err(Failed)),
    (b"cd", Ok(1)),
    (b"d", Err(Failed)),
    (b"d", Ok(1)),
    (b"", Err(Failed)),
    (b"", Ok(0)),
    (b"e", Ok(1)),
];

#[test]
fn a_sink_fails_where_its_writer_does(rt: HostRuntime) -> Result<(), Fail> {
    let mut sink = RealSink::new(InTurn { answers: TAKEN });
    for (bytes, want) in WRITES {
        assert_eq!(rt; &write(&mut sink, bytes), want);
    }
    Ok(())
}
