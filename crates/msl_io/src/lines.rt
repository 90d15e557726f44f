ghost use Rattle.std.specs.Prelude.{◌≡◌, ◌+◌, ◌≤◌, [], Some, None, IsNone, IsSome, IfOk, length};
ghost use Rattle.msl_io.specs.declared.chunk.TheConstants.{CHUNK_BYTES};
ghost use Rattle.msl_io.specs.Reader.{ReadsLine, stop_of, Counts, ReadCause};
ghost use Rattle.msl_io.specs.Taking.{reader, last_stop};

use crate::chunk::{Chunk, Filled};
use crate::text::{Part, Text};
use msl_base::{NoMemory, Rec};
use msl_outside::Source;
use std::alloc::Global;
use std::marker::Model;
use std::mem;

/// What the next line is. Lines are numbered from 1.
#[derive(Drop)]
pub enum Line {
    /// The line's record.
    Rec(Rec),
    /// No line is left.
    End,
    /// Some word of the line of this number is no number.
    BadRecord(u32),
    /// The line of this number has more than 33,554,432 bytes, a CR counted, before its LF or the end.
    LongLine(u32),
    /// The line of this number has more than 1,048,576 words.
    WideRecord(u32),
    /// A line begins behind the greatest number of lines.
    ManyLines,
    /// The source failed, and counted it, before the line was whole.
    ReadFault,
    /// Memory ran out.
    NoMemory,
}

/// Why a reader reads no more: each answer of `Line` but a record.
#[derive(Clone, Copy, Debug, PartialEq, Eq)]
pub enum Stop {
    /// No line is left.
    End,
    /// The line of this number is no record.
    BadRecord(u32),
    /// The line of this number has too many bytes.
    LongLine(u32),
    /// The line of this number has too many words.
    WideRecord(u32),
    /// There are too many lines.
    ManyLines,
    /// The source failed.
    ReadFault,
    /// Memory ran out.
    NoMemory,
}

impl Stop {
    // The answer that stopped the reader.
    fn line(self) -> Line
        ensures { stop_of result ≡ Some self }
    {
        match self {
            Stop::End => Line::End,
            Stop::BadRecord(n) => Line::BadRecord(n),
            Stop::LongLine(n) => Line::LongLine(n),
            Stop::WideRecord(n) => Line::WideRecord(n),
            Stop::ManyLines => Line::ManyLines,
            Stop::ReadFault => Line::ReadFault,
            Stop::NoMemory => Line::NoMemory,
        }
    }
}

impl Line {
    // Why the reader reads no more behind this answer.
    fn stop(&self) -> Option<Stop>
        ensures { result ≡ stop_of self.now }
    {
        match self {
            Line::Rec(_) => None,
            Line::End => Some(Stop::End),
            Line::BadRecord(n) => Some(Stop::BadRecord(*n)),
            Line::LongLine(n) => Some(Stop::LongLine(*n)),
            Line::WideRecord(n) => Some(Stop::WideRecord(*n)),
            Line::ManyLines => Some(Stop::ManyLines),
            Line::ReadFault => Some(Stop::ReadFault),
            Line::NoMemory => Some(Stop::NoMemory),
        }
    }
}

/// Reads records line by line from a source.
///
/// A line ends at an LF or at the end of the source, and its text is its bytes without one CR at their end. Spaces
/// and tabs stand between the words of a text. Each word is a number: `+`, `-` or neither, then one or more decimal
/// digits, with a value of 64 signed bits. The record is these numbers; it is empty where there is no word.
///
/// The reader keeps at most 4,096 bytes that it has read and not used, and takes memory for the record alone, or none
/// where the record has room in one that `reuse` gave back.
#[derive(Drop)]
pub struct LineReader {
    alloc: Global,
    chunk: Chunk,
    room: Rec,
    read: u32,
    lines: u32,
    stop: Option<Stop>,
}

impl Model for LineReader {
    ghost use Rattle.msl_io.specs.Reader.{Reader};

    ghost Value = { Reader };

    ghost use Rattle.std.specs.Prelude.{◌≤◌};

    ghost view = { λ r. record { rest = r.chunk; read = r.read; lines = r.lines; stopped = r.stop } };

    ghost invariant = { λ r. r.read ≤ r.lines };
}

impl LineReader {
    /// A reader that has read nothing, and will read at most `lines` lines. It fails for want of memory alone.
    pub fn new(alloc: Global, lines: u32) -> Result<LineReader, NoMemory>
        ensures { IfOk result (λ reader. reader ≡ record { rest = []; read = 0; lines = lines; stopped = None }) }
    {
        let chunk = Chunk::new(alloc)?;
        Ok(LineReader {
            alloc,
            chunk,
            room: Rec::new(alloc),
            read: 0,
            lines,
            stop: None,
        })
    }

    /// The next line's record, or why there is none: the first that holds of `ManyLines`, `LongLine`, `BadRecord` and
    /// `WideRecord`. A line that is too long is refused with at most the limit and one chunk of 4,096 bytes taken,
    /// counted from its first byte. `ReadFault` comes where the source counts a fault and nothing that was taken is
    /// refused; no other answer passes a fault over. After any answer but a record, and after the record of a last
    /// line that no LF ends, it reads no more: it gives the same answer, or `End`, from then on.
    pub fn next<S: Source>(&mut self, src: &mut S) -> Line
        ensures line { IsNone self.old.stopped → ReadsLine (S.left src.old) (S.left src.new) self.old self.new result }
        ensures cause { IsNone self.old.stopped → ReadCause result (S.faults src.old) (S.faults src.new) }
        ensures counts { IsNone self.old.stopped → Counts self.old self.new result }
        ensures lines { self.new.lines ≡ self.old.lines }
        ensures kept { IsNone self.new.stopped → length self.new.rest ≤ CHUNK_BYTES }
        ensures again { IsSome self.old.stopped → (stop_of result ≡ self.old.stopped) × (self.new ≡ self.old) × (src.new ≡ src.old) }
    {
        if let Some(stop) = self.stop {
            return stop.line();
        }
        let room = mem::replace(&mut self.room, Rec::new(self.alloc));
        let answer = read_line(
            self.alloc,
            room,
            &mut self.chunk,
            src,
            self.read,
            self.lines,
        );
        if let Line::Rec(_) = &answer.line {
            self.read += 1;
        }
        self.stop = answer.stop;
        answer.line
    }

    /// Takes back a record, so that the next one may stand in its memory.
    pub fn reuse(&mut self, rec: Rec)
        ensures { self.new ≡ self.old }
    {
        self.room = rec;
    }
}

// An answer, and why the reader reads no more behind it.
#[derive(Drop)]
struct Answer {
    line: Line,
    stop: Option<Stop>,
}

impl Answer {
    // An answer behind which more lines may come.
    fn new(line: Line) -> Answer
        ensures { result ≡ record { line = line; stop = stop_of line } }
    {
        let stop = line.stop();
        Answer { line, stop }
    }

    // The answer to a line that no LF ends.
    fn last(line: Line) -> Answer
        ensures { result ≡ record { line = line; stop = last_stop line } }
    {
        let stop = line.stop().or(Some(Stop::End));
        Answer { line, stop }
    }
}

// The next line, read into the memory of `room`, where `read` lines were read and at most `lines` will be.
fn read_line<S: Source>(
    alloc: Global,
    room: Rec,
    chunk: &mut Chunk,
    src: &mut S,
    read: u32,
    lines: u32,
) -> Answer
    requires { read ≤ lines }
    ensures line { ReadsLine (S.left src.old) (S.left src.new) (reader chunk.old read lines None) (reader chunk.new (read + 1) lines result.stop) result.line }
    ensures cause { ReadCause result.line (S.faults src.old) (S.faults src.new) }
    ensures counts { Counts (reader chunk.old read lines None) (reader chunk.new (read + 1) lines result.stop) result.line }
    ensures kept { length chunk.new ≤ CHUNK_BYTES }
{
    let mut text = Text::new(alloc, room);
    'parts: loop {
        match chunk.fill(src) {
            Filled::Bytes => (),
            Filled::End => {
                return if text.is_empty() {
                    Answer::new(Line::End)
                } else {
                    Answer::last(text.finish(read + 1))
                };
            }
            Filled::Fault => return Answer::new(Line::ReadFault),
        }
        if read == lines {
            return Answer::new(Line::ManyLines);
        }
        match text.take_from(chunk) {
            Part::More => (),
            Part::Ended => return Answer::new(text.finish(read + 1)),
            Part::Long => return Answer::new(Line::LongLine(read + 1)),
            Part::NoMemory => return Answer::new(Line::NoMemory),
        }
    }
}
