ghost use Rattle.std.specs.Prelude.{OnOk, OnErr, ◌≡◌, ◌++◌, [], ◌∷◌, ◌+◌, ◌≤◌, length};
ghost use Rattle.std.specs.Io.KnownBytes.{Appends};
ghost use Rattle.msl_outside.specs.Causes.{HasCause};
ghost use Rattle.msl_io.specs.Text.{text_of, AppendsPart};
ghost use Rattle.msl_io.specs.Writing.{others, Wrote};

use crate::piece::{self, Piece};
use msl_outside::Sink;

/// A sink failed, and counted it, before all was written.
#[derive(Clone, Copy)]
pub struct WriteFault;

/// Writes a record's text: the numbers in decimal, one space between two, and LF. It takes no memory. At a fault the
/// sink took a beginning of the text, and not all of it. Whoever writes many records keeps a `RecWriter`.
pub fn write_rec<K: Sink>(sink: &mut K, xs: &[i64]) -> Result<(), WriteFault>
    ensures ok { OnOk result (Appends (K.held sink.old) (K.held sink.new) (text_of xs.now)) }
    ensures err { OnErr result (AppendsPart (K.held sink.old) (K.held sink.new) (text_of xs.now)) }
    ensures cause { HasCause (K.faults sink.old) (K.faults sink.new) result }
{
    RecWriter::new().write(sink, xs)
}

/// Writes records' texts as `write_rec` does, and keeps the piece in which a text is put together from record to record.
#[derive(Drop)]
pub struct RecWriter {
    piece: Piece,
}

impl RecWriter {
    /// Takes no memory.
    pub fn new() -> RecWriter {
        RecWriter {
            piece: Piece::new(),
        }
    }

    /// Writes a record's text.
    pub fn write<K: Sink>(&mut self, sink: &mut K, xs: &[i64]) -> Result<(), WriteFault>
        ensures ok { OnOk result (Appends (K.held sink.old) (K.held sink.new) (text_of xs.now)) }
        ensures err { OnErr result (AppendsPart (K.held sink.old) (K.held sink.new) (text_of xs.now)) }
        ensures cause { HasCause (K.faults sink.old) (K.faults sink.new) result }
    {
        match xs {
            [] => write_text(sink, b"\n"),
            [x, others @ ..] => {
                self.piece.clear();
                self.piece.push_number(x);
                write_others(sink, &mut self.piece, others)
            }
        }
    }
}

// Writes a piece, a space before each number, and LF after the last.
fn write_others<K: Sink>(sink: &mut K, piece: &mut Piece, xs: &[i64]) -> Result<(), WriteFault>
    requires { length piece.old ≤ 20 }
    ensures ok { OnOk result (Appends (K.held sink.old) (K.held sink.new) (piece.old ++ others xs.now)) }
    ensures err { OnErr result (AppendsPart (K.held sink.old) (K.held sink.new) (piece.old ++ others xs.now)) }
    ensures cause { HasCause (K.faults sink.old) (K.faults sink.new) result }
{
    for x in xs {
        match make_room(sink, piece) {
            Ok(()) => {}
            Err(fault) => return Err(fault),
        }
        piece.push(b' ');
        piece.push_number(x);
    }
    piece.push(b'\n');
    write_text(sink, piece.as_slice())
}

// Writes the piece where it has no room for one more number.
fn make_room<K: Sink>(sink: &mut K, piece: &mut Piece) -> Result<(), WriteFault>
    requires { length piece.old + 1 ≤ 320 }
    ensures ok { OnOk result (Wrote (K.held sink.old) (K.held sink.new) piece.old piece.new) }
    ensures room { OnOk result (length piece.new + 22 ≤ 320) }
    ensures err { OnErr result (AppendsPart (K.held sink.old) (K.held sink.new) piece.old) }
    ensures cause { HasCause (K.faults sink.old) (K.faults sink.new) result }
{
    if piece.as_slice().len() + 22 <= piece::SIZE {
        return Ok(());
    }
    write_text(sink, piece.as_slice())?;
    piece.clear();
    Ok(())
}

/// Writes all the bytes. It takes no memory. At a fault the sink took a beginning of them, and not all.
pub fn write_text<K: Sink>(sink: &mut K, bytes: &[u8]) -> Result<(), WriteFault>
    ensures ok { OnOk result (Appends (K.held sink.old) (K.held sink.new) bytes.now) }
    ensures err { OnErr result (AppendsPart (K.held sink.old) (K.held sink.new) bytes.now) }
    ensures cause { HasCause (K.faults sink.old) (K.faults sink.new) result }
{
    let mut rest = bytes;
    while !rest.is_empty() {
        match sink.write(rest) {
            Ok(n) => rest = &rest[n..],
            Err(_) => return Err(WriteFault),
        }
    }
    Ok(())
}
