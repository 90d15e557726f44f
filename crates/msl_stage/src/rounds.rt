ghost use Rattle.std.specs.Prelude.{◌≡◌};
ghost use Rattle.std.specs.Io.KnownBytes.{Keeps};
ghost use Rattle.msl_io.specs.Lines.{most_lines};
ghost use Rattle.msl_io.specs.Reader.{MayGoOn};
ghost use Rattle.msl_stage.specs.Endings.{Causes, IsHandedOn, RanTold, ends};
ghost use Rattle.msl_stage.specs.Lines.{AreSteps, LineRuns};
ghost use Rattle.msl_stage.specs.Reading.{CloseCause, ClosedWith, Flushed, IsFresh, StreamedTold, TakeCause, Takes, next_of};

use crate::run::Run;
use crate::{OneToOne, Step};
use msl_base::{End, Fault, Halt, Rec};
use msl_fun::Funs;
use msl_io::{Line, LineReader, RecWriter, Sink, Source};
use std::alloc::Global;

/// Runs a line of steps over the records of a source, in rounds: it reads a record, takes it through all steps, writes
/// what comes out, and goes on. It holds one record for each step and a filter's outputs, and flushes the sink at the
/// end. A farm's workers take its records in turn, and its results come in the order of its records. It waits for nobody
/// unless the work does.
///
/// It answers `Done` where all was read and written; `Fault` with the fault of the stream that the last step gives, of a
/// line that is no record or of a step; `Read` and `Write` only where the source or the sink counted a fault in this
/// call, `Write` before every other ending; and `Memory` where memory ran out, which no clause says.
pub fn run_rounds<O: OneToOne, S: Source, K: Sink>(
    alloc: Global,
    funs: &Funs,
    line: Vec<Step<'_, O>>,
    src: &mut S,
    out: &mut K,
) -> End
    requires steps { AreSteps O.one funs.now line.items }
    ensures ran { RanTold (LineRuns O.one funs.now line.entry.items) (ends (S.left src.old) (S.left src.new) (K.held out.old) (K.held out.new)) result }
    ensures cause { Causes result (S.faults src.old) (S.faults src.new) (K.faults out.old) (K.faults out.new) }
    ensures flushed { IsHandedOn result (K.flushed out.new) (K.held out.new) }
{
    let Ok(mut reader) = LineReader::new(alloc, u32::MAX) else {
        return End::Memory;
    };
    let mut run = Run {
        alloc,
        funs,
        steps: line,
        writer: RecWriter::new(),
        why: Halt::NoMemory,
    };
    let end = stream(&mut reader, &mut run, src, out);
    flushed(out, end)
}

// Takes all records that are left through the line.
fn stream<O: OneToOne, S: Source, K: Sink>(
    reader: &mut LineReader,
    run: &mut Run<'_, '_, O>,
    src: &mut S,
    out: &mut K,
) -> End
    requires fresh { IsFresh reader.old }
    requires steps { AreSteps O.one run.old.funs.now run.old.steps.items }
    ensures streamed { StreamedTold (LineRuns O.one run.old.funs.now run.old.steps.items) (ends (S.left src.old) (S.left src.new) (K.held out.old) (K.held out.new)) result }
    ensures cause { Causes result (S.faults src.old) (S.faults src.new) (K.faults out.old) (K.faults out.new) }
{
    'records: loop {
        match take_record(reader, src) {
            Ok(Some(mut rec)) => match run.feed(0, &mut rec, out) {
                Ok(()) => reader.reuse(rec),
                Err(stop) => return stop.end(run.why),
            },
            Ok(None) => return close(run, out),
            Err(end) => return end,
        }
    }
}

// Ends the input of the line.
fn close<O: OneToOne, K: Sink>(run: &mut Run<'_, '_, O>, out: &mut K) -> End
    requires steps { AreSteps O.one run.old.funs.now run.old.steps.items }
    ensures closed { ClosedWith (LineRuns O.one run.old.funs.now run.old.steps.items) result (K.held out.old) (K.held out.new) }
    ensures cause { CloseCause result (K.faults out.old) (K.faults out.new) }
{
    match run.finish(0, out) {
        Ok(()) => End::Done,
        Err(stop) => stop.end(run.why),
    }
}

// Reads the record to work on; there is none at the end of the input. Or answers why the input stops.
fn take_record<S: Source>(reader: &mut LineReader, src: &mut S) -> Result<Option<Rec>, End>
    requires going { MayGoOn reader.old.stopped }
    requires lines { reader.old.lines ≡ most_lines }
    ensures takes { Takes reader.old.stopped (S.left src.old) (S.left src.new) reader.old reader.new result }
    ensures lines { reader.new.lines ≡ most_lines }
    ensures cause { TakeCause result (S.faults src.old) (S.faults src.new) }
{
    next_record(reader.next(src))
}

// The record to work on, none at the end of the input, or why the input stops.
#[inline(always)]
fn next_record(line: Line) -> Result<Option<Rec>, End>
    ensures { result ≡ next_of line }
{
    match line {
        Line::Rec(rec) => Ok(Some(rec)),
        Line::End => Ok(None),
        Line::BadRecord(n) => Err(End::Fault(Fault::BadRecord(n))),
        Line::LongLine(n) => Err(End::Fault(Fault::LongLine(n))),
        Line::WideRecord(n) => Err(End::Fault(Fault::WideRecord(n))),
        Line::ManyLines => Err(End::Fault(Fault::ManyLines)),
        Line::ReadFault => Err(End::Read),
        Line::NoMemory => Err(End::Memory),
    }
}

// Hands on what was written, unless writing failed or memory ran out. Answers the end, or a fault of writing.
fn flushed<K: Sink>(out: &mut K, end: End) -> End
    ensures kept { Keeps (K.held out.old) (K.held out.new) }
    ensures end { Flushed end result (K.faults out.old) (K.faults out.new) }
    ensures flushed { IsHandedOn result (K.flushed out.new) (K.held out.new) }
{
    match end {
        End::Write | End::Memory | End::Stopped => end,
        End::Done | End::Fault(_) | End::Read => match out.flush() {
            Ok(()) => end,
            Err(_) => End::Write,
        },
    }
}
