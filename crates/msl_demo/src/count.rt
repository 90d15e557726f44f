ghost use Rattle.std.specs.Prelude.{◌≡◌, IfOk, List, ℕ};
ghost use Rattle.msl_base.specs.Streams.{Record, done};
ghost use Rattle.msl_io.specs.Lines.{reads};
ghost use Rattle.msl_demo.specs.Reading.{Comes, HasCome, IsAt};
ghost use Rattle.msl_demo.specs.Tallies.{AreFew, IsTallyOf};

use crate::CHUNK;
use crate::tally::Tally;
use msl_base::{NoMemory, Rec};
use msl_io::{Bytes, Line, LineReader, SteadySource};
use std::alloc::Global;

// The tally of the records of a text.
pub fn tally_of(alloc: Global, text: Bytes) -> Result<Tally, NoMemory>
    requires whole { (reads text).ending ≡ done }
    requires few { AreFew (reads text).records }
    ensures { IfOk result (λ t. IsTallyOf (reads text).records t) }
{
    let mut reader = LineReader::new(alloc, u32::MAX)?;
    let mut src = SteadySource::new(alloc, text, CHUNK);
    let mut tally = Tally::new();
    'records: loop {
        match next_record(&mut reader, &mut src)? {
            Some(rec) => {
                tally.count(rec.as_slice());
                reader.reuse(rec);
            }
            None => return Ok(tally),
        }
    }
}

// The next record, or none at the end.
fn next_record(reader: &mut LineReader, src: &mut SteadySource) -> Result<Option<Rec>, NoMemory>
    requires { IsAt reader.old src.old }
    ensures { (text : List ℕ) (front : List Record) → HasCome text front reader.old src.old → Comes text front reader.old reader.new src.new result }
{
    match reader.next(src) {
        Line::Rec(rec) => Ok(Some(rec)),
        Line::End => Ok(None),
        Line::NoMemory => Err(NoMemory),
        _ => unreachable!(),
    }
}
