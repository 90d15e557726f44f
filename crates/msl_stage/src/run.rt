ghost use Rattle.std.specs.Prelude.{◌≡◌, ◌≤◌, [], ◌∷◌, length};
ghost use Rattle.msl_stage.specs.Answers.{records_of};
ghost use Rattle.msl_stage.specs.Feeding.{FeedCause, Feeds, Finishes, Spreads, end_by, ended};
ghost use Rattle.msl_stage.specs.Lines.{AreSteps};

use crate::{Halted, OneToOne, Outs, Step};
use msl_base::{End, Halt, Rec};
use msl_fun::Funs;
use msl_io::{RecWriter, Sink, WriteFault};
use std::alloc::Global;

/// Why a line stops.
#[derive(Clone, Copy)]
pub enum Stop {
    /// A step has no result; the line keeps why.
    Halted,
    /// Writing failed.
    Unwritten,
}

/// A line that runs: its steps, over these functions, the writer of what comes out of the last one, and why a step had no
/// result, which counts behind `Stop::Halted`.
#[derive(Drop)]
pub struct Run<'f, 'a, O: OneToOne> {
    pub alloc: Global,
    pub funs: &'f Funs,
    pub steps: Vec<Step<'a, O>>,
    pub writer: RecWriter,
    pub why: Halt,
}

impl<O: OneToOne> Run<'_, '_, O> {
    /// Takes a record through the steps from a place on, and writes what comes out. What the record is then is open.
    #[cycle(feed)]
    #[inline(always)]
    pub fn feed<K: Sink>(&mut self, from: usize, rec: &mut Rec, out: &mut K) -> Result<(), Stop>
        requires within { from ≤ length self.old.steps.items }
        requires steps { AreSteps O.one self.old.funs.now self.old.steps.items }
        ensures fed { Feeds O.one self.old.funs.now self.old.steps.items self.new.steps.items from (rec.old.numbers ∷ []) (ended result self.new.why) (K.held out.old) (K.held out.new) }
        ensures steps { AreSteps O.one self.old.funs.now self.new.steps.items }
        ensures funs { self.new.funs ≡ self.old.funs }
        ensures long { length self.new.steps.items ≡ length self.old.steps.items }
        ensures cause { FeedCause (ended result self.new.why) (K.faults out.old) (K.faults out.new) }
    {
        for at in from..self.steps.len() {
            match &mut self.steps[at] {
                Step::One(one) => match one.work(self.alloc, rec, &mut self.why) {
                    Ok(()) => {}
                    Err(Halted) => return Err(Stop::Halted),
                },
                Step::Farm(workers) => match workers.work(self.alloc, rec, &mut self.why) {
                    Ok(()) => {}
                    Err(Halted) => return Err(Stop::Halted),
                },
                Step::Filter(filter) => {
                    let made = filter.step(self.alloc, self.funs, rec.as_slice());
                    return self.spread(at + 1, made, out);
                }
            }
        }
        self.write(rec.as_slice(), out)
    }

    // Takes a filter's outputs through the steps from a place on, one after the other.
    #[cycle(feed)]
    #[inline(never)]
    fn spread<K: Sink>(
        &mut self,
        at: usize,
        made: Result<Outs, Halt>,
        out: &mut K,
    ) -> Result<(), Stop>
        requires within { at ≤ length self.old.steps.items }
        requires steps { AreSteps O.one self.old.funs.now self.old.steps.items }
        ensures spread { Spreads O.one self.old.funs.now self.old.steps.items self.new.steps.items at made (ended result self.new.why) (K.held out.old) (K.held out.new) }
        ensures steps { AreSteps O.one self.old.funs.now self.new.steps.items }
        ensures funs { self.new.funs ≡ self.old.funs }
        ensures long { length self.new.steps.items ≡ length self.old.steps.items }
        ensures cause { FeedCause (ended result self.new.why) (K.faults out.old) (K.faults out.new) }
    {
        match made {
            Ok(outs) => self.feed_all(at, outs, out),
            Err(halt) => {
                self.why = halt;
                Err(Stop::Halted)
            }
        }
    }

    // Takes records through the steps from a place on, one after the other.
    #[cycle(feed)]
    fn feed_all<K: Sink>(&mut self, at: usize, outs: Outs, out: &mut K) -> Result<(), Stop>
        requires within { at ≤ length self.old.steps.items }
        requires steps { AreSteps O.one self.old.funs.now self.old.steps.items }
        ensures fed { Feeds O.one self.old.funs.now self.old.steps.items self.new.steps.items at (records_of outs) (ended result self.new.why) (K.held out.old) (K.held out.new) }
        ensures steps { AreSteps O.one self.old.funs.now self.new.steps.items }
        ensures funs { self.new.funs ≡ self.old.funs }
        ensures long { length self.new.steps.items ≡ length self.old.steps.items }
        ensures cause { FeedCause (ended result self.new.why) (K.faults out.old) (K.faults out.new) }
    {
        for mut rec in outs.into_vec() {
            self.feed(at, &mut rec, out)?;
        }
        Ok(())
    }

    // Writes a record that has gone through all steps.
    #[inline(always)]
    fn write<K: Sink>(&mut self, xs: &[i64], out: &mut K) -> Result<(), Stop>
        ensures fed { Feeds O.one self.old.funs.now self.old.steps.items self.new.steps.items (length self.old.steps.items) (xs.now ∷ []) (ended result self.new.why) (K.held out.old) (K.held out.new) }
        ensures steps { self.new.steps ≡ self.old.steps }
        ensures funs { self.new.funs ≡ self.old.funs }
        ensures cause { FeedCause (ended result self.new.why) (K.faults out.old) (K.faults out.new) }
    {
        match self.writer.write(out, xs) {
            Ok(()) => Ok(()),
            Err(WriteFault) => Err(Stop::Unwritten),
        }
    }

    /// Ends the input of the steps from a place on: each filter gives what it has for the end of a whole stream, and this
    /// goes through the steps behind it.
    #[cycle(finish)]
    pub fn finish<K: Sink>(&mut self, at: usize, out: &mut K) -> Result<(), Stop>
        requires within { at ≤ length self.old.steps.items }
        requires steps { AreSteps O.one self.old.funs.now self.old.steps.items }
        ensures finished { Finishes O.one self.old.funs.now self.old.steps.items at (ended result self.new.why) (K.held out.old) (K.held out.new) }
        ensures funs { self.new.funs ≡ self.old.funs }
        ensures cause { FeedCause (ended result self.new.why) (K.faults out.old) (K.faults out.new) }
    {
        if at == self.steps.len() {
            return Ok(());
        }
        let made = self.steps[at].flush(self.alloc, self.funs);
        self.spread(at + 1, made, out)?;
        self.finish(at + 1, out)
    }
}

impl Stop {
    /// How a stream ends that stops so.
    #[inline(never)]
    pub fn end(self, why: Halt) -> End
        ensures { result ≡ end_by self why }
    {
        match self {
            Stop::Halted => match why {
                Halt::Fault(fault) => End::Fault(fault),
                Halt::NoMemory => End::Memory,
            },
            Stop::Unwritten => End::Write,
        }
    }
}
