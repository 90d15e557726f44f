ghost use Rattle.std.specs.Prelude.{◌≡◌, ◌≤◌, length};
ghost use Rattle.msl_stage.specs.Answers.{Gives, MayMake, made_by};
ghost use Rattle.msl_stage.specs.Lines.{AnyOf, IsStep, flush_of};

use crate::{FilterState, Halted, OneToOne, Outs};
use msl_base::{Halt, Rec};
use msl_fun::Funs;
use std::alloc::Global;
use std::marker::Model;

/// A step of a line.
#[derive(Drop)]
pub enum Step<'a, O: OneToOne> {
    /// Each record by itself, in order.
    One(O),
    /// A filter.
    Filter(FilterState<'a>),
    /// Each record by one of several workers.
    Farm(Workers<O>),
}

impl<O: OneToOne> Step<'_, O> {
    /// What the step gives at the end of a whole stream: a filter by its `flush`, and any other step nothing.
    pub fn flush(&self, alloc: Global, funs: &Funs) -> Result<Outs, Halt>
        requires { IsStep O.one funs.now self.now }
        ensures { Gives (flush_of funs.now self.now) result }
    {
        match self {
            Step::One(_) | Step::Farm(_) => Ok(Outs::new(alloc)),
            Step::Filter(filter) => filter.flush(alloc, funs),
        }
    }
}

/// The workers of a farm, at least one where it is run, which take its records in turn. Contracts see their list.
#[derive(Drop)]
pub struct Workers<O: OneToOne> {
    workers: Vec<O>,
    next: usize,
}

impl<O: OneToOne> Model for Workers<O> {
    ghost use Rattle.std.specs.Prelude.{List};

    ghost Value = { List O };

    ghost view = { λ w. w.workers.items };
}

impl<O: OneToOne> Workers<O> {
    /// These workers, of which the first takes the first record. Takes no memory.
    pub fn new(workers: Vec<O>) -> Workers<O>
        ensures { result ≡ workers.items }
    {
        Workers { workers, next: 0 }
    }

    /// Has the next worker work on a record, as `OneToOne::work`.
    #[inline(always)]
    pub fn work(&mut self, alloc: Global, x: &mut Rec, why: &mut Halt) -> Result<(), Halted>
        requires some { 1 ≤ length self.old }
        ensures same { self.new ≡ self.old }
        ensures made { MayMake (AnyOf O.one self.old x.old.numbers) x.new.numbers (made_by result why.new) }
    {
        let k = self.next % self.workers.len();
        self.next = k + 1;
        self.workers[k].work(alloc, x, why)
    }
}
