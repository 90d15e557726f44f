ghost use Rattle.std.specs.Prelude.{◌≡◌, ◌++◌, OnOk, [], ◌∷◌};
ghost use Rattle.msl_line.specs.Duties.{Does};
ghost use Rattle.msl_stage.specs.Answers.{MayMake, made_by};

use crate::How;
use crate::desk::Desk;
use crate::task::Task;
use msl_base::{Halt, NoMemory, Rec};
use msl_stage::{Halted, OneToOne};
use std::alloc::Global;
use std::marker::Model;
use std::thread::Threads;

/// Does what stands inside one step: one task after the other, up to the first fault. Contracts see its tasks.
#[derive(Drop)]
pub struct Worker<'a, R> {
    how: How<'a, R>,
    desk: Desk,
    tasks: Vec<Task<'a>>,
}

impl<'a, R> Model for Worker<'a, R> {
    ghost use Rattle.std.specs.Prelude.{List};
    ghost use Rattle.std.specs.Coded.{codes};
    ghost use Rattle.msl_fun.specs.contracts.expr.Expr as e;
    ghost use Rattle.msl_line.specs.Duties.{Duty};

    ghost Value = { List Duty };

    ghost coded = { Prim.hlevel (codes, e.the_row.coded) };

    ghost view = { λ w. w.tasks.items };
}

impl<'a, R> Worker<'a, R> {
    /// A worker with these tasks. Takes no memory.
    pub(crate) fn new(how: How<'a, R>, tasks: Vec<Task<'a>>) -> Worker<'a, R>
        ensures { result ≡ tasks.entry.items }
    {
        Worker {
            how,
            desk: Desk::new(),
            tasks,
        }
    }
}

impl<'a, R: Threads> Worker<'a, R> {
    // By one task after the other, up to the first fault.
    fn through(&mut self, alloc: Global, x: &mut Rec, why: &mut Halt) -> Result<(), Halted>
        ensures same { self.new ≡ self.old }
        ensures made { MayMake (Does self.old x.old.numbers) x.new.numbers (made_by result why.new) }
    {
        for i in 0..self.tasks.len() {
            match self.tasks[i].work(alloc, self.how, &mut self.desk, x, why) {
                Ok(()) => {}
                Err(Halted) => return Err(Halted),
            }
        }
        Ok(())
    }
}

impl<'a, R: Threads> OneToOne for Worker<'a, R> {
    ghost use Rattle.msl_line.specs.Duties.{Does};
    ghost use Rattle.msl_line.specs.Outcomes.{does_some};

    ghost one = { Does };

    // Compiled into its caller, as is what a record goes through for one function.
    #[inline(always)]
    fn work(&mut self, alloc: Global, x: &mut Rec, why: &mut Halt) -> Result<(), Halted> {
        if self.tasks.len() == 1 {
            self.tasks[0].work(alloc, self.how, &mut self.desk, x, why)
        } else {
            self.through(alloc, x, why)
        }
    }

    ghost total = { does_some };
}
