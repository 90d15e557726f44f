ghost use Rattle.std.specs.Prelude.{◌≡◌};
ghost use Rattle.msl_base.specs.declared.limits.TheConstants.{MOST_MEMBERS};
ghost use Rattle.msl_line.specs.Duties.{DutyGives, division, function, program};
ghost use Rattle.msl_line.specs.Tasks.{answered, search_by, IsPool};
ghost use Rattle.msl_program.specs.Data.{data_outcome};
ghost use Rattle.msl_program.specs.Divide.{divcon_outcome};
ghost use Rattle.msl_program.specs.ProgramPromise.{IsBetween, ProgramFits};
ghost use Rattle.msl_program.specs.Promises.{DivConFits, SearchFits};
ghost use Rattle.msl_stage.specs.Answers.{MayMake, made_by};

use crate::How;
use crate::desk::Desk;
use msl_base::{Answer, Halt, Rec};
use msl_data::run_data;
use msl_fabric::{Fabric, Joined, Moved, Place};
use msl_fun::{Funs, Muscle};
use msl_group::Group;
use msl_program::{BnbSpec, DataProg, DivCon};
use msl_search::{bnb_rounds, bnb_seq, divcon_rounds, divcon_seq};
use msl_stage::Halted;
use std::alloc::Global;
use std::marker::Model;
use std::thread::Threads;

/// A data program over the functions of its script, and how many members work on a record.
#[derive(Clone, Copy)]
pub struct Program<'a> {
    pub prog: &'a DataProg,
    pub funs: &'a Funs,
    pub members: u32,
}

/// A division over the functions of its script: by a pool of so many members, or by plain recursion.
#[derive(Clone, Copy)]
pub struct Division<'a> {
    pub spec: &'a DivCon,
    pub funs: &'a Funs,
    pub pool: Option<u32>,
}

/// A search over the functions of its script: by a pool of so many members, which drops nodes, or by plain recursion, which
/// drops none.
#[derive(Clone, Copy)]
pub struct Search<'a> {
    pub spec: &'a BnbSpec,
    pub funs: &'a Funs,
    pub pool: Option<u32>,
}

// What is done at each record.
#[derive(Clone, Copy)]
enum Work<'a> {
    // The function is evaluated.
    Atomic(Muscle<'a>),
    // The data program is run.
    Data(Program<'a>),
    // The record is the root problem.
    Division(Division<'a>),
    // The record is the root node.
    Search(Search<'a>),
}

/// What is done at each record by the stage of a number.
#[derive(Drop)]
pub struct Task<'a> {
    stage: u32,
    work: Work<'a>,
}

impl<'a> Model for Task<'a> {
    ghost use Rattle.std.specs.Coded.{codes};
    ghost use Rattle.msl_fun.specs.contracts.expr.Expr as e;
    ghost use Rattle.msl_line.specs.Duties.{Duty};

    ghost Value = { Duty };

    ghost coded = { Prim.hlevel (codes, e.the_row.coded) };

    ghost use Rattle.msl_line.specs.Tasks.{duty_of, IsReady};

    ghost view = { duty_of };

    ghost invariant = { λ t. IsReady t.work };
}

impl<'a> Task<'a> {
    /// The function at each record.
    pub fn atomic(stage: u32, f: Muscle<'a>) -> Task<'a>
        ensures { result ≡ function stage f.entry.funs.now f.entry.at }
    {
        Task {
            stage,
            work: Work::Atomic(f),
        }
    }

    /// The data program at each record.
    pub fn data(stage: u32, p: Program<'a>) -> Task<'a>
        requires fits { ProgramFits p.funs.now p.prog.now }
        requires members { IsBetween 1 MOST_MEMBERS p.members }
        ensures { result ≡ program stage p.entry.funs.now p.entry.prog.now }
    {
        Task {
            stage,
            work: Work::Data(p),
        }
    }

    /// The division at each record.
    pub fn division(stage: u32, d: Division<'a>) -> Task<'a>
        requires fits { DivConFits d.funs.now d.spec.now }
        requires pool { IsPool d.pool }
        ensures { result ≡ division stage d.entry.funs.now d.entry.spec.now }
    {
        Task {
            stage,
            work: Work::Division(d),
        }
    }

    /// The search at each record.
    pub fn search(stage: u32, b: Search<'a>) -> Task<'a>
        requires fits { SearchFits b.funs.now b.spec.now }
        requires pool { IsPool b.pool }
        ensures { result ≡ search_by b.entry.pool stage b.entry.funs.now b.entry.spec.now }
    {
        Task {
            stage,
            work: Work::Search(b),
        }
    }

    /// Makes a record what it gives for it.
    #[inline(always)]
    pub fn work<R: Threads>(
        &self,
        alloc: Global,
        how: How<'_, R>,
        desk: &mut Desk,
        x: &mut Rec,
        why: &mut Halt,
    ) -> Result<(), Halted>
        ensures { MayMake (DutyGives self.now x.old.numbers) x.new.numbers (made_by result why.new) }
    {
        match &self.work {
            Work::Atomic(f) => desk.evaluate(f, self.stage, x, why),
            Work::Data(p) => execute(alloc, p, self.stage, how, x, why),
            Work::Division(d) => divide(alloc, d, self.stage, x, why),
            Work::Search(b) => find(alloc, b, self.stage, x, why),
        }
    }
}

// Makes a record what the data program gives for it.
#[inline(never)]
fn execute<R: Threads>(
    alloc: Global,
    p: &Program<'_>,
    stage: u32,
    how: How<'_, R>,
    x: &mut Rec,
    why: &mut Halt,
) -> Result<(), Halted>
    requires fits { ProgramFits p.now.funs.now p.now.prog.now }
    requires members { IsBetween 1 MOST_MEMBERS p.now.members }
    ensures { MayMake (λ r. r ≡ data_outcome p.now.funs.now p.now.prog.now stage x.old.numbers) x.new.numbers (made_by result why.new) }
{
    match how {
        How::InTurn => execute_over(alloc, p, stage, &mut Moved::new(), x, why),
        How::Beside(rt) => {
            execute_over(alloc, p, stage, &mut Joined::new(rt, p.members), x, why)
        }
    }
}

// The same over a fabric.
fn execute_over<F: Fabric>(
    alloc: Global,
    p: &Program<'_>,
    stage: u32,
    fabric: &mut F,
    x: &mut Rec,
    why: &mut Halt,
) -> Result<(), Halted>
    requires fits { ProgramFits p.now.funs.now p.now.prog.now }
    requires members { IsBetween 1 MOST_MEMBERS p.now.members }
    ensures { MayMake (λ r. r ≡ data_outcome p.now.funs.now p.now.prog.now stage x.old.numbers) x.new.numbers (made_by result why.new) }
{
    let group = Group::whole(p.members);
    let mut at = Place {
        stage,
        group: &group,
        fabric,
    };
    let result = run_data(alloc, p.prog, p.funs, &mut at, x.as_slice());
    group.spend();
    match result {
        Ok(ys) => {
            *x = ys;
            Ok(())
        }
        Err(halt) => {
            *why = halt;
            Err(Halted)
        }
    }
}

// Makes a record the value of the division.
#[inline(never)]
fn divide(
    alloc: Global,
    d: &Division<'_>,
    stage: u32,
    x: &mut Rec,
    why: &mut Halt,
) -> Result<(), Halted>
    requires fits { DivConFits d.now.funs.now d.now.spec.now }
    requires pool { IsPool d.now.pool }
    ensures { MayMake (λ r. r ≡ divcon_outcome d.now.funs.now d.now.spec.now stage x.old.numbers) x.new.numbers (made_by result why.new) }
{
    let answer = match d.pool {
        None => divcon_seq(alloc, d.spec, d.funs, stage, x.as_slice()),
        Some(members) => divcon_rounds(alloc, d.spec, d.funs, stage, members, x.as_slice()),
    };
    take(answer, x, why)
}

// Makes a record the answer of the search.
#[inline(never)]
fn find(
    alloc: Global,
    b: &Search<'_>,
    stage: u32,
    x: &mut Rec,
    why: &mut Halt,
) -> Result<(), Halted>
    requires fits { SearchFits b.now.funs.now b.now.spec.now }
    requires pool { IsPool b.now.pool }
    ensures { MayMake (DutyGives (search_by b.now.pool stage b.now.funs.now b.now.spec.now) x.old.numbers) x.new.numbers (made_by result why.new) }
{
    let answer = match b.pool {
        None => bnb_seq(alloc, b.spec, b.funs, stage, x.as_slice()),
        Some(members) => bnb_rounds(alloc, b.spec, b.funs, stage, members, x.as_slice()),
    };
    take(answer, x, why)
}

// Puts an answer in the place of a record.
fn take(answer: Answer, x: &mut Rec, why: &mut Halt) -> Result<(), Halted>
    ensures { answered result x.new why.new ≡ answer }
{
    *why = match answer {
        Answer::Rec(y) => {
            *x = y;
            return Ok(());
        }
        Answer::Fault(fault) => Halt::Fault(fault),
        Answer::NoMemory => Halt::NoMemory,
    };
    Err(Halted)
}
