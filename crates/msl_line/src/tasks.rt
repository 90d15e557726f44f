ghost use Rattle.std.specs.Prelude.{◌≡◌, ◌<◌, ◌≤◌, ◌+◌, ◌++◌, IfOk, OnOk, true, [], ◌∷◌, length, replicate, slice_get, Option};
ghost use Rattle.msl_base.specs.declared.limits.TheConstants.{MOST_MEMBERS, MOST_PRIMITIVES};
ghost use Rattle.msl_line.specs.Duties.{division, program};
ghost use Rattle.msl_line.specs.Lines.{duties_of, duty_at, search_duty};
ghost use Rattle.msl_line.specs.Tasks.{is_by_pool, IsPool};
ghost use Rattle.msl_program.specs.Fitting.{Fits};
ghost use Rattle.msl_program.specs.ProgramPromise.{IsBetween};
ghost use Rattle.msl_program.specs.ScriptPromise.{IsSized};
ghost use Rattle.msl_program.specs.Stages.{primitives_of};

use crate::stages::primitives;
use crate::task::{Division, Program, Search, Task};
use crate::{How, Worker};
use msl_base::NoMemory;
use msl_program::{Script, Stage};
use std::alloc::Global;
use std::thread::Threads;

/// So many workers of a stage, which has this number.
pub fn workers_of<'a, R: Threads>(
    alloc: Global,
    script: &'a Script,
    how: How<'a, R>,
    number: u32,
    count: u32,
    stage: &Stage,
) -> Result<Vec<Worker<'a, R>>, NoMemory>
    requires fits { Fits script.now true stage.now }
    requires sized { IsSized stage.now }
    requires few { number + primitives_of stage.now ≤ MOST_PRIMITIVES + 1 }
    ensures { IfOk result (λ v. v.items ≡ replicate count (duties_of how.entry script.now number stage.now)) }
{
    let mut workers = Vec::with_capacity(alloc, count as usize)?;
    for _ in 0..count {
        workers.push(worker_of(alloc, script, how, number, stage)?)?;
    }
    Ok(workers)
}

/// A worker that is a whole stage, which has this number.
pub fn worker_of<'a, R: Threads>(
    alloc: Global,
    script: &'a Script,
    how: How<'a, R>,
    number: u32,
    stage: &Stage,
) -> Result<Worker<'a, R>, NoMemory>
    requires fits { Fits script.now true stage.now }
    requires sized { IsSized stage.now }
    requires few { number + primitives_of stage.now ≤ MOST_PRIMITIVES + 1 }
    ensures { IfOk result (λ w. w ≡ duties_of how.entry script.now number stage.now) }
{
    let mut tasks = Vec::new(alloc);
    put_tasks(script, how, number, stage, &mut tasks)?;
    Ok(Worker::new(how, tasks))
}

// Appends the tasks of a stage, which has this number.
#[cycle(put_tasks)]
fn put_tasks<'a, R>(
    script: &'a Script,
    how: How<'a, R>,
    number: u32,
    stage: &Stage,
    tasks: &mut Vec<Task<'a>>,
) -> Result<(), NoMemory>
    requires fits { Fits script.now true stage.now }
    requires sized { IsSized stage.now }
    requires few { number + primitives_of stage.now ≤ MOST_PRIMITIVES + 1 }
    ensures { OnOk result (tasks.new.items ≡ tasks.old.items ++ duties_of how.entry script.now number stage.now) }
{
    match stage {
        Stage::Atomic(f) => {
            tasks.push(Task::atomic(number, script.funs().muscle(*f)))?;
        }
        Stage::Data(at, members) => {
            tasks.push(data_task(script, number, *at, *members))?;
        }
        Stage::DivCon(at, members) => {
            tasks.push(division_task(script, how, number, *at, *members))?;
        }
        Stage::Bnb(at, members) => {
            tasks.push(search_task(script, how, number, *at, *members))?;
        }
        Stage::Farm(_, stage) => put_tasks(script, how, number, stage.get(), tasks)?,
        Stage::Pipe(stages) => {
            let mut number = number;
            for stage in stages.as_slice() {
                put_tasks(script, how, number, stage, tasks)?;
                number += primitives(stage);
            }
        }
        // None is in a farm.
        Stage::Filter(_) => {}
    }
    Ok(())
}

// The data program at a place.
fn data_task<'a>(script: &'a Script, number: u32, at: u32, members: u32) -> Task<'a>
    requires within { at < length script.now.datas }
    requires members { IsBetween 1 MOST_MEMBERS members }
    ensures { result ∷ [] ≡ duty_at (program number script.now.funs) (slice_get script.now.datas at) }
{
    Task::data(
        number,
        Program {
            prog: &script.datas().as_slice()[at as usize],
            funs: script.funs(),
            members,
        },
    )
}

// The division at a place.
fn division_task<'a, R>(
    script: &'a Script,
    how: How<'a, R>,
    number: u32,
    at: u32,
    members: u32,
) -> Task<'a>
    requires within { at < length script.now.divcons }
    requires members { IsBetween 1 MOST_MEMBERS members }
    ensures { result ∷ [] ≡ duty_at (division number script.now.funs) (slice_get script.now.divcons at) }
{
    Task::division(
        number,
        Division {
            spec: &script.divcons().as_slice()[at as usize],
            funs: script.funs(),
            pool: pool_of(how, members),
        },
    )
}

// The search at a place.
fn search_task<'a, R>(
    script: &'a Script,
    how: How<'a, R>,
    number: u32,
    at: u32,
    members: u32,
) -> Task<'a>
    requires within { at < length script.now.bnbs }
    requires members { IsBetween 1 MOST_MEMBERS members }
    ensures { result ∷ [] ≡ duty_at (search_duty how.entry number script.now.funs) (slice_get script.now.bnbs at) }
{
    Task::search(
        number,
        Search {
            spec: &script.bnbs().as_slice()[at as usize],
            funs: script.funs(),
            pool: pool_of(how, members),
        },
    )
}

// The members of a pool, where not all is done in turn.
fn pool_of<R>(how: How<'_, R>, members: u32) -> Option<u32>
    requires { IsBetween 1 MOST_MEMBERS members }
    ensures few { IsPool result }
    ensures by { result ≡ is_by_pool how.entry members }
{
    match how {
        How::InTurn => None,
        How::Beside(_) => Some(members),
    }
}
