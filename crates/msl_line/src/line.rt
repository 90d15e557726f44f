ghost use Rattle.std.specs.Prelude.{◌≡◌, ◌<◌, ◌≤◌, ◌+◌, IfOk, OnOk, true, false, [], ◌∷◌, length};
ghost use Rattle.msl_base.specs.Streams.{Stream};
ghost use Rattle.msl_base.specs.declared.limits.TheConstants.{MOST_PRIMITIVES};
ghost use Rattle.msl_line.specs.Duties.{Does};
ghost use Rattle.msl_line.specs.Lines.{duties_of, farm_step, IsFilterStep, Means, PutsLine};
ghost use Rattle.msl_program.specs.Fitting.{Fits};
ghost use Rattle.msl_program.specs.Runs.{AtPlace};
ghost use Rattle.msl_program.specs.ScriptPromise.{IsSized};
ghost use Rattle.msl_program.specs.Stages.{primitives_of};
ghost use Rattle.msl_stage.specs.Lines.{AreSteps, LineRuns};

use crate::stages::primitives;
use crate::tasks::{worker_of, workers_of};
use crate::{How, Worker};
use msl_base::NoMemory;
use msl_program::{Script, Stage};
use msl_stage::{FilterState, Step, Workers};
use std::alloc::Global;
use std::thread::Threads;

/// The line of steps of a script's main stage: a step for each of its stages that is no pipe, in the order of the text.
/// A farm is a step of its workers, or of one worker where all is done in turn. Stages have their numbers by their place
/// in the text, from 1, which a farm's workers share. It fails for want of memory alone.
pub fn line_of<'a, R: Threads>(
    alloc: Global,
    script: &'a Script,
    how: How<'a, R>,
) -> Result<Vec<Step<'a, Worker<'a, R>>>, NoMemory>
    ensures steps { IfOk result (λ l. AreSteps Does script.now.funs l.items) }
    ensures runs { IfOk result (λ l. (X Y : Stream) → LineRuns Does script.now.funs l.items X Y → Means how.entry script.now X Y) }
{
    let mut line = Vec::new(alloc);
    put_steps(alloc, script, how, 1, script.main(), &mut line)?;
    Ok(line)
}

// Appends the steps of a stage, which has this number.
#[cycle(put_steps)]
fn put_steps<'a, R: Threads>(
    alloc: Global,
    script: &'a Script,
    how: How<'a, R>,
    number: u32,
    stage: &Stage,
    line: &mut Vec<Step<'a, Worker<'a, R>>>,
) -> Result<(), NoMemory>
    requires fits { Fits script.now false stage.now }
    requires sized { IsSized stage.now }
    requires few { number + primitives_of stage.now ≤ MOST_PRIMITIVES + 1 }
    ensures { OnOk result (PutsLine how.entry script.now number stage.now line.old.items line.new.items) }
{
    match stage {
        Stage::Atomic(_) | Stage::Data(_, _) | Stage::DivCon(_, _) | Stage::Bnb(_, _) => {
            line.push(Step::One(worker_of(alloc, script, how, number, stage)?))?;
        }
        Stage::Filter(at) => line.push(filter_at(script, number, *at))?,
        Stage::Farm(count, stage) => {
            line.push(farm_of(alloc, script, how, number, *count, stage.get())?)?;
        }
        Stage::Pipe(stages) => {
            let mut number = number;
            for stage in stages.as_slice() {
                put_steps(alloc, script, how, number, stage, line)?;
                number += primitives(stage);
            }
        }
    }
    Ok(())
}

// The filter at a place.
fn filter_at<'a, R: Threads>(script: &'a Script, number: u32, at: u32) -> Step<'a, Worker<'a, R>>
    requires { at < length script.now.filters }
    ensures { AtPlace script.now.filters at (λ p. IsFilterStep script.now.funs p number (result ∷ [])) }
{
    Step::Filter(FilterState::new(&script.filters().as_slice()[at as usize], number))
}

// The workers of a farm of so many, or one where all is done in turn.
fn farm_of<'a, R: Threads>(
    alloc: Global,
    script: &'a Script,
    how: How<'a, R>,
    number: u32,
    count: u32,
    stage: &Stage,
) -> Result<Step<'a, Worker<'a, R>>, NoMemory>
    requires fits { Fits script.now true stage.now }
    requires sized { IsSized stage.now }
    requires few { number + primitives_of stage.now ≤ MOST_PRIMITIVES + 1 }
    ensures { IfOk result (λ s. s ≡ farm_step how.entry count (duties_of how.entry script.now number stage.now)) }
{
    match how {
        How::InTurn => Ok(Step::One(worker_of(alloc, script, how, number, stage)?)),
        How::Beside(_) => {
            let workers = workers_of(alloc, script, how, number, count, stage)?;
            Ok(Step::Farm(Workers::new(workers)))
        }
    }
}
