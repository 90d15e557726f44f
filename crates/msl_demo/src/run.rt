ghost use Rattle.std.specs.Prelude.{◌≤◌, IfOk};
ghost use Rattle.msl_demo_laws.specs.Demo.{DemoGives};
ghost use Rattle.msl_demo_laws.specs.Laws.{demo_input};
ghost use Rattle.msl_demo_laws.specs.Script.{demo_script};
ghost use Rattle.msl_demo.specs.Outputs.{Makes, NeverFaults};

use crate::CHUNK;
use crate::count::tally_of;
use crate::input::demo_input;
use crate::output::Output;
use crate::script::demo_script;
use msl_base::{End, NoMemory};
use msl_io::{Bytes, Piece, SteadySource};
use msl_line::{How, line_of};
use msl_script::Script;
use msl_stage::run_rounds;
use std::alloc::Global;
use std::thread::Threads;

/// The line of so many records: how many there are, how many came out of the script that they were run through by rounds,
/// how many numbers these have, and the sum of all. It keeps the text of the records and that of what comes out, about 3
/// megabytes of 100,000 records. It fails for want of memory alone.
pub fn demo_line<R: Threads + Sync>(rt: &R, alloc: Global, records: u32) -> Result<Piece, NoMemory>
    requires { records ≤ 100000 }
    ensures { IfOk result (λ line. DemoGives records line) }
{
    let output = demo_output(rt, alloc, records)?;
    let tally = tally_of(alloc, output)?;
    Ok(tally.line(records))
}

// The text of what the script makes of the first records.
fn demo_output<R: Threads + Sync>(rt: &R, alloc: Global, records: u32) -> Result<Bytes, NoMemory>
    requires { records ≤ 100000 }
    ensures { IfOk result (λ output. Makes demo_script (demo_input records) output) }
{
    let script = demo_script(alloc)?;
    let input = demo_input(alloc, records)?;
    run_over(rt, alloc, &script, input)
}

// Runs a script over bytes at which it has no fault.
fn run_over<R: Threads + Sync>(
    rt: &R,
    alloc: Global,
    script: &Script,
    input: Bytes,
) -> Result<Bytes, NoMemory>
    requires { NeverFaults script.now input }
    ensures { IfOk result (λ output. Makes script.now input output) }
{
    let line = line_of(alloc, script, How::Beside(rt))?;
    let mut src = SteadySource::new(alloc, input, CHUNK);
    let mut out = Output::new(alloc);
    match run_rounds(alloc, script.funs(), line, &mut src, &mut out) {
        End::Done => Ok(out.into_bytes()),
        End::Write | End::Memory => Err(NoMemory),
        End::Fault(_) | End::Read | End::Stopped => unreachable!(),
    }
}
