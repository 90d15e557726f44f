ghost use Rattle.std.specs.Prelude.{◌≡◌, ◌≤◌, ◌^◌};
ghost use Rattle.msl_program.specs.Need.{need, need_of};
ghost use Rattle.msl_program.specs.ScriptPromise.{IsSized};

use crate::{Script, Stage};

/// How many processes a script needs: one for the ends of the stream, and those of its main stage. A function and a
/// filter need one, a stage `on k` needs k, a farm what its stage needs for each worker, and a pipe what its stages
/// need together. Takes no memory.
pub fn need(s: &Script) -> u64
    ensures { result ≡ need s.now }
{
    1 + stage_need(s.main())
}

// Those of a stage, which are few enough to be counted: at most 64 primitive stages with 64 members each stand in at
// most four farms of 64 workers.
fn stage_need(stage: &Stage) -> u64
    requires sized { IsSized stage.now }
    requires few { need_of stage.now ≤ 2 ^ 36 }
    ensures { result ≡ need_of stage.now }
{
    match stage {
        Stage::Atomic(_) | Stage::Filter(_) => 1,
        Stage::Data(_, on) | Stage::DivCon(_, on) | Stage::Bnb(_, on) => u64::from(*on),
        Stage::Farm(workers, stage) => u64::from(*workers) * stage_need(stage.get()),
        Stage::Pipe(stages) => {
            let mut all = 0;
            for stage in stages.as_slice() {
                all += stage_need(stage);
            }
            all
        }
    }
}
