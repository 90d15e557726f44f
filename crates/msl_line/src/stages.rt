ghost use Rattle.std.specs.Prelude.{◌≡◌, ◌<◌, ◌^◌};
ghost use Rattle.msl_program.specs.Stages.{primitives_of};

use msl_program::Stage;

/// How many stages a stage has that are neither a farm nor a pipe.
pub fn primitives(stage: &Stage) -> u32
    requires { primitives_of stage.now < 2 ^ 32 }
    ensures { result ≡ primitives_of stage.now }
{
    match stage {
        Stage::Farm(_, stage) => primitives(stage.get()),
        Stage::Pipe(stages) => {
            let mut all = 0;
            for stage in stages.as_slice() {
                all += primitives(stage);
            }
            all
        }
        Stage::Atomic(_)
        | Stage::Filter(_)
        | Stage::Data(_, _)
        | Stage::DivCon(_, _)
        | Stage::Bnb(_, _) => 1,
    }
}
