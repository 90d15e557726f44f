ghost use Rattle.std.specs.Prelude.{◌≡◌, Some};
ghost use Rattle.msl_stage.specs.Endings.{IsEnding};
ghost use Rattle.msl_run.specs.Headline.{end_of};
ghost use Rattle.msl_run.specs.Statuses.{code_of};

use msl_base::{End, Fault};
use msl_lex::Kind;

/// How a run of the program ended.
#[derive(Clone, Copy)]
pub enum Status {
    /// All records were read and all results written; at `check` all was written.
    Done,
    /// The words are no command.
    Usage,
    /// The script can't be fetched.
    Library,
    /// The script has more than 1,048,576 bytes.
    ScriptLong,
    /// The text is no script: the first test that fails, and the place in bytes at which the token begins that it
    /// names.
    Script(Kind, u32),
    /// The script needs more processes than there are.
    Need {
        /// How many it needs.
        need: u64,
        /// How many there are.
        have: u32,
    },
    /// The stream ended with this fault.
    Stream(Fault),
    /// The source failed.
    Read,
    /// The sink failed.
    Write,
    /// Memory ran out.
    Memory,
}

impl Status {
    /// The status of a run that ended so. `Stopped` is excluded: no run of a script is given up from outside.
    pub fn of_end(end: End) -> Status
        requires { IsEnding end }
        ensures { end_of result ≡ Some end }
    {
        match end {
            End::Done => Status::Done,
            End::Fault(fault) => Status::Stream(fault),
            End::Read => Status::Read,
            End::Write => Status::Write,
            End::Memory => Status::Memory,
            End::Stopped => unreachable!(),
        }
    }

    /// The exit status of the program: 0 where all is done, 1 after a fault of the stream, 2 where nothing was run
    /// since the words, the script or its need are refused, 3 where the outside failed, 4 where memory ran out.
    pub fn code(&self) -> u8
        ensures { result ≡ code_of self.now }
    {
        match self {
            Status::Done => 0,
            Status::Stream(_) => 1,
            Status::Usage | Status::ScriptLong | Status::Script(..) | Status::Need { .. } => 2,
            Status::Library | Status::Read | Status::Write => 3,
            Status::Memory => 4,
        }
    }
}
