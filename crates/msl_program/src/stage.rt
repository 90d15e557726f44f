ghost use Rattle.std.specs.Prelude.{◌≡◌, IfOk};
ghost use Rattle.msl_program.specs.Stages.{farm, pipe};

use sqlite_items::{Boxed, Items};
use std::alloc::{AllocError, Global};

/// What a stream goes through. The first number of the first five is a place in the list of its kind, from 0; the
/// second is how many members work on it, 1 to 64.
#[derive(Drop)]
pub enum Stage {
    /// A function at each record.
    Atomic(u32),
    /// A filter over the stream.
    Filter(u32),
    /// A data program at each record.
    Data(u32, u32),
    /// A division at each record.
    DivCon(u32, u32),
    /// A search at each record.
    Bnb(u32, u32),
    /// So many workers, 1 to 64, of one stage.
    Farm(u32, Boxed<Stage>),
    /// Stages, at least one, one behind the other.
    Pipe(Stages),
}

/// Stages in order.
pub type Stages = Items<Stage>;

impl Stage {
    /// So many workers of this stage. It fails for want of memory alone.
    pub fn farm(alloc: Global, workers: u32, stage: Stage) -> Result<Stage, AllocError>
        ensures { IfOk result (λ s. s ≡ farm workers stage) }
    {
        Ok(Stage::Farm(workers, Boxed::new(alloc, stage)?))
    }

    /// These stages one behind the other.
    pub fn pipe(stages: Stages) -> Stage
        ensures { result ≡ pipe stages }
    {
        Stage::Pipe(stages)
    }
}
