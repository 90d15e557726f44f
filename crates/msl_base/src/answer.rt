use crate::{Fault, NoMemory, Rec};

/// What becomes of one record.
#[derive(Drop)]
pub enum Answer {
    /// The record that it gives.
    Rec(Rec),
    /// It gives none, and ends its stream.
    Fault(Fault),
    /// Memory ran out before it was known.
    NoMemory,
}

/// Why a computation over a record stops without a result.
#[derive(Clone, Copy)]
pub enum Halt {
    /// The computation has no result.
    Fault(Fault),
    /// Memory ran out before it was known.
    NoMemory,
}

impl From<NoMemory> for Halt {
    ghost use Rattle.std.specs.Prelude.{◌≡◌};
    ghost use Rattle.msl_base.specs.declared.answer.Halt.TheVariants as halt;

    ghost from_gives = { λ _ h. h ≡ halt.NoMemory };

    fn from(_: NoMemory) -> Self {
        Halt::NoMemory
    }
}
