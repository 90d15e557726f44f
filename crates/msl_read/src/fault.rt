use msl_base::NoMemory;
use msl_lex::{Kind, LexFault};
use std::alloc::AllocError;
use thiserror::Error;

/// Why nothing is read from a text.
#[derive(Clone, Copy, Debug, PartialEq, Eq, Error)]
pub enum ReadFault {
    /// The first test that fails, with the place in bytes at which the token begins that it names.
    #[error("{0:?} at {1}")]
    At(Kind, u32),
    /// Memory ran out.
    #[error("out of memory")]
    NoMemory,
}

impl From<AllocError> for ReadFault {
    ghost use Rattle.std.specs.Prelude.{◌≡◌};
    ghost use Rattle.msl_read.specs.declared.fault.ReadFault.TheVariants as fault;

    ghost from_gives = { λ _ e. e ≡ fault.NoMemory };

    fn from(_: AllocError) -> Self {
        ReadFault::NoMemory
    }
}

impl From<NoMemory> for ReadFault {
    ghost use Rattle.std.specs.Prelude.{◌≡◌};
    ghost use Rattle.msl_read.specs.declared.fault.ReadFault.TheVariants as fault;

    ghost from_gives = { λ _ e. e ≡ fault.NoMemory };

    fn from(_: NoMemory) -> Self {
        ReadFault::NoMemory
    }
}

impl From<LexFault> for ReadFault {
    ghost use Rattle.std.specs.Prelude.{◌≡◌};
    ghost use Rattle.msl_read.specs.Refusals.{of_lex};

    ghost from_gives = { λ f e. e ≡ of_lex f };

    fn from(fault: LexFault) -> Self {
        match fault {
            LexFault::Byte(at) => ReadFault::At(Kind::Byte, at),
            LexFault::LongName(at) => ReadFault::At(Kind::LongName, at),
            LexFault::Number(at) => ReadFault::At(Kind::Number, at),
            LexFault::NoMemory => ReadFault::NoMemory,
        }
    }
}
