use msl_base::NoMemory;
use thiserror::Error;

/// Why a script has no plan.
#[derive(Clone, Copy, Debug, PartialEq, Eq, Error)]
pub enum PlanFault {
    /// The script needs more processes than there are.
    #[error("need {need} processes, have {have}")]
    Need { need: u64, have: u32 },
    /// Memory ran out.
    #[error("out of memory")]
    NoMemory,
}

impl From<NoMemory> for PlanFault {
    ghost use Rattle.std.specs.Prelude.{◌≡◌};
    ghost use Rattle.msl_plan.specs.declared.fault.PlanFault.TheVariants as fault;

    ghost from_gives = { λ _ e. e ≡ fault.NoMemory };

    fn from(_: NoMemory) -> Self {
        PlanFault::NoMemory
    }
}
