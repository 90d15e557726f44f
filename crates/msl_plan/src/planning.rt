ghost use Rattle.msl_base.specs.declared.limits.TheConstants.{MOST_MEMBERS};
ghost use Rattle.msl_plan.specs.Plans.{Plans};
ghost use Rattle.msl_program.specs.ProgramPromise.{IsBetween};

use crate::fault::PlanFault;
use crate::planner::Planner;
use crate::team::Teams;
use msl_program::{Script, need};
use std::alloc::Global;

/// The teams of a script for so many processes, 1 to 64. Processes that the script doesn't need are in no team.
///
/// The fault is `Need` exactly where the script needs more processes, and takes no memory; `NoMemory` may come wherever
/// there are enough.
pub fn plan(alloc: Global, script: &Script, processes: u32) -> Result<Teams, PlanFault>
    requires { IsBetween 1 MOST_MEMBERS processes }
    ensures { Plans script.now processes result }
{
    let need = need(script);
    if u64::from(processes) < need {
        return Err(PlanFault::Need {
            need,
            have: processes,
        });
    }
    let mut planner = Planner::new(alloc);
    planner.add_stage(1, script.main())?;
    Ok(planner.into_teams())
}
