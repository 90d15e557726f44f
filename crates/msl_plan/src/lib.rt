//! Which members of a group work on which stage of a script.
//!
//! - `plan` gives each primitive stage of a script its team, or says how many processes the script needs where there
//!   are too few (`Plans`). Want of memory may come wherever there are enough.
//! - A `Team` is a run of members. Teams stand in the order of the stages, and a stage of a farm has one for each
//!   worker; member 0 drives the ends of the stream and is in none (`plan_of`).
//! - `laws`: the teams begin at member 1 and each begins where the one before ends, so each other member that a script
//!   needs is in exactly one; no team is empty; each stage has one.
//!
//! No code here runs a stage.
#![tactic(auto)]

mod fault;
pub mod laws;
mod planner;
mod planning;
mod team;

pub use fault::PlanFault;
pub use planning::plan;
pub use team::{Team, Teams};
