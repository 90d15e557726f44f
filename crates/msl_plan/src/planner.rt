// Teams that are made stage by stage.

ghost use Rattle.std.specs.Prelude.{◌≡◌, ◌≤◌, ◌<◌, ◌+◌, [], ◌∷◌, IfOk, OnOk};
ghost use Rattle.msl_base.specs.declared.limits.TheConstants.{MOST_MEMBERS, MOST_PRIMITIVES};
ghost use Rattle.msl_plan.specs.Plans.{place, places_of};
ghost use Rattle.msl_plan.specs.Planning.{with_places};
ghost use Rattle.msl_program.specs.Need.{need_of};
ghost use Rattle.msl_program.specs.ScriptPromise.{IsSized};
ghost use Rattle.msl_program.specs.Stages.{primitives_of};

use crate::team::{Team, Teams};
use msl_base::{ListOf, NoMemory};
use msl_program::Stage;
use std::alloc::Global;

// The teams so far, and the member that is the first of the next team.
#[derive(Drop)]
pub struct Planner {
    teams: Teams,
    next: u32,
}

impl Planner {
    // No team yet. Member 0 drives the ends, and is in none.
    pub fn new(alloc: Global) -> Planner
        ensures teams { result.teams ≡ [] }
        ensures next { result.next ≡ 1 }
    {
        Planner {
            teams: ListOf::new(alloc),
            next: 1,
        }
    }

    pub fn into_teams(self) -> Teams
        ensures { result ≡ self.teams }
    {
        self.teams
    }

    // Adds the teams of a stage, which has this number, and gives the number of what stands behind it.
    #[cycle(add_stage)]
    pub fn add_stage(&mut self, number: u32, stage: &Stage) -> Result<u32, NoMemory>
        requires sized { IsSized stage.now }
        requires few { number + primitives_of stage.now ≤ MOST_PRIMITIVES + 1 }
        requires fits { self.old.next + need_of stage.now ≤ MOST_MEMBERS }
        ensures teams { OnOk result (self.new ≡ with_places self.old (places_of number stage.now)) }
        ensures number { IfOk result (λ n. n ≡ number + primitives_of stage.now) }
    {
        match stage {
            Stage::Atomic(_) | Stage::Filter(_) => self.add_team(number, 1),
            Stage::Data(_, on) | Stage::DivCon(_, on) | Stage::Bnb(_, on) => {
                self.add_team(number, *on)
            }
            Stage::Farm(workers, worker) => {
                let worker = worker.get();
                let behind = self.add_stage(number, worker)?;
                for _ in 1..*workers {
                    self.add_stage(number, worker)?;
                }
                Ok(behind)
            }
            Stage::Pipe(stages) => {
                let mut number = number;
                for stage in stages.as_slice() {
                    number = self.add_stage(number, stage)?;
                }
                Ok(number)
            }
        }
    }

    // Adds the team of a primitive stage, which has this number, and gives the next number.
    fn add_team(&mut self, number: u32, count: u32) -> Result<u32, NoMemory>
        requires few { number ≤ MOST_PRIMITIVES }
        requires fits { self.old.next + count ≤ MOST_MEMBERS }
        ensures teams { OnOk result (self.new ≡ with_places self.old (place number count ∷ [])) }
        ensures number { IfOk result (λ n. n ≡ number + 1) }
    {
        self.teams.add(Team {
            stage: number,
            first: self.next,
            count,
        })?;
        self.next += count;
        Ok(number + 1)
    }
}
