//! Laws of plans. Each function is empty, and its contract is the law.

ghost use Rattle.msl_program.specs.Script.{Script};
ghost use Rattle.msl_plan.specs.Examples.{HasTeams, divided, divided_teams, farmed, farmed_teams, piped, piped_teams};
ghost use Rattle.msl_plan.specs.PlanLaws.{HasWholeTeams, HasAllMembers, HasOneTeamEach, HasStages};

/// Teams aren't empty, and each begins where the one before ends: the first at member 1, and the last ends with the
/// last member that the script needs.
pub fn teams_adjoin()
    ensures whole { (s : Script) → HasWholeTeams s }
    ensures all { (s : Script) → HasAllMembers s }
{}

/// Each member that the script needs is in exactly one team, but member 0, which is in none, as are those that it
/// doesn't need.
pub fn members_are_in_one_team()
    ensures { (s : Script) → HasOneTeamEach s }
{}

/// Each primitive stage has a team, and nothing else has.
pub fn stages_have_teams()
    ensures { (s : Script) → HasStages s }
{}

/// Worked examples: the workers of a farm have teams of their own, under the numbers of the stages inside.
pub fn examples()
    ensures divided { HasTeams divided divided_teams }
    ensures piped { HasTeams piped piped_teams }
    ensures farmed { HasTeams farmed farmed_teams }
{}
