// Divisions.

ghost use Rattle.std.specs.Prelude.{◌≤◌, length};
ghost use Rattle.msl_grammar.specs.Clauses.{divcon_clauses};
ghost use Rattle.msl_grammar.specs.Following.{IsRead};
ghost use Rattle.msl_grammar.specs.ScriptGrammar.{divcon_rule};

use crate::known::Known;
use crate::token::{numbered, quoted};
use msl_base::limits::{LEAST_PARTS, MOST_CUTOFF, MOST_PARTS};
use msl_program::{DivCon, Width};
use msl_read::{Cursor, ReadFault};
use std::alloc::Global;

/// What stands between the braces of a division.
#[derive(Clone, Copy)]
pub struct DivConClauses {
    pub parts: u32,
    pub cutoff: u32,
    pub simple: u32,
    pub solve: u32,
    pub divide: u32,
    pub combine: u32,
}

impl Known {
    /// A division, behind its first word.
    pub fn divcon(&self, alloc: Global, c: &mut Cursor<'_>) -> Result<DivCon, ReadFault>
        ensures read { IsRead c.old (divcon_rule self.now) c.new result }
        ensures shorter { length c.new ≤ length c.old }
    {
        let name = self.fresh(alloc, c)?;
        let d = self.divcon_clauses(c)?;
        Ok(DivCon {
            name,
            parts: d.parts,
            cutoff: d.cutoff,
            simple: d.simple,
            solve: d.solve,
            divide: d.divide,
            combine: d.combine,
        })
    }

    fn divcon_clauses(&self, c: &mut Cursor<'_>) -> Result<DivConClauses, ReadFault>
        ensures read { IsRead c.old (divcon_clauses self.now) c.new result }
        ensures shorter { length c.new ≤ length c.old }
    {
        quoted(c, "{")?;
        let parts = numbered(c, "parts", LEAST_PARTS, MOST_PARTS)?;
        let cutoff = numbered(c, "cutoff", 0, MOST_CUTOFF)?;
        let simple = self.clause(c, "simple", Width::Any, Width::Exactly(1))?;
        let p = self.params(simple);
        let params = Width::Exactly(p);
        let solve = self.clause(c, "solve", params, Width::Shared(parts))?;
        let divide = self.clause(c, "divide", Width::Exactly(p + 1), params)?;
        let r = self.results(solve);
        let all = Width::Exactly(parts as usize * r);
        let combine = self.clause(c, "combine", all, Width::Exactly(r))?;
        quoted(c, "}")?;
        Ok(DivConClauses {
            parts,
            cutoff,
            simple,
            solve,
            divide,
            combine,
        })
    }
}
