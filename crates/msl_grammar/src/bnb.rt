// Searches.

ghost use Rattle.std.specs.Prelude.{◌≤◌, length};
ghost use Rattle.msl_grammar.specs.Clauses.{bnb_clauses};
ghost use Rattle.msl_grammar.specs.Following.{IsRead};
ghost use Rattle.msl_grammar.specs.ScriptGrammar.{bnb_rule};

use crate::known::Known;
use crate::token::quoted;
use msl_base::limits::MOST_PARAMS;
use msl_program::{BnbSpec, Width};
use msl_read::{Cursor, ReadFault};
use std::alloc::Global;

/// What stands between the braces of a search.
#[derive(Clone, Copy)]
pub struct BnbClauses {
    pub bound: u32,
    pub solved: u32,
    pub value: u32,
    pub count: u32,
    pub branch: u32,
}

impl Known {
    /// A search, behind its first word.
    pub fn bnb(&self, alloc: Global, c: &mut Cursor<'_>) -> Result<BnbSpec, ReadFault>
        ensures read { IsRead c.old (bnb_rule self.now) c.new result }
        ensures shorter { length c.new ≤ length c.old }
    {
        let name = self.fresh(alloc, c)?;
        let b = self.bnb_clauses(c)?;
        Ok(BnbSpec {
            name,
            bound: b.bound,
            solved: b.solved,
            value: b.value,
            count: b.count,
            branch: b.branch,
        })
    }

    fn bnb_clauses(&self, c: &mut Cursor<'_>) -> Result<BnbClauses, ReadFault>
        ensures read { IsRead c.old (bnb_clauses self.now) c.new result }
        ensures shorter { length c.new ≤ length c.old }
    {
        quoted(c, "{")?;
        let one = Width::Exactly(1);
        let bound = self.clause(c, "bound", Width::AtMost(MOST_PARAMS - 1), one)?;
        let p = self.params(bound);
        let params = Width::Exactly(p);
        let solved = self.clause(c, "solved", params, one)?;
        let value = self.clause(c, "value", params, one)?;
        let count = self.clause(c, "count", params, one)?;
        let branch = self.clause(c, "branch", Width::Exactly(p + 1), params)?;
        quoted(c, "}")?;
        Ok(BnbClauses {
            bound,
            solved,
            value,
            count,
            branch,
        })
    }
}
