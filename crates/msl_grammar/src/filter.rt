// Filters.

ghost use Rattle.std.specs.Prelude.{◌≤◌, ◌<◌, ℤ, List, length, IfOk};
ghost use Rattle.msl_base.specs.declared.limits.TheConstants.{MOST_STATE};
ghost use Rattle.msl_grammar.specs.Clauses.{filter_clauses};
ghost use Rattle.msl_grammar.specs.Following.{IsRead};
ghost use Rattle.msl_read.specs.Refusals.{IsRefused};
ghost use Rattle.msl_grammar.specs.ScriptGrammar.{State, reading, a_state_number, filter_rule};
ghost use Rattle.msl_grammar.specs.ScriptGrammar as grammar;

use crate::known::Known;
use crate::token::{integer, quoted};
use msl_base::Small;
use msl_base::limits::MOST_STATE;
use msl_lex::{Kind, TokenKind};
use msl_program::{FilterSpec, Width};
use msl_read::{Cursor, ReadFault};
use std::alloc::Global;

/// What stands between the braces of a filter.
#[derive(Clone, Copy)]
pub struct FilterClauses {
    pub state: Small,
    pub count: u32,
    pub item: u32,
    pub next: u32,
    pub flush: u32,
    pub last: u32,
}

impl Known {
    /// A filter, behind its first word.
    pub fn filter(&self, alloc: Global, c: &mut Cursor<'_>) -> Result<FilterSpec, ReadFault>
        ensures read { IsRead c.old (filter_rule self.now) c.new result }
        ensures shorter { length c.new ≤ length c.old }
    {
        let name = self.fresh(alloc, c)?;
        let f = self.filter_clauses(c)?;
        Ok(FilterSpec {
            name,
            state: f.state,
            count: f.count,
            item: f.item,
            next: f.next,
            flush: f.flush,
            last: f.last,
        })
    }

    fn filter_clauses(&self, c: &mut Cursor<'_>) -> Result<FilterClauses, ReadFault>
        ensures read { IsRead c.old (filter_clauses self.now) c.new result }
        ensures shorter { length c.new ≤ length c.old }
    {
        quoted(c, "{")?;
        quoted(c, "state")?;
        let state = state_numbers(c)?;
        let n = state.as_slice().len();
        let count = self.clause(c, "count", Width::AtLeast(n + 1), Width::Exactly(1))?;
        let p = self.params(count);
        let item = self.clause(c, "item", Width::Exactly(p + 1), Width::Any)?;
        let next = self.clause(c, "next", Width::Exactly(p), Width::Exactly(n))?;
        let flush = self.clause(c, "flush", Width::Exactly(n), Width::Exactly(1))?;
        let last = self.clause(c, "last", Width::Exactly(n + 1), Width::Any)?;
        quoted(c, "}")?;
        Ok(FilterClauses {
            state,
            count,
            item,
            next,
            flush,
            last,
        })
    }
}

// The numbers of a first state, and `;`.
fn state_numbers(c: &mut Cursor<'_>) -> Result<Small, ReadFault>
    ensures read { IsRead c.old grammar.state_numbers c.new result }
    ensures within { IfOk result (λ s. (1 ≤ length s) × (length s ≤ MOST_STATE)) }
    ensures shorter { length c.new ≤ length c.old }
{
    let mut numbers = [0; MOST_STATE];
    numbers[0] = integer(c)?;
    let mut len = 1;
    while c.take(",") {
        numbers[len] = state_number(c, &numbers[..len])?;
        len += 1;
    }
    quoted(c, ";")?;
    Ok(Small::of(&numbers[..len]))
}

// One more state number behind these.
fn state_number(c: &mut Cursor<'_>, before: &[i64]) -> Result<i64, ReadFault>
    ensures read { IsRead c.old (a_state_number before.now) c.new result }
    ensures room { IfOk result (λ _. length before.now < MOST_STATE) }
    ensures shorter { length c.new ≤ length c.old }
{
    if before.len() < MOST_STATE {
        integer(c)
    } else {
        Err(no_room(c))
    }
}

// The refusal of a state number that is too many.
fn no_room(c: &Cursor<'_>) -> ReadFault
    ensures { (zs : List ℤ) → MOST_STATE ≤ length zs → (k : ℤ → State) → IsRefused (reading c.now (a_state_number zs k)) result }
{
    match c.kind() {
        TokenKind::Number => c.refusal(Kind::Many),
        _ if c.says("-") => c.refusal(Kind::Many),
        _ => c.unexpected(),
    }
}
