// Stages.

ghost use Rattle.std.specs.Prelude.{◌≡◌, ◌≢◌, ◌≤◌, length, map, drop, codes, true, false, nat_lt, MatchResult};
ghost use Rattle.msl_base.specs.declared.limits.TheConstants.{MOST_DEFINITIONS, MOST_MEMBERS, MOST_NESTED, MOST_PRIMITIVES};
ghost use Rattle.msl_lex.specs.Lexemes.{close};
ghost use Rattle.msl_lex.specs.declared.kind.Kind.TheVariants.{Many, Deep};
ghost use Rattle.msl_read.specs.declared.fault.ReadFault.TheVariants as fault;
ghost use Rattle.msl_read.specs.Front.{form};
ghost use Rattle.msl_read.specs.Reading.{place, says};
ghost use Rattle.msl_program.specs.declared.nest.Nest as nests;
ghost use Rattle.msl_grammar.specs.Following.{IsRead};
ghost use Rattle.msl_grammar.specs.Known.{AreAmong, IsKnown};
ghost use Rattle.msl_grammar.specs.ScriptGrammar.{a_stage, a_definition, a_number, token, one_primitive, one_deeper};
ghost use Rattle.msl_grammar.specs.ScriptGrammar as grammar;

use crate::definition::definition;
use msl_base::Named;
use msl_base::limits::{MOST_FILTERS, MOST_MEMBERS, MOST_NESTED, MOST_PRIMITIVES};
use msl_grammar::Known;
use msl_grammar::token::{number, quoted};
use msl_lex::Kind;
use msl_program::{Counts, Nest, Stage, Stages, Width};
use msl_read::{Cursor, ReadFault};
use sqlite_items::Items;
use std::alloc::Global;

// Reads stages over the definitions of a script.
#[derive(Clone, Copy)]
pub struct StageReader<'a> {
    pub alloc: Global,
    pub known: &'a Known,
}

impl StageReader<'_> {
    // A stage that stands there, behind so many primitive stages; with it, how many there are up to its end.
    #[cycle(stage)]
    pub fn stage(
        &self,
        c: &mut Cursor<'_>,
        nest: Nest,
        counts: Counts,
    ) -> Result<(Counts, Stage), ReadFault>
        requires known { IsKnown self.now.known.now }
        ensures read { IsRead c.old (a_stage self.now.known.now nest counts) c.new result }
        ensures shorter { length c.new ≤ length c.old }
    {
        if c.says("farm") {
            self.farm(c, nest, counts)
        } else if c.says("pipe") {
            self.pipe(c, nest, counts)
        } else {
            self.primitive(c, nest, counts)
        }
    }

    // Workers of one stage, from `farm` on.
    #[cycle(stage)]
    fn farm(
        &self,
        c: &mut Cursor<'_>,
        nest: Nest,
        counts: Counts,
    ) -> Result<(Counts, Stage), ReadFault>
        requires known { IsKnown self.now.known.now }
        requires said { says (codes "farm") (form c.old) ≡ true }
        ensures read { IsRead c.old (a_stage self.now.known.now nest counts) c.new result }
        ensures shorter { length c.new ≤ length c.old }
    {
        let inner = deeper(nest, c)?;
        let workers = number(c, 1, MOST_MEMBERS)?;
        quoted(c, "{")?;
        let inner = Nest {
            in_farm: true,
            ..inner
        };
        let (counts, stage) = self.stage(c, inner, counts)?;
        quoted(c, "}")?;
        Ok((counts, Stage::farm(self.alloc, workers, stage)?))
    }

    // Stages one behind the other, from `pipe` on.
    #[cycle(stage)]
    fn pipe(
        &self,
        c: &mut Cursor<'_>,
        nest: Nest,
        counts: Counts,
    ) -> Result<(Counts, Stage), ReadFault>
        requires known { IsKnown self.now.known.now }
        requires said { says (codes "pipe") (form c.old) ≡ true }
        ensures read { IsRead c.old (a_stage self.now.known.now nest counts) c.new result }
        ensures shorter { length c.new ≤ length c.old }
    {
        let inner = deeper(nest, c)?;
        quoted(c, "{")?;
        let (counts, stage) = self.stage(c, inner, counts)?;
        let mut stages = Items::new(self.alloc);
        stages.push(stage)?;
        self.more_stages(c, inner, counts, stages)
    }

    // The rest of a pipe, behind these stages.
    #[cycle(stage)]
    fn more_stages(
        &self,
        c: &mut Cursor<'_>,
        nest: Nest,
        mut counts: Counts,
        mut stages: Stages,
    ) -> Result<(Counts, Stage), ReadFault>
        requires known { IsKnown self.now.known.now }
        ensures read { IsRead c.old (grammar.more_stages self.now.known.now nest counts stages) c.new result }
        ensures shorter { length c.new ≤ length c.old }
    {
        while c.take(";") {
            let (more, stage) = self.stage(c, nest, counts)?;
            stages.push(stage)?;
            counts = more;
        }
        quoted(c, "}")?;
        Ok((counts, Stage::pipe(stages)))
    }

    // A stage that has no stages in it.
    fn primitive(
        &self,
        c: &mut Cursor<'_>,
        nest: Nest,
        counts: Counts,
    ) -> Result<(Counts, Stage), ReadFault>
        requires known { IsKnown self.now.known.now }
        requires no_farm { says (codes "farm") (form c.old) ≡ false }
        requires no_pipe { says (codes "pipe") (form c.old) ≡ false }
        ensures read { IsRead c.old (a_stage self.now.known.now nest counts) c.new result }
        ensures shorter { length c.new ≤ length c.old }
    {
        if c.says("atomic") {
            self.atomic_stage(c, counts)
        } else if c.says("filter") {
            self.filter_stage(c, nest, counts)
        } else if c.says("data") {
            self.data_stage(c, counts)
        } else if c.says("divcon") {
            self.divcon_stage(c, counts)
        } else if c.says("bnb") {
            self.bnb_stage(c, counts)
        } else {
            Err(c.unexpected())
        }
    }

    // A function, from `atomic` on.
    fn atomic_stage(&self, c: &mut Cursor<'_>, counts: Counts) -> Result<(Counts, Stage), ReadFault>
        requires said { says (codes "atomic") (form c.old) ≡ true }
        ensures read { (nest : nests.Nest) → IsRead c.old (a_stage self.now.known.now nest counts) c.new result }
        ensures shorter { length c.new ≤ length c.old }
    {
        let counts = more(counts, c)?;
        let f = self.known.function(c, Width::Any, Width::Any)?;
        Ok((counts, Stage::Atomic(f)))
    }

    // A filter, from `filter` on.
    fn filter_stage(
        &self,
        c: &mut Cursor<'_>,
        nest: Nest,
        counts: Counts,
    ) -> Result<(Counts, Stage), ReadFault>
        requires known { IsKnown self.now.known.now }
        requires said { says (codes "filter") (form c.old) ≡ true }
        ensures read { IsRead c.old (a_stage self.now.known.now nest counts) c.new result }
        ensures shorter { length c.new ≤ length c.old }
    {
        if nest.in_farm {
            return Err(c.refusal(Kind::InFarm));
        }
        if counts.filters >= MOST_FILTERS {
            return Err(c.refusal(Kind::Many));
        }
        let counts = more(counts, c)?;
        let f = definition(self.known, c, self.known.filters())?;
        let counts = Counts {
            filters: counts.filters + 1,
            ..counts
        };
        Ok((counts, Stage::Filter(f)))
    }

    // A data program, from `data` on.
    fn data_stage(&self, c: &mut Cursor<'_>, counts: Counts) -> Result<(Counts, Stage), ReadFault>
        requires known { IsKnown self.now.known.now }
        requires said { says (codes "data") (form c.old) ≡ true }
        ensures read { (nest : nests.Nest) → IsRead c.old (a_stage self.now.known.now nest counts) c.new result }
        ensures shorter { length c.new ≤ length c.old }
    {
        let counts = more(counts, c)?;
        let (d, members) = self.members(c, self.known.datas())?;
        Ok((counts, Stage::Data(d, members)))
    }

    // A division, from `divcon` on.
    fn divcon_stage(&self, c: &mut Cursor<'_>, counts: Counts) -> Result<(Counts, Stage), ReadFault>
        requires known { IsKnown self.now.known.now }
        requires said { says (codes "divcon") (form c.old) ≡ true }
        ensures read { (nest : nests.Nest) → IsRead c.old (a_stage self.now.known.now nest counts) c.new result }
        ensures shorter { length c.new ≤ length c.old }
    {
        let counts = more(counts, c)?;
        let (d, members) = self.members(c, self.known.divcons())?;
        Ok((counts, Stage::DivCon(d, members)))
    }

    // A search, from `bnb` on.
    fn bnb_stage(&self, c: &mut Cursor<'_>, counts: Counts) -> Result<(Counts, Stage), ReadFault>
        requires known { IsKnown self.now.known.now }
        requires said { says (codes "bnb") (form c.old) ≡ true }
        ensures read { (nest : nests.Nest) → IsRead c.old (a_stage self.now.known.now nest counts) c.new result }
        ensures shorter { length c.new ≤ length c.old }
    {
        let counts = more(counts, c)?;
        let (b, members) = self.members(c, self.known.bnbs())?;
        Ok((counts, Stage::Bnb(b, members)))
    }

    // One of these definitions, and how many members work on it.
    fn members<T: Named>(&self, c: &mut Cursor<'_>, items: &[T]) -> Result<(u32, u32), ReadFault>
        requires few { length items.now ≤ MOST_DEFINITIONS }
        requires among { AreAmong (map T.called items.now) self.now.known.now.others }
        ensures read { IsRead c.old (λ k. a_definition self.now.known.now (map T.called items.now) (λ d. token (codes "on") (a_number 1 MOST_MEMBERS (λ v. k (d, v))))) c.new result }
        ensures shorter { length c.new ≤ length c.old }
    {
        let d = definition(self.known, c, items)?;
        quoted(c, "on")?;
        let members = number(c, 1, MOST_MEMBERS)?;
        Ok((d, members))
    }
}

// With one more primitive stage, whose first word is taken.
fn more(counts: Counts, c: &mut Cursor<'_>) -> Result<Counts, ReadFault>
    requires { form c.old ≢ close }
    ensures tested { MatchResult result (λ r. (nat_lt counts.primitives MOST_PRIMITIVES ≡ true) × (r ≡ one_primitive counts) × (c.new ≡ drop 1 c.old)) (λ e. (nat_lt counts.primitives MOST_PRIMITIVES ≡ false) × (e ≡ fault.At Many (place c.old))) }
    ensures shorter { length c.new ≤ length c.old }
{
    if counts.primitives >= MOST_PRIMITIVES {
        return Err(c.refusal(Kind::Many));
    }
    c.advance();
    Ok(Counts {
        primitives: counts.primitives + 1,
        ..counts
    })
}

// In one more farm or pipe, whose first word is taken.
fn deeper(nest: Nest, c: &mut Cursor<'_>) -> Result<Nest, ReadFault>
    requires { form c.old ≢ close }
    ensures tested { MatchResult result (λ r. (nat_lt nest.opened MOST_NESTED ≡ true) × (r ≡ one_deeper nest) × (c.new ≡ drop 1 c.old)) (λ e. (nat_lt nest.opened MOST_NESTED ≡ false) × (e ≡ fault.At Deep (place c.old))) }
    ensures shorter { length c.new ≤ length c.old }
{
    if nest.opened >= MOST_NESTED {
        return Err(c.refusal(Kind::Deep));
    }
    c.advance();
    Ok(Nest {
        opened: nest.opened + 1,
        ..nest
    })
}
