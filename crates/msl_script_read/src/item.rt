// The items of a script.

ghost use Rattle.std.specs.Prelude.{◌≡◌, codes, false, IsTrue, MatchResult};
ghost use Rattle.msl_read.specs.Front.{form};
ghost use Rattle.msl_read.specs.Reading.{says};
ghost use Rattle.msl_read.specs.Refusals.{IsRefused};
ghost use Rattle.msl_grammar.specs.Known.{IsKnown};
ghost use Rattle.msl_grammar.specs.ScriptGrammar.{items, reading};
ghost use Rattle.msl_script_read.specs.ScriptReading.{TakesItem};

use crate::script::ScriptReader;
use msl_base::limits::MOST_DEFINITIONS;
use msl_data_read::data_program;
use msl_fun_read::parse_fun_at;
use msl_lex::Kind;
use msl_read::ReadFault;

impl ScriptReader<'_> {
    // An item, where `main` doesn't stand.
    pub fn item(&mut self) -> Result<(), ReadFault>
        requires known { IsKnown self.old.known }
        requires more { says (codes "main") (form self.old.cursor) ≡ false }
        ensures { MatchResult result (λ _. TakesItem self.old self.new) (IsRefused (reading self.old.cursor (items self.old.known))) }
    {
        if self.cursor.says("fun") {
            self.fun_item()
        } else if self.cursor.says("data") {
            self.data_item()
        } else if self.cursor.says("filter") {
            self.filter_item()
        } else if self.cursor.says("divcon") {
            self.divcon_item()
        } else if self.cursor.says("bnb") {
            self.bnb_item()
        } else {
            Err(self.cursor.unexpected())
        }
    }

    fn fun_item(&mut self) -> Result<(), ReadFault>
        requires known { IsKnown self.old.known }
        requires here { IsTrue (says (codes "fun") (form self.old.cursor)) }
        ensures { MatchResult result (λ _. TakesItem self.old self.new) (IsRefused (reading self.old.cursor (items self.old.known))) }
    {
        let (f, rest) = parse_fun_at(
            self.alloc,
            self.cursor.again(),
            self.known.funs(),
            self.known.others(),
        )?;
        self.cursor = rest;
        self.known.add_fun(f)?;
        Ok(())
    }

    fn data_item(&mut self) -> Result<(), ReadFault>
        requires known { IsKnown self.old.known }
        requires here { IsTrue (says (codes "data") (form self.old.cursor)) }
        ensures { MatchResult result (λ _. TakesItem self.old self.new) (IsRefused (reading self.old.cursor (items self.old.known))) }
    {
        if self.known.datas().len() >= MOST_DEFINITIONS {
            return Err(self.cursor.refusal(Kind::Many));
        }
        self.cursor.advance();
        let d = data_program(&self.known, self.alloc, &mut self.cursor)?;
        self.known.add_data(self.alloc, d)?;
        Ok(())
    }

    fn filter_item(&mut self) -> Result<(), ReadFault>
        requires known { IsKnown self.old.known }
        requires here { IsTrue (says (codes "filter") (form self.old.cursor)) }
        ensures { MatchResult result (λ _. TakesItem self.old self.new) (IsRefused (reading self.old.cursor (items self.old.known))) }
    {
        if self.known.filters().len() >= MOST_DEFINITIONS {
            return Err(self.cursor.refusal(Kind::Many));
        }
        self.cursor.advance();
        let f = self.known.filter(self.alloc, &mut self.cursor)?;
        self.known.add_filter(self.alloc, f)?;
        Ok(())
    }

    fn divcon_item(&mut self) -> Result<(), ReadFault>
        requires known { IsKnown self.old.known }
        requires here { IsTrue (says (codes "divcon") (form self.old.cursor)) }
        ensures { MatchResult result (λ _. TakesItem self.old self.new) (IsRefused (reading self.old.cursor (items self.old.known))) }
    {
        if self.known.divcons().len() >= MOST_DEFINITIONS {
            return Err(self.cursor.refusal(Kind::Many));
        }
        self.cursor.advance();
        let d = self.known.divcon(self.alloc, &mut self.cursor)?;
        self.known.add_divcon(self.alloc, d)?;
        Ok(())
    }

    fn bnb_item(&mut self) -> Result<(), ReadFault>
        requires known { IsKnown self.old.known }
        requires here { IsTrue (says (codes "bnb") (form self.old.cursor)) }
        ensures { MatchResult result (λ _. TakesItem self.old self.new) (IsRefused (reading self.old.cursor (items self.old.known))) }
    {
        if self.known.bnbs().len() >= MOST_DEFINITIONS {
            return Err(self.cursor.refusal(Kind::Many));
        }
        self.cursor.advance();
        let b = self.known.bnb(self.alloc, &mut self.cursor)?;
        self.known.add_bnb(self.alloc, b)?;
        Ok(())
    }
}
