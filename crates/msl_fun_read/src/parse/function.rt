// A function, but for the expressions in it.

ghost use Rattle.std.specs.Prelude.{◌≡◌, ℕ, List, [], MatchResult};
ghost use Rattle.msl_base.specs.Names.{Text};
ghost use Rattle.msl_fun_read.specs.Grammar.{fun, fun_name, param, body, end_fun, is_declared, reading, read_fun};
ghost use Rattle.msl_fun_read.specs.Grammar as grammar;
ghost use Rattle.msl_read.specs.Refusals.{IsRefused};
ghost use Rattle.msl_fun_read.specs.Declaring.{head, BeginsFun, NamesFun, NamesParam, NamesParams, ReadsHead, GivesResult, GivesAllResults, IsBody, EndsFun, ReadsFun};

use crate::parse::declared::Declared;
use crate::parse::draft::Draft;
use crate::parse::first::First;
use crate::parse::tree::{Trees, results_of};
use msl_base::limits::{MOST_FUNS, MOST_PARAMS, MOST_RESULTS};
use msl_base::{Name, position_among};
use msl_fun::{Exprs, Fun, Names};
use msl_lex::Kind;
use msl_read::{Cursor, ReadFault};

// The name of a function, and where it stands.
#[derive(Drop)]
pub struct FunName {
    pub name: Name,
    pub at: u32,
}

impl Declared<'_> {
    // The word `fun`.
    pub fn begin(&self, d: &mut Draft<'_>) -> Result<(), ReadFault>
        ensures { MatchResult result (λ _. BeginsFun self.now.funs.now self.now.others.now d.old d.new) (IsRefused (reading self.now.funs.now self.now.others.now d.old.cursor fun)) }
    {
        if !d.cursor.says("fun") {
            return Err(d.cursor.unexpected());
        }
        if self.funs.as_slice().len() >= MOST_FUNS {
            return Err(d.cursor.refusal(Kind::Many));
        }
        d.cursor.advance();
        Ok(())
    }

    // The name of the function, which isn't declared yet.
    pub fn fun_name(&self, d: &mut Draft<'_>) -> Result<FunName, ReadFault>
        ensures { MatchResult result (NamesFun self.now.funs.now self.now.others.now d.old d.new) (IsRefused (reading self.now.funs.now self.now.others.now d.old.cursor fun_name)) }
    {
        let Some(name) = d.cursor.name() else {
            return Err(d.cursor.unexpected());
        };
        if self.declares(name) {
            return Err(d.cursor.refusal(Kind::Twice));
        }
        let at = d.cursor.place();
        let name = Name::of(self.alloc, name)?;
        d.cursor.advance();
        Ok(FunName { name, at })
    }

    fn declares(&self, name: &str) -> bool
        ensures { result ≡ is_declared self.now.funs.now self.now.others.now name.now }
    {
        self.funs.find(name).is_some() || position_among(self.others, name).is_some()
    }

    // The parameters, with the parenthesis behind them.
    pub fn params(&self, d: &mut Draft<'_>) -> Result<(), ReadFault>
        requires { d.old.scope ≡ [] }
        ensures { MatchResult result (λ _. NamesParams self.now.funs.now self.now.others.now d.old d.new) (λ e. (n : Text) (at : ℕ) → IsRefused (reading self.now.funs.now self.now.others.now d.old.cursor (param (head n at []))) e) }
    {
        self.param(d)?;
        while d.cursor.take(",") {
            self.param(d)?;
        }
        d.cursor.expect(")")
    }

    // A parameter, which comes into scope.
    fn param(&self, d: &mut Draft<'_>) -> Result<(), ReadFault>
        ensures { MatchResult result (λ _. (p : Text) × NamesParam self.now.funs.now self.now.others.now d.old d.new p) (λ e. (n : Text) (at : ℕ) → IsRefused (reading self.now.funs.now self.now.others.now d.old.cursor (param (head n at d.old.scope))) e) }
    {
        let Some(name) = d.cursor.name() else {
            return Err(d.cursor.unexpected());
        };
        if d.scope.len() >= MOST_PARAMS {
            return Err(d.cursor.refusal(Kind::Many));
        }
        if position_among(d.scope.as_slice(), name).is_some() {
            return Err(d.cursor.refusal(Kind::Twice));
        }
        d.enter_one(self.alloc, name)?;
        d.cursor.advance();
        Ok(())
    }

    // The results.
    pub fn body(&self, d: &mut Draft<'_>) -> Result<Trees, ReadFault>
        requires { d.old.names ≡ [] }
        ensures { MatchResult result (IsBody self.now.funs.now self.now.others.now d.old d.new) (λ e. (n : Text) (at : ℕ) → IsRefused (reading self.now.funs.now self.now.others.now d.old.cursor (body (head n at d.old.scope))) e) }
    {
        let mut results = Trees::new(self.alloc);
        if d.cursor.take("[") {
            self.results(d, &mut results)?;
        } else {
            results.push(self.expr(d, 0)?)?;
        }
        Ok(results)
    }

    // Results up to a bracket.
    fn results(&self, d: &mut Draft<'_>, results: &mut Trees) -> Result<(), ReadFault>
        ensures { MatchResult result (λ _. GivesAllResults self.now.funs.now self.now.others.now d.old d.new results.old results.new) (λ e. (n : Text) (at : ℕ) → IsRefused (reading self.now.funs.now self.now.others.now d.old.cursor (grammar.result (head n at d.old.scope) d.old.names results.old)) e) }
    {
        self.result(d, results)?;
        while d.cursor.take(",") {
            self.result(d, results)?;
        }
        d.cursor.expect("]")
    }

    // One result more.
    fn result(&self, d: &mut Draft<'_>, results: &mut Trees) -> Result<(), ReadFault>
        ensures { MatchResult result (λ _. GivesResult self.now.funs.now self.now.others.now d.old d.new results.old results.new) (λ e. (n : Text) (at : ℕ) → IsRefused (reading self.now.funs.now self.now.others.now d.old.cursor (grammar.result (head n at d.old.scope) d.old.names results.old)) e) }
    {
        if let First::Nothing = First::of(&d.cursor) {
            return Err(d.cursor.unexpected());
        }
        if results.len() >= MOST_RESULTS {
            return Err(d.cursor.refusal(Kind::Many));
        }
        results.push(self.expr(d, 0)?)?;
        Ok(())
    }

    // The end of a function whose name stands at this place: its results, none too deep.
    pub fn end(&self, d: &mut Draft<'_>, at: u32, results: Trees) -> Result<Exprs, ReadFault>
        ensures { MatchResult result (EndsFun self.now.funs.now self.now.others.now d.old d.new at results) (λ e. (n : Text) (params ns : List Text) → IsRefused (reading self.now.funs.now self.now.others.now d.old.cursor (end_fun (head n at params) ns results)) e) }
    {
        if !d.cursor.says(";") {
            return Err(d.cursor.unexpected());
        }
        let Some(exprs) = results_of(self.alloc, results)? else {
            return Err(ReadFault::At(Kind::Deep, at));
        };
        d.cursor.advance();
        Ok(exprs)
    }

    // All up to the body.
    fn head(&self, d: &mut Draft<'_>) -> Result<FunName, ReadFault>
        requires { d.old.scope ≡ [] }
        ensures { MatchResult result (ReadsHead self.now.funs.now self.now.others.now d.old d.new) (IsRefused (read_fun self.now.funs.now self.now.others.now d.old.cursor)) }
    {
        self.begin(d)?;
        let name = self.fun_name(d)?;
        d.cursor.expect("(")?;
        self.params(d)?;
        d.cursor.expect("=")?;
        Ok(name)
    }

    // The function at the front of these tokens, and the tokens behind it.
    pub fn fun<'c>(&self, cursor: Cursor<'c>) -> Result<(Fun, Cursor<'c>), ReadFault>
        ensures { MatchResult result (λ r. ReadsFun self.now.funs.now self.now.others.now cursor.entry r.0 r.1) (IsRefused (read_fun self.now.funs.now self.now.others.now cursor.entry)) }
    {
        let mut d = Draft {
            cursor,
            scope: Names::new(self.alloc),
            names: Names::new(self.alloc),
        };
        let FunName { name, at } = self.head(&mut d)?;
        let trees = self.body(&mut d)?;
        let results = self.end(&mut d, at, trees)?;
        let Draft {
            cursor,
            scope,
            names,
        } = d;
        let fun = Fun {
            name,
            params: scope,
            results,
            names,
        };
        // The last token is never taken.
        prove!(cursor.len() > 0);
        Ok((fun, cursor))
    }
}
