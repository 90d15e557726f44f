// The earlier line that a name names.

ghost use Rattle.std.specs.Prelude.{◌≡◌, ◌<◌, ◌≤◌, length, IfOk};
ghost use Rattle.msl_read.specs.Reading.{place, failing};
ghost use Rattle.msl_grammar.specs.Following.{IsRead};
ghost use Rattle.msl_read.specs.Refusals.{IsTested};
ghost use Rattle.msl_program.specs.Programs.{blocks_of};
ghost use Rattle.msl_grammar.specs.Uses.{use_fits};
ghost use Rattle.msl_grammar.specs.ScriptGrammar.{line_tests, line_found, a_line, a_container, a_block_of};

use crate::scope::Scope;
use msl_grammar::Used;
use msl_lex::Kind;
use msl_program::Shape;
use msl_program::shape::Need;
use msl_read::{Cursor, ReadFault};

impl Scope<'_> {
    // A line that is such.
    pub fn line(&self, c: &mut Cursor<'_>, need: Need) -> Result<(u32, Shape), ReadFault>
        ensures read { IsRead c.old (a_line self.now.program.now need) c.new result }
        ensures shorter { length c.new ≤ length c.old }
    {
        let Some(name) = c.name() else {
            return Err(c.unexpected());
        };
        let line = self.suited(c, name, need)?;
        c.advance();
        Ok(line)
    }

    // The first line that a step works on. Its function has to take what the step gives by what the line is.
    pub fn container(
        &self,
        c: &mut Cursor<'_>,
        used: &Used,
        need: Need,
        for_array: usize,
        for_matrix: usize,
    ) -> Result<(u32, Shape), ReadFault>
        requires { used.now.fun < length self.now.known.now.funs }
        ensures read { IsRead c.old (a_container self.now.known.now self.now.program.now used.now need for_array for_matrix) c.new result }
        ensures shorter { length c.new ≤ length c.old }
    {
        let Some(name) = c.name() else {
            return Err(c.unexpected());
        };
        let line = self.suited(c, name, need)?;
        if !self.use_fits(used, line.1.given(for_array, for_matrix)) {
            return Err(ReadFault::At(Kind::Width, used.at));
        }
        c.advance();
        Ok(line)
    }

    // An array that has a block of this number, which comes with its place.
    pub fn block_of(&self, c: &mut Cursor<'_>, block: (u64, u32)) -> Result<(u32, Shape), ReadFault>
        ensures read { IsRead c.old (a_block_of self.now.program.now block) c.new result }
        ensures within { IfOk result (λ l. block.0 < blocks_of l.1) }
        ensures shorter { length c.new ≤ length c.old }
    {
        let Some(name) = c.name() else {
            return Err(c.unexpected());
        };
        let line = self.suited(c, name, Need::Array)?;
        let blocks = line.1.blocks();
        if block.0 >= u64::from(blocks) {
            return Err(ReadFault::At(Kind::Range, block.1));
        }
        c.advance();
        Ok(line)
    }

    // The line of a name, which is the first token.
    pub fn suited(&self, c: &Cursor<'_>, name: &str, need: Need) -> Result<(u32, Shape), ReadFault>
        ensures tested { IsTested (failing (line_tests self.now.program.now need (place c.now) name.now)) result }
        ensures found { IfOk result (λ l. l ≡ line_found self.now.program.now name.now) }
    {
        let Some(line) = self.program.find(name) else {
            return Err(c.refusal(Kind::Unknown));
        };
        let shape = self.program.shape(line);
        if !need.suits(shape) {
            return Err(c.refusal(Kind::WrongKind));
        }
        Ok((line, shape))
    }

    // Whether a function has as many more parameters as the step gives, and one result.
    fn use_fits(&self, used: &Used, more: usize) -> bool
        requires { used.now.fun < length self.now.known.now.funs }
        ensures { result ≡ use_fits self.now.known.now.funs used.now more }
    {
        let params = self.known.params(used.fun);
        let args = used.args.len();
        args <= params && params - args == more && self.known.results(used.fun) == 1
    }
}
