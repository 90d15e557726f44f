// A function that a step uses, with its arguments.

ghost use Rattle.std.specs.Prelude.{◌≡◌, ◌<◌, ◌≤◌, length, IfOk};
ghost use Rattle.msl_grammar.specs.Following.{IsRead};
ghost use Rattle.msl_grammar.specs.ScriptGrammar.{a_use, a_use_name, maybe_args, one_arg, an_arg};

use crate::scope::Scope;
use msl_grammar::Used;
use msl_grammar::token::{integer, quoted};
use msl_program::shape::Need;
use msl_program::{Arg, Args};
use msl_read::{Cursor, ReadFault};

impl Scope<'_> {
    // A function, maybe with arguments.
    pub fn usage(&self, c: &mut Cursor<'_>) -> Result<Used, ReadFault>
        ensures read { IsRead c.old (a_use self.now.known.now self.now.program.now) c.new result }
        ensures within { IfOk result (λ u. u.fun < length self.now.known.now.funs) }
        ensures shorter { length c.new ≤ length c.old }
    {
        let used = self.use_name(c)?;
        self.maybe_args(c, used)
    }

    // The name of a function.
    fn use_name(&self, c: &mut Cursor<'_>) -> Result<Used, ReadFault>
        ensures read { IsRead c.old (a_use_name self.now.known.now) c.new result }
        ensures within { IfOk result (λ u. u.fun < length self.now.known.now.funs) }
        ensures shorter { length c.new ≤ length c.old }
    {
        let Some(name) = c.name() else {
            return Err(c.unexpected());
        };
        let Some(fun) = self.known.find(name) else {
            return Err(c.refusal(self.known.unknown(name)));
        };
        let at = c.place();
        c.advance();
        Ok(Used {
            fun,
            at,
            args: Args::new(self.alloc),
        })
    }

    fn maybe_args(&self, c: &mut Cursor<'_>, used: Used) -> Result<Used, ReadFault>
        ensures read { IsRead c.old (maybe_args self.now.program.now used) c.new result }
        ensures fun { IfOk result (λ u. u.fun ≡ used.fun) }
        ensures shorter { length c.new ≤ length c.old }
    {
        if c.take("(") {
            self.args(c, used)
        } else {
            Ok(used)
        }
    }

    // Arguments up to a parenthesis.
    fn args(&self, c: &mut Cursor<'_>, used: Used) -> Result<Used, ReadFault>
        ensures read { IsRead c.old (one_arg self.now.program.now used) c.new result }
        ensures fun { IfOk result (λ u. u.fun ≡ used.fun) }
        ensures shorter { length c.new ≤ length c.old }
    {
        let mut more = used.with(self.arg(c)?)?;
        while c.take(",") {
            more = more.with(self.arg(c)?)?;
        }
        quoted(c, ")")?;
        Ok(more)
    }

    // A line that is a number, or an integer.
    pub fn arg(&self, c: &mut Cursor<'_>) -> Result<Arg, ReadFault>
        ensures read { IsRead c.old (an_arg self.now.program.now) c.new result }
        ensures shorter { length c.new ≤ length c.old }
    {
        let Some(name) = c.name() else {
            return Ok(Arg::Lit(integer(c)?));
        };
        let line = self.suited(c, name, Need::Number)?.0;
        c.advance();
        Ok(Arg::Number(line))
    }
}
