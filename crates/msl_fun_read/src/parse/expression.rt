// Expressions, by recursive descent.

ghost use Rattle.std.specs.Prelude.{◌≢◌, ◌≤◌, ◌+◌, ◌++◌, drop, length, IfOk, codes};
ghost use Rattle.msl_base.specs.declared.limits.TheConstants.{MOST_NAMES};
ghost use Rattle.msl_lex.specs.Lexemes.{close};
ghost use Rattle.msl_fun_read.specs.declared.parse.level.Level.TheVariants as level;
ghost use Rattle.msl_read.specs.Front.{form};
ghost use Rattle.msl_fun_read.specs.Grammar.{expr, operand, choice_rest, binding_rest, looping_rest, pair_rest, call_rest};
ghost use Rattle.msl_fun_read.specs.Parsing.{IsRead, IsPart, Keeps, KeepsTwo, context, expr_before, two_exprs};
ghost use Rattle.msl_fun_read.specs.Binding.{names_in};
ghost use Rattle.msl_fun_read.specs.Calls.{IsCallee, callee_of};

use crate::parse::callee::Callee;
use crate::parse::declared::Declared;
use crate::parse::draft::{Bound, Draft};
use crate::parse::first::First;
use crate::parse::level::Level;
use crate::parse::tree::{Tree, Trees};
use msl_base::limits::MOST_OPENED;
use msl_fun::BinOp;
use msl_lex::Kind;
use msl_read::ReadFault;

impl Declared<'_> {
    // An expression; so many `expr` and `unary` are open around it.
    #[cycle(expression)]
    pub fn expr(&self, d: &mut Draft<'_>, opened: u32) -> Result<Tree, ReadFault>
        ensures reads { IsRead self.now.funs.now self.now.others.now d.old.cursor (expr (context d.old.scope opened) d.old.names) d.new result }
        ensures keeps { IfOk result (Keeps self.now.funs.now d.old d.new) }
    {
        let first = First::of(&d.cursor);
        if let First::Nothing = first {
            return Err(d.cursor.unexpected());
        }
        if opened >= MOST_OPENED {
            return Err(d.cursor.refusal(Kind::Deep));
        }
        match first {
            First::If => self.choice(d, opened + 1),
            First::Let => self.binding(d, opened + 1),
            First::Loop => self.looping(d, opened + 1),
            _ => self.operation(d, Level::Or, opened + 1),
        }
    }

    // An expression and this quoted text behind it.
    #[cycle(expression)]
    fn expr_before(&self, d: &mut Draft<'_>, opened: u32, text: &str) -> Result<Tree, ReadFault>
        ensures reads { IsRead self.now.funs.now self.now.others.now d.old.cursor (expr_before (context d.old.scope opened) d.old.names text.now) d.new result }
        ensures keeps { IfOk result (Keeps self.now.funs.now d.old d.new) }
    {
        let e = self.expr(d, opened)?;
        d.cursor.expect(text)?;
        Ok(e)
    }

    // Two expressions, and this quoted text between them.
    #[cycle(expression)]
    fn two(&self, d: &mut Draft<'_>, opened: u32, text: &str) -> Result<(Tree, Tree), ReadFault>
        ensures reads { IsPart self.now.funs.now self.now.others.now d.old.cursor (two_exprs (context d.old.scope opened) (context d.old.scope opened) d.old.names text.now) d.new result }
        ensures keeps { IfOk result (KeepsTwo self.now.funs.now d.old.scope d.old d.new) }
    {
        let a = self.expr_before(d, opened, text)?;
        let b = self.expr(d, opened)?;
        Ok((a, b))
    }

    // Two expressions with `in` between them, these names being in scope in the second.
    #[cycle(expression)]
    fn scoped(
        &self,
        d: &mut Draft<'_>,
        opened: u32,
        bound: Bound<'_>,
    ) -> Result<(Tree, Tree), ReadFault>
        requires { length d.old.scope + length (names_in bound) ≤ MOST_NAMES }
        ensures reads { IsPart self.now.funs.now self.now.others.now d.old.cursor (two_exprs (context d.old.scope opened) (context (d.old.scope ++ names_in bound.entry) opened) d.old.names (codes "in")) d.new result }
        ensures keeps { IfOk result (KeepsTwo self.now.funs.now (d.old.scope ++ names_in bound.entry) d.old d.new) }
    {
        let a = self.expr_before(d, opened, "in")?;
        d.enter(self.alloc, bound)?;
        let b = self.expr(d, opened)?;
        d.leave(bound);
        Ok((a, b))
    }

    // A condition and two branches, from `if` on.
    #[cycle(expression)]
    fn choice(&self, d: &mut Draft<'_>, opened: u32) -> Result<Tree, ReadFault>
        requires { form d.old.cursor ≢ close }
        ensures reads { IsRead self.now.funs.now self.now.others.now (drop 1 d.old.cursor) (choice_rest (context d.old.scope opened) d.old.names) d.new result }
        ensures keeps { IfOk result (Keeps self.now.funs.now d.old d.new) }
    {
        d.cursor.advance();
        let c = self.expr_before(d, opened, "then")?;
        let (a, b) = self.two(d, opened, "else")?;
        Ok(Tree::choice(self.alloc, c, a, b)?)
    }

    // A variable and the body in which it is in scope, from `let` on.
    #[cycle(expression)]
    fn binding(&self, d: &mut Draft<'_>, opened: u32) -> Result<Tree, ReadFault>
        requires { form d.old.cursor ≢ close }
        ensures reads { IsRead self.now.funs.now self.now.others.now (drop 1 d.old.cursor) (binding_rest (context d.old.scope opened) d.old.names) d.new result }
        ensures keeps { IfOk result (Keeps self.now.funs.now d.old d.new) }
    {
        d.cursor.advance();
        let x = d.name_before(self.alloc, "=")?;
        let (a, b) = self.scoped(d, opened, Bound::One(x))?;
        Ok(Tree::binding(self.alloc, a, b)?)
    }

    // A loop, from `loop` on.
    #[cycle(expression)]
    fn looping(&self, d: &mut Draft<'_>, opened: u32) -> Result<Tree, ReadFault>
        requires { form d.old.cursor ≢ close }
        ensures reads { IsRead self.now.funs.now self.now.others.now (drop 1 d.old.cursor) (looping_rest (context d.old.scope opened) d.old.names) d.new result }
        ensures keeps { IfOk result (Keeps self.now.funs.now d.old d.new) }
    {
        d.cursor.advance();
        let i = d.name_before(self.alloc, "below")?;
        let n = self.expr_before(d, opened, ",")?;
        let a = d.second_name_before(self.alloc, i, "=")?;
        let (s, e) = self.scoped(d, opened, Bound::Two(i, a))?;
        Ok(Tree::looping(self.alloc, n, s, e)?)
    }

    // Operands with operators of this level, or of those that bind more tightly, between them.
    #[cycle(expression)]
    fn operation(&self, d: &mut Draft<'_>, level: Level, opened: u32) -> Result<Tree, ReadFault>
        ensures reads { IsRead self.now.funs.now self.now.others.now d.old.cursor (operand level (context d.old.scope opened) d.old.names) d.new result }
        ensures keeps { IfOk result (Keeps self.now.funs.now d.old d.new) }
    {
        let mut left = match level {
            Level::Unary => return self.unary(d, opened),
            _ => self.operation(d, level.tighter(), opened)?,
        };
        while let Some(op) = level.operator(&d.cursor) {
            d.cursor.advance();
            let right = self.operation(d, level.tighter(), opened)?;
            left = Tree::binary(self.alloc, op, left, right)?;
            if let Level::Comparison = level {
                return Ok(left);
            }
        }
        Ok(left)
    }

    // An operand of no operator between two.
    #[cycle(expression)]
    fn unary(&self, d: &mut Draft<'_>, opened: u32) -> Result<Tree, ReadFault>
        ensures reads { IsRead self.now.funs.now self.now.others.now d.old.cursor (operand level.Unary (context d.old.scope opened) d.old.names) d.new result }
        ensures keeps { IfOk result (Keeps self.now.funs.now d.old d.new) }
    {
        match First::of(&d.cursor) {
            First::If | First::Let | First::Loop | First::Nothing => Err(d.cursor.unexpected()),
            _ if opened >= MOST_OPENED => Err(d.cursor.refusal(Kind::Deep)),
            First::Minus => {
                d.cursor.advance();
                let a = self.unary(d, opened + 1)?;
                Ok(Tree::minus(self.alloc, a)?)
            }
            First::Not => {
                d.cursor.advance();
                let a = self.unary(d, opened + 1)?;
                Ok(Tree::opposite(self.alloc, a)?)
            }
            First::Pair(op) => self.pair(d, op, opened + 1),
            First::Parenthesis => {
                d.cursor.advance();
                self.expr_before(d, opened + 1, ")")
            }
            First::Call => {
                let callee = self.callee(d)?;
                self.call(d, callee, opened + 1)
            }
            First::Variable => d.variable(),
            First::Number => Ok(d.number()),
        }
    }

    // Two expressions in parentheses, from `min` or `max` on.
    #[cycle(expression)]
    fn pair(&self, d: &mut Draft<'_>, op: BinOp, opened: u32) -> Result<Tree, ReadFault>
        requires { form d.old.cursor ≢ close }
        ensures reads { IsRead self.now.funs.now self.now.others.now (drop 1 d.old.cursor) (pair_rest op (context d.old.scope opened) d.old.names) d.new result }
        ensures keeps { IfOk result (Keeps self.now.funs.now d.old d.new) }
    {
        d.cursor.advance();
        d.cursor.expect("(")?;
        let a = self.expr_before(d, opened, ",")?;
        let b = self.expr_before(d, opened, ")")?;
        Ok(Tree::binary(self.alloc, op, a, b)?)
    }

    // The arguments of a call.
    #[cycle(expression)]
    fn call(&self, d: &mut Draft<'_>, callee: Callee, opened: u32) -> Result<Tree, ReadFault>
        requires { IsCallee self.now.funs.now callee }
        ensures reads { IsRead self.now.funs.now self.now.others.now d.old.cursor (call_rest (callee_of callee) (context d.old.scope opened) d.old.names) d.new result }
        ensures keeps { IfOk result (Keeps self.now.funs.now d.old d.new) }
    {
        d.cursor.expect("(")?;
        let mut args = Trees::new(self.alloc);
        args.push(self.expr(d, opened)?)?;
        while d.cursor.take(",") {
            args.push(self.expr(d, opened)?)?;
        }
        self.end_call(d, callee, args)
    }
}
