// The names of a function while it is read.

ghost use Rattle.std.specs.Prelude.{◌≡◌, ◌+◌, ◌-◌, ◌<◌, ◌≤◌, ◌++◌, ◌∷◌, [], length, drop, take, Some, MatchResult, OnOk, pos};
ghost use Rattle.msl_base.specs.declared.limits.TheConstants.{GREATEST_NUMBER, MOST_NAMES};
ghost use Rattle.msl_fun_read.specs.declared.parse.first.First.TheVariants as first;
ghost use Rattle.msl_fun.specs.declared.expr.Expr.TheVariants.{Lit};
ghost use Rattle.msl_read.specs.Front.{form, form_behind, IsNumber};
ghost use Rattle.msl_base.specs.Names.{place_among};
ghost use Rattle.msl_fun_read.specs.Grammar.{first_in};
ghost use Rattle.msl_read.specs.Front.{number_in};
ghost use Rattle.msl_fun_read.specs.Naming.{NamesNew, IsNoName, NamesVariable, IsUnknown};
ghost use Rattle.msl_fun_read.specs.Binding.{BindsName, BindsNone, names_in};

use crate::parse::draft::{Bound, Draft};
use crate::parse::tree::Tree;
use msl_base::limits::MOST_NAMES;
use msl_base::{Name, NoMemory, position_among};
use msl_fun::Expr;
use msl_lex::Kind;
use msl_read::ReadFault;
use std::alloc::Global;

impl<'a> Draft<'a> {
    // A name that `let` or `loop` binds: no variable in scope, of which there are not too many.
    pub fn new_name(&mut self, alloc: Global) -> Result<&'a str, ReadFault>
        ensures name { MatchResult result (λ n. NamesNew self.old self.new n.now) (IsNoName self.old) }
    {
        let Some(name) = self.cursor.name() else {
            return Err(self.cursor.unexpected());
        };
        if self.scope.len() >= MOST_NAMES {
            return Err(self.cursor.refusal(Kind::Many));
        }
        if position_among(self.scope.as_slice(), name).is_some() {
            return Err(self.cursor.refusal(Kind::Twice));
        }
        self.names.push(Name::of(alloc, name)?)?;
        self.cursor.advance();
        Ok(name)
    }

    // Such a name, and this quoted text behind it.
    pub fn name_before(&mut self, alloc: Global, text: &str) -> Result<&'a str, ReadFault>
        ensures { MatchResult result (λ n. BindsName self.old.scope text.now self.old self.new n.now) (BindsNone self.old.scope text.now self.old) }
    {
        let name = self.new_name(alloc)?;
        self.cursor.expect(text)?;
        Ok(name)
    }

    // The second name that a `loop` binds, beside the first, and this quoted text behind it.
    pub fn second_name_before(
        &mut self,
        alloc: Global,
        first: &str,
        text: &str,
    ) -> Result<&'a str, ReadFault>
        requires { length self.old.scope < MOST_NAMES }
        ensures { MatchResult result (λ n. BindsName (self.old.scope ++ first.now ∷ []) text.now self.old self.new n.now) (BindsNone (self.old.scope ++ first.now ∷ []) text.now self.old) }
    {
        self.enter_one(alloc, first)?;
        let name = self.new_name(alloc)?;
        self.leave_one();
        self.cursor.expect(text)?;
        Ok(name)
    }

    // The variable that the first token names.
    pub fn variable(&mut self) -> Result<Tree, ReadFault>
        requires { first_in (form self.old.cursor) (form_behind self.old.cursor) ≡ first.Variable }
        ensures { MatchResult result (λ t. NamesVariable self.old self.new t) (IsUnknown self.old) }
    {
        let Some(name) = self.cursor.name() else {
            unreachable!()
        };
        match position_among(self.scope.as_slice(), name) {
            Some(at) => {
                self.cursor.advance();
                Ok(Tree::leaf(Expr::Slot(at as u32)))
            }
            None => Err(self.cursor.refusal(Kind::Unknown)),
        }
    }

    // The number that the first token is.
    pub fn number(&mut self) -> Tree
        requires { IsNumber (form self.old.cursor) }
        ensures tree { result ≡ Some (Lit (pos (number_in (form self.old.cursor)))) }
        ensures few { number_in (form self.old.cursor) ≤ GREATEST_NUMBER }
        ensures cursor { self.new.cursor ≡ drop 1 self.old.cursor }
        ensures scope { self.new.scope ≡ self.old.scope }
        ensures names { self.new.names ≡ self.old.names }
    {
        let value = self.cursor.number();
        self.cursor.advance();
        Tree::leaf(Expr::Lit(value))
    }

    // A variable comes into scope.
    pub fn enter_one(&mut self, alloc: Global, name: &str) -> Result<(), NoMemory>
        requires { length self.old.scope < MOST_NAMES }
        ensures scope { OnOk result (self.new.scope ≡ self.old.scope ++ name.now ∷ []) }
        ensures cursor { self.new.cursor ≡ self.old.cursor }
        ensures names { self.new.names ≡ self.old.names }
    {
        self.scope.push(Name::of(alloc, name)?)?;
        Ok(())
    }

    // The last variable goes out of scope.
    fn leave_one(&mut self)
        ensures scope { self.new.scope ≡ take (length self.old.scope - 1) self.old.scope }
        ensures cursor { self.new.cursor ≡ self.old.cursor }
        ensures names { self.new.names ≡ self.old.names }
    {
        self.scope.pop();
    }

    // These variables come into scope.
    pub fn enter(&mut self, alloc: Global, bound: Bound<'_>) -> Result<(), NoMemory>
        requires { length self.old.scope + length (names_in bound) ≤ MOST_NAMES }
        ensures scope { OnOk result (self.new.scope ≡ self.old.scope ++ names_in bound.entry) }
        ensures cursor { self.new.cursor ≡ self.old.cursor }
        ensures names { self.new.names ≡ self.old.names }
    {
        match bound {
            Bound::One(name) => self.enter_one(alloc, name),
            Bound::Two(first, second) => {
                self.enter_one(alloc, first)?;
                self.enter_one(alloc, second)
            }
        }
    }

    // As many variables as these, the last, go out of scope.
    pub fn leave(&mut self, bound: Bound<'_>)
        ensures scope { self.new.scope ≡ take (length self.old.scope - length (names_in bound.entry)) self.old.scope }
        ensures cursor { self.new.cursor ≡ self.old.cursor }
        ensures names { self.new.names ≡ self.old.names }
    {
        self.leave_one();
        if let Bound::Two(..) = bound {
            self.leave_one();
        }
    }
}
