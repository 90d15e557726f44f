// Calls of functions.

ghost use Rattle.std.specs.Prelude.{◌≡◌, ◌≤◌, length, drop, position, OnOk, IfOk, false, if◌then◌else◌, codes};
ghost use Rattle.std.specs.Str.{bytes_eq};
ghost use Rattle.msl_lex.specs.declared.kind.Kind.TheVariants as kind;
ghost use Rattle.msl_fun_read.specs.declared.parse.first.First.TheVariants as first;
ghost use Rattle.msl_base.specs.Names.{is_among};
ghost use Rattle.msl_fun.specs.Checks.{names_of};
ghost use Rattle.msl_read.specs.Reading.{place, failing, says};
ghost use Rattle.msl_read.specs.Front.{form, form_behind};
ghost use Rattle.msl_fun_read.specs.Grammar.{Context, first_in, callee_tests, fun_at, arguments, all_of, call_of};
ghost use Rattle.msl_read.specs.Front.{word_in};
ghost use Rattle.msl_base.specs.Names.{place_among};
ghost use Rattle.msl_fun_read.specs.Parsing.{IsRead};
ghost use Rattle.msl_fun_read.specs.Calls.{IsCallee, callee_of};
ghost use Rattle.msl_read.specs.Refusals.{IsTested};

use crate::parse::declared::Declared;
use crate::parse::draft::Draft;
use crate::parse::tree::{Tree, Trees};
use msl_base::limits::MOST_RANK;
use msl_base::position_among;
use msl_lex::Kind;
use msl_read::ReadFault;

// A function that is called: its place among the functions, where its name stands, and how many parameters it has.
#[derive(Clone, Copy)]
pub struct Callee {
    pub fun: u32,
    pub at: u32,
    pub params: usize,
}

impl Declared<'_> {
    // The name of a function that may be called.
    pub fn callee(&self, d: &mut Draft<'_>) -> Result<Callee, ReadFault>
        requires { first_in (form d.old.cursor) (form_behind d.old.cursor) ≡ first.Call }
        ensures tests { IsTested (failing (callee_tests self.now.funs.now self.now.others.now (place d.old.cursor) (word_in (form d.old.cursor)))) result }
        ensures callee { IfOk result (λ c. IsCallee self.now.funs.now c × (callee_of c ≡ record { fun = fun_at self.now.funs.now self.now.others.now (word_in (form d.old.cursor)); at = place d.old.cursor })) }
        ensures taken { OnOk result (d.new.cursor ≡ drop 1 d.old.cursor) }
        ensures scope { d.new.scope ≡ d.old.scope }
        ensures names { d.new.names ≡ d.old.names }
    {
        let at = d.cursor.place();
        let Some(name) = d.cursor.name() else {
            unreachable!()
        };
        let Some(fun) = self.funs.find(name) else {
            return Err(ReadFault::At(self.unknown(name), at));
        };
        if self.funs.rank(fun) >= MOST_RANK {
            return Err(ReadFault::At(Kind::Deep, at));
        }
        let (params, results) = self.funs.muscle(fun).widths();
        if results != 1 {
            return Err(ReadFault::At(Kind::Width, at));
        }
        d.cursor.advance();
        Ok(Callee { fun, at, params })
    }

    // Why a name that is no function's can't be called.
    fn unknown(&self, name: &str) -> Kind
        ensures { result ≡ (if is_among self.now.others.now name.now then kind.WrongKind else kind.Unknown) }
    {
        if position_among(self.others, name).is_some() {
            Kind::WrongKind
        } else {
            Kind::Unknown
        }
    }

    // The end of a call.
    pub fn end_call(
        &self,
        d: &mut Draft<'_>,
        callee: Callee,
        args: Trees,
    ) -> Result<Tree, ReadFault>
        requires callee { IsCallee self.now.funs.now callee }
        requires ended { says (codes ",") (form d.old.cursor) ≡ false }
        ensures reads { (c : Context) → IsRead self.now.funs.now self.now.others.now d.old.cursor (arguments (callee_of callee) c d.old.names args) d.new result }
        ensures tree { IfOk result (λ t. (t ≡ call_of callee.fun (all_of args)) × (length args ≡ callee.params)) }
        ensures scope { d.new.scope ≡ d.old.scope }
        ensures names { d.new.names ≡ d.old.names }
        ensures shorter { length d.new.cursor ≤ length d.old.cursor }
    {
        if !d.cursor.says(")") {
            return Err(d.cursor.unexpected());
        }
        if args.len() != callee.params {
            return Err(ReadFault::At(Kind::Width, callee.at));
        }
        d.cursor.advance();
        Ok(Tree::call(self.alloc, callee.fun, args)?)
    }
}
