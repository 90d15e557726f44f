// The definitions of a script while it is read, and the names of them.

ghost use Rattle.std.specs.Prelude.{◌≡◌, ◌&&◌, ◌<◌, ◌≤◌, IsTrue, false, length, IfOk, if◌then◌else◌};
ghost use Rattle.msl_base.specs.declared.limits.TheConstants.{MOST_PARAMS, MOST_RESULTS};
ghost use Rattle.msl_lex.specs.declared.kind.Kind.TheVariants as kind;
ghost use Rattle.msl_lex.specs.Names.{is_name};
ghost use Rattle.msl_base.specs.Names.{place_among};
ghost use Rattle.msl_fun.specs.Checks.{names_of};
ghost use Rattle.msl_grammar.specs.Following.{IsRead};
ghost use Rattle.msl_program.specs.Widths.{IsFunction, allows};
ghost use Rattle.msl_program.specs.Known.{is_declared};
ghost use Rattle.msl_fun.specs.Meaning.{params_of, results_of};
ghost use Rattle.msl_grammar.specs.ScriptGrammar as grammar;

use crate::token::quoted;
use msl_base::{Name, position_among};
use msl_fun::{Funs, Names};
use msl_lex::Kind;
use msl_program::{
    BnbSpec, BnbSpecs, DataProg, DataProgs, DivCon, DivCons, FilterSpec, FilterSpecs, ItemKinds,
    Width,
};
use msl_read::{Cursor, ReadFault};
use std::alloc::Global;
use std::marker::Model;

/// The definitions so far, by their kinds and in their order, and the names of those that are no functions.
#[derive(Drop)]
pub struct Known {
    pub(crate) funs: Funs,
    pub(crate) datas: DataProgs,
    pub(crate) filters: FilterSpecs,
    pub(crate) divcons: DivCons,
    pub(crate) bnbs: BnbSpecs,
    pub(crate) order: ItemKinds,
    pub(crate) others: Names,
}

impl Model for Known {
    ghost use Rattle.std.specs.Coded.{codes};
    ghost use Rattle.msl_fun.specs.contracts.expr.Expr as e;
    ghost use Rattle.msl_program.specs.Known as parts;

    ghost Value = { parts.Known };

    ghost coded = { Prim.hlevel (codes, e.the_row.coded) };

    ghost view = { λ m. record { funs = m.funs; datas = m.datas; filters = m.filters; divcons = m.divcons; bnbs = m.bnbs; order = m.order; others = m.others } };
}

impl Known {
    /// The functions.
    pub fn funs(&self) -> &Funs
        ensures { result.now ≡ self.now.funs }
    {
        &self.funs
    }

    /// The data programs.
    pub fn datas(&self) -> &[DataProg]
        ensures { result.now ≡ self.now.datas }
    {
        self.datas.as_slice()
    }

    /// The filters.
    pub fn filters(&self) -> &[FilterSpec]
        ensures { result.now ≡ self.now.filters }
    {
        self.filters.as_slice()
    }

    /// The divisions.
    pub fn divcons(&self) -> &[DivCon]
        ensures { result.now ≡ self.now.divcons }
    {
        self.divcons.as_slice()
    }

    /// The searches.
    pub fn bnbs(&self) -> &[BnbSpec]
        ensures { result.now ≡ self.now.bnbs }
    {
        self.bnbs.as_slice()
    }

    /// The names of all definitions that are no functions.
    pub fn others(&self) -> &[Name]
        ensures { result.now ≡ self.now.others }
    {
        self.others.as_slice()
    }

    /// The place of the function of a name.
    pub fn find(&self, name: &str) -> Option<u32>
        ensures { result ≡ place_among (names_of self.now.funs) name.now }
    {
        self.funs.find(name)
    }

    /// Whether a name is declared.
    pub fn declares(&self, name: &str) -> bool
        ensures { result ≡ is_declared self.now name.now }
    {
        self.find(name).is_some() || position_among(self.others(), name).is_some()
    }

    /// Why a name is none of the kind that is needed.
    pub fn unknown(&self, name: &str) -> Kind
        ensures { result ≡ (if is_declared self.now name.now then kind.WrongKind else kind.Unknown) }
    {
        if self.declares(name) {
            Kind::WrongKind
        } else {
            Kind::Unknown
        }
    }

    /// A name that is not declared yet.
    pub fn fresh(&self, alloc: Global, c: &mut Cursor<'_>) -> Result<Name, ReadFault>
        ensures read { IsRead c.old (grammar.fresh self.now) c.new result }
        ensures is { IfOk result (λ n. IsTrue (is_name n) × (is_declared self.now n ≡ false)) }
        ensures shorter { length c.new ≤ length c.old }
    {
        let Some(name) = c.name() else {
            return Err(c.unexpected());
        };
        if self.declares(name) {
            return Err(c.refusal(Kind::Twice));
        }
        let name = Name::of(alloc, name)?;
        c.advance();
        Ok(name)
    }

    /// A function with so many parameters and results.
    pub fn function(
        &self,
        c: &mut Cursor<'_>,
        params: Width,
        results: Width,
    ) -> Result<u32, ReadFault>
        ensures read { IsRead c.old (grammar.a_function self.now params results) c.new result }
        ensures is { IfOk result (IsFunction self.now.funs params results) }
        ensures shorter { length c.new ≤ length c.old }
    {
        let Some(name) = c.name() else {
            return Err(c.unexpected());
        };
        let Some(fun) = self.find(name) else {
            return Err(c.refusal(self.unknown(name)));
        };
        if !self.fits(fun, params, results) {
            return Err(c.refusal(Kind::Width));
        }
        c.advance();
        Ok(fun)
    }

    fn fits(&self, f: u32, params: Width, results: Width) -> bool
        requires { f < length self.now.funs }
        ensures { result ≡ (allows params (params_of self.now.funs f) && allows results (results_of self.now.funs f)) }
    {
        params.allows(self.params(f)) && results.allows(self.results(f))
    }

    /// A word, such a function and `;`.
    pub fn clause(
        &self,
        c: &mut Cursor<'_>,
        word: &str,
        params: Width,
        results: Width,
    ) -> Result<u32, ReadFault>
        ensures read { IsRead c.old (grammar.clause self.now word.now params results) c.new result }
        ensures is { IfOk result (IsFunction self.now.funs params results) }
        ensures shorter { length c.new ≤ length c.old }
    {
        quoted(c, word)?;
        let f = self.function(c, params, results)?;
        quoted(c, ";")?;
        Ok(f)
    }

    /// How many parameters a function has.
    pub fn params(&self, f: u32) -> usize
        requires { f < length self.now.funs }
        ensures params { result ≡ params_of self.now.funs f }
        ensures few { result ≤ MOST_PARAMS }
    {
        self.funs.muscle(f).widths().0
    }

    /// How many results a function has.
    pub fn results(&self, f: u32) -> usize
        requires { f < length self.now.funs }
        ensures results { result ≡ results_of self.now.funs f }
        ensures few { result ≤ MOST_RESULTS }
    {
        self.funs.muscle(f).widths().1
    }
}
