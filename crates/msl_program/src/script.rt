ghost use Rattle.std.specs.Prelude.{◌≡◌, All};
ghost use Rattle.msl_program.specs.Fitting.{IsWhole};
ghost use Rattle.msl_program.specs.Known.{made_of};
ghost use Rattle.msl_program.specs.Promises.{FilterFits, DivConFits, SearchFits};
ghost use Rattle.msl_program.specs.ProgramPromise.{ProgramFits};
ghost use Rattle.msl_program.specs.ScriptPromise.{IsMain, IsScript};

use crate::data::DataProgs;
use crate::stage::Stage;
use msl_base::{Name, Small};
use msl_fun::Funs;
use sqlite_items::Items;
use std::marker::Model;

/// A filter: the 1 to 8 numbers of its first state, and its functions by their places among the functions.
#[derive(Drop)]
pub struct FilterSpec {
    pub name: Name,
    pub state: Small,
    pub count: u32,
    pub item: u32,
    pub next: u32,
    pub flush: u32,
    pub last: u32,
}

/// Filters in the order of their definition.
pub type FilterSpecs = Items<FilterSpec>;

/// A division: into how many parts, 2 to 16; up to which depth, 0 to 64, parts may be given to other members, which
/// changes no value; and its functions by their places among the functions.
#[derive(Drop)]
pub struct DivCon {
    pub name: Name,
    pub parts: u32,
    pub cutoff: u32,
    pub simple: u32,
    pub solve: u32,
    pub divide: u32,
    pub combine: u32,
}

/// Divisions in the order of their definition.
pub type DivCons = Items<DivCon>;

/// A search: its functions by their places among the functions.
#[derive(Drop)]
pub struct BnbSpec {
    pub name: Name,
    pub bound: u32,
    pub solved: u32,
    pub value: u32,
    pub count: u32,
    pub branch: u32,
}

/// Searches in the order of their definition.
pub type BnbSpecs = Items<BnbSpec>;

/// What an item of a script defines.
#[derive(Clone, Copy)]
pub enum ItemKind {
    /// A function.
    Fun,
    /// A data program.
    Data,
    /// A filter.
    Filter,
    /// A division.
    DivCon,
    /// A search.
    Bnb,
}

/// The kinds of a script's items, in the order of the text.
pub type ItemKinds = Items<ItemKind>;

/// The definitions of a script by their kinds, and the order in which they stand.
#[derive(Drop)]
pub struct Definitions {
    pub funs: Funs,
    pub datas: DataProgs,
    pub filters: FilterSpecs,
    pub divcons: DivCons,
    pub bnbs: BnbSpecs,
    pub order: ItemKinds,
}

// The version of the language.
const VERSION: u32 = 1;

/// A script, which keeps all rules of the language: its definitions by their kinds, the order in which they stand, and
/// the stage that a stream goes through.
#[derive(Drop)]
pub struct Script {
    version: u32,
    funs: Funs,
    datas: DataProgs,
    filters: FilterSpecs,
    divcons: DivCons,
    bnbs: BnbSpecs,
    order: ItemKinds,
    main: Stage,
}

impl Model for Script {
    ghost use Rattle.std.specs.Coded.{codes};
    ghost use Rattle.msl_fun.specs.contracts.expr.Expr as e;
    ghost use Rattle.msl_program.specs.contracts.stage.Stage as st;
    ghost use Rattle.msl_program.specs.Script as parts;

    ghost Value = { parts.Script };

    ghost coded = { Prim.hlevel (codes, e.the_row.coded, st.the_row.coded) };

    ghost use Rattle.msl_program.specs.ScriptPromise.{IsScript};

    ghost view = { λ s. record { version = s.version; funs = s.funs; datas = s.datas; filters = s.filters; divcons = s.divcons; bnbs = s.bnbs; order = s.order; main = s.main } };

    ghost invariant = { λ s. IsScript (record { version = s.version; funs = s.funs; datas = s.datas; filters = s.filters; divcons = s.divcons; bnbs = s.bnbs; order = s.order; main = s.main }) };
}

impl Script {
    /// The script of these definitions and this main stage, which keep all rules of the language.
    pub fn new(definitions: Definitions, main: Stage) -> Script
        requires { IsScript (made_of definitions main) }
        ensures { result ≡ made_of definitions main }
    {
        Script {
            version: VERSION,
            funs: definitions.funs,
            datas: definitions.datas,
            filters: definitions.filters,
            divcons: definitions.divcons,
            bnbs: definitions.bnbs,
            order: definitions.order,
            main,
        }
    }

    /// Keeps all rules of the language.
    pub fn keeps_rules(&self)
        ensures { IsScript self.now }
    {
        // What the type promises is known where a field is used.
        let _ = &self.version;
    }

    /// The version of the language, which is 1.
    pub fn version(&self) -> u32
        ensures version { result ≡ self.now.version }
        ensures promise { IsScript self.now }
    {
        self.version
    }

    /// The functions, in order.
    pub fn funs(&self) -> &Funs
        ensures { result.now ≡ self.now.funs }
    {
        &self.funs
    }

    /// The data programs, in order. Each fits the functions.
    pub fn datas(&self) -> &DataProgs
        ensures datas { result.now ≡ self.now.datas }
        ensures fit { All (ProgramFits self.now.funs) self.now.datas }
    {
        &self.datas
    }

    /// The filters, in order. Each fits the functions.
    pub fn filters(&self) -> &FilterSpecs
        ensures filters { result.now ≡ self.now.filters }
        ensures fit { All (FilterFits self.now.funs) self.now.filters }
    {
        &self.filters
    }

    /// The divisions, in order. Each fits the functions.
    pub fn divcons(&self) -> &DivCons
        ensures divcons { result.now ≡ self.now.divcons }
        ensures fit { All (DivConFits self.now.funs) self.now.divcons }
    {
        &self.divcons
    }

    /// The searches, in order. Each fits the functions.
    pub fn bnbs(&self) -> &BnbSpecs
        ensures bnbs { result.now ≡ self.now.bnbs }
        ensures fit { All (SearchFits self.now.funs) self.now.bnbs }
    {
        &self.bnbs
    }

    /// The kinds of all definitions, as they stand in the text.
    pub fn order(&self) -> &ItemKinds
        ensures { result.now ≡ self.now.order }
    {
        &self.order
    }

    /// The stage that a stream goes through. It names only what is there, and keeps the limits of the language.
    pub fn main(&self) -> &Stage
        ensures main { result.now ≡ self.now.main }
        ensures whole { IsWhole self.now }
        ensures bounded { IsMain self.now.main }
    {
        &self.main
    }
}
