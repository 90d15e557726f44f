// How the definitions of a script grow while it is read.

ghost use Rattle.std.specs.Prelude.{◌≡◌, ◌<◌, length, OnOk};
ghost use Rattle.msl_fun.specs.Checks.{MayFollow};
ghost use Rattle.msl_program.specs.Known.{nothing_known, with_bnb, with_data, with_divcon, with_filter, with_fun};
ghost use Rattle.msl_program.specs.Known.{script_of};
ghost use Rattle.msl_program.specs.ScriptPromise.{IsScript};

use crate::known::Known;
use msl_base::{Name, NoMemory};
use msl_fun::{Fun, Funs, Names};
use msl_program::{
    BnbSpec, BnbSpecs, DataProg, DataProgs, Definitions, DivCon, DivCons, FilterSpec, FilterSpecs,
    ItemKind, ItemKinds, Script, Stage,
};
use std::alloc::Global;

impl Known {
    /// No definition.
    pub fn new(alloc: Global) -> Known
        ensures { result ≡ nothing_known }
    {
        Known {
            funs: Funs::new(alloc),
            datas: DataProgs::new(alloc),
            filters: FilterSpecs::new(alloc),
            divcons: DivCons::new(alloc),
            bnbs: BnbSpecs::new(alloc),
            order: ItemKinds::new(alloc),
            others: Names::new(alloc),
        }
    }

    /// The script of these definitions with this main stage.
    pub fn with_main(self, main: Stage) -> Script
        requires { IsScript (script_of self main) }
        ensures { result ≡ script_of self main }
    {
        let definitions = Definitions {
            funs: self.funs,
            datas: self.datas,
            filters: self.filters,
            divcons: self.divcons,
            bnbs: self.bnbs,
            order: self.order,
        };
        Script::new(definitions, main)
    }

    /// One function more.
    pub fn add_fun(&mut self, f: Fun) -> Result<(), NoMemory>
        requires { MayFollow self.old.funs f }
        ensures { OnOk result (self.new ≡ with_fun self.old f) }
    {
        self.funs.add(f)?;
        self.order.push(ItemKind::Fun)?;
        Ok(())
    }

    /// One data program more.
    pub fn add_data(&mut self, alloc: Global, d: DataProg) -> Result<(), NoMemory>
        ensures { OnOk result (self.new ≡ with_data self.old d) }
    {
        self.others.push(Name::of(alloc, d.name.as_str())?)?;
        self.datas.push(d)?;
        self.order.push(ItemKind::Data)?;
        Ok(())
    }

    /// One filter more.
    pub fn add_filter(&mut self, alloc: Global, f: FilterSpec) -> Result<(), NoMemory>
        ensures { OnOk result (self.new ≡ with_filter self.old f) }
    {
        self.others.push(Name::of(alloc, f.name.as_str())?)?;
        self.filters.push(f)?;
        self.order.push(ItemKind::Filter)?;
        Ok(())
    }

    /// One division more.
    pub fn add_divcon(&mut self, alloc: Global, d: DivCon) -> Result<(), NoMemory>
        ensures { OnOk result (self.new ≡ with_divcon self.old d) }
    {
        self.others.push(Name::of(alloc, d.name.as_str())?)?;
        self.divcons.push(d)?;
        self.order.push(ItemKind::DivCon)?;
        Ok(())
    }

    /// One search more.
    pub fn add_bnb(&mut self, alloc: Global, b: BnbSpec) -> Result<(), NoMemory>
        ensures { OnOk result (self.new ≡ with_bnb self.old b) }
    {
        self.others.push(Name::of(alloc, b.name.as_str())?)?;
        self.bnbs.push(b)?;
        self.order.push(ItemKind::Bnb)?;
        Ok(())
    }
}
