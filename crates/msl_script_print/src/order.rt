// The items of a script, one by one in their order.

ghost use Rattle.std.specs.Prelude.{◌≡◌, [], ◌∷◌, List, MatchOption};
ghost use Rattle.msl_script_print.specs.Words.{behind, item_at};
ghost use Rattle.msl_script_print.specs.ScriptText.{in_order};
ghost use Rattle.msl_program.specs.declared.script.ItemKind.{ItemKind};

use msl_fun::Fun;
use msl_program::{BnbSpec, DataProg, DivCon, FilterSpec, ItemKind, Script};

// An item of a script.
#[derive(Clone, Copy)]
pub enum ItemRef<'a> {
    Fun(&'a Fun),
    Data(&'a DataProg),
    Filter(&'a FilterSpec),
    DivCon(&'a DivCon),
    Bnb(&'a BnbSpec),
}

// The items that are still to come, by their kinds.
#[derive(Drop)]
pub struct Others<'a> {
    pub funs: &'a [Fun],
    pub datas: &'a [DataProg],
    pub filters: &'a [FilterSpec],
    pub divcons: &'a [DivCon],
    pub bnbs: &'a [BnbSpec],
}

impl<'a> Others<'a> {
    pub fn of(s: &'a Script) -> Others<'a>
        ensures { (ks : List ItemKind) → behind ks result ≡ in_order ks s.now.funs s.now.datas s.now.filters s.now.divcons s.now.bnbs }
    {
        Others {
            funs: s.funs().as_slice(),
            datas: s.datas().as_slice(),
            filters: s.filters().as_slice(),
            divcons: s.divcons().as_slice(),
            bnbs: s.bnbs().as_slice(),
        }
    }

    // The next item, which is of this kind.
    pub fn next(&mut self, kind: ItemKind) -> Option<ItemRef<'a>>
        ensures { (ks : List ItemKind) → MatchOption result (behind (kind ∷ ks) self.old ≡ []) (λ i. behind (kind ∷ ks) self.old ≡ item_at i ∷ behind ks self.new) }
    {
        match kind {
            ItemKind::Fun => {
                let (first, others) = self.funs.split_first()?;
                self.funs = others;
                Some(ItemRef::Fun(first))
            }
            ItemKind::Data => {
                let (first, others) = self.datas.split_first()?;
                self.datas = others;
                Some(ItemRef::Data(first))
            }
            ItemKind::Filter => {
                let (first, others) = self.filters.split_first()?;
                self.filters = others;
                Some(ItemRef::Filter(first))
            }
            ItemKind::DivCon => {
                let (first, others) = self.divcons.split_first()?;
                self.divcons = others;
                Some(ItemRef::DivCon(first))
            }
            ItemKind::Bnb => {
                let (first, others) = self.bnbs.split_first()?;
                self.bnbs = others;
                Some(ItemRef::Bnb(first))
            }
        }
    }
}
