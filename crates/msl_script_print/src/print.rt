ghost use Rattle.std.specs.Prelude.{◌≡◌, [], ◌∷◌, ◌++◌, OnOk, IfOk};
ghost use Rattle.msl_lex.specs.Printing.{text_of};
ghost use Rattle.msl_fun_print.specs.FunText.{fun_bits};
ghost use Rattle.msl_script_print.specs.ScriptText.{item_bits, items_bits, items_of, line_end, script_bits};
ghost use Rattle.msl_script_print.specs.Words.{Prints, headline, item_at, mainline};

use crate::order::{ItemRef, Others};
use crate::printer::{Printer, Word};
use msl_base::{ListOf, NoMemory};
use msl_fun::Fun;
use msl_fun_print::fun_text;
use msl_program::Script;
use std::alloc::Global;

/// The text of a script in its canonical form: an item or a clause on each line, and one space between words. It fails
/// for want of memory alone.
pub fn print_script(alloc: Global, s: &Script) -> Result<ListOf<u8>, NoMemory>
    ensures { IfOk result (λ t. t ≡ text_of (script_bits s.now)) }
{
    let mut p = Printer::new(alloc);
    p.version(s.version())?;
    p.items(alloc, s)?;
    p.main(s)?;
    Ok(p.into_text())
}

impl Printer {
    fn version(&mut self, version: u32) -> Result<(), NoMemory>
        ensures { OnOk result (Prints self.old (headline version) self.new) }
    {
        self.words(&[Word::Text("muesli"), Word::Number(version)])?;
        self.put(b";\n")
    }

    fn items(&mut self, alloc: Global, s: &Script) -> Result<(), NoMemory>
        ensures { OnOk result (Prints self.old (items_bits s.now.funs (items_of s.now)) self.new) }
    {
        let funs = s.funs().as_slice();
        let mut others = Others::of(s);
        for kind in s.order().as_slice() {
            let Some(item) = others.next(*kind) else {
                return Ok(());
            };
            self.item(alloc, funs, item)?;
        }
        Ok(())
    }

    fn item(&mut self, alloc: Global, funs: &[Fun], item: ItemRef<'_>) -> Result<(), NoMemory>
        ensures { OnOk result (Prints self.old (item_bits funs.now (item_at item.entry)) self.new) }
    {
        match item {
            ItemRef::Fun(f) => self.fun(alloc, funs, f),
            ItemRef::Data(d) => self.data(funs, d),
            ItemRef::Filter(f) => self.filter(funs, f),
            ItemRef::DivCon(d) => self.divcon(funs, d),
            ItemRef::Bnb(b) => self.bnb(funs, b),
        }
    }

    fn fun(&mut self, alloc: Global, funs: &[Fun], f: &Fun) -> Result<(), NoMemory>
        ensures { OnOk result (Prints self.old (fun_bits funs.now f.now ++ line_end ∷ []) self.new) }
    {
        let text = fun_text(alloc, funs, f)?;
        self.put(&text)?;
        self.put(b"\n")
    }

    fn main(&mut self, s: &Script) -> Result<(), NoMemory>
        ensures { OnOk result (Prints self.old (mainline s.now) self.new) }
    {
        self.put(b"main = ")?;
        self.stage(s, s.main())?;
        self.put(b";\n")
    }
}
