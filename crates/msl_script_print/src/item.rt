// The text of filters, divisions and searches.

ghost use Rattle.std.specs.Prelude.{◌≡◌, [], map, slice_index_or, OnOk};
ghost use Rattle.msl_fun.specs.Checks.{names_of};
ghost use Rattle.msl_fun_print.specs.FunText.{listed};
ghost use Rattle.msl_script_print.specs.ScriptText.{bnb_bits, divcon_bits, filter_bits, integer, name_at};
ghost use Rattle.msl_script_print.specs.Words.{Prints, function_clause};

use crate::printer::{Printer, Word};
use msl_base::{Named, NoMemory};
use msl_fun::Fun;
use msl_program::{BnbSpec, DivCon, FilterSpec};

// The name of a definition at a place. It is none past the end, where no place of a script is: its type keeps that each
// definition that it names is there.
pub fn name_at<T: Named>(items: &[T], at: u32) -> &str
    ensures { result.now ≡ slice_index_or (map T.called items.now) at [] }
{
    match items.get(at as usize) {
        Some(item) => item.name(),
        None => "",
    }
}

impl Printer {
    pub fn filter(&mut self, funs: &[Fun], f: &FilterSpec) -> Result<(), NoMemory>
        ensures { OnOk result (Prints self.old (filter_bits (names_of funs.now) f.now) self.new) }
    {
        self.open("filter", &f.name)?;
        self.put(b"  state ")?;
        self.integers(f.state.as_slice())?;
        self.put(b";\n")?;
        self.function("count", funs, f.count)?;
        self.function("item", funs, f.item)?;
        self.function("next", funs, f.next)?;
        self.function("flush", funs, f.flush)?;
        self.function("last", funs, f.last)?;
        self.close()
    }

    pub fn divcon(&mut self, funs: &[Fun], d: &DivCon) -> Result<(), NoMemory>
        ensures { OnOk result (Prints self.old (divcon_bits (names_of funs.now) d.now) self.new) }
    {
        self.open("divcon", &d.name)?;
        self.clause(&[Word::Text("parts"), Word::Number(d.parts)])?;
        self.clause(&[Word::Text("cutoff"), Word::Number(d.cutoff)])?;
        self.function("simple", funs, d.simple)?;
        self.function("solve", funs, d.solve)?;
        self.function("divide", funs, d.divide)?;
        self.function("combine", funs, d.combine)?;
        self.close()
    }

    pub fn bnb(&mut self, funs: &[Fun], b: &BnbSpec) -> Result<(), NoMemory>
        ensures { OnOk result (Prints self.old (bnb_bits (names_of funs.now) b.now) self.new) }
    {
        self.open("bnb", &b.name)?;
        self.function("bound", funs, b.bound)?;
        self.function("solved", funs, b.solved)?;
        self.function("value", funs, b.value)?;
        self.function("count", funs, b.count)?;
        self.function("branch", funs, b.branch)?;
        self.close()
    }

    // The name of a definition at a place.
    pub fn named<T: Named>(&mut self, items: &[T], at: u32) -> Result<(), NoMemory>
        ensures { OnOk result (Prints self.old (name_at (map T.called items.now) at) self.new) }
    {
        self.words(&[Word::Text(name_at(items, at))])
    }

    // A clause that names a function.
    fn function(&mut self, word: &str, funs: &[Fun], at: u32) -> Result<(), NoMemory>
        ensures { OnOk result (Prints self.old (function_clause (names_of funs.now) word.now at) self.new) }
    {
        self.clause(&[Word::Text(word), Word::Text(name_at(funs, at))])
    }

    // Integers with commas between them.
    fn integers(&mut self, numbers: &[i64]) -> Result<(), NoMemory>
        ensures { OnOk result (Prints self.old (listed (map integer numbers.now)) self.new) }
    {
        let Some((first, others)) = numbers.split_first() else {
            return Ok(());
        };
        self.integer(*first)?;
        for number in others {
            self.put(b", ")?;
            self.integer(*number)?;
        }
        Ok(())
    }
}
