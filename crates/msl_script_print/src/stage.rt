// The text of stages.

ghost use Rattle.std.specs.Prelude.{map, OnOk};
ghost use Rattle.msl_script_print.specs.ScriptText.{stage_bits};
ghost use Rattle.msl_script_print.specs.Words.{Prints, members, stages_bits};

use crate::item::name_at;
use crate::printer::{Printer, Word};
use msl_base::{Named, NoMemory};
use msl_program::{Script, Stage};

impl Printer {
    #[cycle(stage)]
    pub fn stage(&mut self, s: &Script, stage: &Stage) -> Result<(), NoMemory>
        ensures { OnOk result (Prints self.old (stage_bits s.now stage.now) self.new) }
    {
        match stage {
            Stage::Atomic(f) => {
                let name = name_at(s.funs().as_slice(), *f);
                self.words(&[Word::Text("atomic"), Word::Text(name)])
            }
            Stage::Filter(i) => {
                let name = name_at(s.filters().as_slice(), *i);
                self.words(&[Word::Text("filter"), Word::Text(name)])
            }
            Stage::Data(d, on) => self.members("data", s.datas().as_slice(), *d, *on),
            Stage::DivCon(d, on) => self.members("divcon", s.divcons().as_slice(), *d, *on),
            Stage::Bnb(d, on) => self.members("bnb", s.bnbs().as_slice(), *d, *on),
            Stage::Farm(n, stage) => {
                self.words(&[Word::Text("farm"), Word::Number(*n)])?;
                self.put(b" { ")?;
                self.stage(s, stage.get())?;
                self.put(b" }")
            }
            Stage::Pipe(stages) => {
                self.put(b"pipe { ")?;
                self.stages(s, stages.as_slice())?;
                self.put(b" }")
            }
        }
    }

    // Stages with semicolons between them.
    #[cycle(stage)]
    fn stages(&mut self, s: &Script, stages: &[Stage]) -> Result<(), NoMemory>
        ensures { OnOk result (Prints self.old (stages_bits s.now stages.now) self.new) }
    {
        let Some((first, others)) = stages.split_first() else {
            return Ok(());
        };
        self.stage(s, first)?;
        for stage in others {
            self.put(b"; ")?;
            self.stage(s, stage)?;
        }
        Ok(())
    }

    // A definition and how many members work on it.
    fn members<T: Named>(
        &mut self,
        word: &str,
        items: &[T],
        d: u32,
        on: u32,
    ) -> Result<(), NoMemory>
        ensures { OnOk result (Prints self.old (members word.now (map T.called items.now) d on) self.new) }
    {
        self.words(&[Word::Text(word)])?;
        self.put(b" ")?;
        self.named(items, d)?;
        self.put(b" on ")?;
        self.number(on)
    }
}
