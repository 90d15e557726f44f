// Whole scripts: the version, the items and the main stage.

ghost use Rattle.std.specs.Prelude.{◌≡◌, ◌≤◌, codes, length, Ok, MatchResult};
ghost use Rattle.msl_read.specs.Refusals.{IsRefused};
ghost use Rattle.msl_grammar.specs.Following.{IsTaken};
ghost use Rattle.msl_grammar.specs.Known.{IsKnown};
ghost use Rattle.msl_grammar.specs.ScriptGrammar.{items, main_rule, reading, script_rule, token, whole};
ghost use Rattle.msl_program.specs.Known.{script_of};
ghost use Rattle.msl_grammar.specs.ScriptGrammar as grammar;
ghost use Rattle.msl_script_read.specs.ScriptReading.{TakesItems};
ghost use Rattle.msl_lex.specs.Spelling.{AreSpelt};

use crate::stage::StageReader;
use msl_grammar::Known;
use msl_grammar::token::quoted;
use msl_lex::{Kind, TokenKind};
use msl_program::{Counts, Nest, Script, Stage};
use msl_read::{Cursor, ReadFault};
use std::alloc::Global;

// The version of the language.
const VERSION: i64 = 1;

const OUTERMOST: Nest = Nest {
    opened: 0,
    in_farm: false,
};

const NO_STAGES: Counts = Counts {
    primitives: 0,
    filters: 0,
};

// A script while it is read: the tokens still to come, and the definitions so far.
#[derive(Drop)]
pub struct ScriptReader<'a> {
    pub alloc: Global,
    pub cursor: Cursor<'a>,
    pub known: Known,
}

// The script that these tokens are.
pub fn read_tokens(alloc: Global, cursor: Cursor<'_>) -> Result<Script, ReadFault>
    requires { AreSpelt cursor }
    ensures { MatchResult result (λ s. whole (reading cursor.entry script_rule) ≡ Ok s) (IsRefused (reading cursor.entry script_rule)) }
{
    let mut reader = ScriptReader {
        alloc,
        cursor,
        known: Known::new(alloc),
    };
    version(&mut reader.cursor)?;
    reader.items()?;
    let main = reader.main()?;
    Ok(reader.known.with_main(main))
}

// The version of the language.
fn version(c: &mut Cursor<'_>) -> Result<(), ReadFault>
    ensures { IsTaken c.old (λ s. token (codes "muesli") (grammar.version (token (codes ";") s))) c.new result }
{
    quoted(c, "muesli")?;
    version_number(c)?;
    quoted(c, ";")?;
    Ok(())
}

fn version_number(c: &mut Cursor<'_>) -> Result<(), ReadFault>
    ensures { IsTaken c.old grammar.version c.new result }
{
    let TokenKind::Number = c.kind() else {
        return Err(c.unexpected());
    };
    if c.number() != VERSION {
        return Err(c.refusal(Kind::Version));
    }
    c.advance();
    Ok(())
}

impl ScriptReader<'_> {
    // All items, and the word behind them.
    fn items(&mut self) -> Result<(), ReadFault>
        requires { IsKnown self.old.known }
        ensures { MatchResult result (λ _. TakesItems self.old self.new) (IsRefused (reading self.old.cursor (items self.old.known))) }
    {
        while !self.cursor.take("main") {
            self.item()?;
        }
        Ok(())
    }

    // The main stage and the end of the text, behind the word.
    fn main(&mut self) -> Result<Stage, ReadFault>
        requires { IsKnown self.old.known }
        ensures main { MatchResult result (λ s. whole (reading self.old.cursor (main_rule self.old.known)) ≡ Ok (script_of self.old.known s)) (IsRefused (reading self.old.cursor (main_rule self.old.known))) }
        ensures known { self.new.known ≡ self.old.known }
    {
        let c = &mut self.cursor;
        quoted(c, "=")?;
        let stages = StageReader {
            alloc: self.alloc,
            known: &self.known,
        };
        let (_, main) = stages.stage(c, OUTERMOST, NO_STAGES)?;
        quoted(c, ";")?;
        if !c.is_over() {
            return Err(c.unexpected());
        }
        Ok(main)
    }
}
