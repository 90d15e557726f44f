// Data programs.

ghost use Rattle.std.specs.Prelude.{◌≡◌, ◌<◌, ◌≤◌, length, false, codes, OnOk};
ghost use Rattle.msl_base.specs.declared.limits.TheConstants.{MOST_DATA_LINES};
ghost use Rattle.msl_read.specs.Reading.{says};
ghost use Rattle.msl_read.specs.Front.{form};
ghost use Rattle.msl_grammar.specs.Following.{IsRead};
ghost use Rattle.msl_data_read.specs.Lines.{TakesLine, IsNamed, IsReadAs};
ghost use Rattle.msl_grammar.specs.Uses.{ArePaired};
ghost use Rattle.msl_program.specs.Programs.{no_lines};
ghost use Rattle.msl_grammar.specs.ScriptGrammar as grammar;

use crate::program::Program;
use crate::scope::Scope;
use msl_base::Name;
use msl_base::limits::MOST_DATA_LINES;
use msl_grammar::Known;
use msl_grammar::token::quoted;
use msl_lex::Kind;
use msl_program::DataProg;
use msl_program::shape::Need;
use msl_read::{Cursor, ReadFault};
use std::alloc::Global;

/// A data program, behind its first word.
///
/// # Errors
///
/// `At` with the first test that fails; `NoMemory` at any tokens.
pub fn data_program(known: &Known, alloc: Global, c: &mut Cursor<'_>) -> Result<DataProg, ReadFault>
    ensures read { IsRead c.old (grammar.data_rule known.now) c.new result }
    ensures shorter { length c.new ≤ length c.old }
{
    let name = known.fresh(alloc, c)?;
    quoted(c, "{")?;
    let (program, give) = lines(known, alloc, c)?;
    quoted(c, "}")?;
    Ok(DataProg {
        name,
        lines: program.lines,
        give,
    })
}

// The lines, and the one that is given.
fn lines(known: &Known, alloc: Global, c: &mut Cursor<'_>) -> Result<(Program, u32), ReadFault>
    ensures read { IsRead c.old (grammar.lines known.now no_lines) c.new result }
    ensures shorter { length c.new ≤ length c.old }
{
    let mut program = Program::new(alloc);
    while !c.take("give") {
        one_line(known, alloc, c, &mut program)?;
    }
    let give = give(known, alloc, c, &program)?;
    Ok((program, give))
}

// The line that is given.
fn give(
    known: &Known,
    alloc: Global,
    c: &mut Cursor<'_>,
    program: &Program,
) -> Result<u32, ReadFault>
    requires { ArePaired program.now }
    ensures read { IsRead c.old (λ k. grammar.give_rule program.now (λ r. k r.1)) c.new result }
    ensures shorter { length c.new ≤ length c.old }
{
    let scope = Scope {
        alloc,
        known,
        program,
    };
    let (line, _) = scope.line(c, Need::Any)?;
    quoted(c, ";")?;
    Ok(line)
}

// One line more.
fn one_line(
    known: &Known,
    alloc: Global,
    c: &mut Cursor<'_>,
    program: &mut Program,
) -> Result<(), ReadFault>
    requires program { ArePaired program.old }
    requires more { says (codes "give") (form c.old) ≡ false }
    ensures read { TakesLine known.now program.old c.old program.new c.new result }
    ensures program { OnOk result (ArePaired program.new) }
    ensures taken { OnOk result (length c.new < length c.old) }
    ensures shorter { length c.new ≤ length c.old }
{
    let name = line_name(alloc, c, program)?;
    line_rest(known, alloc, c, program, name)
}

// What stands behind the name of a line.
fn line_rest(
    known: &Known,
    alloc: Global,
    c: &mut Cursor<'_>,
    program: &mut Program,
    name: Name,
) -> Result<(), ReadFault>
    requires program { ArePaired program.old }
    requires few { length program.old.lines < MOST_DATA_LINES }
    ensures read { IsReadAs c.old (grammar.line_rest known.now program.old name) program.new c.new result }
    ensures program { OnOk result (ArePaired program.new) }
    ensures shorter { length c.new ≤ length c.old }
{
    quoted(c, "=")?;
    let scope = Scope {
        alloc,
        known,
        program,
    };
    let (step, shape) = scope.step(c)?;
    quoted(c, ";")?;
    program.add(name, step, shape)?;
    Ok(())
}

// The name of one line more.
fn line_name(alloc: Global, c: &mut Cursor<'_>, program: &Program) -> Result<Name, ReadFault>
    requires program { ArePaired program.now }
    requires more { says (codes "give") (form c.old) ≡ false }
    ensures read { IsNamed program.now c.old c.new result }
    ensures few { OnOk result (length program.now.lines < MOST_DATA_LINES) }
    ensures taken { OnOk result (length c.new < length c.old) }
    ensures shorter { length c.new ≤ length c.old }
{
    let Some(name) = c.name() else {
        return Err(c.unexpected());
    };
    if program.len() >= MOST_DATA_LINES {
        return Err(c.refusal(Kind::Many));
    }
    if program.find(name).is_some() {
        return Err(c.refusal(Kind::Twice));
    }
    let name = Name::of(alloc, name)?;
    c.advance();
    Ok(name)
}
