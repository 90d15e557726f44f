ghost use Rattle.std.specs.Prelude.{◌≡◌, [], length, IfOk};
ghost use Rattle.msl_data.specs.Answers.{Gives};
ghost use Rattle.msl_data.specs.Tables.{TableComes, values_of};
ghost use Rattle.msl_program.specs.Programs.{no_lines};
ghost use Rattle.msl_program.specs.Data.{data_outcome, extended};
ghost use Rattle.msl_program.specs.ProgramPromise.{EachLineFits, ProgramFits};

use crate::context::Context;
use crate::table::Table;
use msl_base::{Halt, Rec};
use msl_fabric::{Fabric, Place};
use msl_fun::Funs;
use msl_program::{DataLine, DataProg};
use std::alloc::Global;

/// What a data program gives for a record. It runs the lines in order and stops at the first fault, which is that of its
/// line's step: `Shape` where the record is too short or two arrays differ in length, `Ragged` where blocks that
/// change places differ in size, `NotPermutation` where they don't go one to one, else one of a function or an operator,
/// all with the number of the stage. `NoMemory` comes for want of memory alone.
pub fn run_data<F: Fabric>(
    alloc: Global,
    prog: &DataProg,
    funs: &Funs,
    at: &mut Place<'_, F>,
    xs: &[i64],
) -> Result<Rec, Halt>
    requires { ProgramFits funs.now prog.now }
    ensures answer { Gives (data_outcome funs.now prog.now at.old.stage xs.now) result }
    ensures stage { at.new.stage ≡ at.old.stage }
    ensures group { at.new.group ≡ at.old.group }
{
    let table = values(alloc, prog.lines.as_slice(), funs, at, xs)?;
    let rec = table.give(alloc, at, prog.give)?;
    Ok(rec)
}

// The values of all lines, or the first fault.
fn values<F: Fabric>(
    alloc: Global,
    lines: &[DataLine],
    funs: &Funs,
    at: &mut Place<'_, F>,
    input: &[i64],
) -> Result<Table, Halt>
    requires { EachLineFits funs.now no_lines lines.now }
    ensures values { TableComes (extended funs.now at.old.stage input.now [] lines.now) result }
    ensures each { IfOk result (λ t. length (values_of t) ≡ length lines.now) }
    ensures stage { at.new.stage ≡ at.old.stage }
    ensures group { at.new.group ≡ at.old.group }
{
    let mut table = Table::with_room(alloc, lines.len())?;
    for line in lines {
        let context = Context {
            funs,
            input,
            table: &table,
        };
        let value = context.value(alloc, at, &line.step)?;
        table.put(value);
    }
    Ok(table)
}
