ghost use Rattle.std.specs.Prelude.{◌≤◌, length};
ghost use Rattle.msl_base.specs.declared.limits.TheConstants.{MOST_SCRIPT_BYTES};
ghost use Rattle.msl_script_read.specs.ScriptReading.{IsReading};

use crate::script::read_tokens;
use msl_lex::lex;
use msl_program::Script;
use msl_read::{Cursor, ReadFault};
use std::alloc::Global;

/// Reads the script that a text of at most 1,048,576 bytes is: its items in order, then its main stage.
///
/// # Errors
///
/// `At` with the first test that fails, and the place in bytes at which the token begins that it names: the one that
/// is tested, if nothing else is said. `Byte`, `LongName` and `Number` come first, at the first byte, word or number
/// that is no token. Else the tokens are tested in their order, and each by these tests in the order of `Kind`; the end
/// of the text is a token too.
///
/// - `Expected`: the token can't go on the grammar.
/// - `Version`: the number behind `muesli` isn't 1.
/// - `InFarm`: `filter` stands in a farm.
/// - `Many`: 256 functions are there, or 64 data programs, filters, divisions or searches; in a data program 64 lines;
///   in a filter 8 state numbers; in `main` 64 stages that are no farms and pipes, or 4 filters; in a function what `parse_fun` says.
/// - `Deep`: a farm or a pipe stands in four others; in a function what `parse_fun` says.
/// - `Twice`: a definition has the name of another one, or a line that of another one of its program.
/// - `Unknown`: the name is none of a definition, or of a line, that stands before; the word is no operator's.
/// - `WrongKind`: the definition or line is of another kind than is needed here.
/// - `Width`: the function's parameters or results don't fit. The function of a step is tested at the first line that
///   the step works on, and its own name is named.
/// - `Range`: the number is out of its range. For a matrix and its grid the product is tested at the second number; the
///   block of `broadcastPartition` at its array, and the number is named.
///
/// `NoMemory` at any text.
pub fn read_script(alloc: Global, text: &[u8]) -> Result<Script, ReadFault>
    requires { length text.now ≤ MOST_SCRIPT_BYTES }
    ensures { IsReading text.now result }
{
    let tokens = lex(alloc, text)?;
    Ok(read_tokens(alloc, Cursor::new(text, tokens.as_slice()))?)
}
