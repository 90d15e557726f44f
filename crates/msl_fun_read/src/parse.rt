ghost use Rattle.std.specs.Prelude.{◌≡◌, ◌<◌, [], length, map, Ok, IfOk, MatchResult};
ghost use Rattle.msl_lex.specs.Layout.{AreTokensOf};
ghost use Rattle.msl_lex.specs.Lexemes.{lexeme_of};
ghost use Rattle.msl_fun.specs.Checks.{MayFollow};
ghost use Rattle.msl_fun_read.specs.Grammar.{read_fun};
ghost use Rattle.msl_fun_read.specs.Parse.{IsFunAt};
ghost use Rattle.msl_read.specs.Refusals.{IsRefused};

use crate::parse::declared::Declared;
use msl_base::Name;
use msl_fun::{Fun, Funs};
use msl_lex::Tokens;
use msl_read::{Cursor, ReadFault};
use std::alloc::Global;

mod callee;
mod declared;
mod draft;
mod expression;
mod first;
mod function;
mod level;
mod naming;
mod tree;

pub use first::First;
pub use level::Level;

/// Reads the function that begins with the token at `from`, over the functions that are declared before it: the
/// function, and the place among the tokens behind its `;`.
///
/// # Errors
///
/// `At` with the first test that fails, and where the token begins that it names: the one that is tested, if nothing
/// else is said. The tokens are tested in their order, and each by these tests in the order of `Kind`:
///
/// - `Expected`: the token can't go on the grammar.
/// - `Many`: at `fun`, 256 functions are declared; at a name that comes into scope, the function has 16 parameters,
///   or 32 variables are in scope; at the beginning of a result, there are 16.
/// - `Deep`: at the beginning of an expression or of an operand, 256 are open around it; at a call, the rank of the
///   function is 8; at the `;`, which names the function's name, a result is deeper than 100.
/// - `Twice`: the function's name is declared, or the name of a parameter or a variable is in scope.
/// - `Unknown`: the name of a variable isn't in scope, or that of a call isn't declared.
/// - `WrongKind`: the name of a call is no function's.
/// - `Width`: a call is of a function of several results; at the `)` of a call, which names its name, the arguments
///   are not as many as the parameters.
///
/// `NoMemory` at any tokens.
pub fn parse_fun(
    alloc: Global,
    text: &[u8],
    toks: &Tokens,
    from: usize,
    funs: &Funs,
) -> Result<(Fun, usize), ReadFault>
    requires tokens { AreTokensOf text.now toks.now }
    requires from { from < length toks.now }
    ensures read { IsFunAt funs.now [] (map (lexeme_of text.now) toks.now) from result }
    ensures rules { IfOk result (λ r. MayFollow funs.now r.0) }
    ensures within { IfOk result (λ r. (from < r.1) × (r.1 < length toks.now)) }
{
    let toks = toks.as_slice();
    let (fun, rest) = parse_fun_at(alloc, Cursor::new(text, &toks[from..]), funs, &[])?;
    Ok((fun, toks.len() - rest.len()))
}

/// Reads the function that begins with the first token of a cursor, as `parse_fun` does, with names that are declared
/// for other things than functions: the function can't have one of them, and a call of one is refused. It gives the
/// function, and the cursor behind its `;`.
///
/// # Errors
///
/// Those of `parse_fun`: `Twice` where the function has one of the names, and `WrongKind` where it calls one.
pub fn parse_fun_at<'a>(
    alloc: Global,
    cursor: Cursor<'a>,
    funs: &Funs,
    others: &[Name],
) -> Result<(Fun, Cursor<'a>), ReadFault>
    ensures read { MatchResult result (λ r. read_fun funs.now others.now cursor.entry ≡ Ok (r.0, r.1)) (IsRefused (read_fun funs.now others.now cursor.entry)) }
    ensures rules { IfOk result (λ r. MayFollow funs.now r.0) }
    ensures shorter { IfOk result (λ r. length r.1 < length cursor.entry) }
{
    let declared = Declared {
        alloc,
        funs,
        others,
    };
    declared.fun(cursor)
}
