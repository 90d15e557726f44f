ghost use Rattle.std.specs.Prelude.{◌≡◌, IfOk, IsSome, MatchResult, Some, None, ◌↔◌};
ghost use Rattle.clap.specs.Walk.{texts};
ghost use Rattle.msl_words.specs.Words.{command};

use crate::asked::Asked;
use crate::grammar::matches_of;
use crate::progress::is_command;
use msl_base::{ListOf, Name, NoMemory};
use std::alloc::Global;
use thiserror::Error;

/// The words of a command line, without the program's name.
pub type Words = ListOf<Name>;

/// What the words ask for.
#[derive(Drop)]
pub enum Command {
    /// Run the script of this name in the order of its input.
    Seq(Name),
    /// Run the script of this name by this many processes, with its results in any order that it leaves open.
    Rounds(Name, u32),
    /// Write the canonical text of the script of this name, and how many processes it needs; and where a number of
    /// processes was given, which is 0 where none was, whether they suffice.
    Check(Name, u32),
    /// Run the demonstration on this many records, by this many processes.
    Demo(u32, u32),
}

/// Why words give no command.
#[derive(Debug, Drop, Error)]
pub enum WordsFault {
    /// They are no command.
    #[error("the words are no command")]
    Usage,
    /// Memory ran out.
    #[error("out of memory")]
    NoMemory,
}

impl From<NoMemory> for WordsFault {
    ghost use Rattle.std.specs.Prelude.{◌≡◌};
    ghost use Rattle.msl_words.specs.declared.command_line.WordsFault.TheVariants as fault;

    ghost from_gives = { λ _ e. e ≡ fault.NoMemory };

    fn from(_: NoMemory) -> Self {
        WordsFault::NoMemory
    }
}

/// The command that the words are.
///
/// The first word is `seq`, `rounds`, `check` or `demo`. After it stands one operand, which isn't empty and doesn't
/// begin with `-`: the name of a script, or at `demo` how many records, as 1 to 6 decimal digits with a value of at most
/// 100,000. Except at `seq`, `-p` may stand once, before the operand or after it, and the number of processes is the next
/// word: 1 to 4 decimal digits with a value of 1 to 64. Where `-p` isn't given, that number is 4, and 0 at `check`.
///
/// # Errors
///
/// `Usage` exactly where they are no command, and `NoMemory` where memory ran out.
pub fn command_of(alloc: Global, words: &Words) -> Result<Command, WordsFault>
    ensures ok { MatchResult result (λ c. command words.now ≡ Some c) (λ e. (e ≡ WordsFault.Usage) ↔ (command words.now ≡ None)) }
{
    if is_command(words.as_slice()) {
        Ok(command_in(alloc, words.as_slice())?)
    } else {
        Err(WordsFault::Usage)
    }
}

// The command that these words are.
fn command_in(alloc: Global, words: &[Name]) -> Result<Command, NoMemory>
    requires { IsSome (command words.now) }
    ensures { IfOk result (λ c. command words.now ≡ Some c) }
{
    let texts = texts_of(alloc, words)?;
    let matches = matches_of(alloc, texts.as_slice())?;
    let asked = Asked::of(&matches).unwrap();
    asked.command(alloc)
}

fn texts_of(alloc: Global, words: &[Name]) -> Result<Vec<&str>, NoMemory>
    ensures { IfOk result (λ v. texts v.items ≡ words.now) }
{
    let mut texts = Vec::new(alloc);
    for word in words {
        texts.push(word.as_str())?;
    }
    Ok(texts)
}
