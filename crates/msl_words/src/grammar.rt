ghost use Rattle.std.specs.Prelude.{◌≡◌, IfOk, IsSome};
ghost use Rattle.clap.specs.Simple.{app_of, subcommand_of, subcommand_rows_of};
ghost use Rattle.clap.specs.Walk.{texts};
ghost use Rattle.msl_words.specs.Grammar.{grammar, verb_app, with_verb};
ghost use Rattle.msl_words.specs.Words.{command};

use crate::verbs::Verb;
use clap::error::ErrorKind;
use clap::{Arg, ArgMatches};
use msl_base::NoMemory;
use std::alloc::Global;

/// What `clap` finds in words that are a command.
pub(crate) fn matches_of<'a>(
    alloc: Global,
    words: &'a [&'a str],
) -> Result<ArgMatches<'a>, NoMemory>
    requires { IsSome (command (texts words.now)) }
    ensures { IfOk result (λ m. subcommand_rows_of m ≡ subcommand_of grammar (texts words.entry.now)) }
{
    match grammar(alloc)?.try_get_matches_from(words) {
        Ok(matches) => Ok(matches),
        Err(fault) => {
            // It refuses no command.
            prove!(matches!(fault.kind(), ErrorKind::OutOfMemory));
            Err(NoMemory)
        }
    }
}

// The verbs, and what may follow each.
fn grammar<'a>(alloc: Global) -> Result<clap::Command<'a>, NoMemory>
    ensures { IfOk result (λ c. app_of c ≡ grammar) }
{
    let name: &'a str = "muesli";
    let bare = clap::Command::new(alloc, name)
        .no_binary_name(true)
        .disable_help_flag(true)
        .disable_help_subcommand(true);
    let files = with_verb(alloc, with_verb(alloc, bare, Verb::Seq)?, Verb::Rounds)?;
    with_verb(alloc, with_verb(alloc, files, Verb::Check)?, Verb::Demo)
}

// A command with one more verb.
fn with_verb<'a>(
    alloc: Global,
    command: clap::Command<'a>,
    verb: Verb,
) -> Result<clap::Command<'a>, NoMemory>
    ensures { IfOk result (λ c. app_of c ≡ with_verb (app_of command.entry) verb) }
{
    Ok(command.subcommand(verb_command(alloc, verb)?)?)
}

// What may follow a verb: an operand, and `-p` with its value.
fn verb_command<'a>(alloc: Global, verb: Verb) -> Result<clap::Command<'a>, NoMemory>
    ensures { IfOk result (λ c. app_of c ≡ verb_app verb) }
{
    let (operand, processes): (&'a str, &'a str) = ("operand", "processes");
    let command = clap::Command::new(alloc, verb.word()).arg(Arg::new(alloc, operand))?;
    if verb.takes_processes() {
        Ok(command.arg(Arg::new(alloc, processes).short('p'))?)
    } else {
        Ok(command)
    }
}
