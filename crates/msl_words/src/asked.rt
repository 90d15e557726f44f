ghost use Rattle.std.specs.Prelude.{◌≡◌, IfOk, IsSome, Some, None, option_map, option_and_then};
ghost use Rattle.clap.specs.Simple.{subcommand_rows_of};
ghost use Rattle.msl_words.specs.Grammar.{command_found};
ghost use Rattle.msl_words.specs.Words.{command_on, processes_or};

use crate::command_line::Command;
use crate::limits::DEFAULT_PROCESSES;
use crate::numbers::{process_count, record_count};
use crate::verbs::Verb;
use clap::ArgMatches;
use msl_base::{Name, NoMemory};
use std::alloc::Global;

/// What the words ask for, as they spell it.
#[derive(Clone, Copy, Debug)]
pub(crate) struct Asked<'a> {
    verb: Verb,
    operand: &'a str,
    processes: Option<&'a str>,
}

impl<'a> Asked<'a> {
    /// What `clap` found.
    pub(crate) fn of(matches: &ArgMatches<'a>) -> Option<Asked<'a>>
        ensures { option_and_then (λ a. command_on a.verb a.operand.now (option_map (λ s. s.now) a.processes)) result ≡ option_and_then command_found (subcommand_rows_of matches.now) }
    {
        let (word, found) = matches.subcommand()?;
        Some(Asked {
            verb: Verb::of(word)?,
            operand: found.get_str("operand")?,
            processes: found.get_str("processes"),
        })
    }

    /// The command that is asked for.
    pub(crate) fn command(&self, alloc: Global) -> Result<Command, NoMemory>
        requires { IsSome (command_on self.now.verb self.now.operand.now (option_map (λ s. s.now) self.now.processes)) }
        ensures { IfOk result (λ c. command_on self.now.verb self.now.operand.now (option_map (λ s. s.now) self.now.processes) ≡ Some c) }
    {
        match self.verb {
            Verb::Seq => Ok(Command::Seq(self.name(alloc)?)),
            Verb::Rounds => Ok(Command::Rounds(
                self.name(alloc)?,
                self.processes_or(DEFAULT_PROCESSES),
            )),
            Verb::Check => Ok(Command::Check(self.name(alloc)?, self.processes_or(0))),
            Verb::Demo => {
                let records = record_count(self.operand).unwrap();
                Ok(Command::Demo(records, self.processes_or(DEFAULT_PROCESSES)))
            }
        }
    }

    fn name(&self, alloc: Global) -> Result<Name, NoMemory>
        ensures { IfOk result (λ name. name ≡ self.now.operand.now) }
    {
        Name::of(alloc, self.operand)
    }

    // How many processes, or how many where it isn't said.
    fn processes_or(&self, default: u32) -> u32
        requires { IsSome (processes_or default (option_map (λ s. s.now) self.now.processes)) }
        ensures { processes_or default (option_map (λ s. s.now) self.now.processes) ≡ Some result }
    {
        match self.processes {
            Some(value) => process_count(value).unwrap(),
            None => default,
        }
    }
}
