//! Reads the words of a line, and says what they are.

use msl_base::{ListOf, Name};
use msl_words::{Command, Words, WordsFault, command_of};
use std::alloc::{AllocError, Global};
use std::process::Abort;
use std::test::Fail;

/// Stands for the empty word.
const EMPTY: &str = "''";

// The words of a line, which are parted by single spaces; an empty line has none.
fn words_of(alloc: Global, line: &str) -> Result<Words, Fail> {
    let mut words = ListOf::new(alloc);
    if line.is_empty() {
        return Ok(words);
    }
    for word in line.split(' ') {
        let text = if word == EMPTY { "" } else { word };
        words
            .add(Name::of(alloc, text).map_err(|_| "out of memory")?)
            .map_err(|_| "out of memory")?;
    }
    Ok(words)
}

// A command, or why there is none.
fn text_of(alloc: Global, answer: &Result<Command, WordsFault>) -> Result<String, AllocError> {
    match answer {
        Ok(Command::Seq(name)) => format!(in alloc; "seq {}", name.as_str()),
        Ok(Command::Rounds(name, processes)) => {
            format!(in alloc; "rounds {} by {}", name.as_str(), processes)
        }
        Ok(Command::Check(name, processes)) => {
            format!(in alloc; "check {} for {}", name.as_str(), processes)
        }
        Ok(Command::Demo(records, processes)) => {
            format!(in alloc; "demo of {records} by {processes}")
        }
        Err(WordsFault::Usage) => String::from_str(alloc, "usage"),
        Err(WordsFault::NoMemory) => String::from_str(alloc, "no memory"),
    }
}

/// Each row is a line, and what its words are.
pub fn are_told(rt: &impl Abort, alloc: Global, rows: &[(&str, &str)]) -> Result<(), Fail> {
    for (line, want) in rows {
        let words = words_of(alloc, line)?;
        let got = text_of(alloc, &command_of(alloc, &words))?;
        assert_eq!(rt; got.as_str(), *want, "at {line}");
    }
    Ok(())
}
