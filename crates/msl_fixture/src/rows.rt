//! What comes of scripts, in short.

use crate::cases::{CHECK, Case, ROUNDS, SEQ, meet, not_run};
use std::alloc::Global;
use std::test::Fail;
use std::thread::Threads;

/// A script, and what comes of it.
#[derive(Clone, Copy)]
pub enum Row<'a> {
    /// The input and the results: all is done.
    Done(&'a str, &'a [u8], &'a [u8]),
    /// The input, the results and the message: a fault of the stream ends the run.
    Faults(&'a str, &'a [u8], &'a [u8], &'a [u8]),
    /// The message: nothing is run.
    NotRun(&'a str, &'a [u8]),
    /// It is refused: by this kind, at the token behind the `^`, which isn't part of the script.
    Refused(&'a str, &'a str),
}

/// Runs each row by `seq`.
pub fn meet_rows(rt: &(impl Threads + Sync), alloc: Global, rows: &[Row<'_>]) -> Result<(), Fail> {
    for row in rows {
        meet_row(rt, alloc, *row)?;
    }
    Ok(())
}

/// Runs each row by `seq` and by `rounds`.
pub fn meet_both(rt: &(impl Threads + Sync), alloc: Global, rows: &[Row<'_>]) -> Result<(), Fail> {
    for row in rows {
        for words in [SEQ, ROUNDS] {
            is_met(rt, alloc, words, *row)?;
        }
    }
    Ok(())
}

/// Runs a row by `seq`.
pub fn meet_row(rt: &(impl Threads + Sync), alloc: Global, row: Row<'_>) -> Result<(), Fail> {
    is_met(rt, alloc, SEQ, row)
}

fn is_met(
    rt: &(impl Threads + Sync),
    alloc: Global,
    words: &'static [&'static str],
    row: Row<'_>,
) -> Result<(), Fail> {
    let case = match row {
        Row::Done(script, input, out) => Case {
            input,
            out,
            code: 0,
            ..not_run(script, b"")
        },
        Row::Faults(script, input, out, message) => Case {
            input,
            out,
            code: 1,
            ..not_run(script, message)
        },
        Row::NotRun(script, message) => not_run(script, message),
        Row::Refused(text, kind) => return is_refused(rt, alloc, words, "", text, kind),
    };
    meet(rt, alloc, &Case { words, ..case })
}

// Runs the words over a script of which nothing is run.
fn is_told(
    rt: &(impl Threads + Sync),
    alloc: Global,
    words: &'static [&'static str],
    script: &str,
    message: &[u8],
) -> Result<(), Fail> {
    let case = Case {
        words,
        ..not_run(script, message)
    };
    meet(rt, alloc, &case)
}

/// Runs the words over a text behind these definitions, which is refused: by this kind, at the token behind the `^`,
/// which isn't part of the script.
pub fn is_refused(
    rt: &(impl Threads + Sync),
    alloc: Global,
    words: &'static [&'static str],
    known: &str,
    text: &str,
    kind: &str,
) -> Result<(), Fail> {
    let (before, behind) = text.split_once('^').ok_or("no mark")?;
    let script = format!(in alloc; "{known}{before}{behind}")?;
    let place = known.len() + before.len();
    let message = format!(in alloc; "muesli: script: {kind} at {place}\n")?;
    is_told(rt, alloc, words, script.as_str(), message.as_bytes())
}

/// Runs `check` over a script, of which it writes this. What comes of that is the same, since the line with the need is a
/// comment.
pub fn is_checked(
    rt: &(impl Threads + Sync),
    alloc: Global,
    script: &str,
    out: &str,
) -> Result<(), Fail> {
    is_written(rt, alloc, script, out.as_bytes())?;
    is_written(rt, alloc, out, out.as_bytes())
}

fn is_written(
    rt: &(impl Threads + Sync),
    alloc: Global,
    script: &str,
    out: &[u8],
) -> Result<(), Fail> {
    let case = Case {
        words: CHECK,
        out,
        code: 0,
        ..not_run(script, b"")
    };
    meet(rt, alloc, &case)
}
