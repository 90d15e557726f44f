//! A run, and what it is to leave behind.

use crate::outside::{Left, Outside, WORKING, run};
use msl_io::{MemSource, Source};
use std::alloc::Global;
use std::str::from_utf8;
use std::test::Fail;
use std::thread::Threads;

pub const SQUARE: &str = "muesli 1;\nfun sq(x) = x * x;\nmain = atomic sq;\n";

/// The beginning of a script: functions, a filter `p`, a division `q` and a search `r`.
pub const KNOWN: &str =
    "muesli 1; fun a(s) = s; fun b(s, x) = x; fun c(s, x, k) = x; fun t(s, x) = [s, x]; filter p { state 0; count b; item c; next b; flush a; last b; } divcon q { parts 2; cutoff 0; simple a; solve a; divide b; combine b; } bnb r { bound a; solved a; value a; count a; branch b; } ";

pub const SEQ: &[&str] = &["seq", "script"];

/// As many processes as there can be, so that none but the largest scripts are refused.
pub const ROUNDS: &[&str] = &["rounds", "-p", "64", "script"];

pub const CHECK: &[&str] = &["check", "script"];

/// The input of the runs that read nothing of it.
pub const UNREAD: &[u8] = b"3\n";

/// The words of a run, the script, the input, and what it is to leave behind: what is written, the message and the exit
/// status.
#[derive(Clone, Copy)]
pub struct Case<'a> {
    pub words: &'static [&'static str],
    pub script: &'a str,
    pub input: &'a [u8],
    pub out: &'a [u8],
    pub message: &'a [u8],
    pub code: u8,
}

/// A case of `seq` over a script of which nothing is run.
pub fn not_run<'a>(script: &'a str, message: &'a [u8]) -> Case<'a> {
    Case {
        words: SEQ,
        script,
        input: UNREAD,
        out: b"",
        message,
        code: 2,
    }
}

/// Runs a case and compares what it leaves behind. Where nothing is run, nothing was read either.
pub fn meet(rt: &(impl Threads + Sync), alloc: Global, case: &Case<'_>) -> Result<(), Fail> {
    let mut left = run(rt, alloc, case.words, case.script, case.input, &WORKING)?;
    is_left(&left, case)?;
    if case.code >= 2 || !reads(case.words) {
        is_unread(&mut left.src, case)?;
    }
    Ok(())
}

/// Runs a case where calls may fail, and compares what is written, the message and the status.
pub fn meet_over(
    rt: &(impl Threads + Sync),
    alloc: Global,
    outside: &Outside<'_>,
    case: &Case<'_>,
) -> Result<(), Fail> {
    let left = run(rt, alloc, case.words, case.script, case.input, outside)?;
    is_left(&left, case)
}

/// Compares what is written, the message and the status.
pub fn is_left(left: &Left, case: &Case<'_>) -> Result<(), Fail> {
    let got = (left.status.code(), left.out.held(), left.err.held());
    if got == (case.code, case.out, case.message) {
        return Ok(());
    }
    Err(Fail::new(format_args!(
        "{:?} left {} {:?} {:?}, wanted {} {:?} {:?}: {:.100} of {:.200}",
        case.words,
        got.0,
        from_utf8(got.1),
        from_utf8(got.2),
        case.code,
        from_utf8(case.out),
        from_utf8(case.message),
        last_line(case.script),
        case.script
    )))
}

// The main stage, where it has a line of its own.
fn last_line(script: &str) -> &str {
    match script.trim_end().rsplit_once('\n') {
        Some((_, line)) => line,
        None => script,
    }
}

// Whether a command reads records.
fn reads(words: &[&str]) -> bool {
    matches!(words, ["seq" | "rounds", ..])
}

fn is_unread(src: &mut MemSource, case: &Case<'_>) -> Result<(), Fail> {
    let mut rest = [0; 16];
    let n = src.read(&mut rest)?;
    if &rest[..n] == case.input {
        return Ok(());
    }
    Err(Fail::new(format_args!("{:?} read of its input: {:.200}", case.words, case.script)))
}
