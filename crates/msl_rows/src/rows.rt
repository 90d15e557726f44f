//! Commands, inputs and what comes of them, where nothing fails.

use msl_fixture::{Case, Row, SQUARE, meet, meet_rows, not_run};
use std::test::Fail;

const ROWS: &[Row<'static>] = &[
    Row::Done(SQUARE, b"3\n-4\n", b"9\n16\n"),
    Row::Done(SQUARE, b"", b""),
    Row::Faults(
        SQUARE,
        b"2\n3037000500\n5\n",
        b"4\n",
        b"muesli: stage 1: overflow\n",
    ),
    Row::Done(SQUARE, b"3037000499\n", b"9223372030926249001\n"),
    Row::Done(SQUARE, b"+007 \r\n5", b"49\n25\n"),
    Row::Faults(
        SQUARE,
        b"1 2\n",
        b"",
        b"muesli: stage 1: record of 2 numbers, 1 wanted\n",
    ),
    Row::Faults(
        SQUARE,
        b"3\n\n",
        b"9\n",
        b"muesli: stage 1: record of 0 numbers, 1 wanted\n",
    ),
    Row::Faults(SQUARE, b"7 x\n", b"", b"muesli: line 1: bad record\n"),
    Row::Faults(
        SQUARE,
        b"1\n12 x\n",
        b"1\n",
        b"muesli: line 2: bad record\n",
    ),
    Row::Done(
        "muesli 1;\nfun f(x) = 7 - x;\nmain = atomic f;\n",
        b"9\n",
        b"-2\n",
    ),
    Row::Done(
        "muesli 1;\nfun f(x) = x + 1;\nmain = atomic f;\n",
        b"-5\n",
        b"-4\n",
    ),
    Row::Done(
        "muesli 1;\nfun f(x) = x;\nmain = atomic f;\n",
        b"0\n",
        b"0\n",
    ),
];

#[test]
fn rows_are_met(rt: HostRuntime) -> Result<(), Fail> {
    meet_rows(&rt, rt.alloc(), ROWS)
}

const USAGE: &[u8] =
    b"muesli: usage: muesli seq FILE, rounds FILE, run FILE, check FILE or demo N, with -p N and for run -t T\n";

/// Words that are no command.
pub const NO_COMMANDS: &[&[&str]] = &[
    &[],
    &["seq"],
    &["seq", "-p"],
    &["seq", ""],
    &["rounds"],
    &["rounds", ""],
    &["rounds", "-"],
    &["rounds", "-p"],
    &["rounds", "-p", "0", "script"],
    &["seq", "-p", "4", "script"],
    &["rounds", "script", "script"],
    &["run", "script"],
    &["seq", "script", "script"],
    &["check"],
    &["check", "-"],
    &["check", "script", "script"],
    &["demo"],
    &["demo", "100001"],
    &["demo", "x"],
];

#[test]
fn words_are_no_command(rt: HostRuntime) -> Result<(), Fail> {
    for words in NO_COMMANDS {
        let case = Case {
            words,
            ..not_run(SQUARE, USAGE)
        };
        meet(&rt, rt.alloc(), &case)?;
    }
    Ok(())
}

#[test]
fn no_such_file(rt: HostRuntime) -> Result<(), Fail> {
    let case = Case {
        words: &["seq", "other"],
        code: 3,
        ..not_run(SQUARE, b"muesli: cannot read script\n")
    };
    meet(&rt, rt.alloc(), &case)
}
