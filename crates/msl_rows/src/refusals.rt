//! Texts that are no script: why, and at which place. What else is refused is tested where scripts are read.

use msl_fixture::{KNOWN, Row, SEQ, is_refused, meet_rows};
use std::test::Fail;

// The script of a square, changed or cut, and another.
const WORKED: &[Row<'static>] = &[
    Row::NotRun(
        "muesli 1;\nfun sq(x) = x * x;\nmain = farm 2 { filter f };\n",
        b"muesli: script: filter in farm at 45\n",
    ),
    Row::NotRun(
        "muesli 1;\nfun sq(x) = x * x;\nmain = atomic sq;\nmain = atomic sq;\n",
        b"muesli: script: expected at 47\n",
    ),
    Row::NotRun(
        "muesli 1;\nfun sq(x) = x * x;\nmain = atomic sr;\n",
        b"muesli: script: unknown at 43\n",
    ),
    Row::NotRun("muesli 1;\nmain =", b"muesli: script: expected at 16\n"),
    Row::NotRun(
        "muesli 1;\nfun f(x) = x + 9223372036854775808;\nmain = atomic f;\n",
        b"muesli: script: number at 25\n",
    ),
    Row::NotRun("", b"muesli: script: expected at 0\n"),
    Row::NotRun("mue", b"muesli: script: expected at 0\n"),
    Row::NotRun("muesli ", b"muesli: script: expected at 7\n"),
    Row::NotRun(
        "muesli 1;\nfun sq(x) = x * x;\nmain = atomic s",
        b"muesli: script: unknown at 43\n",
    ),
    Row::NotRun(
        "muesli 1;\nfun sq(x) = x * x;\nmain = atomic sq",
        b"muesli: script: expected at 45\n",
    ),
    Row::Done(
        "muesli 1;\nfun sq(x) = x * x;\nmain = atomic sq;",
        b"3\n",
        b"9\n",
    ),
];

#[test]
fn worked_refusals(rt: HostRuntime) -> Result<(), Fail> {
    meet_rows(&rt, rt.alloc(), WORKED)
}

// Tokens come before the grammar, and of them the first.
const TOKENS: &[Row<'static>] = &[
    Row::Refused("muesli 1; fun f(x) = x ^& 1; main = atomic f;", "byte"),
    Row::Refused("main 2; ^! !", "byte"),
    Row::Refused("muesli 1; ^\u{e9}", "byte"),
    Row::Refused("muesli 1; fun f(x) = ^9223372036854775808 ! x;", "number"),
    Row::Refused("muesli ^9223372036854775808;", "number"),
    Row::Refused(
        "muesli 2; fun ^aaaaaaaaaaaaaaaaaaaaaaaaaaaaaaaaaaaaaaaaaaaaaaaaaaaaaaaaaaaaaaaaa(x) = x;",
        "long name",
    ),
    Row::Done(
        "muesli 1; # \u{e9} & !\nfun f(x) = x; main = atomic f;",
        b"3\n",
        b"3\n",
    ),
];

#[test]
fn no_tokens(rt: HostRuntime) -> Result<(), Fail> {
    meet_rows(&rt, rt.alloc(), TOKENS)
}

// Texts behind what is known: of each kind that has no row above or in the texts of scripts, and where a number or a
// name more is a limit.
const TEXTS: &[(&str, &str)] = &[
    (
        "filter f { state 0, 1, 2, 3, 4, 5, 6, -7 ^count",
        "expected",
    ),
    ("filter f { state 0, 1, 2, 3, 4, 5, 6, -7, ^-8;", "many"),
    ("filter ^q {", "twice"),
    ("filter f { state 0; count ^f;", "unknown"),
    ("fun f(x) = ^p(x);", "wrong kind"),
    (
        "divcon d { parts 8; cutoff 0; simple b; solve t; divide ^c;",
        "width",
    ),
    ("divcon d { parts ^17;", "range"),
    ("data d { l = ^sort a;", "expected"),
    ("data d { l = array 1024 at 1048576 len ^1048577;", "range"),
    (
        "main = farm 2 { pipe { atomic a; ^filter z } };",
        "filter in farm",
    ),
    (
        "main = pipe { farm 2 { pipe { farm 2 { ^farm 65 { atomic a } } } } };",
        "deep",
    ),
    // A farm's stage is read to its end.
    ("main = farm 2 { atomic a };^;", "expected"),
    ("fun f(x) = ^y; main = farm 2 { atomic f };", "unknown"),
];

#[test]
fn texts_are_refused(rt: HostRuntime) -> Result<(), Fail> {
    for (text, kind) in TEXTS {
        is_refused(&rt, rt.alloc(), SEQ, KNOWN, text, kind)?;
    }
    Ok(())
}
