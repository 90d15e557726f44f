//! Scripts and records at the limits, and one above.

use crate::programs::SUM;
use msl_fixture::{Case, KNOWN, Row, SEQ, is_refused, meet, meet_row, meet_rows, not_run};
use std::alloc::{AllocError, Global};
use std::test::Fail;
use std::thread::Threads;

const ROWS: &[Row<'static>] = &[
    // 16 parameters and results.
    Row::Done(
        "muesli 1; fun f(a, b, c, d, e, f, g, h, i, j, k, l, m, n, o, p) = p; main = atomic f;",
        b"1 2 3 4 5 6 7 8 9 10 11 12 13 14 15 16\n",
        b"16\n",
    ),
    Row::Refused(
        "muesli 1; fun f(a, b, c, d, e, f, g, h, i, j, k, l, m, n, o, p, ^q) = p; main = atomic f;",
        "many",
    ),
    Row::Done(
        "muesli 1; fun f(x) = [1, 2, 3, 4, 5, 6, 7, 8, 9, 10, 11, 12, 13, 14, 15, x]; main = atomic f;",
        b"16\n",
        b"1 2 3 4 5 6 7 8 9 10 11 12 13 14 15 16\n",
    ),
    Row::Refused(
        "muesli 1; fun f(x) = [1, 2, 3, 4, 5, 6, 7, 8, 9, 10, 11, 12, 13, 14, 15, 16, ^x]; main = atomic f;",
        "many",
    ),
    // A chain of 8 calls of one function by the next.
    Row::Done(
        "muesli 1; fun a(x) = x + 1; fun b(x) = a(x); fun c(x) = b(x); fun d(x) = c(x); fun e(x) = d(x); fun f(x) = e(x); fun g(x) = f(x); fun h(x) = g(x); main = atomic h;",
        b"3\n",
        b"4\n",
    ),
    Row::Refused(
        "muesli 1; fun a(x) = x + 1; fun b(x) = a(x); fun c(x) = b(x); fun d(x) = c(x); fun e(x) = d(x); fun f(x) = e(x); fun g(x) = f(x); fun h(x) = g(x); fun i(x) = ^h(x); main = atomic i;",
        "deep",
    ),
    // A loop where 30 variables are in scope, and a name and a loop where 31 are.
    Row::Done(
        "muesli 1; fun f(p) = let a = 0 in let b = 0 in let c = 0 in let d = 0 in let e = 0 in let f = 0 in let g = 0 in let h = 0 in let i = 0 in let j = 0 in let k = 0 in let l = 0 in let m = 0 in let n = 0 in let o = 0 in let q = 0 in let r = 0 in let s = 0 in let t = 0 in let u = 0 in let v = 0 in let w = 0 in let x = 0 in let y = 0 in let z = 0 in let aa = 0 in let ab = 0 in let ac = 0 in let ad = 0 in loop i0 below 3, i1 = p in i1 + i0; main = atomic f;",
        b"3\n",
        b"6\n",
    ),
    Row::Done(
        "muesli 1; fun f(p) = let a = 0 in let b = 0 in let c = 0 in let d = 0 in let e = 0 in let f = 0 in let g = 0 in let h = 0 in let i = 0 in let j = 0 in let k = 0 in let l = 0 in let m = 0 in let n = 0 in let o = 0 in let q = 0 in let r = 0 in let s = 0 in let t = 0 in let u = 0 in let v = 0 in let w = 0 in let x = 0 in let y = 0 in let z = 0 in let aa = 0 in let ab = 0 in let ac = 0 in let ad = 0 in let ae = 0 in let i0 = p in i0 + 1; main = atomic f;",
        b"3\n",
        b"4\n",
    ),
    Row::Refused(
        "muesli 1; fun f(p) = let a = 0 in let b = 0 in let c = 0 in let d = 0 in let e = 0 in let f = 0 in let g = 0 in let h = 0 in let i = 0 in let j = 0 in let k = 0 in let l = 0 in let m = 0 in let n = 0 in let o = 0 in let q = 0 in let r = 0 in let s = 0 in let t = 0 in let u = 0 in let v = 0 in let w = 0 in let x = 0 in let y = 0 in let z = 0 in let aa = 0 in let ab = 0 in let ac = 0 in let ad = 0 in let ae = 0 in loop i0 below 3, ^i1 = p in i1 + i0; main = atomic f;",
        "many",
    ),
];

#[test]
fn limits(rt: HostRuntime) -> Result<(), Fail> {
    meet_rows(&rt, rt.alloc(), ROWS)
}

// Pushes a piece so many times.
fn push_times(text: &mut String, piece: &str, times: usize) -> Result<(), AllocError> {
    for _ in 0..times {
        text.push_str(piece)?;
    }
    Ok(())
}

// The opening and closing parts of an expression that nests, how often they stand, and the result at 3.
const DEEPEST: &[(&str, &str, usize, &[u8])] = &[
    // A chain of `-` is one deeper than it has signs.
    ("-", "", 99, b"-3\n"),
    // Parentheses open two expressions each.
    ("(", ")", 127, b"3\n"),
];

// The name of the function, the opening and closing parts, how often they stand, and what is inside.
const DEEPER: &[(&str, &str, &str, usize, &str)] = &[
    ("^f", "-", "", 100, "x"),
    ("f", "(", ")", 128, "^x"),
];

// A function of an expression that nests.
fn nested(
    alloc: Global,
    name: &str,
    (open, close): (&str, &str),
    times: usize,
    inside: &str,
) -> Result<String, AllocError> {
    let mut text = format!(in alloc; "muesli 1; fun {name}(x) = ")?;
    push_times(&mut text, open, times)?;
    text.push_str(inside)?;
    push_times(&mut text, close, times)?;
    text.push_str("; main = atomic f;")?;
    Ok(text)
}

#[test]
fn expressions_are_deep(rt: HostRuntime) -> Result<(), Fail> {
    let alloc = rt.alloc();
    for (open, close, times, out) in DEEPEST {
        let text = nested(alloc, "f", (open, close), *times, "x")?;
        meet_row(&rt, alloc, Row::Done(text.as_str(), b"3\n", out))?;
    }
    Ok(())
}

#[test]
fn expressions_are_too_deep(rt: HostRuntime) -> Result<(), Fail> {
    let alloc = rt.alloc();
    for (name, open, close, times, inside) in DEEPER {
        let text = nested(alloc, name, (open, close), *times, inside)?;
        meet_row(&rt, alloc, Row::Refused(text.as_str(), "deep"))?;
    }
    Ok(())
}

// As many definitions or lines as there may be.
struct Full {
    known: &'static str,
    before: &'static str,
    times: usize,
    // What stands before and behind the number of each, from 0.
    parts: (&'static str, &'static str),
    // The end of a script that gives its parameter.
    main: &'static str,
    // One more.
    more: &'static str,
}

const FULL: &[Full] = &[
    Full {
        known: "muesli 1; ",
        before: "",
        times: 256,
        parts: ("fun f", "(x) = x; "),
        main: "main = atomic f255;",
        more: "^fun f(x) = x;",
    },
    // One of each of the next three stands among those that are known.
    Full {
        known: KNOWN,
        before: "",
        times: 63,
        parts: (
            "filter p",
            " { state 0; count b; item c; next b; flush a; last b; } ",
        ),
        main: "main = atomic a;",
        more: "^filter f {",
    },
    Full {
        known: KNOWN,
        before: "",
        times: 63,
        parts: (
            "divcon q",
            " { parts 2; cutoff 0; simple a; solve a; divide b; combine b; } ",
        ),
        main: "main = atomic a;",
        more: "^divcon d {",
    },
    Full {
        known: KNOWN,
        before: "",
        times: 63,
        parts: (
            "bnb r",
            " { bound a; solved a; value a; count a; branch b; } ",
        ),
        main: "main = atomic a;",
        more: "^bnb s {",
    },
    Full {
        known: KNOWN,
        before: "",
        times: 64,
        parts: ("data d", " { l = array 1; give l; } "),
        main: "main = atomic a;",
        more: "^data d {",
    },
    Full {
        known: KNOWN,
        before: "data d { ",
        times: 64,
        parts: ("l", " = array 1; "),
        main: "give l63; } main = atomic a;",
        more: "^l = array 1;",
    },
];

// All but the end of the script.
fn full_text(alloc: Global, full: &Full) -> Result<String, AllocError> {
    let (first, second) = full.parts;
    let mut text = String::from_str(alloc, full.known)?;
    text.push_str(full.before)?;
    for n in 0..full.times {
        write!(text, "{first}{n}{second}")?;
    }
    Ok(text)
}

// The script runs a function that gives its parameter; with one thing more it is refused.
fn is_full(rt: &(impl Threads + Sync), alloc: Global, full: &Full) -> Result<(), Fail> {
    let text = full_text(alloc, full)?;
    let script = format!(in alloc; "{text}{}", full.main)?;
    meet_row(rt, alloc, Row::Done(script.as_str(), b"3\n", b"3\n"))?;
    is_refused(rt, alloc, SEQ, text.as_str(), full.more, "many")
}

#[test]
fn scripts_are_full(rt: HostRuntime) -> Result<(), Fail> {
    for full in FULL {
        is_full(&rt, rt.alloc(), full)?;
    }
    Ok(())
}

// The ends of a pipe of 64 stages, and of one of 65.
const PIPE: &str = " };";

const LONGER_PIPE: &str = "; ^atomic a };";

#[test]
fn many_stages(rt: HostRuntime) -> Result<(), Fail> {
    let alloc = rt.alloc();
    let mut text = format!(in alloc; "{KNOWN}main = pipe {{ atomic a")?;
    push_times(&mut text, "; atomic a", 63)?;
    is_refused(&rt, alloc, SEQ, text.as_str(), LONGER_PIPE, "many")?;
    text.push_str(PIPE)?;
    meet_row(&rt, alloc, Row::Done(text.as_str(), b"3\n", b"3\n"))
}

// How many numbers a record may have.
const MOST_NUMBERS: usize = 1_048_576;

// The greatest matrix in the greatest grid, of which each number is below 1.
const GREATEST: &str =
    "muesli 1; fun low(x) = x < 1; data t { m = matrix 1024 1024 grid 32 32 at 0; n = transpose m; l = map low n; s = fold sum l; give s; } main = data t on 64;";

const WIDE: &[u8] = b"muesli: line 1: too many numbers\n";

#[test]
fn long_records(rt: HostRuntime) -> Result<(), Fail> {
    let alloc = rt.alloc();
    let mut zeros = String::from_str(alloc, "0")?;
    push_times(&mut zeros, " 0", MOST_NUMBERS - 1)?;
    meet_row(&rt, alloc, Row::Done(SUM, zeros.as_bytes(), b"0\n"))?;
    meet_row(
        &rt,
        alloc,
        Row::Done(GREATEST, zeros.as_bytes(), b"1048576\n"),
    )?;
    zeros.push_str(" 0")?;
    meet_row(&rt, alloc, Row::Faults(SUM, zeros.as_bytes(), b"", WIDE))
}

// How many bytes a script may have, comments included.
const MOST: usize = 1_048_576;

const MORE: usize = 1_048_577;

const TOO_LONG: &[u8] = b"muesli: script too long\n";

const COMMENTED: &str = "muesli 1;\nfun sq(x) = x * x;\nmain = atomic sq;\n#";

// The beginning of a script, how many bytes it has, and what comes of it. Whether it is one is asked only where it isn't
// too long.
const LONG: &[(&str, usize, &[u8], &[u8], u8)] = &[
    (COMMENTED, MOST, b"9\n", b"", 0),
    (COMMENTED, MORE, b"", TOO_LONG, 2),
    ("", MOST, b"", b"muesli: script: long name at 0\n", 2),
    ("", MORE, b"", TOO_LONG, 2),
];

#[test]
fn long_scripts(rt: HostRuntime) -> Result<(), Fail> {
    let alloc = rt.alloc();
    for (before, length, out, message, code) in LONG {
        let mut text = String::from_str(alloc, before)?;
        push_times(&mut text, "x", length.saturating_sub(before.len()))?;
        let case = Case {
            out,
            code: *code,
            ..not_run(text.as_str(), message)
        };
        meet(&rt, alloc, &case)?;
    }
    Ok(())
}
