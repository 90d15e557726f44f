//! How many processes a script needs, and that nothing is read or written where there are fewer.

use msl_fixture::{Case, Outside, SQUARE, UNREAD, WORKING, meet, meet_over, not_run};
use std::test::Fail;

// It needs 6.
const FIVE_STAGES: &str =
    "muesli 1;\nfun sq(x) = x * x;\nmain = pipe { atomic sq; atomic sq; atomic sq; atomic sq; atomic sq };\n";

const SUM: &str =
    "muesli 1; fun tiny(a, b) = b - a <= 1; fun one(a, b) = if b - a == 1 then a else 0; fun half(a, b, j) = [if j == 0 then a else (a + b) / 2, if j == 0 then (a + b) / 2 else b]; fun add(x, y) = x + y; divcon range { parts 2; cutoff 3; simple tiny; solve one; divide half; combine add; } main = divcon range on 7;";

const DEVIATIONS: &str =
    "muesli 1; fun dev(s, x) = 4 * x - s; data d { a = array 2; s = fold sum a; b = map dev(s) a; give b; } main = farm 2 { data d on 2 };";

// It needs 65.
const LARGE: &str = "muesli 1; data d { a = array 1; give a; } main = data d on 64;";

// Words, a script, its input and its results.
const SERVED: &[(&[&str], &str, &[u8], &[u8])] = &[
    (&["rounds", "script"], SQUARE, b"3\n-4\n", b"9\n16\n"),
    (&["rounds", "-p", "2", "script"], SQUARE, b"3\n", b"9\n"),
    (
        &["rounds", "script", "-p", "6"],
        FIVE_STAGES,
        b"1\n",
        b"1\n",
    ),
    (
        &["rounds", "-p", "8", "script"],
        SUM,
        b"0 10\n0 0\n",
        b"45\n0\n",
    ),
    (
        &["rounds", "-p", "5", "script"],
        DEVIATIONS,
        b"1 2 3 6\n",
        b"-8 -4 0 12\n",
    ),
    (&["seq", "script"], FIVE_STAGES, b"1\n", b"1\n"),
    (&["seq", "script"], LARGE, b"1 2\n", b"1 2\n"),
];

#[test]
fn there_are_enough(rt: HostRuntime) -> Result<(), Fail> {
    for &(words, script, input, out) in SERVED {
        let case = Case {
            words,
            input,
            out,
            code: 0,
            ..not_run(script, b"")
        };
        meet(&rt, rt.alloc(), &case)?;
    }
    Ok(())
}

// Words, a script and the message.
const TOO_FEW: &[(&[&str], &str, &[u8])] = &[
    (
        &["rounds", "-p", "2", "script"],
        FIVE_STAGES,
        b"muesli: need 6 processes, have 2\n",
    ),
    (
        &["rounds", "-p", "5", "script"],
        FIVE_STAGES,
        b"muesli: need 6 processes, have 5\n",
    ),
    (
        &["rounds", "script"],
        FIVE_STAGES,
        b"muesli: need 6 processes, have 4\n",
    ),
    (
        &["rounds", "-p", "0001", "script"],
        SQUARE,
        b"muesli: need 2 processes, have 1\n",
    ),
    (
        &["rounds", "-p", "7", "script"],
        SUM,
        b"muesli: need 8 processes, have 7\n",
    ),
    (
        &["rounds", "-p", "64", "script"],
        LARGE,
        b"muesli: need 65 processes, have 64\n",
    ),
    (
        &["check", "-p", "1", "script"],
        SQUARE,
        b"muesli: need 2 processes, have 1\n",
    ),
    (
        &["check", "script", "-p", "5"],
        FIVE_STAGES,
        b"muesli: need 6 processes, have 5\n",
    ),
    (
        &["demo", "-p", "3", "10"],
        SQUARE,
        b"muesli: need 4 processes, have 3\n",
    ),
];

#[test]
fn there_are_too_few(rt: HostRuntime) -> Result<(), Fail> {
    for &(words, script, message) in TOO_FEW {
        let case = Case {
            words,
            ..not_run(script, message)
        };
        meet(&rt, rt.alloc(), &case)?;
    }
    Ok(())
}

#[test]
fn a_check_asks_where_a_number_is_given(rt: HostRuntime) -> Result<(), Fail> {
    const TEXT: &[u8] = b"muesli 1;\nfun sq(x) = x * x;\nmain = atomic sq;\n# need 2\n";
    for words in [
        &["check", "script"] as &'static [&'static str],
        &["check", "-p", "2", "script"],
    ] {
        let case = Case {
            words,
            out: TEXT,
            code: 0,
            ..not_run(SQUARE, b"")
        };
        meet(&rt, rt.alloc(), &case)?;
    }
    Ok(())
}

// The words and the script are refused before their need.
#[test]
fn need_is_the_last_refusal(rt: HostRuntime) -> Result<(), Fail> {
    let words = &["rounds", "-p", "1", "script"];
    let refused = Case {
        words,
        ..not_run("muesli 2;", b"muesli: script: version at 7\n")
    };
    meet(&rt, rt.alloc(), &refused)?;
    let unfetched = Case {
        words,
        code: 3,
        ..not_run(SQUARE, b"muesli: cannot read script\n")
    };
    let failing = Outside {
        fetches: &[1],
        ..WORKING
    };
    meet_over(&rt, rt.alloc(), &failing, &unfetched)
}

#[test]
fn need_is_told_before_a_read_fails(rt: HostRuntime) -> Result<(), Fail> {
    let failing = Outside {
        reads: &[1],
        writes: &[1],
        ..WORKING
    };
    let case = Case {
        words: &["rounds", "-p", "2", "script"],
        input: UNREAD,
        ..not_run(FIVE_STAGES, b"muesli: need 6 processes, have 2\n")
    };
    meet_over(&rt, rt.alloc(), &failing, &case)
}
