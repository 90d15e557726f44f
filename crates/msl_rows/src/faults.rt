//! Sources, sinks and libraries that fail at one of their calls.

use msl_fixture::{CHECK, Case, Outside, SEQ, SQUARE, WORKING, meet_over};
use std::test::Fail;

const SECOND_READ: Outside<'static> = Outside {
    read_piece: 2,
    reads: &[2],
    ..WORKING
};

const SECOND_WRITE: Outside<'static> = Outside {
    write_piece: 3,
    writes: &[2],
    ..WORKING
};

const FIRST_FETCH: Outside<'static> = Outside {
    fetches: &[1],
    ..WORKING
};

const FIRST_MESSAGE: Outside<'static> = Outside {
    messages: &[1],
    ..WORKING
};

const NO_READ: &[u8] = b"muesli: read fault\n";

const NO_WRITE: &[u8] = b"muesli: write fault\n";

const NO_SCRIPT: &[u8] = b"muesli: cannot read script\n";

// A run of which nothing is written since the script can't be read.
const FAILED: Case<'static> = Case {
    words: SEQ,
    script: SQUARE,
    input: b"3\n",
    out: b"",
    message: NO_SCRIPT,
    code: 3,
};

const FAILING: &[(Outside<'static>, Case<'static>)] = &[
    (
        SECOND_READ,
        Case {
            input: b"3\n4\n",
            out: b"9\n",
            message: NO_READ,
            ..FAILED
        },
    ),
    (
        SECOND_WRITE,
        Case {
            input: b"3037000499\n",
            out: b"922",
            message: NO_WRITE,
            ..FAILED
        },
    ),
    (FIRST_FETCH, FAILED),
    (
        SECOND_WRITE,
        Case {
            words: CHECK,
            out: b"mue",
            message: NO_WRITE,
            ..FAILED
        },
    ),
    (
        FIRST_FETCH,
        Case {
            words: CHECK,
            ..FAILED
        },
    ),
    // The status is that of the run, whether or not it can be told.
    (
        FIRST_MESSAGE,
        Case {
            script: "muesli 1;\n",
            message: b"",
            code: 2,
            ..FAILED
        },
    ),
];

#[test]
fn a_failing_call_ends_the_run(rt: HostRuntime) -> Result<(), Fail> {
    for (outside, case) in FAILING {
        meet_over(&rt, rt.alloc(), outside, case)?;
    }
    Ok(())
}

const RECORDS: &[u8] = b"3\n4\n5\n";

const RESULTS: &[u8] = b"9\n16\n25\n";

// The read that fails where each gives one line, and what comes of that: the results of the lines before are written. The
// fourth would tell that no more comes.
const READS: &[(u64, &[u8], &[u8], u8)] = &[
    (1, b"", NO_READ, 3),
    (2, b"9\n", NO_READ, 3),
    (3, b"9\n16\n", NO_READ, 3),
    (4, RESULTS, NO_READ, 3),
    (5, RESULTS, b"", 0),
];

#[test]
fn every_failing_read_is_told(rt: HostRuntime) -> Result<(), Fail> {
    for &(n, out, message, code) in READS {
        let outside = Outside {
            read_piece: 2,
            reads: &[n],
            ..WORKING
        };
        let case = Case {
            input: RECORDS,
            out,
            message,
            code,
            ..FAILED
        };
        meet_over(&rt, rt.alloc(), &outside, &case)?;
    }
    Ok(())
}

// What the commands write where nothing fails.
const WRITTEN: &[(&[&str], &[u8])] = &[
    (SEQ, RESULTS),
    (
        CHECK,
        b"muesli 1;\nfun sq(x) = x * x;\nmain = atomic sq;\n# need 2\n",
    ),
];

// Each write takes one byte, and behind them comes the flush. Behind a call that fails there is none, so that the bytes
// before are all that is held.
#[test]
fn a_failing_write_or_flush_is_the_last_call(rt: HostRuntime) -> Result<(), Fail> {
    for &(words, out) in WRITTEN {
        for n in 0..out.len() + 2 {
            let fails = n <= out.len();
            let case = Case {
                words,
                input: RECORDS,
                out: &out[..n.min(out.len())],
                message: if fails { NO_WRITE } else { b"" },
                code: if fails { 3 } else { 0 },
                ..FAILED
            };
            let outside = Outside {
                write_piece: 1,
                writes: &[n as u64 + 1],
                ..WORKING
            };
            meet_over(&rt, rt.alloc(), &outside, &case)?;
        }
    }
    Ok(())
}
