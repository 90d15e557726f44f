//! Streams that stop before their end, and writes that fail: no filter gives what it holds.

use crate::flow::{BAD_COUNT, BY_ZERO, BY_ZERO_2, COUNTING, FUNCTIONS, Flow, HOLDING, meet_flows};
use msl_fixture::{Case, Outside, ROUNDS, SEQ, WORKING, meet_over, not_run};
use std::alloc::{AllocError, Global};
use std::test::Fail;
use std::thread::Threads;

const STOPS: &[Flow<'static>] = &[
    // Behind a stage that faults.
    Flow::Faults(
        "pipe { atomic a; filter pairs }",
        b"10\n5\n2\n0\n3\n",
        b"1 2\n",
        BY_ZERO,
    ),
    Flow::Faults(
        "pipe { farm 2 { atomic a }; filter tail }",
        b"0\n",
        b"",
        BY_ZERO,
    ),
    // Behind a filter that faults, at a record and at the end.
    Flow::Faults(
        "pipe { filter told; filter pairs }",
        b"3\n65\n",
        b"0 1\n",
        BAD_COUNT,
    ),
    Flow::Faults("pipe { filter left; filter tail }", b"-1\n", b"", BAD_COUNT),
    // Behind a line that is no record.
    Flow::Faults(
        "filter pairs",
        b"1\n2 x\n",
        b"",
        b"muesli: line 2: bad record\n",
    ),
    Flow::Faults(
        "filter pairs",
        b"1\n2\n3\nx\n5\n",
        b"1 2\n",
        b"muesli: line 4: bad record\n",
    ),
    Flow::Faults(
        "pipe { filter tail; filter tail }",
        b"x\n",
        b"",
        b"muesli: line 1: bad record\n",
    ),
];

#[test]
fn a_stream_stops(rt: HostRuntime) -> Result<(), Fail> {
    let items = items(rt.alloc())?;
    meet_flows(&rt, rt.alloc(), items.as_str(), STOPS)
}

fn items(alloc: Global) -> Result<String, AllocError> {
    format!(in alloc; "{FUNCTIONS}{HOLDING}{COUNTING}")
}

const NO_READ: &[u8] = b"muesli: read fault\n";

const NO_WRITE: &[u8] = b"muesli: write fault\n";

// A main stage, the input, and what comes of it: the results, the message and the status.
type End<'a> = (&'a str, &'a [u8], &'a [u8], &'a [u8], u8);

// Runs both commands where some calls fail.
fn is_ended(
    rt: &(impl Threads + Sync),
    alloc: Global,
    outside: &Outside<'_>,
    end: &End<'_>,
) -> Result<(), Fail> {
    let (main, input, out, message, code) = *end;
    let items = items(alloc)?;
    let script = format!(in alloc; "muesli 1;\n{items}main = {main};\n")?;
    for words in [SEQ, ROUNDS] {
        let case = Case {
            words,
            input,
            out,
            code,
            ..not_run(script.as_str(), message)
        };
        meet_over(rt, alloc, outside, &case)?;
    }
    Ok(())
}

// How many bytes each read gives, the read that fails, and what comes of that. The results of the whole lines before it
// are written.
const READS: &[(usize, u64, End<'static>)] = &[
    (2, 1, ("filter pairs", b"1\n2\n3\n", b"", NO_READ, 3)),
    (2, 2, ("filter pairs", b"1\n2\n3\n", b"", NO_READ, 3)),
    (2, 3, ("filter pairs", b"1\n2\n3\n", b"1 2\n", NO_READ, 3)),
    (2, 4, ("filter pairs", b"1\n2\n3\n", b"1 2\n", NO_READ, 3)),
    (2, 5, ("filter pairs", b"1\n2\n3\n", b"1 2\n3\n", b"", 0)),
    // In the middle of a line, and before anything.
    (3, 2, ("filter pairs", b"1\n2\n3\n", b"", NO_READ, 3)),
    (2, 1, ("filter tail", b"", b"", NO_READ, 3)),
    // A fault of the stream comes before it.
    (
        2,
        4,
        (
            "pipe { filter delay; atomic b }",
            b"5\n2\n7\n",
            b"3\n",
            BY_ZERO_2,
            1,
        ),
    ),
    (
        2,
        3,
        (
            "pipe { filter delay; atomic b }",
            b"5\n2\n7\n",
            b"3\n",
            NO_READ,
            3,
        ),
    ),
];

#[test]
fn a_read_fails(rt: HostRuntime) -> Result<(), Fail> {
    for (piece, n, end) in READS {
        let outside = Outside {
            read_piece: *piece,
            reads: &[*n],
            ..WORKING
        };
        is_ended(&rt, rt.alloc(), &outside, end)?;
    }
    Ok(())
}

// Results of records, of the end, of both, and before a fault.
const WRITES: &[End<'static>] = &[
    ("filter told", b"3\n2\n", b"0\n1\n2\n0\n1\n", b"", 0),
    ("filter tail", b"", b"7\n8\n9\n", b"", 0),
    (
        "pipe { filter pairs; farm 2 { atomic add }; filter tail }",
        b"1\n2\n3\n4\n",
        b"17\n18\n19\n",
        b"",
        0,
    ),
    ("filter pairs", b"1\n2\n3\n", b"1 2\n3\n", b"", 0),
    ("filter told", b"2\n65\n1\n", b"0\n1\n", BAD_COUNT, 1),
];

// Each write takes one byte, and behind them comes the flush. Behind a call that fails there is none.
#[test]
fn a_write_or_the_flush_fails(rt: HostRuntime) -> Result<(), Fail> {
    for &(main, input, out, message, code) in WRITES {
        for n in 0..out.len() + 2 {
            let outside = Outside {
                write_piece: 1,
                writes: &[n as u64 + 1],
                ..WORKING
            };
            let end = match out.get(..n) {
                Some(written) => (main, input, written, NO_WRITE, 3),
                None => (main, input, out, message, code),
            };
            is_ended(&rt, rt.alloc(), &outside, &end)?;
        }
    }
    Ok(())
}
