//! What the demonstration writes.

use msl_fixture::{Case, Outside, SQUARE, WORKING, meet, meet_over, not_run};
use std::test::Fail;

const LINES: &[(&[&str], &[u8])] = &[
    (
        &["demo", "0"],
        b"demo: 0 records in, 0 records out, 0 numbers, sum 0\n",
    ),
    (
        &["demo", "4"],
        b"demo: 4 records in, 4 records out, 12 numbers, sum 304\n",
    ),
    (
        &["demo", "10"],
        b"demo: 10 records in, 10 records out, 30 numbers, sum 4800\n",
    ),
    (
        &["demo", "-p", "4", "000010"],
        b"demo: 10 records in, 10 records out, 30 numbers, sum 4800\n",
    ),
    (
        &["demo", "144", "-p", "64"],
        b"demo: 144 records in, 144 records out, 432 numbers, sum 13687104\n",
    ),
];

#[test]
fn the_line_is_written(rt: HostRuntime) -> Result<(), Fail> {
    for &(words, out) in LINES {
        let case = Case {
            words,
            out,
            code: 0,
            ..not_run(SQUARE, b"")
        };
        meet(&rt, rt.alloc(), &case)?;
    }
    Ok(())
}

// It needs neither a library nor a source.
#[test]
fn nothing_else_is_touched(rt: HostRuntime) -> Result<(), Fail> {
    let failing = Outside {
        fetches: &[1],
        reads: &[1],
        ..WORKING
    };
    let case = Case {
        words: &["demo", "4"],
        out: b"demo: 4 records in, 4 records out, 12 numbers, sum 304\n",
        code: 0,
        ..not_run(SQUARE, b"")
    };
    meet_over(&rt, rt.alloc(), &failing, &case)
}

#[test]
fn a_fault_of_writing_is_told(rt: HostRuntime) -> Result<(), Fail> {
    let failing = Outside {
        writes: &[2],
        write_piece: 5,
        ..WORKING
    };
    let case = Case {
        words: &["demo", "4"],
        out: b"demo:",
        code: 3,
        ..not_run(SQUARE, b"muesli: write fault\n")
    };
    meet_over(&rt, rt.alloc(), &failing, &case)
}
