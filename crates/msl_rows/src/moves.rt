//! Data programs that move the numbers or the blocks of an array.

use msl_fixture::{Row, meet_row, meet_rows};
use std::alloc::Global;
use std::test::Fail;
use std::thread::Threads;

// Blocks move one place on, and round.
const NEXT: &str =
    "muesli 1;\nfun nxt(i) = (i + 1) % 3;\nfun zero(i) = 0;\ndata t { a = array 3; b = permutePartition nxt a; give b; }\nmain = data t on 2;\n";

const ZERO: &str =
    "muesli 1;\nfun nxt(i) = (i + 1) % 3;\nfun zero(i) = 0;\ndata t { a = array 3; b = permutePartition zero a; give b; }\nmain = data t on 2;\n";

const BY_0: &str =
    "muesli 1;\nfun nxt(i) = i / 0;\ndata t { a = array 3; b = permutePartition nxt a; give b; }\nmain = data t on 2;\n";

const THREE: &str =
    "muesli 1; fun back(i) = 2 - i; data t { a = array 2; b = permute back a; give b; } main = data t on 2;";

const LAST_HALF: &str =
    "muesli 1; data t { a = array 2; b = broadcastPartition 1 a; give b; } main = data t on 2;";

const RAGGED: &[u8] = b"muesli: stage 1: blocks differ in size\n";

const NOT_PERMUTATION: &[u8] = b"muesli: stage 1: not a permutation\n";

const DIVISION: &[u8] = b"muesli: stage 1: division by zero\n";

const WORKED: &[Row<'static>] = &[
    Row::Done(NEXT, b"1 2 3 4 5 6\n", b"5 6 1 2 3 4\n"),
    Row::Faults(NEXT, b"1 2 3 4 5 6 7\n", b"", RAGGED),
    Row::Faults(ZERO, b"1 2 3 4 5 6\n", b"", NOT_PERMUTATION),
    Row::Done(THREE, b"1 2 3\n", b"3 2 1\n"),
    Row::Done(LAST_HALF, b"1 2 3 4\n", b"3 4 3 4\n"),
];

#[test]
fn worked_moves(rt: HostRuntime) -> Result<(), Fail> {
    meet_rows(&rt, rt.alloc(), WORKED)
}

const RECORDS: &[Row<'static>] = &[
    // Each record by itself, up to the first that has no such move.
    Row::Done(
        NEXT,
        b"1 2 3\n\n1 2 3 4 5 6 7 8 9\n",
        b"3 1 2\n\n7 8 9 1 2 3 4 5 6\n",
    ),
    Row::Faults(NEXT, b"1 2 3\n1 2 3 4\n1 2 3\n", b"3 1 2\n", RAGGED),
    Row::Faults(THREE, b"7 8 9\n4 5\n7 8 9\n", b"9 8 7\n", NOT_PERMUTATION),
    Row::Faults(THREE, b"1 2 3 4\n", b"", NOT_PERMUTATION),
    Row::Done(THREE, b"\n", b"\n"),
    Row::Faults(LAST_HALF, b"1 2\n1 2 3\n", b"2 2\n", RAGGED),
    // Blocks that differ in size come before the function's fault, and that before places that are repeated.
    Row::Faults(BY_0, b"1 2 3 4 5\n", b"", RAGGED),
    Row::Faults(BY_0, b"1 2 3 4 5 6\n", b"", DIVISION),
    Row::Faults(BY_0, b"\n", b"", DIVISION),
    Row::Faults(
        "muesli 1; fun f(i) = if i == 3 then i / 0 else 0; data t { a = array 2; b = permute f a; give b; } main = data t on 2;",
        b"1\n1 2 3 4\n",
        b"1\n",
        DIVISION,
    ),
    // Targets outside count as repeated ones do.
    Row::Faults(
        "muesli 1; fun f(i) = i - 1; data t { a = array 2; b = permute f a; give b; } main = data t on 2;",
        b"1 2 3\n",
        b"",
        NOT_PERMUTATION,
    ),
    Row::Faults(
        "muesli 1; fun f(i) = i + 1; data t { a = array 1; b = permutePartition f a; give b; } main = data t on 2;",
        b"1 2 3\n",
        b"",
        NOT_PERMUTATION,
    ),
    // A line that isn't given can fault too, and of two lines the first counts.
    Row::Faults(
        "muesli 1; fun f(i) = 0; data t { a = array 2; b = permute f a; give a; } main = data t on 2;",
        b"1\n1 2\n",
        b"1\n",
        NOT_PERMUTATION,
    ),
    Row::Faults(
        "muesli 1; fun f(i) = i / 0; data t { a = array 2; b = broadcastPartition 0 a; c = permute f a; give c; } main = data t on 2;",
        b"1 2 3\n",
        b"",
        RAGGED,
    ),
];

#[test]
fn moves_of_records(rt: HostRuntime) -> Result<(), Fail> {
    meet_rows(&rt, rt.alloc(), RECORDS)
}

// What stands before the number of blocks.
const HEAD: &str =
    "muesli 1; fun one(x) = 1; fun back(n, i) = n - 1 - i; fun even(n, i) = 2 * i % n + 2 * i / n; fun sum(x, y) = x + y; data t { a = array ";

// The lines, the numbers and what they give, in any blocks.
const EACH: &[(&str, &[u8], &[u8])] = &[
    // The number of numbers is a sum, which is given to the function.
    (
        "o = map one a; n = fold sum o; r = permute back(n) a;",
        b"5 4 3 2 1\n\n9\n",
        b"1 2 3 4 5\n\n9\n",
    ),
    // The first half goes to the even places and the second to the odd ones.
    ("r = permute even(6) a;", b"1 2 3 4 5 6\n", b"1 4 2 5 3 6\n"),
    (
        "b = permute back(4) a; c = zip sum a b; r = scan sum c;",
        b"1 2 3 5\n",
        b"6 11 16 22\n",
    ),
];

// So many blocks, the lines, the numbers and what they give.
const PARTS: &[(u32, &str, &[u8], &[u8])] = &[
    (
        3,
        "r = permutePartition back(3) a;",
        b"1 2 3 4 5 6\n",
        b"5 6 3 4 1 2\n",
    ),
    (
        4,
        "b = broadcastPartition 2 a; r = zip sum a b;",
        b"1 2 3 4\n10 20 30 40 50 60 70 80\n",
        b"4 5 6 7\n60 80 80 100 100 120 120 140\n",
    ),
    // Blocks go on to the next step as they lie, numbers that moved in blocks as before.
    (
        2,
        "b = permutePartition back(2) a; c = broadcastPartition 0 b; r = permute back(6) c;",
        b"1 2 3 4 5 6\n",
        b"6 5 4 6 5 4\n",
    ),
];

// The members leave what the lines give.
fn is_given(
    rt: &(impl Threads + Sync),
    alloc: Global,
    blocks: u32,
    lines: &str,
    numbers: &[u8],
    out: &[u8],
) -> Result<(), Fail> {
    for members in [1, 2, 3, 64] {
        let script = format!(in alloc;
            "{HEAD}{blocks}; {lines} give r; }} main = data t on {members};"
        )?;
        meet_row(rt, alloc, Row::Done(script.as_str(), numbers, out))?;
    }
    Ok(())
}

#[test]
fn blocks_and_members_leave_moves(rt: HostRuntime) -> Result<(), Fail> {
    for blocks in [1, 2, 3, 7, 1024] {
        for (lines, numbers, out) in EACH {
            is_given(&rt, rt.alloc(), blocks, lines, numbers, out)?;
        }
    }
    Ok(())
}

#[test]
fn members_leave_moves_of_blocks(rt: HostRuntime) -> Result<(), Fail> {
    for (blocks, lines, numbers, out) in PARTS {
        is_given(&rt, rt.alloc(), *blocks, lines, numbers, out)?;
    }
    Ok(())
}
