//! Data programs of matrices.

use msl_fixture::{Row, meet_row, meet_rows};
use std::alloc::Global;
use std::test::Fail;
use std::thread::Threads;

// In each block row the blocks move so many places to the left as block rows stand above it.
const SKEWED: &str =
    "muesli 1;\nfun neg(i) = -i;\ndata t { a = matrix 4 4 grid 2 2 at 0; b = rotateRows neg a; give b; }\nmain = data t on 2;\n";

const SKEWED_RAGGED: &str =
    "muesli 1;\nfun neg(i) = -i;\ndata t { a = matrix 4 4 grid 2 3 at 0; b = rotateRows neg a; give b; }\nmain = data t on 2;\n";

const FROM_0: &[u8] = b"0 1 2 3 4 5 6 7 8 9 10 11 12 13 14 15\n";

const RAGGED: &[u8] = b"muesli: stage 1: blocks differ in size\n";

const WORKED: &[Row<'static>] = &[
    Row::Done(SKEWED, FROM_0, b"0 1 2 3 4 5 6 7 10 11 8 9 14 15 12 13\n"),
    Row::Faults(SKEWED_RAGGED, FROM_0, b"", RAGGED),
];

#[test]
fn worked_matrices(rt: HostRuntime) -> Result<(), Fail> {
    meet_rows(&rt, rt.alloc(), WORKED)
}

const PROGRAMS: &[Row<'static>] = &[
    // A matrix is turned, rotated and turned back: its columns move one place to the right.
    Row::Done(
        "muesli 1; fun one(t) = 1; data t { m = matrix 2 3 grid 1 3 at 0; a = transpose m; b = rotateCols one a; c = transpose b; give c; } main = data t on 2;",
        b"1 2 3 4 5 6\n-1 0 7 8 0 9\n",
        b"3 1 2 6 4 5\n7 -1 0 9 8 0\n",
    ),
    Row::Done(
        "muesli 1; fun down(t) = t; data t { m = matrix 3 3 grid 3 3 at 0; r = rotateCols down m; give r; } main = data t on 3;",
        b"1 2 3 4 5 6 7 8 9\n",
        b"1 8 6 4 2 9 7 5 3\n",
    ),
    // Rows and columns, counted from 0.
    Row::Done(
        "muesli 1; fun place(r, c, x) = 10 * r + c + x; data t { m = matrix 2 2 grid 2 1 at 0; r = mapIndex place m; give r; } main = data t on 2;",
        b"0 0 0 0\n1 2 3 4\n",
        b"0 1 10 11\n1 3 13 15\n",
    ),
    // The sum of a diagonal.
    Row::Done(
        "muesli 1; fun diagonal(r, c, x) = if r == c then x else 0; data t { m = matrix 3 3 grid 2 2 at 0; d = mapIndex diagonal m; s = fold sum d; give s; } main = data t on 2;",
        b"1 2 3 4 5 6 7 8 9\n0 1 1 1 0 1 1 1 -4\n",
        b"15\n-4\n",
    ),
    // How far a matrix is from being symmetric.
    Row::Done(
        "muesli 1; fun less(x, y) = x - y; data t { m = matrix 2 2 grid 1 1 at 0; n = transpose m; d = zip less m n; give d; } main = data t on 2;",
        b"1 2 5 4\n",
        b"0 -3 3 0\n",
    ),
    // Two matrices of one record.
    Row::Done(
        "muesli 1; fun add(x, y) = x + y; data t { m = matrix 2 2 grid 2 2 at 0; n = matrix 2 2 grid 2 2 at 4; s = zip add m n; give s; } main = data t on 2;",
        b"1 2 3 4 10 20 30 40\n",
        b"11 22 33 44\n",
    ),
    Row::Done(
        "muesli 1; fun pick(r, c, x, y) = if (r + c) % 2 == 0 then x else y; data t { m = matrix 2 3 grid 2 3 at 0; n = matrix 2 3 grid 2 3 at 6; p = zipIndex pick m n; give p; } main = data t on 4;",
        b"1 2 3 4 5 6 -1 -2 -3 -4 -5 -6\n",
        b"1 -2 3 -4 5 -6\n",
    ),
    // A matrix is a part of the record, and its greatest number an argument. Arrays stand beside it.
    Row::Done(
        "muesli 1; fun under(s, x) = s - x; data t { a = array 2; m = matrix 1 2 grid 1 1 at 1; s = fold max m; b = map under(s) a; give b; } main = data t on 2;",
        b"1 2 3 4\n9 -9 -8 -7\n",
        b"2 1 0 -1\n-17 1 0 -1\n",
    ),
    Row::Done(
        "muesli 1; fun twice(x) = 2 * x; data t { m = matrix 2 2 grid 2 2 at 1; n = map twice m; give n; } main = data t on 2;",
        b"9 1 2 3 4 9\n9 5 6 7 8\n",
        b"2 4 6 8\n10 12 14 16\n",
    ),
];

#[test]
fn programs_of_matrices(rt: HostRuntime) -> Result<(), Fail> {
    meet_rows(&rt, rt.alloc(), PROGRAMS)
}

const BEHIND: &str =
    "muesli 1; data t { m = matrix 2 2 grid 1 1 at 1; n = transpose m; give n; } main = data t on 2;";

// 0 divides nothing, and the quotient 6 is too great.
const QUOTIENTS: &str =
    "muesli 1; fun f(x) = 6 / x * 4611686018427387904; data t { m = matrix 2 4 grid 1 2 at 0; n = map f m; s = fold sum n; give s; } main = data t on 2;";

// The second line faults where a number is above 0, the third always.
const LINES: &str =
    "muesli 1; fun f(s) = s / 0; fun g(x) = 9223372036854775807 + x; data t { m = matrix 2 1 grid 2 1 at 0; n = map g m; r = rotateCols f m; give n; } main = data t on 2;";

const FAULTS: &[Row<'static>] = &[
    // The numbers of a matrix have to stand in the record.
    Row::Faults(
        BEHIND,
        b"0 1 2 3 4\n1 2 3 4\n",
        b"1 3 2 4\n",
        b"muesli: stage 1: record of 4 numbers, 5 wanted\n",
    ),
    Row::Faults(
        BEHIND,
        b"\n",
        b"",
        b"muesli: stage 1: record of 0 numbers, 5 wanted\n",
    ),
    Row::Faults(
        "muesli 1; data t { m = matrix 1024 1024 grid 32 32 at 1048576; s = fold sum m; give s; } main = data t on 2;",
        b"1 2\n",
        b"",
        b"muesli: stage 1: record of 2 numbers, 2097152 wanted\n",
    ),
    // Of two places that fault the least row by row counts, though the other stands before it in the blocks.
    Row::Faults(
        QUOTIENTS,
        b"7 7 7 1 0 7 7 7\n",
        b"",
        b"muesli: stage 1: overflow\n",
    ),
    Row::Faults(
        QUOTIENTS,
        b"7 7 7 0 1 7 7 7\n",
        b"",
        b"muesli: stage 1: division by zero\n",
    ),
    // Of two lines the first.
    Row::Faults(LINES, b"0 0\n", b"", b"muesli: stage 1: division by zero\n"),
    Row::Faults(LINES, b"0 1\n", b"", b"muesli: stage 1: overflow\n"),
    // Blocks that differ in size come before all faults of the function.
    Row::Faults(
        "muesli 1; fun f(s) = s / 0; data t { m = matrix 2 3 grid 1 2 at 0; r = rotateRows f m; give r; } main = data t on 2;",
        b"1 2 3 4 5 6\n",
        b"",
        RAGGED,
    ),
    Row::Faults(
        "muesli 1; fun f(s) = 6 / (s - 1); data t { m = matrix 2 2 grid 2 2 at 0; r = rotateRows f m; give m; } main = data t on 2;",
        b"1 2 3 4\n",
        b"",
        b"muesli: stage 1: division by zero\n",
    ),
    // A fold settles at its end.
    Row::Faults(
        "muesli 1; data t { m = matrix 2 2 grid 2 2 at 0; s = fold sum m; give s; } main = data t on 2;",
        b"9223372036854775807 1 2 -3\n9223372036854775807 1 2 -2\n",
        b"9223372036854775807\n",
        b"muesli: stage 1: overflow\n",
    ),
];

#[test]
fn faults_of_matrices(rt: HostRuntime) -> Result<(), Fail> {
    meet_rows(&rt, rt.alloc(), FAULTS)
}

// Lines behind a matrix m of 3 rows and 5 columns, and what they give for the numbers from 1 on.
const EACH: &[(&str, &[u8])] = &[
    ("r = map id m;", b"1 2 3 4 5 6 7 8 9 10 11 12 13 14 15\n"),
    ("r = transpose m;", b"1 6 11 2 7 12 3 8 13 4 9 14 5 10 15\n"),
    (
        "n = mapIndex first m; r = transpose n;",
        b"1 6 11 0 0 0 0 0 0 0 0 0 0 0 0\n",
    ),
    ("r = fold sum m;", b"120\n"),
    ("n = transpose m; p = zip less n n; r = fold max p;", b"0\n"),
];

#[test]
fn grids_and_members_leave_matrices(rt: HostRuntime) -> Result<(), Fail> {
    let alloc = rt.alloc();
    for grid in ["1 1", "2 3", "7 1", "1 7", "32 32"] {
        for members in [1, 2, 3, 64] {
            for (lines, out) in EACH {
                let script = format!(in alloc;
                    "muesli 1; fun id(x) = x; fun first(r, c, x) = if c == 0 then x else 0; fun less(x, y) = x - y; data t {{ m = matrix 3 5 grid {grid} at 0; {lines} give r; }} main = data t on {members};"
                )?;
                let input = b"1 2 3 4 5 6 7 8 9 10 11 12 13 14 15\n";
                meet_row(&rt, alloc, Row::Done(script.as_str(), input, out))?;
            }
        }
    }
    Ok(())
}

// Lines behind an array a that give its one number, by each step that makes a matrix or moves numbers.
const STEPS: &[&str] = &[
    "m = matrix 1 1 grid 1 1 at 0; give m;",
    "m = matrix 1 1 grid 1 1 at 0; give a;",
    "b = permutePartition f a; give b;",
    "b = permute f a; give b;",
    "b = permute f a; give a;",
    "b = broadcastPartition 0 a; give b;",
    "m = matrix 1 1 grid 1 1 at 0; n = transpose m; s = fold sum n; give s;",
    "m = matrix 1 1 grid 1 1 at 0; n = rotateRows f m; give n;",
    "m = matrix 1 1 grid 1 1 at 0; n = rotateRows f m; give a;",
    "m = matrix 1 1 grid 1 1 at 0; n = rotateCols f m; give n;",
];

#[test]
fn one_number(rt: HostRuntime) -> Result<(), Fail> {
    let alloc = rt.alloc();
    for lines in STEPS {
        let script = format!(in alloc;
            "muesli 1; fun f(x) = x; data d {{ a = array 1; {lines} }} main = data d on 1;"
        )?;
        meet_row(&rt, alloc, Row::Done(script.as_str(), b"3\n", b"3\n"))?;
    }
    Ok(())
}
