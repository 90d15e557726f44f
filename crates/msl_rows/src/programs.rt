//! Data programs: what comes of them, whatever the blocks and the members.

use msl_fixture::{Row, meet_row, meet_rows};
use std::alloc::{AllocError, Global};
use std::test::Fail;
use std::thread::Threads;

const SUMS: &str =
    "muesli 1;\ndata t { a = array 3; b = scan sum a; give b; }\nmain = data t on 2;\n";

/// The sum of a record.
pub const SUM: &str =
    "muesli 1;\ndata t { a = array 2; b = fold sum a; give b; }\nmain = data t on 1;\n";

const WORKED: &[Row<'static>] = &[
    Row::Done(SUMS, b"1 2 3 4 5 6 7\n", b"1 3 6 10 15 21 28\n"),
    Row::Done(SUM, b"9223372036854775807 1 -1\n", b"9223372036854775807\n"),
    Row::Faults(
        SUMS,
        b"9223372036854775807 1 -1\n",
        b"",
        b"muesli: stage 1: overflow\n",
    ),
    Row::Done(
        "muesli 1; data t { a = array 2; b = fold gcd a; give b; } main = data t on 2;",
        b"12 -18\n",
        b"6\n",
    ),
    Row::Done(
        "muesli 1; data t { a = array 2; b = fold addmod 7 a; give b; } main = data t on 2;",
        b"-1 3\n",
        b"2\n",
    ),
    Row::Done(
        "muesli 1; data t { a = array 2; b = fold mulmod 10 a; give b; } main = data t on 2;",
        b"7 8\n",
        b"6\n",
    ),
    Row::Done(
        "muesli 1; data t { a = array 2; b = fold min a; give b; } main = data t on 2;",
        b"\n",
        b"9223372036854775807\n",
    ),
    Row::Faults(
        "muesli 1; data t { a = array 2; b = fold gcd a; give b; } main = data t on 2;",
        b"-9223372036854775808\n",
        b"",
        b"muesli: stage 1: overflow\n",
    ),
    Row::Done(
        "muesli 1; fun f(x, y) = x + y; data t { a = array 2; b = zip f a a; give b; } main = data t on 2;",
        b"1 2 3\n",
        b"2 4 6\n",
    ),
    Row::Done(
        "muesli 1; fun f(i, x) = i + x; data t { a = array 2; b = mapIndex f a; give b; } main = data t on 2;",
        b"1 2 3\n",
        b"1 3 5\n",
    ),
    Row::Done(
        "muesli 1; fun f(i, x, y) = i + x + y; data t { a = array 2; b = zipIndex f a a; give b; } main = data t on 2;",
        b"1 2 3\n",
        b"2 5 8\n",
    ),
    Row::Done(
        "muesli 1; fun f(a, x) = a - x; data t { a = array 2; b = foldl f 10 a; give b; } main = data t on 2;",
        b"1 2 3\n",
        b"4\n",
    ),
];

#[test]
fn worked_programs(rt: HostRuntime) -> Result<(), Fail> {
    meet_rows(&rt, rt.alloc(), WORKED)
}

const LINES: &[Row<'static>] = &[
    // The line that is given needn't be the last, and is an array or one number.
    Row::Done(
        "muesli 1; data t { a = array 1; b = fold max a; give a; } main = data t on 1;",
        b"3 -4\n\n5\n",
        b"3 -4\n\n5\n",
    ),
    Row::Done(
        "muesli 1; data t { a = array 4; b = scan max a; c = fold sum b; give c; } main = data t on 3;",
        b"1 5 2 9 3\n",
        b"29\n",
    ),
    // Arguments are numbers of the script and of earlier lines.
    Row::Done(
        "muesli 1; fun dev(s, x) = 4 * x - s; data t { a = array 2; s = fold sum a; b = map dev(s) a; give b; } main = data t on 2;",
        b"1 2 3 6\n",
        b"-8 -4 0 12\n",
    ),
    Row::Done(
        "muesli 1; fun line(k, l, x) = k * x + l; data t { a = array 2; s = fold min a; b = map line(-3, s) a; give b; } main = data t on 2;",
        b"5 2 7\n",
        b"-13 -4 -19\n",
    ),
    Row::Done(
        "muesli 1; fun less(a, x) = a - x; data t { a = array 2; s = fold sum a; b = foldl less s a; give b; } main = data t on 2;",
        b"5 2 7\n",
        b"0\n",
    ),
    // Operators that lift and settle each number.
    Row::Done(
        "muesli 1; data t { a = array 2; b = scan gcd a; give b; } main = data t on 2;",
        b"-12 18 -8 5\n6 -9223372036854775808\n",
        b"12 6 2 1\n6 2\n",
    ),
    Row::Done(
        "muesli 1; data t { a = array 2; b = scan mulmod 10 a; give b; } main = data t on 2;",
        b"-3 4 5 6\n",
        b"7 8 0 0\n",
    ),
    Row::Done(
        "muesli 1; data t { a = array 2; b = scan xor a; give b; } main = data t on 2;",
        b"1 3 -1\n",
        b"1 2 -3\n",
    ),
    // A script may have other definitions.
    Row::Done(
        "muesli 1; fun f(x) = x; data m { a = matrix 1 1 grid 1 1 at 0; give a; } data t { a = array 1; give a; } main = data t on 64;",
        b"3\n",
        b"3\n",
    ),
];

#[test]
fn lines_of_programs(rt: HostRuntime) -> Result<(), Fail> {
    meet_rows(&rt, rt.alloc(), LINES)
}

const CUT: &str = "muesli 1; data t { a = array 2 at 1 len 2; give a; } main = data t on 2;";

const APART: &str =
    "muesli 1; fun f(x, y) = x; data t { a = array 2; b = array 2 at 0 len 1; c = zip f a b; give c; } main = data t on 2;";

const SHAPES: &[Row<'static>] = &[
    Row::Done(CUT, b"1 2 3\n1 2 3 4\n", b"2 3\n2 3\n"),
    Row::Faults(
        CUT,
        b"4 5 6\n1 2\n3 4 5\n",
        b"5 6\n",
        b"muesli: stage 1: record of 2 numbers, 3 wanted\n",
    ),
    Row::Faults(
        CUT,
        b"\n",
        b"",
        b"muesli: stage 1: record of 0 numbers, 3 wanted\n",
    ),
    Row::Done(
        "muesli 1; data t { a = array 3 at 0 len 0; give a; } main = data t on 2;",
        b"\n1\n",
        b"\n\n",
    ),
    Row::Faults(
        "muesli 1; data t { a = array 3 at 1048576 len 1048576; give a; } main = data t on 2;",
        b"1\n",
        b"",
        b"muesli: stage 1: record of 1 numbers, 2097152 wanted\n",
    ),
    // What is wanted is the length of the first array.
    Row::Faults(
        APART,
        b"1\n1 2 3\n",
        b"1\n",
        b"muesli: stage 1: record of 1 numbers, 3 wanted\n",
    ),
    Row::Faults(
        "muesli 1; fun f(x, y) = x; data t { a = array 2; b = array 2 at 0 len 1; c = zip f b a; give c; } main = data t on 2;",
        b"1 2 3\n",
        b"",
        b"muesli: stage 1: record of 3 numbers, 1 wanted\n",
    ),
    Row::Faults(
        "muesli 1; fun f(i, x, y) = x; data t { a = array 2; b = array 2 at 0 len 1; c = zipIndex f a b; give c; } main = data t on 2;",
        b"1 2\n",
        b"",
        b"muesli: stage 1: record of 1 numbers, 2 wanted\n",
    ),
];

#[test]
fn shapes_of_records(rt: HostRuntime) -> Result<(), Fail> {
    meet_rows(&rt, rt.alloc(), SHAPES)
}

// 0 divides nothing, and the quotients 2, 3 and 6 are too great.
const QUOTIENTS: &str =
    "muesli 1; fun f(x) = 6 / x * 4611686018427387904; data t { a = array 3; b = map f a; give b; } main = data t on 3;";

const FAULTS: &[Row<'static>] = &[
    // Of two places that fault the least one counts, and no record behind it is written.
    Row::Faults(
        QUOTIENTS,
        b"6 7 -6\n6 0 1\n6\n",
        b"4611686018427387904 0 -4611686018427387904\n",
        b"muesli: stage 1: division by zero\n",
    ),
    Row::Faults(QUOTIENTS, b"6 1 0\n", b"", b"muesli: stage 1: overflow\n"),
    Row::Faults(
        "muesli 1; fun f(s, x) = 6 / x * 4611686018427387904; data t { a = array 3; b = foldl f 0 a; give b; } main = data t on 3;",
        b"6 1 0\n",
        b"",
        b"muesli: stage 1: overflow\n",
    ),
    // Of two lines the first, given or not.
    Row::Faults(
        "muesli 1; fun f(x) = 1 / x; data t { a = array 1; b = map f a; c = scan sum a; give c; } main = data t on 1;",
        b"9223372036854775807 1 0\n",
        b"",
        b"muesli: stage 1: division by zero\n",
    ),
    Row::Faults(
        "muesli 1; fun f(x) = 1 / x; data t { a = array 1; c = scan sum a; b = map f a; give a; } main = data t on 1;",
        b"9223372036854775807 1 0\n",
        b"",
        b"muesli: stage 1: overflow\n",
    ),
    // A number is settled where it is handed out: at the end of a fold, at each place of a scan.
    Row::Faults(
        SUMS,
        b"9223372036854775806 1 0 0\n9223372036854775806 1 0 1\n",
        b"9223372036854775806 9223372036854775807 9223372036854775807 9223372036854775807\n",
        b"muesli: stage 1: overflow\n",
    ),
    Row::Faults(
        SUM,
        b"-9223372036854775808 -1 1\n-9223372036854775808 -1\n",
        b"-9223372036854775808\n",
        b"muesli: stage 1: overflow\n",
    ),
    // The steps of a function count at each place by itself.
    Row::Faults(
        "muesli 1; fun f(n) = loop i below n, a = 0 in i; data t { a = array 2; b = map f a; give b; } main = data t on 2;",
        b"6000000 6000000\n3 9999998\n",
        b"5999999 5999999\n",
        b"muesli: stage 1: too many steps\n",
    ),
];

#[test]
fn faults_of_programs(rt: HostRuntime) -> Result<(), Fail> {
    meet_rows(&rt, rt.alloc(), FAULTS)
}

// What stands before the number of blocks.
const HEAD: &str =
    "muesli 1; fun double(x) = 2 * x; fun one(x) = 1; fun less(k, x) = x - k; fun place(i, x) = 3 * i + x; fun add(x, y) = x + y; fun all(i, x, y) = i + x + y; data t { a = array ";

const BLOCKS: &[u32] = &[1, 2, 3, 7, 1024];

const MEMBERS: &[u32] = &[1, 2, 3, 64];

const LENGTHS: &[u16] = &[0, 1, 5, 1024];

// The lines, and the first number and the difference of the next of what they give for 5, 4, 3 and so on.
const EACH: &[(&str, i64, i64)] = &[
    ("r = map double a;", 10, -2),
    ("r = map less(3) a;", 2, -1),
    ("r = mapIndex place a;", 5, 2),
    ("b = map double a; r = zip add a b;", 15, -3),
    ("b = map double a; r = zipIndex all a b;", 15, -2),
    ("r = scan min a;", 5, -1),
    ("b = map one a; r = scan sum b;", 1, 1),
];

// The lines, and the one number that they give for each length.
const ONE: &[(&str, &[u8])] = &[
    ("r = fold sum a;", b"0\n5\n15\n-518656\n"),
    ("r = fold min a;", b"9223372036854775807\n5\n1\n-1018\n"),
    ("r = foldl less 10 a;", b"10\n-5\n-7\n-502\n"),
];

// A record of each length, with this first number and this difference of the next.
fn records(alloc: Global, first: i64, by: i64) -> Result<String, AllocError> {
    let mut text = String::new(alloc);
    for length in LENGTHS {
        let mut x = first;
        for i in 0..*length {
            if i > 0 {
                text.push(' ')?;
            }
            write!(text, "{x}")?;
            x = x.wrapping_add(by);
        }
        text.push('\n')?;
    }
    Ok(text)
}

// In any blocks and by any members the lines give this for the numbers 5, 4, 3 and so on of each length.
fn is_given(
    rt: &(impl Threads + Sync),
    alloc: Global,
    lines: &str,
    out: &[u8],
) -> Result<(), Fail> {
    let numbers = records(alloc, 5, -1)?;
    for blocks in BLOCKS {
        for members in MEMBERS {
            let script = format!(in alloc;
                "{HEAD}{blocks}; {lines} give r; }} main = data t on {members};"
            )?;
            meet_row(
                rt,
                alloc,
                Row::Done(script.as_str(), numbers.as_bytes(), out),
            )?;
        }
    }
    Ok(())
}

#[test]
fn blocks_and_members_leave_the_numbers(rt: HostRuntime) -> Result<(), Fail> {
    for (lines, first, by) in EACH {
        let numbers = records(rt.alloc(), *first, *by)?;
        is_given(&rt, rt.alloc(), lines, numbers.as_bytes())?;
    }
    Ok(())
}

#[test]
fn blocks_and_members_leave_one_number(rt: HostRuntime) -> Result<(), Fail> {
    for (lines, out) in ONE {
        is_given(&rt, rt.alloc(), lines, out)?;
    }
    Ok(())
}
