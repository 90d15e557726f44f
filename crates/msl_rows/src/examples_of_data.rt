//! The scripts of the folder `examples` that move numbers or make matrices, and one of counts, with their records and
//! results and what `check` makes of them.

use msl_fixture::{Row, is_checked, meet_both};
use std::test::Fail;

const SKEW: &str =
    "# A data program: each row of a matrix of four moves to the left by as many places as rows stand above it, and round. Each
# number is a block.
muesli 1;
fun left(row) = -row;
data skew {
  rows = matrix 4 4 grid 4 4 at 0;
  result = rotateRows left rows;
  give result;
}
main = data skew on 2;
";

const TURNED: &str =
    "# A data program: the columns of a matrix of two rows as rows. The members hold it in two blocks.
muesli 1;
data turned {
  rows = matrix 2 3 grid 1 2 at 0;
  columns = transpose rows;
  give columns;
}
main = data turned on 2;
";

const HISTOGRAM: &str =
    "# A data program: how many numbers are at most 0, 1, 2 and 3, of four numbers or more from 0 to 3. Each counts by a power
# of a thousand, so that one sum holds the four counts.
muesli 1;
fun weight(x) = loop i below x, a = 1 in a * 1000;
fun tally(total, i, x) = total / weight(i) % 1000;
data histogram {
  numbers = array 3;
  weights = map weight numbers;
  total = fold sum weights;
  places = array 3 at 0 len 4;
  counts = mapIndex tally(total) places;
  result = scan sum counts;
  give result;
}
main = data histogram on 2;
";

const MOVING: &str =
    "# A data program: each number with the one before it, and the first with the last. Where a number goes is told by how many
# there are, which is the sum of as many ones.
muesli 1;
fun one(x) = 1;
fun after(n, i) = (i + 1) % n;
fun add(x, y) = x + y;
data moving {
  numbers = array 3;
  ones = map one numbers;
  n = fold sum ones;
  before = permute after(n) numbers;
  result = zip add numbers before;
  give result;
}
main = data moving on 2;
";

const RUN: &[Row<'static>] = &[
    Row::Done(
        SKEW,
        b"0 1 2 3 4 5 6 7 8 9 10 11 12 13 14 15\n1 0 0 0 0 1 0 0 0 0 1 0 0 0 0 1\n",
        b"0 1 2 3 5 6 7 4 10 11 8 9 15 12 13 14\n1 0 0 0 1 0 0 0 1 0 0 0 1 0 0 0\n",
    ),
    Row::Done(
        TURNED,
        b"1 2 3 4 5 6\n7 0 0 -7 1 1\n",
        b"1 4 2 5 3 6\n7 -7 0 1 0 1\n",
    ),
    Row::Done(
        HISTOGRAM,
        b"0 1 2 3 3 3 0 1\n2 2 2 2\n3 0 0 3 1\n",
        b"2 4 5 8\n0 0 4 4\n2 3 3 5\n",
    ),
    Row::Done(
        MOVING,
        b"1 2 3 4\n10\n\n5 -5 7\n",
        b"5 3 5 7\n20\n\n12 0 2\n",
    ),
];

#[test]
fn examples_are_met(rt: HostRuntime) -> Result<(), Fail> {
    meet_both(&rt, rt.alloc(), RUN)
}

// Each script, and what `check` makes of it.
const CHECKED: &[(&str, &str)] = &[
    (
        SKEW,
        "muesli 1;
fun left(row) = -row;
data skew {
  rows = matrix 4 4 grid 4 4 at 0;
  result = rotateRows left rows;
  give result;
}
main = data skew on 2;
# need 3
",
    ),
    (
        TURNED,
        "muesli 1;
data turned {
  rows = matrix 2 3 grid 1 2 at 0;
  columns = transpose rows;
  give columns;
}
main = data turned on 2;
# need 3
",
    ),
    (
        HISTOGRAM,
        "muesli 1;
fun weight(x) = loop i below x, a = 1 in a * 1000;
fun tally(total, i, x) = (total / weight(i)) % 1000;
data histogram {
  numbers = array 3;
  weights = map weight numbers;
  total = fold sum weights;
  places = array 3 at 0 len 4;
  counts = mapIndex tally(total) places;
  result = scan sum counts;
  give result;
}
main = data histogram on 2;
# need 3
",
    ),
    (
        MOVING,
        "muesli 1;
fun one(x) = 1;
fun after(n, i) = (i + 1) % n;
fun add(x, y) = x + y;
data moving {
  numbers = array 3;
  ones = map one numbers;
  n = fold sum ones;
  before = permute after(n) numbers;
  result = zip add numbers before;
  give result;
}
main = data moving on 2;
# need 3
",
    ),
];

#[test]
fn examples_are_checked(rt: HostRuntime) -> Result<(), Fail> {
    for (script, text) in CHECKED {
        is_checked(&rt, rt.alloc(), script, text)?;
    }
    Ok(())
}
