//! The scripts of the folder `examples`, with their records and results by `seq` and by `rounds`, and what `check` makes
//! of them.

use msl_fixture::{Row, is_checked, meet_both};
use std::test::Fail;

const SQUARE: &str = "# The square of each record, which is one number.
muesli 1;
fun sq(x) = x * x;
main = atomic sq;
";

const APART: &str = "# The square of the distance of two points, given by their coordinates.
muesli 1;
fun sq(x) = x * x;
fun apart(x1, y1, x2, y2) = sq(x1 - x2) + sq(y1 - y2);
main = atomic apart;
";

const POWER: &str =
    "# One function with a loop and a call: x to the power of n, and 1 where n is 0 or less.
muesli 1;
fun power(x, n) = loop i below n, a = 1 in a * x;
fun told(x, n) = [x, n, power(x, n)];
main = atomic told;
";

const SPLIT: &str =
    "# The quotient of two numbers and what is left; the record with a 0 ends the run by a division by zero.
muesli 1;
fun split(a, b) = [a / b, a % b];
main = atomic split;
";

const DEVIATIONS: &str =
    "# A data program: how far each number is from the mean of four, times four. The sum is given to the function.
muesli 1;
fun deviation(sum, x) = 4 * x - sum;
data deviations {
  numbers = array 2;
  total = fold sum numbers;
  result = map deviation(total) numbers;
  give result;
}
main = data deviations on 2;
";

const DROPS: &str =
    "# A data program: how far each number is below the greatest up to it. The members hold the numbers in four blocks.
muesli 1;
fun drop(top, x) = top - x;
data drops {
  levels = array 4;
  tops = scan max levels;
  result = zip drop tops levels;
  give result;
}
main = data drops on 2;
";

const PAIRS: &str =
    "# A filter: two records of one number become one of two. Its state is whether one is held, and which.
muesli 1;
fun ready(held, x, y) = held;
fun both(held, x, y, k) = [x, y];
fun hold(held, x, y) = [1 - held, y];
fun rest(held, x) = held;
fun last_one(held, x, k) = x;
filter pairs {
  state 0, 0;
  count ready;
  item both;
  next hold;
  flush rest;
  last last_one;
}
main = filter pairs;
";

const FARM: &str = "# A farm: three workers square records, and give their results in any order.
muesli 1;
fun sq(x) = x * x;
main = farm 3 { atomic sq };
";

const PIPE: &str =
    "# A pipe of a farm and a data program: sums and products of two numbers, and behind each number the sum up to it.
muesli 1;
fun mix(a, b) = [a + b, a * b, a - b];
data sums {
  numbers = array 2;
  result = scan sum numbers;
  give result;
}
main = pipe { farm 2 { atomic mix }; data sums on 1 };
";

const RANGE: &str =
    "# Divide and conquer: the sum of the numbers from a to b - 1, by halves of the range.
muesli 1;
fun tiny(a, b) = b - a <= 1;
fun one(a, b) = if b - a == 1 then a else 0;
fun half(a, b, j) = let middle = (a + b) / 2 in if j == 0 then middle else b;
fun from(a, b, j) = if j == 0 then a else (a + b) / 2;
fun part(a, b, j) = [from(a, b, j), half(a, b, j)];
fun add(x, y) = x + y;
divcon range {
  parts 2;
  cutoff 3;
  simple tiny;
  solve one;
  divide part;
  combine add;
}
main = divcon range on 2;
";

const PICK: &str =
    "# Branch and bound: which of four things to take, so that their gain is at least r and their cost the least. A node
# is how many were looked at, the cost and the gain so far, and r.
muesli 1;
fun cost(i) = if i == 0 then 3 else if i == 1 then 5 else if i == 2 then 4 else 7;
fun gain(i) = if i == 0 then 2 else if i == 1 then 4 else if i == 2 then 3 else 6;
fun low(i, c, g, r) = c;
fun enough(i, c, g, r) = g >= r;
fun children(i, c, g, r) = if i == 4 then 0 else 2;
fun take(i, c, g, r, k) = [i + 1, c + k * cost(i), g + k * gain(i), r];
bnb pick {
  bound low;
  solved enough;
  value low;
  count children;
  branch take;
}
main = bnb pick on 2;
";

const RUN: &[Row<'static>] = &[
    Row::Done(SQUARE, b"3\n-4\n", b"9\n16\n"),
    Row::Done(APART, b"0 0 3 4\n1 -1 1 -1\n-2 5 10 0\n", b"25\n0\n169\n"),
    Row::Done(POWER, b"2 10\n-3 3\n7 0\n", b"2 10 1024\n-3 3 -27\n7 0 1\n"),
    Row::Faults(
        SPLIT,
        b"7 3\n-7 3\n7 -3\n1 0\n5 5\n",
        b"2 1\n-2 -1\n-2 1\n",
        b"muesli: stage 1: division by zero\n",
    ),
    Row::Done(
        DEVIATIONS,
        b"1 2 3 6\n-4 0 4 8\n5 5 5 5\n",
        b"-8 -4 0 12\n-24 -8 8 24\n0 0 0 0\n",
    ),
    Row::Done(
        DROPS,
        b"3 1 4 1 5 9 2 6\n-7 -9 -8\n\n5\n",
        b"0 2 0 3 0 0 7 3\n0 2 1\n\n0\n",
    ),
    Row::Done(PAIRS, b"1\n2\n3\n", b"1 2\n3\n"),
    Row::Done(FARM, b"3\n-4\n5\n", b"9\n16\n25\n"),
    Row::Done(PIPE, b"2 3\n-1 4\n", b"5 11 10\n3 -1 -6\n"),
    Row::Done(RANGE, b"0 10\n0 0\n5 9\n", b"45\n0\n26\n"),
    Row::Done(
        PICK,
        b"0 0 0 7\n0 0 0 16\n0 0 0 0\n",
        b"9 3 9 7 7\n\n0 0 0 0 0\n",
    ),
];

#[test]
fn examples_are_met(rt: HostRuntime) -> Result<(), Fail> {
    meet_both(&rt, rt.alloc(), RUN)
}

// Each script, and what `check` makes of it.
const CHECKED: &[(&str, &str)] = &[
    (
        SQUARE,
        "muesli 1;
fun sq(x) = x * x;
main = atomic sq;
# need 2
",
    ),
    (
        APART,
        "muesli 1;
fun sq(x) = x * x;
fun apart(x1, y1, x2, y2) = sq(x1 - x2) + sq(y1 - y2);
main = atomic apart;
# need 2
",
    ),
    (
        POWER,
        "muesli 1;
fun power(x, n) = loop i below n, a = 1 in a * x;
fun told(x, n) = [x, n, power(x, n)];
main = atomic told;
# need 2
",
    ),
    (
        SPLIT,
        "muesli 1;
fun split(a, b) = [a / b, a % b];
main = atomic split;
# need 2
",
    ),
    (
        DEVIATIONS,
        "muesli 1;
fun deviation(sum, x) = (4 * x) - sum;
data deviations {
  numbers = array 2;
  total = fold sum numbers;
  result = map deviation(total) numbers;
  give result;
}
main = data deviations on 2;
# need 3
",
    ),
    (
        DROPS,
        "muesli 1;
fun drop(top, x) = top - x;
data drops {
  levels = array 4;
  tops = scan max levels;
  result = zip drop tops levels;
  give result;
}
main = data drops on 2;
# need 3
",
    ),
    (
        PAIRS,
        "muesli 1;
fun ready(held, x, y) = held;
fun both(held, x, y, k) = [x, y];
fun hold(held, x, y) = [1 - held, y];
fun rest(held, x) = held;
fun last_one(held, x, k) = x;
filter pairs {
  state 0, 0;
  count ready;
  item both;
  next hold;
  flush rest;
  last last_one;
}
main = filter pairs;
# need 2
",
    ),
    (
        FARM,
        "muesli 1;
fun sq(x) = x * x;
main = farm 3 { atomic sq };
# need 4
",
    ),
    (
        PIPE,
        "muesli 1;
fun mix(a, b) = [a + b, a * b, a - b];
data sums {
  numbers = array 2;
  result = scan sum numbers;
  give result;
}
main = pipe { farm 2 { atomic mix }; data sums on 1 };
# need 4
",
    ),
    (
        RANGE,
        "muesli 1;
fun tiny(a, b) = (b - a) <= 1;
fun one(a, b) = if (b - a) == 1 then a else 0;
fun half(a, b, j) = let middle = (a + b) / 2 in if j == 0 then middle else b;
fun from(a, b, j) = if j == 0 then a else (a + b) / 2;
fun part(a, b, j) = [from(a, b, j), half(a, b, j)];
fun add(x, y) = x + y;
divcon range {
  parts 2;
  cutoff 3;
  simple tiny;
  solve one;
  divide part;
  combine add;
}
main = divcon range on 2;
# need 3
",
    ),
    (
        PICK,
        "muesli 1;
fun cost(i) = if i == 0 then 3 else if i == 1 then 5 else if i == 2 then 4 else 7;
fun gain(i) = if i == 0 then 2 else if i == 1 then 4 else if i == 2 then 3 else 6;
fun low(i, c, g, r) = c;
fun enough(i, c, g, r) = g >= r;
fun children(i, c, g, r) = if i == 4 then 0 else 2;
fun take(i, c, g, r, k) = [i + 1, c + (k * cost(i)), g + (k * gain(i)), r];
bnb pick {
  bound low;
  solved enough;
  value low;
  count children;
  branch take;
}
main = bnb pick on 2;
# need 3
",
    ),
];

#[test]
fn examples_are_checked(rt: HostRuntime) -> Result<(), Fail> {
    for (script, text) in CHECKED {
        is_checked(&rt, rt.alloc(), script, text)?;
    }
    Ok(())
}
