//! The scripts of the folder `examples` that divide and search, and one that counts words, with their records and
//! results by `seq` and by `rounds`, and what `check` makes of them. Each search has one best solution below each root,
//! so that both commands write the same.

use msl_fixture::{Row, is_checked, meet_both};
use std::test::Fail;

const COUNTS: &str =
    "# A filter: how often each word came. Words are numbers and come in order; a word is given with its count once another
# one comes, and at the end. The state is how often the word came so far, and the word.
muesli 1;
fun over(n, word, x) = n > 0 and x != word;
fun counted(n, word, x, k) = [word, n];
fun step(n, word, x) = [if x == word then n + 1 else 1, x];
fun begun(n, word) = n > 0;
fun last_word(n, word, k) = [word, n];
filter counts {
  state 0, 0;
  count over;
  item counted;
  next step;
  flush begun;
  last last_word;
}
main = filter counts;
";

const FIBONACCI: &str =
    "# Divide and conquer: the Fibonacci number of n from 0 on, as the sum of those of n - 1 and n - 2.
muesli 1;
fun small(n) = n < 2;
fun itself(n) = n;
fun before(n, j) = n - 1 - j;
fun add(x, y) = x + y;
divcon fibonacci {
  parts 2;
  cutoff 4;
  simple small;
  solve itself;
  divide before;
  combine add;
}
main = divcon fibonacci on 2;
";

const QUICKSORT: &str =
    "# Divide and conquer: how many numbers quicksort puts in order, and how often it compares, where it is given those from
# a to b - 1 in any order. The pivot of a range is drawn by s, which is 0 or more.
muesli 1;
fun empty(a, b, s) = a >= b;
fun nothing(a, b, s) = [0, 0];
fun pivot(a, b, s) = a + s % (b - a);
fun from(a, b, s, j) = if j == 0 then a else pivot(a, b, s) + 1;
fun below_it(a, b, s, j) = if j == 0 then pivot(a, b, s) else b;
fun draw(s, j) = (75 * s + 74 + j) % 65537;
fun part(a, b, s, j) = [from(a, b, s, j), below_it(a, b, s, j), draw(s, j)];
fun joined(n, c, m, d) = [n + 1 + m, c + d + n + m];
divcon quicksort {
  parts 2;
  cutoff 3;
  simple empty;
  solve nothing;
  divide part;
  combine joined;
}
main = divcon quicksort on 2;
";

const KNAPSACK: &str =
    "# Branch and bound: which of five things to put into a bag with so much room, so that their worth is the greatest. A
# node is how many things were looked at, the room left, the worth so far, and the numbers of those in it as digits.
muesli 1;
fun weight(i) = if i == 0 then 2 else if i == 1 then 3 else if i == 2 then 5 else if i == 3 then 4 else 1;
fun worth(i) =
  if i == 0 then 9 else if i == 1 then 12 else if i == 2 then 16 else if i == 3 then 11 else if i == 4 then 2 else 0;
# The best has the least value, so a value is a worth with a minus. The things stand in the order of worth by weight,
# the best first: no bag is worth more than where the next thing fills all the room that is left.
fun low(i, room, sum, bag) = -(sum + room * worth(i) / weight(i));
fun looked(i, room, sum, bag) = i == 5;
fun minus(i, room, sum, bag) = -sum;
fun children(i, room, sum, bag) = (0 <= room) + (weight(i) <= room);
fun filled(bag, i, k) = if k == 0 then bag else 10 * bag + i + 1;
fun take(i, room, sum, bag, k) = [i + 1, room - k * weight(i), sum + k * worth(i), filled(bag, i, k)];
bnb knapsack {
  bound low;
  solved looked;
  value minus;
  count children;
  branch take;
}
main = bnb knapsack on 2;
";

const ASSIGNMENT: &str =
    "# Branch and bound: which of four jobs each of four people does, so that all cost the least. A node is how many people
# have a job, what these jobs cost, the jobs that are free as digits, and the jobs that were given as digits.
muesli 1;
fun ten(k) = loop i below k, a = 1 in a * 10;
# What the four jobs cost, as digits, for person i from 0.
fun costs(i) = if i == 0 then 9278 else if i == 1 then 6437 else if i == 2 then 5818 else 7694;
fun cost(i, job) = costs(i) / ten(4 - job) % 10;
# Whoever has no job yet costs at least the least number of the row.
fun rest(i) = if i == 0 then 10 else if i == 1 then 8 else if i == 2 then 5 else if i == 3 then 4 else 0;
fun low(i, paid, free, given) = paid + rest(i);
fun done(i, paid, free, given) = i == 4;
fun sum(i, paid, free, given) = paid;
fun children(i, paid, free, given) = 4 - i;
fun job(free, k) = free / ten(k) % 10;
fun others(free, k) = free / ten(k + 1) * ten(k) + free % ten(k);
fun hand(i, paid, free, given, k) =
  [i + 1, paid + cost(i, job(free, k)), others(free, k), 10 * given + job(free, k)];
bnb assignment {
  bound low;
  solved done;
  value sum;
  count children;
  branch hand;
}
main = bnb assignment on 2;
";

const RUN: &[Row<'static>] = &[
    Row::Done(COUNTS, b"0\n0\n3\n7\n7\n7\n", b"0 2\n3 1\n7 3\n"),
    Row::Done(FIBONACCI, b"0\n1\n2\n10\n15\n", b"0\n1\n1\n55\n610\n"),
    Row::Done(
        QUICKSORT,
        b"0 10 7\n4 4 0\n-20 30 2024\n",
        b"10 23\n0 0\n50 242\n",
    ),
    Row::Done(
        KNAPSACK,
        b"0 8 0 0\n0 10 0 0\n0 -1 0 0\n",
        b"-28 5 0 28 23\n-37 5 0 37 123\n\n",
    ),
    Row::Done(
        ASSIGNMENT,
        b"0 0 1234 0\n1 9 234 1\n2 12 24 13\n",
        b"13 4 13 0 2134\n18 4 18 0 1234\n24 4 24 0 1324\n",
    ),
];

#[test]
fn examples_are_met(rt: HostRuntime) -> Result<(), Fail> {
    meet_both(&rt, rt.alloc(), RUN)
}

// Each script, and what `check` makes of it.
const CHECKED: &[(&str, &str)] = &[
    (
        COUNTS,
        "muesli 1;
fun over(n, word, x) = (n > 0) and (x != word);
fun counted(n, word, x, k) = [word, n];
fun step(n, word, x) = [if x == word then n + 1 else 1, x];
fun begun(n, word) = n > 0;
fun last_word(n, word, k) = [word, n];
filter counts {
  state 0, 0;
  count over;
  item counted;
  next step;
  flush begun;
  last last_word;
}
main = filter counts;
# need 2
",
    ),
    (
        FIBONACCI,
        "muesli 1;
fun small(n) = n < 2;
fun itself(n) = n;
fun before(n, j) = (n - 1) - j;
fun add(x, y) = x + y;
divcon fibonacci {
  parts 2;
  cutoff 4;
  simple small;
  solve itself;
  divide before;
  combine add;
}
main = divcon fibonacci on 2;
# need 3
",
    ),
    (
        QUICKSORT,
        "muesli 1;
fun empty(a, b, s) = a >= b;
fun nothing(a, b, s) = [0, 0];
fun pivot(a, b, s) = a + (s % (b - a));
fun from(a, b, s, j) = if j == 0 then a else pivot(a, b, s) + 1;
fun below_it(a, b, s, j) = if j == 0 then pivot(a, b, s) else b;
fun draw(s, j) = (((75 * s) + 74) + j) % 65537;
fun part(a, b, s, j) = [from(a, b, s, j), below_it(a, b, s, j), draw(s, j)];
fun joined(n, c, m, d) = [(n + 1) + m, ((c + d) + n) + m];
divcon quicksort {
  parts 2;
  cutoff 3;
  simple empty;
  solve nothing;
  divide part;
  combine joined;
}
main = divcon quicksort on 2;
# need 3
",
    ),
    (
        KNAPSACK,
        "muesli 1;
fun weight(i) = if i == 0 then 2 else if i == 1 then 3 else if i == 2 then 5 else if i == 3 then 4 else 1;
fun worth(i) = if i == 0 then 9 else if i == 1 then 12 else if i == 2 then 16 else if i == 3 then 11 else if i == 4 then 2 else 0;
fun low(i, room, sum, bag) = -(sum + ((room * worth(i)) / weight(i)));
fun looked(i, room, sum, bag) = i == 5;
fun minus(i, room, sum, bag) = -sum;
fun children(i, room, sum, bag) = (0 <= room) + (weight(i) <= room);
fun filled(bag, i, k) = if k == 0 then bag else ((10 * bag) + i) + 1;
fun take(i, room, sum, bag, k) = [i + 1, room - (k * weight(i)), sum + (k * worth(i)), filled(bag, i, k)];
bnb knapsack {
  bound low;
  solved looked;
  value minus;
  count children;
  branch take;
}
main = bnb knapsack on 2;
# need 3
",
    ),
    (
        ASSIGNMENT,
        "muesli 1;
fun ten(k) = loop i below k, a = 1 in a * 10;
fun costs(i) = if i == 0 then 9278 else if i == 1 then 6437 else if i == 2 then 5818 else 7694;
fun cost(i, job) = (costs(i) / ten(4 - job)) % 10;
fun rest(i) = if i == 0 then 10 else if i == 1 then 8 else if i == 2 then 5 else if i == 3 then 4 else 0;
fun low(i, paid, free, given) = paid + rest(i);
fun done(i, paid, free, given) = i == 4;
fun sum(i, paid, free, given) = paid;
fun children(i, paid, free, given) = 4 - i;
fun job(free, k) = (free / ten(k)) % 10;
fun others(free, k) = ((free / ten(k + 1)) * ten(k)) + (free % ten(k));
fun hand(i, paid, free, given, k) = [i + 1, paid + cost(i, job(free, k)), others(free, k), (10 * given) + job(free, k)];
bnb assignment {
  bound low;
  solved done;
  value sum;
  count children;
  branch hand;
}
main = bnb assignment on 2;
# need 3
",
    ),
];

#[test]
fn examples_are_checked(rt: HostRuntime) -> Result<(), Fail> {
    for (script, text) in CHECKED {
        is_checked(&rt, rt.alloc(), script, text)?;
    }
    Ok(())
}
