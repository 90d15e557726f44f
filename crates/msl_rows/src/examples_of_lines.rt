//! The scripts of the folder `examples` with moving sums, tens, divisors and the records of `demo`, with their records
//! and results by `seq` and by `rounds`, and what `check` makes of them. One needs more processes than there are where
//! none are given.

use msl_fixture::{Row, is_checked, meet_both};
use std::test::Fail;

const WINDOW: &str =
    "# A filter: the sum of each three records in a row. Its state is how many came so far, up to two, and the last two.
muesli 1;
fun full(n, a, b, x) = n == 2;
fun sum(n, a, b, x, k) = a + b + x;
fun moved(n, a, b, x) = [min(n + 1, 2), b, x];
fun nothing(n, a, b) = 0;
fun zero(n, a, b, k) = 0;
filter window {
  state 0, 0, 0;
  count full;
  item sum;
  next moved;
  flush nothing;
  last zero;
}
main = filter window;
";

const TENS: &str =
    "# A pipe: how many numbers are in each ten, where they come in order. A function takes the last digit away, and a filter
# counts what comes of that.
muesli 1;
fun ten(x) = x / 10;
fun over(n, word, x) = n > 0 and x != word;
fun counted(n, word, x, k) = [word, n];
fun step(n, word, x) = [if x == word then n + 1 else 1, x];
fun begun(n, word) = n > 0;
fun last_word(n, word, k) = [word, n];
filter counts {
  state 0, 0;
  count over;
  item counted;
  next step;
  flush begun;
  last last_word;
}
main = pipe { atomic ten; filter counts };
";

const DIVISORS: &str = "# A farm: five workers find out how many numbers divide a number from 1 on.
muesli 1;
fun divisors(n) = loop i below n, a = 0 in a + (n % (i + 1) == 0);
fun told(n) = [n, divisors(n)];
main = farm 5 { atomic told };
";

const DEMO: &str = "# The script of `demo`, with the first four records that `demo` makes.
muesli 1;
fun mix(a, b) = [a + b, a * b, a - b];
data tot {
  a = array 2;
  s = scan sum a;
  give s;
}
main = pipe { farm 2 { atomic mix }; data tot on 1 };
";

const RUN: &[Row<'static>] = &[
    Row::Done(WINDOW, b"1\n2\n3\n4\n10\n-20\n", b"6\n9\n17\n-6\n"),
    Row::Done(TENS, b"3\n5\n12\n17\n18\n40\n", b"0 2\n1 3\n4 1\n"),
    Row::Done(
        DIVISORS,
        b"1\n12\n17\n100\n360\n",
        b"1 1\n12 6\n17 2\n100 9\n360 24\n",
    ),
    Row::Done(
        DEMO,
        b"0 0\n1 7\n2 14\n3 21\n",
        b"0 0 0\n8 15 9\n16 44 32\n24 87 69\n",
    ),
];

#[test]
fn examples_are_met(rt: HostRuntime) -> Result<(), Fail> {
    meet_both(&rt, rt.alloc(), RUN)
}

// Each script, and what `check` makes of it.
const CHECKED: &[(&str, &str)] = &[
    (
        WINDOW,
        "muesli 1;
fun full(n, a, b, x) = n == 2;
fun sum(n, a, b, x, k) = (a + b) + x;
fun moved(n, a, b, x) = [min(n + 1, 2), b, x];
fun nothing(n, a, b) = 0;
fun zero(n, a, b, k) = 0;
filter window {
  state 0, 0, 0;
  count full;
  item sum;
  next moved;
  flush nothing;
  last zero;
}
main = filter window;
# need 2
",
    ),
    (
        TENS,
        "muesli 1;
fun ten(x) = x / 10;
fun over(n, word, x) = (n > 0) and (x != word);
fun counted(n, word, x, k) = [word, n];
fun step(n, word, x) = [if x == word then n + 1 else 1, x];
fun begun(n, word) = n > 0;
fun last_word(n, word, k) = [word, n];
filter counts {
  state 0, 0;
  count over;
  item counted;
  next step;
  flush begun;
  last last_word;
}
main = pipe { atomic ten; filter counts };
# need 3
",
    ),
    (
        DIVISORS,
        "muesli 1;
fun divisors(n) = loop i below n, a = 0 in a + ((n % (i + 1)) == 0);
fun told(n) = [n, divisors(n)];
main = farm 5 { atomic told };
# need 6
",
    ),
    (
        DEMO,
        "muesli 1;
fun mix(a, b) = [a + b, a * b, a - b];
data tot {
  a = array 2;
  s = scan sum a;
  give s;
}
main = pipe { farm 2 { atomic mix }; data tot on 1 };
# need 4
",
    ),
];

#[test]
fn examples_are_checked(rt: HostRuntime) -> Result<(), Fail> {
    for (script, text) in CHECKED {
        is_checked(&rt, rt.alloc(), script, text)?;
    }
    Ok(())
}
