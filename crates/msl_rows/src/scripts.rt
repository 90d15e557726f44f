//! Scripts of functions: what is one, and what comes of it.

use msl_fixture::{Row, meet_rows};
use std::test::Fail;

const TEXTS: &[Row<'static>] = &[
    // `main` names one of several functions, which may call those before it.
    Row::Done(
        "muesli 1;\nfun sq(x) = x * x;\nfun f(x, y) = sq(x) + sq(y);\nmain = atomic f;\n",
        b"3 4\n-5 12\n",
        b"25\n169\n",
    ),
    Row::Done(
        "muesli 1;\nfun a(x) = x + 1;\nfun b(x) = x * 2;\nmain = atomic a;\n",
        b"5\n",
        b"6\n",
    ),
    Row::Done(
        "muesli 1;\nfun a(x) = x + 1;\nfun b(x) = x * 2;\nmain = atomic b;\n",
        b"5\n",
        b"10\n",
    ),
    // Comments, tabs, CR and no more spaces than are needed.
    Row::Done(
        "# main = atomic g;\r\nmuesli\t1 ;\r\nfun f(x)=x%2 ;# odd\n\tmain=atomic f;# the end",
        b"7\n-7\n8\n",
        b"1\n-1\n0\n",
    ),
    Row::Done("muesli 01;fun f(x)=x;main=atomic f;", b"3\n", b"3\n"),
    Row::Refused("muesli ^2;\nfun f(x) = x;\nmain = atomic f;\n", "version"),
    Row::Refused("muesli ^0;\nfun f(x) = x;\nmain = atomic f;\n", "version"),
    Row::Refused("muesli 1\n^fun f(x) = x;\nmain = atomic f;\n", "expected"),
    Row::Refused("muesli^;\nfun f(x) = x;\nmain = atomic f;\n", "expected"),
    Row::Refused("^fun f(x) = x;\nmain = atomic f;\n", "expected"),
    Row::Refused("^", "expected"),
    Row::Refused("muesli 1;\nmain = atomic ^f;\n", "unknown"),
    Row::Refused("muesli 1;\n^", "expected"),
    Row::Refused("muesli 1;\nfun f(x) = x;\n^", "expected"),
    Row::Refused("muesli 1;\nfun f(x) = x;\nmain = atomic f\n^", "expected"),
    Row::Refused("muesli 1;\nfun f(x) = x;\nmain = ^f;\n", "expected"),
    Row::Done(
        "muesli 1;\nfun f(x) = x;\nmain = farm 2 { atomic f };\n",
        b"3\n",
        b"3\n",
    ),
    Row::Done(
        "muesli 1;\nfun f(x) = x;\ndata d { a = array 1; give a; }\nmain = atomic f;\n",
        b"3\n",
        b"3\n",
    ),
    Row::Done(
        "muesli 1;\ndata d { a = array 1; give a; }\nmain = data d on 1;\n",
        b"3\n",
        b"3\n",
    ),
    // Text behind the end.
    Row::Refused("muesli 1;\nfun f(x) = x;\nmain = atomic f;\n^;", "expected"),
    Row::Refused(
        "muesli 1;\nfun f(x) = x;\nmain = atomic f;\n^fun g(x) = x;\n",
        "expected",
    ),
    Row::Refused(
        "muesli 1;\nfun f(x) = x;\nmain = atomic f;\n^main = atomic f;\n",
        "expected",
    ),
    // A word of the grammar isn't a name; that of an operator is.
    Row::Refused(
        "muesli 1;\nfun ^map(x) = x;\nmain = atomic map;\n",
        "expected",
    ),
    Row::Done(
        "muesli 1;\nfun gcd(sum, xor) = sum + xor;\nmain = atomic gcd;\n",
        b"3 4\n",
        b"7\n",
    ),
    Row::Refused("muesli 1;\nfun f(x) = x;\nmain = atomic ^g;\n", "unknown"),
    // What is no text of tokens.
    Row::Refused("muesli 1;\nfun f(x) = x^!;\nmain = atomic f;\n", "byte"),
    Row::Refused(
        "muesli 1;\nfun f(x) = ^9223372036854775808;\nmain = atomic f;\n",
        "number",
    ),
    Row::Done(
        "muesli 1;\nfun f(x) = 9223372036854775807;\nmain = atomic f;\n",
        b"3\n",
        b"9223372036854775807\n",
    ),
];

#[test]
fn texts_of_scripts(rt: HostRuntime) -> Result<(), Fail> {
    meet_rows(&rt, rt.alloc(), TEXTS)
}

const NAMES: &[Row<'static>] = &[
    // A function calls those before it alone.
    Row::Refused(
        "muesli 1;\nfun f(x) = ^g(x);\nmain = atomic f;\n",
        "unknown",
    ),
    Row::Refused(
        "muesli 1;\nfun f(x) = ^g(x);\nfun g(x) = x;\nmain = atomic f;\n",
        "unknown",
    ),
    Row::Refused(
        "muesli 1;\nfun f(x) = ^f(x);\nmain = atomic f;\n",
        "unknown",
    ),
    Row::Refused(
        "muesli 1;\nfun f(x) = x;\nfun ^f(x) = x;\nmain = atomic f;\n",
        "twice",
    ),
    // A called function has one result, and as many arguments as parameters.
    Row::Refused(
        "muesli 1;\nfun g(x) = [x, x];\nfun f(x) = ^g(x);\nmain = atomic f;\n",
        "width",
    ),
    Row::Refused(
        "muesli 1;\nfun g(x) = x;\nfun f(x) = ^g(x, x);\nmain = atomic f;\n",
        "width",
    ),
    // Functions and variables have names of their own, and a name without `(` is a variable.
    Row::Done(
        "muesli 1;\nfun f(f) = f + 1;\nfun g(f) = f(f) + f;\nmain = atomic g;\n",
        b"4\n",
        b"9\n",
    ),
    Row::Refused(
        "muesli 1;\nfun g(x) = x;\nfun f(x) = ^g;\nmain = atomic f;\n",
        "unknown",
    ),
    Row::Refused("muesli 1;\nfun f(x) = ^y;\nmain = atomic f;\n", "unknown"),
    // A name of `let` counts from its `in` on, and no name stands for two variables at once.
    Row::Done(
        "muesli 1;\nfun f(x) = let y = let y = x in y + 1 in y * 2;\nmain = atomic f;\n",
        b"3\n",
        b"8\n",
    ),
    Row::Refused(
        "muesli 1;\nfun f(x) = let y = ^y in y;\nmain = atomic f;\n",
        "unknown",
    ),
    Row::Refused(
        "muesli 1;\nfun f(x) = let ^x = 1 in x;\nmain = atomic f;\n",
        "twice",
    ),
    Row::Refused("muesli 1;\nfun f(x, ^x) = x;\nmain = atomic f;\n", "twice"),
    Row::Refused(
        "muesli 1;\nfun f(x) = loop i below x, ^i = 0 in i;\nmain = atomic f;\n",
        "twice",
    ),
    Row::Refused("muesli 1;\nfun f(^) = 1;\nmain = atomic f;\n", "expected"),
    Row::Refused("muesli 1;\nfun f(x) = [^];\nmain = atomic f;\n", "expected"),
];

#[test]
fn functions_and_names(rt: HostRuntime) -> Result<(), Fail> {
    meet_rows(&rt, rt.alloc(), NAMES)
}

const EXPRESSIONS: &[Row<'static>] = &[
    // Several parameters and results, and records of another length.
    Row::Done(
        "muesli 1;\nfun mix(a, b) = [a + b, a * b, a - b];\nmain = atomic mix;\n",
        b"1 2\n3 -4\n",
        b"3 2 -1\n-1 -12 7\n",
    ),
    Row::Faults(
        "muesli 1;\nfun mix(a, b) = [a + b, a * b, a - b];\nmain = atomic mix;\n",
        b"1 2\n1\n",
        b"3 2 -1\n",
        b"muesli: stage 1: record of 1 numbers, 2 wanted\n",
    ),
    // Operators of one level group to the left; `-` binds more tightly than `%`.
    Row::Done(
        "muesli 1;\nfun f(x) = [1 - 2 - 3 * x, -x % 3, x / 2 * 2, (1 - (2 - 3)) * x];\nmain = atomic f;\n",
        b"7\n",
        b"-22 -1 6 14\n",
    ),
    // Comparisons and truth.
    Row::Done(
        "muesli 1;\nfun f(x) = [x == 3, x != 3, x < 3, x <= 3, x > 3, x >= 3, not x, x and 7, x or 0];\nmain = atomic f;\n",
        b"3\n0\n",
        b"1 0 0 1 0 1 0 1 1\n0 1 1 1 0 0 1 0 0\n",
    ),
    Row::Refused(
        "muesli 1;\nfun f(x) = 1 < x ^< 3;\nmain = atomic f;\n",
        "expected",
    ),
    // `if`, `let` and `loop` need parentheses as an operand.
    Row::Done(
        "muesli 1;\nfun f(x) = [1 + (if x then 2 else 3), -x / 2, -x % 2];\nmain = atomic f;\n",
        b"7\n0\n",
        b"3 -3 -1\n4 0 0\n",
    ),
    Row::Refused(
        "muesli 1;\nfun f(x) = 1 + ^if x then 2 else 3;\nmain = atomic f;\n",
        "expected",
    ),
    Row::Done(
        "muesli 1;\nfun clamp(low, high, x) = min(max(x, low), high);\nmain = atomic clamp;\n",
        b"0 10 -5\n0 10 7\n0 10 15\n",
        b"0\n7\n10\n",
    ),
    Row::Done(
        "muesli 1;\nfun size(x) = if x < 0 then -x else x;\nmain = atomic size;\n",
        b"-4\n4\n0\n",
        b"4\n4\n0\n",
    ),
    // The second operand of `and` isn't evaluated where the first is 0.
    Row::Done(
        "muesli 1;\nfun f(x) = x and 12 / x > 2;\nmain = atomic f;\n",
        b"0\n3\n6\n",
        b"0\n1\n0\n",
    ),
    Row::Done(
        "muesli 1;\nfun f(x) = let y = x + 1 in let z = y * y in z - y;\nmain = atomic f;\n",
        b"3\n",
        b"12\n",
    ),
    // A loop makes no turn where its bound isn't above 0.
    Row::Faults(
        "muesli 1;\nfun fact(n) = loop i below n, a = 1 in a * (i + 1);\nmain = atomic fact;\n",
        b"5\n0\n-3\n20\n21\n",
        b"120\n1\n1\n2432902008176640000\n",
        b"muesli: stage 1: overflow\n",
    ),
    Row::Faults(
        "muesli 1;\nfun f(x) = 12 / x;\nmain = atomic f;\n",
        b"5\n-5\n0\n7\n",
        b"2\n-2\n",
        b"muesli: stage 1: division by zero\n",
    ),
    Row::Faults(
        "muesli 1;\nfun f(x) = -x;\nmain = atomic f;\n",
        b"9223372036854775807\n-9223372036854775808\n",
        b"-9223372036854775807\n",
        b"muesli: stage 1: overflow\n",
    ),
    // The loop, its bound, its first value and each turn are a node each.
    Row::Faults(
        "muesli 1;\nfun h(n) = loop i below n, a = 0 in i;\nmain = atomic h;\n",
        b"9999997\n9999998\n",
        b"9999996\n",
        b"muesli: stage 1: too many steps\n",
    ),
];

#[test]
fn expressions(rt: HostRuntime) -> Result<(), Fail> {
    meet_rows(&rt, rt.alloc(), EXPRESSIONS)
}
