// What functions give and cost, and of which rank they are.

use crate::texts::read;
use msl_base::Small;
use msl_muscle::{EvalFault, Funs, Muscle, ParseFault, Use};
use std::alloc::Global;
use std::test::Fail;

const SUM_BELOW: &str = "fun g(n) = loop i below n, a = 0 in a + i;";

const LAST_BELOW: &str = "fun h(n) = loop i below n, a = 0 in i;";

const BY_ZERO: &str = "fun f(x) = x / 0 + 9223372036854775807 * 2;";

const SHORTS: &str = "fun b(x, y) = [x and 2 / y, not x or 2 / y];";

const CALLS: &str = "fun g(n) = loop i below n, a = 0 in a + i;
fun c(x) = let m = -x in if m < 0 then g(m + 9) else g(m);";

// The results, with a 0 in the place of a second one that there is not, and the cost; or the fault.
type Told = Result<([i64; 2], u64), &'static str>;

const OVERFLOW: Told = Err("overflow");

const BY_0: Told = Err("division by zero");

const STEPS: Told = Err("steps");

// The last function of a text, the numbers that it is given before, the others, and what comes of them.
const ROWS: &[(&str, &[i64], &[i64], Told)] = &[
    (SUM_BELOW, &[], &[5], Ok(([10, 0], 18))),
    (SUM_BELOW, &[], &[0], Ok(([0, 0], 3))),
    (SUM_BELOW, &[], &[-3], Ok(([0, 0], 3))),
    (
        SUM_BELOW,
        &[],
        &[3_333_332],
        Ok(([5_555_549_444_446, 0], 9_999_999)),
    ),
    (SUM_BELOW, &[], &[3_333_333], STEPS),
    (
        LAST_BELOW,
        &[],
        &[9_999_997],
        Ok(([9_999_996, 0], 10_000_000)),
    ),
    (LAST_BELOW, &[], &[9_999_998], STEPS),
    (BY_ZERO, &[], &[1], BY_0),
    (CALLS, &[], &[4], Ok(([10, 0], 29))),
    (CALLS, &[], &[-5], Ok(([10, 0], 27))),
    (CALLS, &[], &[i64::MIN], OVERFLOW),
    (SHORTS, &[], &[0, 0], Ok(([0, 1], 5))),
    (SHORTS, &[], &[5, 1], Ok(([1, 1], 11))),
    (SHORTS, &[], &[5, 3], Ok(([0, 0], 11))),
    (SHORTS, &[], &[1, 0], BY_0),
    (SHORTS, &[0], &[0], Ok(([0, 1], 5))),
    (SHORTS, &[5], &[1], Ok(([1, 1], 11))),
    (SHORTS, &[5], &[3], Ok(([0, 0], 11))),
    (SHORTS, &[1], &[0], BY_0),
    ("fun f(x, y) = x + y;", &[i64::MAX], &[1], OVERFLOW),
    ("fun f(x, y) = x - y;", &[7], &[9], Ok(([-2, 0], 3))),
    (
        "fun f(x, y) = x * y;",
        &[3_037_000_500],
        &[3_037_000_500],
        OVERFLOW,
    ),
    ("fun f(x, y) = x * y;", &[i64::MIN], &[-1], OVERFLOW),
    ("fun f(x, y) = x / y;", &[-7], &[2], Ok(([-3, 0], 3))),
    ("fun f(x, y) = x / y;", &[i64::MIN], &[-1], OVERFLOW),
    ("fun f(x, y) = x / y;", &[i64::MIN], &[0], BY_0),
    ("fun f(x, y) = x % y;", &[7], &[-2], Ok(([1, 0], 3))),
    ("fun f(x, y) = x % y;", &[-7], &[2], Ok(([-1, 0], 3))),
    ("fun f(x, y) = x % y;", &[i64::MIN], &[-1], OVERFLOW),
    ("fun f(x) = 7 % -2;", &[], &[0], Ok(([1, 0], 4))),
    ("fun f(x) = -7 % 2;", &[], &[0], Ok(([-1, 0], 4))),
    ("fun f(x) = 7 - -2;", &[], &[0], Ok(([9, 0], 4))),
    ("fun f(x, y) = x == y;", &[-4], &[4], Ok(([0, 0], 3))),
    ("fun f(x, y) = x != y;", &[-4], &[4], Ok(([1, 0], 3))),
    ("fun f(x, y) = x < y;", &[-4], &[4], Ok(([1, 0], 3))),
    ("fun f(x, y) = x <= y;", &[4], &[4], Ok(([1, 0], 3))),
    ("fun f(x, y) = x > y;", &[4], &[-4], Ok(([1, 0], 3))),
    ("fun f(x, y) = x >= y;", &[-4], &[4], Ok(([0, 0], 3))),
    ("fun f(x, y) = x and y;", &[-3], &[2], Ok(([1, 0], 3))),
    ("fun f(x, y) = x or y;", &[0], &[0], Ok(([0, 0], 3))),
    ("fun f(x, y) = min(x, y);", &[-4], &[4], Ok(([-4, 0], 3))),
    ("fun f(x, y) = max(x, y);", &[-4], &[4], Ok(([4, 0], 3))),
];

// What the last function gives at these numbers, the first of which are given before.
fn told(funs: &Funs, given: &[i64], args: &[i64]) -> Option<Told> {
    let f = last(funs)?;
    let (params, results) = f.widths();
    if given.len() + args.len() != params || results > 2 {
        return None;
    }
    let mut out = [0; 2];
    let cost = if given.is_empty() {
        f.eval(args, &mut out[..results])
    } else {
        let extra = Small::of(given);
        Use { f, extra }.eval(args, &mut out[..results])
    };
    match cost {
        Ok(cost) => Some(Ok((out, cost))),
        Err(EvalFault::Overflow) => Some(OVERFLOW),
        Err(EvalFault::DivZero) => Some(BY_0),
        Err(EvalFault::Steps) => Some(STEPS),
    }
}

fn last(funs: &Funs) -> Option<Muscle<'_>> {
    let at = u32::try_from(funs.as_slice().len()).ok()?.checked_sub(1)?;
    Some(funs.muscle(at))
}

fn read_and_told(
    alloc: Global,
    text: &str,
    given: &[i64],
    args: &[i64],
) -> Result<Option<Told>, ParseFault> {
    let funs = read(alloc, text)?;
    Ok(told(&funs, given, args))
}

#[test]
fn functions_are_evaluated(rt: HostRuntime) -> Result<(), Fail> {
    for (text, given, args, want) in ROWS {
        let got = read_and_told(rt.alloc(), text, given, args)?;
        assert_eq!(rt; got, Some(*want), "{text} at {given:?} and {args:?}");
    }
    Ok(())
}

// The rank of the last function of a text.
const RANKS: &[(&str, u32)] = &[
    ("fun g(n) = n;", 1),
    (
        "fun g(n) = n; fun c(x) = let m = -x in if m < 0 then g(m + 9) else g(m);",
        2,
    ),
    ("fun g(n) = n; fun c(x) = g(x); fun d(x) = c(x);", 3),
    (
        "fun g(n) = n; fun c(x) = g(x); fun d(x) = c(x); fun e(x) = [g(x), g(x)];",
        2,
    ),
];

fn rank(alloc: Global, text: &str) -> Result<Option<u32>, ParseFault> {
    let funs = read(alloc, text)?;
    let Some(f) = last(&funs) else {
        return Ok(None);
    };
    Ok(Some(f.funs.rank(f.at)))
}

#[test]
fn functions_have_ranks(rt: HostRuntime) -> Result<(), Fail> {
    for (text, want) in RANKS {
        let got = rank(rt.alloc(), text)?;
        assert_eq!(rt; got, Some(*want), "{text}");
    }
    Ok(())
}
