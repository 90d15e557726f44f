//! Searches: best solutions, trees without one, each fault of a node, and that the members change no value.

use crate::flow::{BAD_COUNT, BY_ZERO, Flow, OVERFLOW, comes, meet_by, meet_flows};
use msl_fixture::{ROUNDS, SEQ};
use std::test::Fail;

const PICK: &str =
    "fun cost(i) = if i == 0 then 3 else if i == 1 then 5 else if i == 2 then 4 else 7;\nfun gain(i) = if i == 0 then 2 else if i == 1 then 4 else if i == 2 then 3 else 6;\nfun low(i, c, g, r) = c;\nfun ok(i, c, g, r) = g >= r;\nfun kids(i, c, g, r) = if i == 4 then 0 else 2;\nfun step(i, c, g, r, k) = [i + 1, c + k * cost(i), g + k * gain(i), r];\nbnb pick { bound low; solved ok; value low; count kids; branch step; }\n";

const PICKS: &[Flow<'static>] = &[
    Flow::Done("bnb pick on 1", b"0 0 0 7\n", b"9 3 9 7 7\n"),
    Flow::Done(
        "bnb pick on 2",
        b"0 0 0 7\n0 0 0 16\n0 0 0 0\n",
        b"9 3 9 7 7\n\n0 0 0 0 0\n",
    ),
    Flow::Done("bnb pick on 7", b"0 0 0 7\n0 0 0 16\n", b"9 3 9 7 7\n\n"),
    Flow::Done("bnb pick on 63", b"0 0 0 7\n0 0 0 16\n", b"9 3 9 7 7\n\n"),
    Flow::Done(
        "farm 2 { bnb pick on 3 }",
        b"0 0 0 7\n0 0 0 16\n",
        b"9 3 9 7 7\n\n",
    ),
    Flow::Faults(
        "bnb pick on 2",
        b"0 0 0 7\n1 2 3\n",
        b"9 3 9 7 7\n",
        b"muesli: stage 1: record of 3 numbers, 4 wanted\n",
    ),
];

#[test]
fn best_solutions_are_found(rt: HostRuntime) -> Result<(), Fail> {
    meet_flows(&rt, rt.alloc(), PICK, PICKS)
}

// A case of the root: it faults at its bound, at `solved`, at its value in three ways, at its count in three ways, and
// at its second child. Case 10 is a solution, and 11 has 64 children that are.
const CASES: &str =
    "fun low(k) = if k == 1 then 1 / 0 else 0;\nfun ok(k) = if k == 2 then 1 / 0 else k == 3 or k == 4 or k == 5 or k == 10;\nfun val(k) = if k == 3 then 1 / 0 else if k == 4 then -1 else if k == 5 then 9223372036854775807 else 7;\nfun kids(k) = if k == 6 then 1 / 0 else if k == 7 then -1 else if k == 8 then 65 else if k == 9 then 2 else if k == 11 then 64 else 0;\nfun step(k, j) = if k == 9 and j == 1 then 9223372036854775807 + 1 else 10;\nbnb cases { bound low; solved ok; value val; count kids; branch step; }\n";

const FAULTS: &[Flow<'static>] = &[
    Flow::Done("bnb cases on 2", b"0\n10\n11\n", b"\n7 10\n7 10\n"),
    Flow::Faults("bnb cases on 2", b"1\n", b"", BY_ZERO),
    Flow::Faults("bnb cases on 2", b"2\n", b"", BY_ZERO),
    Flow::Faults("bnb cases on 2", b"3\n", b"", BY_ZERO),
    Flow::Faults(
        "bnb cases on 2",
        b"4\n",
        b"",
        b"muesli: stage 1: bound broken at root\n",
    ),
    Flow::Faults(
        "bnb cases on 2",
        b"5\n",
        b"",
        b"muesli: stage 1: no such value at root\n",
    ),
    Flow::Faults("bnb cases on 2", b"6\n", b"", BY_ZERO),
    Flow::Faults("bnb cases on 2", b"7\n", b"", BAD_COUNT),
    Flow::Faults("bnb cases on 2", b"8\n", b"", BAD_COUNT),
    // All children are worked out before the first is visited.
    Flow::Faults("bnb cases on 2", b"9\n", b"", OVERFLOW),
];

#[test]
fn faults_of_a_node(rt: HostRuntime) -> Result<(), Fail> {
    meet_flows(&rt, rt.alloc(), CASES, FAULTS)
}

const CHAIN: &str =
    "fun zero(x) = 0;\nfun ok(x) = x == 64;\nfun one(x) = 1;\nfun step(x, k) = x + 1;\nbnb chain { bound zero; solved ok; value zero; count one; branch step; }\nfun low(x) = -x;\nfun two(x) = x == 2;\nfun kids(x) = if x < 2 then 1 else 0;\nbnb bad { bound low; solved two; value zero; count kids; branch step; }\n";

const CHAINS: &[Flow<'static>] = &[
    Flow::Done("bnb chain on 2", b"0\n1\n64\n", b"0 64\n0 64\n0 64\n"),
    Flow::Faults(
        "bnb chain on 2",
        b"0\n-1\n",
        b"0 64\n",
        b"muesli: stage 1: too deep at 0.0.0.0.0.0.0.0.0.0.0.0.0.0.0.0.0.0.0.0.0.0.0.0.0.0.0.0.0.0.0.0.0.0.0.0.0.0.0.0.0.0.0.0.0.0.0.0.0.0.0.0.0.0.0.0.0.0.0.0.0.0.0.0\n",
    ),
    Flow::Faults(
        "bnb bad on 1",
        b"0\n",
        b"",
        b"muesli: stage 1: bound broken at 0\n",
    ),
    Flow::Faults(
        "bnb bad on 7",
        b"0\n",
        b"",
        b"muesli: stage 1: bound broken at 0\n",
    ),
];

#[test]
fn levels_and_bounds(rt: HostRuntime) -> Result<(), Fail> {
    meet_flows(&rt, rt.alloc(), CHAIN, CHAINS)
}

// The root has the children 1, a solution of value 5, and 2, whose bound is 9. In `late` that one faults, in `broken` its
// child does by its bound. In `equal` both are solutions of one value, in `better` the second is the better one.
const OPEN: &str =
    "fun low(x) = if x == 0 then 0 else if x == 1 then 5 else if x == 2 then 9 else 8;\nfun first(x) = x == 1;\nfun late_ok(x) = if x == 2 then 1 / 0 else x == 1;\nfun both(x) = x > 0;\nfun five(x) = 5;\nfun nine(x) = 11 - x;\nfun zero(x) = 0;\nfun two(x) = if x == 0 then 2 else 0;\nfun three(x) = if x == 0 then 2 else if x == 2 then 1 else 0;\nfun step(x, k) = x + k + 1;\nbnb late { bound low; solved late_ok; value five; count two; branch step; }\nbnb broken { bound low; solved first; value five; count three; branch step; }\nbnb equal { bound zero; solved both; value five; count two; branch step; }\nbnb better { bound zero; solved both; value nine; count two; branch step; }\n";

// What `seq` answers, and what else `rounds` may.
const OPENS: &[(Flow<'static>, Flow<'static>)] = &[
    (
        Flow::Faults("bnb late on 1", b"0\n", b"", BY_ZERO),
        Flow::Done("bnb late on 1", b"0\n", b"5 1\n"),
    ),
    (
        Flow::Faults("bnb late on 7", b"0\n", b"", BY_ZERO),
        Flow::Done("bnb late on 7", b"0\n", b"5 1\n"),
    ),
    (
        Flow::Faults(
            "bnb broken on 2",
            b"0\n",
            b"",
            b"muesli: stage 1: bound broken at 1.0\n",
        ),
        Flow::Done("bnb broken on 2", b"0\n", b"5 1\n"),
    ),
    (
        Flow::Done("bnb equal on 2", b"0\n", b"5 1\n"),
        Flow::Done("bnb equal on 2", b"0\n", b"5 2\n"),
    ),
    (
        Flow::Done("bnb better on 2", b"0\n", b"9 2\n"),
        Flow::Done("bnb better on 2", b"0\n", b"9 2\n"),
    ),
];

#[test]
fn answers_that_are_open(rt: HostRuntime) -> Result<(), Fail> {
    for (seq, other) in OPENS {
        meet_by(&rt, rt.alloc(), SEQ, OPEN, *seq)?;
        if !comes(&rt, rt.alloc(), ROUNDS, OPEN, *seq)? {
            meet_by(&rt, rt.alloc(), ROUNDS, OPEN, *other)?;
        }
    }
    Ok(())
}
