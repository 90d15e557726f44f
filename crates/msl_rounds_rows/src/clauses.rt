//! A fault in each clause of a filter: what was written before stays, nothing comes of the record that faults, and nothing
//! of the state behind it.

use crate::flow::{BAD_COUNT, BY_ZERO, BY_ZERO_2, Flow, OVERFLOW, meet_flows};
use std::test::Fail;

// The filters are named by the clause that faults at some records, but for `each`, all of whose clauses do.
const CLAUSES: &str =
    "fun sq(x) = x * x;\nfun one(s, x) = 1;\nfun two(s, x) = 2;\nfun once(s) = 1;\nfun thrice(s) = 3;\nfun second(s, x) = x;\nfun seen(s, x, k) = [s, x, k];\nfun stay(s, k) = s;\nfun share(s, x) = 12 / x;\nfun quotient(s, x, k) = 6 / (x - k);\nfun times(s, x) = s * x;\nfun inverse(s) = 1 / s;\nfun lower(s, k) = 4 / (s - k);\nfun middle(s, x, k) = x * x;\nfilter in_count { state 7; count share; item seen; next second; flush once; last stay; }\nfilter in_item { state 7; count two; item quotient; next second; flush once; last stay; }\nfilter in_next { state 1; count one; item seen; next times; flush once; last stay; }\nfilter in_flush { state 7; count one; item seen; next second; flush inverse; last stay; }\nfilter in_last { state 7; count one; item seen; next second; flush thrice; last lower; }\nfilter each { state 9223372036854775807; count share; item quotient; next times; flush once; last stay; }\n";

const RECORDS: &[Flow<'static>] = &[
    Flow::Done(
        "filter in_count",
        b"12\n6\n",
        b"7 12 0\n12 6 0\n12 6 1\n6\n",
    ),
    Flow::Faults(
        "filter in_count",
        b"12\n6\n0\n4\n",
        b"7 12 0\n12 6 0\n12 6 1\n",
        BY_ZERO,
    ),
    Flow::Faults(
        "pipe { atomic sq; filter in_count }",
        b"3\n0\n3\n",
        b"7 9 0\n",
        BY_ZERO_2,
    ),
    // Of two results the second one faults, or the first.
    Flow::Done("filter in_item", b"3\n4\n", b"2\n3\n1\n2\n4\n"),
    Flow::Faults("filter in_item", b"3\n4\n1\n5\n", b"2\n3\n1\n2\n", BY_ZERO),
    Flow::Faults("filter in_item", b"3\n0\n", b"2\n3\n", BY_ZERO),
    Flow::Done("filter in_next", b"3\n5\n", b"1 3 0\n3 5 0\n15\n"),
    Flow::Faults(
        "filter in_next",
        b"3\n9223372036854775807\n5\n",
        b"1 3 0\n",
        OVERFLOW,
    ),
    // The stage behind it doesn't see that record's result, at which it would fault.
    Flow::Faults(
        "pipe { filter in_next; atomic middle }",
        b"3\n9223372036854775807\n",
        b"9\n",
        OVERFLOW,
    ),
    // The first fault counts, in the order of the clauses.
    Flow::Faults("filter each", b"-2\n", b"", BAD_COUNT),
    Flow::Faults("filter each", b"3\n", b"", BY_ZERO),
    Flow::Faults("filter each", b"12\n", b"", OVERFLOW),
    Flow::Faults(
        "filter each",
        b"0 0\n",
        b"",
        b"muesli: stage 1: record of 2 numbers, 1 wanted\n",
    ),
];

#[test]
fn a_record_faults(rt: HostRuntime) -> Result<(), Fail> {
    meet_flows(&rt, rt.alloc(), CLAUSES, RECORDS)
}

const ENDS: &[Flow<'static>] = &[
    Flow::Done("filter in_flush", b"0\n1\n", b"7 0 0\n0 1 0\n1\n"),
    Flow::Done("filter in_flush", b"2\n", b"7 2 0\n"),
    Flow::Done("filter in_flush", b"", b""),
    Flow::Faults("filter in_flush", b"1\n0\n", b"7 1 0\n1 0 0\n", BY_ZERO),
    Flow::Faults("filter in_flush", b"-1\n", b"7 -1 0\n", BAD_COUNT),
    // Of three results the third one faults.
    Flow::Done("filter in_last", b"5\n", b"7 5 0\n0\n1\n1\n"),
    Flow::Done("filter in_last", b"", b"0\n0\n0\n"),
    Flow::Faults("filter in_last", b"2\n", b"7 2 0\n", BY_ZERO),
    Flow::Faults(
        "pipe { atomic sq; filter in_flush; atomic middle }",
        b"5\n0\n",
        b"625\n0\n",
        BY_ZERO_2,
    ),
];

#[test]
fn an_end_faults(rt: HostRuntime) -> Result<(), Fail> {
    meet_flows(&rt, rt.alloc(), CLAUSES, ENDS)
}
