//! Filters: what they give at each record and at the end, and how many results there may be.

use crate::flow::{BAD_COUNT, COUNTING, FUNCTIONS, Flow, HOLDING, meet_flows};
use std::test::Fail;

const PAIRS: &[Flow<'static>] = &[
    Flow::Done("filter pairs", b"1\n2\n3\n4\n5\n", b"1 2\n3 4\n5\n"),
    Flow::Done("filter pairs", b"1\n2\n3\n", b"1 2\n3\n"),
    Flow::Done("filter pairs", b"1\n2\n", b"1 2\n"),
    Flow::Done("filter pairs", b"1\n", b"1\n"),
    Flow::Done("filter pairs", b"", b""),
    Flow::Done("pipe { filter pairs; filter pairs }", b"1\n", b"1\n"),
    Flow::Done("filter delay", b"1\n2\n3\n", b"1\n2\n3\n"),
];

#[test]
fn pairs_are_made(rt: HostRuntime) -> Result<(), Fail> {
    meet_flows(&rt, rt.alloc(), HOLDING, PAIRS)
}

// A filter that gives a record as often as its number says, and at the end the numbers below the last one.
const REPEATING: &str =
    "fun a(s) = s;\nfun b(s, x) = x;\nfun c(s, x, k) = x;\nfilter p { state 0; count b; item c; next b; flush a; last b; }\n";

const REPEATED: &[Flow<'static>] = &[
    Flow::Done("filter p", b"2\n3\n", b"2\n2\n3\n3\n3\n0\n1\n2\n"),
    Flow::Done("filter p", b"2\n0\n", b"2\n2\n"),
    // One record, and a 0 behind it: what each makes of the end goes through those behind it.
    Flow::Done("pipe { filter p; filter p }", b"1\n", b"1\n"),
    Flow::Done("pipe { filter p; filter p; filter p }", b"1\n", b"1\n0\n"),
    Flow::Done(
        "pipe { filter p; filter p; filter p; filter p }",
        b"1\n",
        b"1\n",
    ),
];

#[test]
fn records_are_repeated(rt: HostRuntime) -> Result<(), Fail> {
    meet_flows(&rt, rt.alloc(), REPEATING, REPEATED)
}

const UP_TO_63: &[u8] =
    b"0\n1\n2\n3\n4\n5\n6\n7\n8\n9\n10\n11\n12\n13\n14\n15\n16\n17\n18\n19\n20\n21\n22\n23\n24\n25\n26\n27\n28\n29\n30\n31\n32\n33\n34\n35\n36\n37\n38\n39\n40\n41\n42\n43\n44\n45\n46\n47\n48\n49\n50\n51\n52\n53\n54\n55\n56\n57\n58\n59\n60\n61\n62\n63\n";

const COUNTS: &[Flow<'static>] = &[
    Flow::Done("filter told", b"0\n3\n", b"0\n1\n2\n"),
    Flow::Done("filter told", b"64\n", UP_TO_63),
    Flow::Faults("filter told", b"2\n65\n1\n", b"0\n1\n", BAD_COUNT),
    Flow::Faults("filter told", b"2\n-1\n1\n", b"0\n1\n", BAD_COUNT),
    Flow::Faults(
        "filter told",
        b"1\n9223372036854775807\n",
        b"0\n",
        BAD_COUNT,
    ),
    Flow::Faults("filter told", b"-9223372036854775808\n", b"", BAD_COUNT),
    Flow::Faults(
        "pipe { atomic sq; filter told }",
        b"1\n9\n1\n",
        b"0\n",
        b"muesli: stage 2: bad count\n",
    ),
    Flow::Done("filter left", b"60\n4\n", UP_TO_63),
    Flow::Done("filter left", b"5\n-5\n", b""),
    Flow::Faults("filter left", b"60\n5\n", b"", BAD_COUNT),
    Flow::Faults("filter left", b"-1\n", b"", BAD_COUNT),
    Flow::Faults(
        "pipe { filter told; filter left }",
        b"3\n12\n",
        b"",
        b"muesli: stage 2: bad count\n",
    ),
];

#[test]
fn results_are_counted(rt: HostRuntime) -> Result<(), Fail> {
    let items = format!(in rt.alloc(); "{FUNCTIONS}{COUNTING}")?;
    meet_flows(&rt, rt.alloc(), items.as_str(), COUNTS)
}

// Nothing comes in, and at the end something goes out.
const TAILS: &[Flow<'static>] = &[
    Flow::Done("filter tail", b"", b"7\n8\n9\n"),
    Flow::Done("filter tail", b"1\n2\n", b"10\n11\n12\n"),
    Flow::Done(
        "pipe { filter tail; farm 2 { atomic sq } }",
        b"",
        b"49\n64\n81\n",
    ),
    Flow::Done(
        "pipe { farm 2 { atomic sq }; filter tail }",
        b"",
        b"7\n8\n9\n",
    ),
    Flow::Done("pipe { filter tail; filter pairs }", b"", b"7 8\n9\n"),
    Flow::Done("pipe { filter tail; filter tail }", b"", b"31\n32\n33\n"),
];

#[test]
fn an_empty_stream_is_ended(rt: HostRuntime) -> Result<(), Fail> {
    let items = format!(in rt.alloc(); "{FUNCTIONS}{HOLDING}{COUNTING}")?;
    meet_flows(&rt, rt.alloc(), items.as_str(), TAILS)
}

// As many numbers as a filter's functions can have: eight of the state, which move round, seven of a record, and the
// number of the result.
const WIDE: &str =
    "fun one(a, b, c, d, e, f, g, h, m, n, o, p, q, r, s) = 1;\nfun all(a, b, c, d, e, f, g, h, m, n, o, p, q, r, s, k) = [a, b, c, d, e, f, g, h, m, n, o, p, q, r, s, k];\nfun round(a, b, c, d, e, f, g, h, m, n, o, p, q, r, s) = [h, a, b, c, d, e, f, g];\nfun two(a, b, c, d, e, f, g, h) = 2;\nfun ends(a, b, c, d, e, f, g, h, k) = [k, h];\nfilter wide { state 1, 2, 3, 4, 5, 6, 7, -8; count one; item all; next round; flush two; last ends; }\n";

const WIDTHS: &[Flow<'static>] = &[
    Flow::Done("filter wide", b"", b"0 -8\n1 -8\n"),
    Flow::Done(
        "filter wide",
        b"11 12 13 14 15 16 17\n0 0 0 0 0 0 0\n",
        b"1 2 3 4 5 6 7 -8 11 12 13 14 15 16 17 0\n-8 1 2 3 4 5 6 7 0 0 0 0 0 0 0 0\n0 6\n1 6\n",
    ),
    Flow::Faults(
        "filter wide",
        b"1 2 3 4 5 6 7 8\n",
        b"",
        b"muesli: stage 1: record of 8 numbers, 7 wanted\n",
    ),
    Flow::Faults(
        "filter wide",
        b"\n",
        b"",
        b"muesli: stage 1: record of 0 numbers, 7 wanted\n",
    ),
    Flow::Faults(
        "filter pairs",
        b"1\n1 2\n",
        b"",
        b"muesli: stage 1: record of 2 numbers, 1 wanted\n",
    ),
    Flow::Faults(
        "filter pairs",
        b"1\n2\n\n",
        b"1 2\n",
        b"muesli: stage 1: record of 0 numbers, 1 wanted\n",
    ),
    Flow::Faults(
        "pipe { filter pairs; filter pairs }",
        b"1\n2\n",
        b"",
        b"muesli: stage 2: record of 2 numbers, 1 wanted\n",
    ),
    Flow::Faults(
        "pipe { farm 2 { atomic mix }; filter pairs }",
        b"2 3\n",
        b"",
        b"muesli: stage 2: record of 3 numbers, 1 wanted\n",
    ),
];

#[test]
fn widths_are_compared(rt: HostRuntime) -> Result<(), Fail> {
    let items = format!(in rt.alloc(); "{FUNCTIONS}{HOLDING}{WIDE}")?;
    meet_flows(&rt, rt.alloc(), items.as_str(), WIDTHS)
}
