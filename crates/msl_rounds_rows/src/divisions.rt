//! Divisions: values, the first fault in the order of the tests, and that neither cutoff nor members change them.

use crate::flow::{BY_ZERO, Flow, OVERFLOW, meet_flows};
use std::alloc::Global;
use std::test::Fail;
use std::thread::Threads;

// The sum of the numbers from a to b - 1, by halves, with this cutoff.
fn ranges(
    rt: &(impl Threads + Sync),
    alloc: Global,
    cutoff: u32,
    flows: &[Flow<'_>],
) -> Result<(), Fail> {
    let items = format!(in alloc;
        "fun tiny(a, b) = b - a <= 1;\nfun one(a, b) = if b - a == 1 then a else 0;\nfun half(a, b, j) = [if j == 0 then a else (a + b) / 2, if j == 0 then (a + b) / 2 else b];\nfun add(x, y) = x + y;\ndivcon range {{ parts 2; cutoff {cutoff}; simple tiny; solve one; divide half; combine add; }}\n"
    )?;
    meet_flows(rt, alloc, items.as_str(), flows)
}

const RANGES: &[Flow<'static>] = &[
    Flow::Done("divcon range on 1", b"0 10\n0 0\n", b"45\n0\n"),
    Flow::Done("divcon range on 2", b"0 10\n0 0\n", b"45\n0\n"),
    Flow::Done("divcon range on 7", b"0 10\n0 0\n", b"45\n0\n"),
    Flow::Done(
        "divcon range on 63",
        b"0 10\n0 0\n3 4\n5 9\n",
        b"45\n0\n3\n26\n",
    ),
    Flow::Done("divcon range on 7", b"-100 101\n", b"0\n"),
    Flow::Done(
        "farm 2 { divcon range on 3 }",
        b"0 10\n0 0\n5 9\n",
        b"45\n0\n26\n",
    ),
    Flow::Faults(
        "divcon range on 2",
        b"0 10\n1\n0 0\n",
        b"45\n",
        b"muesli: stage 1: record of 1 numbers, 2 wanted\n",
    ),
    Flow::Faults(
        "farm 3 { divcon range on 2 }",
        b"0 3\n9223372036854775805 9223372036854775807\n5 9\n",
        b"3\n",
        OVERFLOW,
    ),
];

#[test]
fn ranges_are_summed(rt: HostRuntime) -> Result<(), Fail> {
    for cutoff in [0, 3, 64] {
        ranges(&rt, rt.alloc(), cutoff, RANGES)?;
    }
    Ok(())
}

// A problem is a case and how many levels are below it. Case 1 faults at `simple`, 2 at `solve`, 3 at the second part
// and at `solve`, 4 at `combine`, 7 at `solve` in another way; 6 has the parts 2 and 7, and 8 the parts 7 and 2.
const CASES: &str =
    "fun simple_at(k, n) = if k == 1 then 1 / 0 else n <= 0;\nfun solved_at(k, n) = if k == 2 or k == 3 then 1 / 0 else if k == 7 then 9223372036854775807 + 1 else if k == 4 then 9223372036854775807 else n + 1;\nfun case(k, j) = if k == 6 then (if j == 0 then 2 else 7) else if k == 8 then (if j == 0 then 7 else 2) else if k == 3 and j == 1 then 9223372036854775807 + 1 else k;\nfun parted(k, n, j) = [case(k, j), n - 1];\nfun sum_of(x, y) = x + y;\ndivcon cases { parts 2; cutoff 1; simple simple_at; solve solved_at; divide parted; combine sum_of; }\n";

const FAULTS: &[Flow<'static>] = &[
    Flow::Done(
        "divcon cases on 2",
        b"0 0\n0 1\n0 3\n4 0\n",
        b"1\n2\n8\n9223372036854775807\n",
    ),
    Flow::Faults("divcon cases on 2", b"1 0\n", b"", BY_ZERO),
    Flow::Faults("divcon cases on 2", b"2 0\n", b"", BY_ZERO),
    Flow::Faults("divcon cases on 2", b"2 3\n", b"", BY_ZERO),
    Flow::Faults("divcon cases on 2", b"3 0\n", b"", BY_ZERO),
    Flow::Faults("divcon cases on 2", b"3 1\n", b"", OVERFLOW),
    Flow::Faults("divcon cases on 2", b"4 1\n", b"", OVERFLOW),
    Flow::Faults("divcon cases on 2", b"6 1\n", b"", BY_ZERO),
    Flow::Faults("divcon cases on 2", b"8 1\n", b"", OVERFLOW),
    Flow::Faults("divcon cases on 7", b"6 3\n", b"", BY_ZERO),
    Flow::Faults("divcon cases on 7", b"8 3\n", b"", OVERFLOW),
];

#[test]
fn first_faults_count(rt: HostRuntime) -> Result<(), Fail> {
    meet_flows(&rt, rt.alloc(), CASES, FAULTS)
}

// The first part is one less, and the second is simple.
const CHAIN: &str =
    "fun done(n) = n <= 0;\nfun one(n) = 1;\nfun less(n, j) = if j == 0 then n - 1 else 0;\nfun add(x, y) = x + y;\ndivcon chain { parts 2; cutoff 64; simple done; solve one; divide less; combine add; }\ndivcon plain { parts 2; cutoff 0; simple done; solve one; divide less; combine add; }\n";

const DEEP: &[u8] =
    b"muesli: stage 1: too deep at 0.0.0.0.0.0.0.0.0.0.0.0.0.0.0.0.0.0.0.0.0.0.0.0.0.0.0.0.0.0.0.0.0.0.0.0.0.0.0.0.0.0.0.0.0.0.0.0.0.0.0.0.0.0.0.0.0.0.0.0.0.0.0.0\n";

const CHAINS: &[Flow<'static>] = &[
    Flow::Done("divcon chain on 2", b"64\n63\n0\n", b"65\n64\n1\n"),
    Flow::Done("divcon plain on 2", b"64\n63\n0\n", b"65\n64\n1\n"),
    Flow::Faults("divcon chain on 7", b"1\n65\n1\n", b"2\n", DEEP),
    Flow::Faults("divcon plain on 7", b"1\n65\n1\n", b"2\n", DEEP),
];

#[test]
fn levels_are_limited(rt: HostRuntime) -> Result<(), Fail> {
    meet_flows(&rt, rt.alloc(), CHAIN, CHAINS)
}

const SIXTEEN: &str =
    "fun done(n) = n <= 0;\nfun one(n) = 1;\nfun less(n, j) = n - 1;\nfun all(a, b, c, d, e, f, g, h, i, j, k, l, m, n, o, p) = a + b + c + d + e + f + g + h + i + j + k + l + m + n + o + p;\ndivcon wide { parts 16; cutoff 1; simple done; solve one; divide less; combine all; }\nfun own(n, j) = j;\nfun digits(a, b, c, d, e, f, g, h, i, j, k, l, m, n, o, p) = 10 * (10 * a + b) + p;\nfun same(n) = n;\nfun low(n) = n < 16;\ndivcon order { parts 16; cutoff 1; simple low; solve same; divide own; combine digits; }\n";

const WIDE: &[Flow<'static>] = &[
    Flow::Done("divcon wide on 3", b"0\n1\n2\n3\n", b"1\n16\n256\n4096\n"),
    // The parts' values stand in the order of the parts.
    Flow::Done("divcon order on 3", b"16\n7\n", b"25\n7\n"),
];

#[test]
fn sixteen_parts_are_combined(rt: HostRuntime) -> Result<(), Fail> {
    meet_flows(&rt, rt.alloc(), SIXTEEN, WIDE)
}
