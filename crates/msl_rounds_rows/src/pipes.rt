//! Pipes: each stage works on what comes of the one before it, so the fault that the last stage meets is told, and none
//! behind it.

use crate::flow::{
    BY_ZERO, BY_ZERO_2, BY_ZERO_3, COUNTING, FUNCTIONS, Flow, HOLDING, OVERFLOW, meet_flows,
};
use std::test::Fail;

const STAGES: &[Flow<'static>] = &[
    Flow::Done("atomic sq", b"", b""),
    Flow::Faults("atomic sq", b"2\n3037000500\n5\n", b"4\n", OVERFLOW),
    Flow::Done("pipe { atomic sq }", b"", b""),
    Flow::Done("pipe { atomic a }", b"3\n", b"3\n"),
    Flow::Done(
        "pipe { atomic sq; atomic sq; atomic sq; atomic sq; atomic sq }",
        b"2\n-1\n3\n",
        b"4294967296\n1\n1853020188851841\n",
    ),
    // Of two faults that of the earlier record, whichever stage it comes from.
    Flow::Faults(
        "pipe { atomic a; atomic b }",
        b"2\n5\n0\n",
        b"3\n",
        BY_ZERO_2,
    ),
    Flow::Faults("pipe { atomic a; atomic b }", b"2\n0\n5\n", b"3\n", BY_ZERO),
    Flow::Faults("pipe { atomic a; atomic b }", b"5\n0\n", b"", BY_ZERO_2),
    Flow::Faults(
        "pipe { atomic a; atomic b }",
        b"2\n5\nx\n",
        b"3\n",
        BY_ZERO_2,
    ),
    Flow::Faults(
        "pipe { atomic a; atomic b }",
        b"2\nx\n5\n",
        b"3\n",
        b"muesli: line 2: bad record\n",
    ),
    Flow::Faults(
        "pipe { farm 2 { atomic a }; farm 3 { atomic b } }",
        b"2\n5\n0\n",
        b"3\n",
        BY_ZERO_2,
    ),
];

#[test]
fn pipes_are_run(rt: HostRuntime) -> Result<(), Fail> {
    meet_flows(&rt, rt.alloc(), FUNCTIONS, STAGES)
}

// What a filter holds is worked on when it comes, at a later record or at the end; behind a fault it never comes.
const HELD: &[Flow<'static>] = &[
    Flow::Faults(
        "pipe { filter delay; atomic b }",
        b"5\n2\n",
        b"3\n",
        BY_ZERO_2,
    ),
    Flow::Faults(
        "pipe { filter delay; atomic b }",
        b"5\n2\nx\n",
        b"3\n",
        b"muesli: line 3: bad record\n",
    ),
    Flow::Faults(
        "pipe { filter delay; atomic b }",
        b"5\n2\n7\nx\n",
        b"3\n",
        BY_ZERO_2,
    ),
    Flow::Faults(
        "pipe { atomic a; filter delay; atomic b }",
        b"2\n5\n0\n",
        b"3\n",
        BY_ZERO,
    ),
    Flow::Faults(
        "pipe { atomic a; filter delay; atomic b }",
        b"2\n5\n2\n0\n",
        b"3\n",
        BY_ZERO_3,
    ),
    Flow::Faults(
        "pipe { filter pairs; atomic add }",
        b"1\n2\n3\n",
        b"3\n",
        b"muesli: stage 2: record of 1 numbers, 2 wanted\n",
    ),
    Flow::Done(
        "pipe { filter delay; filter pairs; atomic add }",
        b"1\n2\n3\n4\n",
        b"3\n7\n",
    ),
    Flow::Faults(
        "pipe { filter delay; filter pairs; atomic add }",
        b"1\n2\n3\n",
        b"3\n",
        b"muesli: stage 3: record of 1 numbers, 2 wanted\n",
    ),
    // Of several results of a record those before the one that faults are written.
    Flow::Faults(
        "pipe { filter told; atomic b }",
        b"1\n4\n1\n",
        b"-5\n-5\n-10\n",
        BY_ZERO_2,
    ),
    Flow::Faults(
        "pipe { filter left; atomic b }",
        b"1\n3\n",
        b"-5\n-10\n",
        BY_ZERO_2,
    ),
];

#[test]
fn what_is_held_is_worked_on(rt: HostRuntime) -> Result<(), Fail> {
    let items = format!(in rt.alloc(); "{FUNCTIONS}{HOLDING}{COUNTING}")?;
    meet_flows(&rt, rt.alloc(), items.as_str(), HELD)
}

// How far the squares of two numbers that follow each other lie apart.
const APART: &str = "fun inc(x) = x + 1;\nfun less(x, y) = y - x;\nfun neg(x) = -x;\n";

const FIVE: &str =
    "pipe { atomic inc; farm 3 { atomic sq }; filter pairs; farm 2 { atomic less }; atomic neg }";

const FORTY: &[u8] =
    b"1\n2\n3\n4\n5\n6\n7\n8\n9\n10\n11\n12\n13\n14\n15\n16\n17\n18\n19\n20\n21\n22\n23\n24\n25\n26\n27\n28\n29\n30\n31\n32\n33\n34\n35\n36\n37\n38\n39\n40\n";

// Minus the sums of 2 and 3, 4 and 5, and so on up to 40 and 41.
const TWENTY: &[u8] =
    b"-5\n-9\n-13\n-17\n-21\n-25\n-29\n-33\n-37\n-41\n-45\n-49\n-53\n-57\n-61\n-65\n-69\n-73\n-77\n-81\n";

const LONG: &[Flow<'static>] = &[
    Flow::Done(FIVE, FORTY, TWENTY),
    Flow::Done(FIVE, b"", b""),
    Flow::Faults(
        FIVE,
        b"1\n2\n3\n3037000499\n5\n",
        b"-5\n",
        b"muesli: stage 2: overflow\n",
    ),
    Flow::Faults(
        FIVE,
        b"1\n2\n3\n",
        b"-5\n",
        b"muesli: stage 4: record of 1 numbers, 2 wanted\n",
    ),
];

#[test]
fn a_pipe_of_five_stages_is_run(rt: HostRuntime) -> Result<(), Fail> {
    let items = format!(in rt.alloc(); "{FUNCTIONS}{HOLDING}{APART}")?;
    meet_flows(&rt, rt.alloc(), items.as_str(), LONG)
}
