//! Farms: their workers take the records in turn, and the first record that faults ends the run.

use crate::flow::{BY_ZERO, BY_ZERO_2, BY_ZERO_3, FUNCTIONS, Flow, OVERFLOW, meet_flows};
use std::test::Fail;

const FARMS: &[Flow<'static>] = &[
    Flow::Done("farm 3 { atomic sq }", b"1\n2\n3\n4\n", b"1\n4\n9\n16\n"),
    Flow::Faults(
        "farm 3 { atomic sq }",
        b"1\n3037000500\n3\n4\n",
        b"1\n",
        OVERFLOW,
    ),
    Flow::Done("farm 3 { atomic sq }", b"", b""),
    Flow::Done("farm 1 { atomic sq }", b"-4\n5\n", b"16\n25\n"),
    // More workers than records, and more records than workers.
    Flow::Done("farm 63 { atomic sq }", b"1\n2\n3\n", b"1\n4\n9\n"),
    Flow::Done(
        "farm 2 { atomic mix }",
        b"2 3\n-1 4\n0 0\n7 -7\n1 1\n",
        b"5 6 -1\n3 -4 -5\n0 0 0\n0 -49 14\n2 1 0\n",
    ),
    Flow::Faults("farm 3 { atomic a }", b"0\n1\n", b"", BY_ZERO),
    Flow::Faults(
        "farm 2 { atomic mix }",
        b"2 3\n1 2\n1\n4 5\n",
        b"5 6 -1\n3 2 -1\n",
        b"muesli: stage 1: record of 1 numbers, 2 wanted\n",
    ),
    // What comes first counts, a fault of the stage or a line that is no record.
    Flow::Faults(
        "farm 3 { atomic sq }",
        b"1\n2\nx\n",
        b"1\n4\n",
        b"muesli: line 3: bad record\n",
    ),
    Flow::Faults(
        "farm 3 { atomic sq }",
        b"1\n3037000500\nx\n",
        b"1\n",
        OVERFLOW,
    ),
];

#[test]
fn farms_are_run(rt: HostRuntime) -> Result<(), Fail> {
    meet_flows(&rt, rt.alloc(), FUNCTIONS, FARMS)
}

const NESTED: &str = "farm 2 { pipe { atomic a; farm 3 { atomic b } } }";

const BEFORE: &str = "pipe { farm 2 { pipe { atomic a; farm 3 { atomic b } } }; atomic c }";

// The numbers of stages are those of the text, whatever stands around them.
const NESTS: &[Flow<'static>] = &[
    Flow::Done(NESTED, b"2\n10\n1\n-1\n", b"3\n-10\n1\n0\n"),
    Flow::Faults(NESTED, b"2\n5\n1\n", b"3\n", BY_ZERO_2),
    Flow::Faults(NESTED, b"2\n0\n1\n", b"3\n", BY_ZERO),
    Flow::Faults(NESTED, b"2\n5\n0\n", b"3\n", BY_ZERO_2),
    Flow::Faults(NESTED, b"2\n0\n5\n", b"3\n", BY_ZERO),
    Flow::Done(BEFORE, b"2\n10\n1\n", b"0\n0\n1\n"),
    Flow::Faults(BEFORE, b"2\n10\n-1\n1\n", b"0\n0\n", BY_ZERO_3),
    Flow::Faults(
        "farm 2 { farm 3 { atomic a } }",
        b"1\n2\n3\n4\n5\n0\n7\n",
        b"10\n5\n3\n2\n2\n",
        BY_ZERO,
    ),
    Flow::Done(
        "pipe { farm 2 { pipe { farm 2 { atomic a } } }; farm 2 { farm 2 { farm 2 { atomic a } } } }",
        b"3\n4\n",
        b"3\n5\n",
    ),
    Flow::Faults(
        "pipe { farm 2 { atomic a }; farm 2 { pipe { atomic a; atomic add } } }",
        b"1\n",
        b"",
        b"muesli: stage 3: record of 1 numbers, 2 wanted\n",
    ),
];

#[test]
fn nests_of_farms_are_run(rt: HostRuntime) -> Result<(), Fail> {
    meet_flows(&rt, rt.alloc(), FUNCTIONS, NESTS)
}

// How far four numbers or others are from their mean, the sum up to each number, and a matrix whose lower blocks change
// places.
const DATA: &str =
    "fun dev(s, x) = 4 * x - s;\ndata d { a = array 2; s = fold sum a; b = map dev(s) a; give b; }\ndata t { a = array 3; b = scan sum a; give b; }\nfun neg(i) = -i;\ndata m { a = matrix 4 4 grid 2 2 at 0; b = rotateRows neg a; give b; }\n";

const PROGRAMS: &[Flow<'static>] = &[
    Flow::Done("farm 2 { data d on 2 }", b"1 2 3 6\n", b"-8 -4 0 12\n"),
    Flow::Done(
        "farm 2 { data d on 2 }",
        b"1 2 3 6\n-4 0 4 8\n\n5\n",
        b"-8 -4 0 12\n-24 -8 8 24\n\n15\n",
    ),
    Flow::Faults(
        "farm 2 { data d on 2 }",
        b"1 2 3 6\n9223372036854775807\n5\n",
        b"-8 -4 0 12\n",
        OVERFLOW,
    ),
    Flow::Faults(
        "farm 3 { pipe { atomic mix; data d on 3 } }",
        b"2 3\n4000000000000000000 1\n2 3\n",
        b"10 14 -14\n",
        b"muesli: stage 2: overflow\n",
    ),
    Flow::Done(
        "farm 1 { data m on 2 }",
        b"0 1 2 3 4 5 6 7 8 9 10 11 12 13 14 15\n",
        b"0 1 2 3 4 5 6 7 10 11 8 9 14 15 12 13\n",
    ),
    Flow::Done(
        "pipe { data t on 2 }",
        b"1 2 3\n\n-1 1\n",
        b"1 3 6\n\n-1 0\n",
    ),
    Flow::Done(
        "pipe { data t on 2; farm 2 { data d on 3 } }",
        b"1 2 3\n",
        b"-6 2 14\n",
    ),
    Flow::Faults(
        "pipe { data t on 2; farm 2 { data m on 2 } }",
        b"1 2\n",
        b"",
        b"muesli: stage 2: record of 2 numbers, 16 wanted\n",
    ),
];

#[test]
fn farms_of_data_programs_are_run(rt: HostRuntime) -> Result<(), Fail> {
    let items = format!(in rt.alloc(); "{FUNCTIONS}{DATA}")?;
    meet_flows(&rt, rt.alloc(), items.as_str(), PROGRAMS)
}
