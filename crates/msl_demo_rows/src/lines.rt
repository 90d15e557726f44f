//! Lines, whose sums were computed apart.

use msl_demo::demo_line;
use std::test::Fail;

const LINES: &[(u32, &[u8])] = &[
    (0, b"demo: 0 records in, 0 records out, 0 numbers, sum 0\n"),
    (1, b"demo: 1 records in, 1 records out, 3 numbers, sum 0\n"),
    (
        4,
        b"demo: 4 records in, 4 records out, 12 numbers, sum 304\n",
    ),
    (
        10,
        b"demo: 10 records in, 10 records out, 30 numbers, sum 4800\n",
    ),
    (
        144,
        b"demo: 144 records in, 144 records out, 432 numbers, sum 13687104\n",
    ),
];

#[test]
fn lines_of_records(rt: HostRuntime) -> Result<(), Fail> {
    for (records, line) in LINES {
        let made = demo_line(&rt, rt.alloc(), *records)?;
        assert_eq!(rt; made.as_slice(), *line);
    }
    Ok(())
}

const MOST: &[u8] =
    b"demo: 100000 records in, 100000 records out, 300000 numbers, sum 52652200000\n";

#[test]
fn line_of_the_most_records(rt: HostRuntime) -> Result<(), Fail> {
    let made = demo_line(&rt, rt.alloc(), 100_000)?;
    assert_eq!(rt; made.as_slice(), MOST);
    Ok(())
}
