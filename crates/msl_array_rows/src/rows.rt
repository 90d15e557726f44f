//! Lists with results that are given, and lists with faults, of which the one at the least place is the answer.

use crate::arrays::Call::{Fold, Foldl, Map, MapIndex, Same, Scan, Zip, ZipIndex};
use crate::arrays::{Call, Case, Stop, meet};
use msl_ops::OpKind::{AddMod, Gcd, Min, MulMod, Sum};
use std::alloc::{AllocError, Global};
use std::process::Abort;
use std::test::Fail;
use std::thread::Threads;

type Wanted = Result<&'static [i64], Stop>;

// The numbers of a list that aren't 0, by their places.
type Marks = &'static [(usize, i64)];

const MAX: i64 = i64::MAX;

const OVERFLOW: Wanted = Err(Stop::Overflow);

const BY_0: Wanted = Err(Stop::DivZero);

// A call on a list, the second list of a zip, and what comes of it.
const ROWS: &[(Call, &[i64], &[i64], Wanted)] = &[
    (Same, &[], &[], Ok(&[])),
    (Same, &[7, i64::MIN, 7], &[], Ok(&[7, i64::MIN, 7])),
    (Map("by_zero"), &[], &[], Ok(&[])),
    (MapIndex("sum"), &[1, 2, 3], &[], Ok(&[1, 3, 5])),
    (Zip("sum"), &[1, 2, 3], &[1, 2, 3], Ok(&[2, 4, 6])),
    (Zip("minus"), &[1, 2, 3], &[3, 5, 1], Ok(&[-2, -3, 2])),
    (Zip("quotient"), &[1, 2], &[0], Err(Stop::Shape(1, 2))),
    (Zip("quotient"), &[1], &[0, 0], Err(Stop::Shape(2, 1))),
    (Zip("quotient"), &[], &[0], Err(Stop::Shape(1, 0))),
    (ZipIndex("sum3"), &[1, 2, 3], &[1, 2, 3], Ok(&[2, 5, 8])),
    (ZipIndex("differ"), &[1, 2], &[3, 5], Ok(&[-2, -2])),
    (ZipIndex("fault3"), &[1, 1], &[4], Err(Stop::Shape(1, 2))),
    (
        Scan(Sum, 1),
        &[1, 2, 3, 4, 5, 6, 7],
        &[],
        Ok(&[1, 3, 6, 10, 15, 21, 28]),
    ),
    (Scan(Sum, 1), &[MAX, 1, -1], &[], OVERFLOW),
    (Scan(Gcd, 1), &[12, -18, 5], &[], Ok(&[12, 6, 1])),
    (Fold(Sum, 1), &[MAX, 1, -1], &[], Ok(&[MAX])),
    (Fold(Min, 1), &[], &[], Ok(&[9223372036854775807])),
    (Fold(Gcd, 1), &[12, -18], &[], Ok(&[6])),
    (Fold(Gcd, 1), &[i64::MIN], &[], OVERFLOW),
    (Fold(AddMod, 7), &[-1, 3], &[], Ok(&[2])),
    (Fold(MulMod, 10), &[7, 8], &[], Ok(&[6])),
    (Foldl("turned", 7), &[1, 2, 3], &[], Ok(&[-5])),
    (Foldl("sum", MAX), &[1, -1], &[], OVERFLOW),
];

// A call on a list of zeros but at these places; a zip takes the list twice.
const MARKED: &[(Call, Marks, Wanted)] = &[
    (Map("fault1"), &[(1, 2), (3, 1)], OVERFLOW),
    (Map("fault1"), &[(1, 1), (3, 2)], BY_0),
    (MapIndex("fault2"), &[(0, 2), (4, 1)], OVERFLOW),
    (MapIndex("fault2"), &[(0, 1), (4, 2)], BY_0),
    (Zip("fault2"), &[(2, 2), (3, 1)], OVERFLOW),
    (Zip("fault2"), &[(2, 1), (3, 2)], BY_0),
    (ZipIndex("fault3"), &[(3, 2), (4, 1)], OVERFLOW),
    (ZipIndex("fault3"), &[(3, 1), (4, 2)], BY_0),
    (Foldl("fault2", 0), &[(1, 2), (3, 1)], OVERFLOW),
    (Scan(Sum, 1), &[(0, MAX), (4, 1)], OVERFLOW),
];

// Of 20,000 numbers.
const MARKED_MANY: &[(Call, Marks, Wanted)] = &[
    (Map("fault1"), &[(9_000, 2), (15_000, 1)], OVERFLOW),
    (Map("fault1"), &[(9_000, 1), (15_000, 2)], BY_0),
    (MapIndex("fault2"), &[(19_998, 1), (19_999, 2)], BY_0),
    (Zip("fault2"), &[(100, 1), (15_000, 2)], BY_0),
    (ZipIndex("fault3"), &[(5_000, 2), (9_000, 1)], OVERFLOW),
    (ZipIndex("fault3"), &[(19_999, 1)], BY_0),
];

// Of 300,000 numbers. Some of them sum to a number that has more than 64 bits, and all with those before don't.
const MARKED_MOST: &[(Call, Marks, Wanted)] = &[
    (Scan(Sum, 1), &[(0, MAX), (299_999, 1)], OVERFLOW),
    (Fold(Sum, 1), &[(0, MAX), (299_999, 1)], OVERFLOW),
    (Scan(Sum, 1), TURNS, OVERFLOW),
    (Fold(Sum, 1), TURNS, Ok(&[MAX])),
    (Fold(Sum, 1), LATE, Ok(&[MAX - 2])),
];

const TURNS: Marks = &[(0, MAX), (150_000, 1), (150_001, -1)];

const LATE: Marks = &[(0, -9), (299_998, MAX), (299_999, 7)];

fn marked(alloc: Global, n: usize, marks: &[(usize, i64)]) -> Result<Vec<i64>, AllocError> {
    let mut all = Vec::new(alloc);
    for _ in 0..n {
        all.push(0)?;
    }
    for &(at, x) in marks {
        if let Some(number) = all.as_mut_slice().get_mut(at) {
            *number = x;
        }
    }
    Ok(all)
}

fn meet_marked(
    rt: &(impl Abort + Threads),
    alloc: Global,
    n: usize,
    rows: &[(Call, Marks, Wanted)],
) -> Result<(), Fail> {
    for &(call, marks, want) in rows {
        let all = marked(alloc, n, marks)?;
        let (xs, ys) = (all.as_slice(), all.as_slice());
        meet(rt, alloc, &Case { call, xs, ys, want })?;
    }
    Ok(())
}

#[test]
fn lists_by_rows(rt: HostRuntime) -> Result<(), Fail> {
    for &(call, xs, ys, want) in ROWS {
        meet(&rt, rt.alloc(), &Case { call, xs, ys, want })?;
    }
    Ok(())
}

#[test]
fn the_least_place_is_the_answer(rt: HostRuntime) -> Result<(), Fail> {
    meet_marked(&rt, rt.alloc(), 5, MARKED)?;
    meet_marked(&rt, rt.alloc(), 20_000, MARKED_MANY)?;
    meet_marked(&rt, rt.alloc(), 300_000, MARKED_MOST)
}
