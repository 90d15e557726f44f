//! Matrices with results that are given, and matrices with faults, of which the one at the least place is the answer.

use crate::matrices::Call::{Map, MapIndex, RotateCols, RotateRows, Transpose, Zip, ZipIndex};
use crate::matrices::{Call, Case, Extent, Stop, meet};
use msl_ops::OpKind::{self, AddMod, Gcd, Min, Sum};
use std::alloc::{AllocError, Global};
use std::process::Abort;
use std::test::Fail;
use std::thread::Threads;

type Wanted = Result<&'static [i64], Stop>;

const MAX: i64 = i64::MAX;

const OVERFLOW: Wanted = Err(Stop::Overflow);

const BY_0: Wanted = Err(Stop::DivZero);

const RAGGED: Wanted = Err(Stop::Ragged);

const SMALL: Extent = (1, 3, 1, 1);

const TO_3: &[i64] = &[1, 2, 3];

const TO_6: &[i64] = &[1, 2, 3, 4, 5, 6];

const TO_8: &[i64] = &[1, 2, 3, 4, 5, 6, 7, 8];

const FROM_0: &[i64] = &[0, 1, 2, 3, 4, 5, 6, 7, 8, 9, 10, 11, 12, 13, 14, 15];

// A call on a matrix, which a zip takes twice, and what comes of it.
const ROWS: &[(Call, Extent, &[i64], Wanted)] = &[
    (Map("twice"), SMALL, TO_3, Ok(&[2, 4, 6])),
    (MapIndex("sum3"), SMALL, TO_3, Ok(&[1, 3, 5])),
    (Zip("sum"), SMALL, TO_3, Ok(&[2, 4, 6])),
    (ZipIndex("sum4"), SMALL, TO_3, Ok(&[2, 5, 8])),
    (Transpose, (2, 3, 1, 1), TO_6, Ok(&[1, 4, 2, 5, 3, 6])),
    (Transpose, (2, 3, 2, 3), TO_6, Ok(&[1, 4, 2, 5, 3, 6])),
    (Transpose, (2, 3, 1, 2), TO_6, Ok(&[1, 4, 2, 5, 3, 6])),
    (Transpose, (1, 3, 2, 2), TO_3, Ok(TO_3)),
    (
        MapIndex("sum3"),
        (3, 2, 2, 2),
        TO_6,
        Ok(&[1, 3, 4, 6, 7, 9]),
    ),
    (
        ZipIndex("sum4"),
        (3, 2, 2, 2),
        TO_6,
        Ok(&[2, 5, 7, 10, 12, 15]),
    ),
    (RotateCols("all", 1), (3, 1, 3, 1), TO_3, Ok(&[3, 1, 2])),
    (RotateRows("all", 1), (1, 3, 1, 3), TO_3, Ok(&[3, 1, 2])),
    (RotateRows("all", 1), SMALL, TO_3, Ok(TO_3)),
    (
        RotateRows("less", 0),
        (4, 4, 2, 2),
        FROM_0,
        Ok(&[0, 1, 2, 3, 4, 5, 6, 7, 10, 11, 8, 9, 14, 15, 12, 13]),
    ),
    (
        RotateCols("less", 0),
        (4, 4, 2, 2),
        FROM_0,
        Ok(&[0, 1, 10, 11, 4, 5, 14, 15, 8, 9, 2, 3, 12, 13, 6, 7]),
    ),
    // Blocks of one row or two, and of two columns.
    (
        RotateRows("plus", 1),
        (2, 4, 2, 2),
        TO_8,
        Ok(&[3, 4, 1, 2, 5, 6, 7, 8]),
    ),
    (
        RotateCols("plus", 1),
        (4, 2, 2, 2),
        TO_8,
        Ok(&[5, 2, 7, 4, 1, 6, 3, 8]),
    ),
    (Map("fault1"), (1, 1, 32, 32), &[1], BY_0),
    (Map("twice"), (1, 1, 32, 32), &[MAX], OVERFLOW),
];

// The numbers that are wanted, or the fault.
fn parts(wanted: Wanted) -> (&'static [i64], Option<Stop>) {
    match wanted {
        Ok(want) => (want, None),
        Err(fault) => (&[], Some(fault)),
    }
}

#[test]
fn matrices_by_rows(rt: HostRuntime) -> Result<(), Fail> {
    for &(call, extent, xs, wanted) in ROWS {
        let (want, fault) = parts(wanted);
        let case = Case {
            calls: &[call],
            fold: None,
            extent,
            xs,
            ys: xs,
            want,
            fault,
        };
        meet(&rt, rt.alloc(), &case)?;
    }
    Ok(())
}

// What a matrix folds to. Numbers on the way may leave 64 bits.
const FOLDS: &[(OpKind, i64, Extent, &[i64], Wanted)] = &[
    (Sum, 1, SMALL, TO_3, Ok(&[6])),
    (Sum, 1, (2, 3, 2, 2), TO_6, Ok(&[21])),
    (Sum, 1, (2, 2, 1, 2), &[MAX, 1, 1, -2], Ok(&[MAX])),
    (Sum, 1, (2, 2, 1, 2), &[MAX, 1, 1, -1], OVERFLOW),
    (Min, 1, (3, 2, 32, 32), &[5, 4, -7, 8, 9, 0], Ok(&[-7])),
    (Gcd, 1, (2, 1, 1, 1), &[12, -18], Ok(&[6])),
    (Gcd, 1, (1, 1, 2, 3), &[i64::MIN], OVERFLOW),
    (AddMod, 7, (1, 2, 1, 2), &[-1, 3], Ok(&[2])),
];

#[test]
fn folds_by_rows(rt: HostRuntime) -> Result<(), Fail> {
    for &(kind, modulus, extent, xs, wanted) in FOLDS {
        let (want, fault) = parts(wanted);
        let case = Case {
            calls: &[],
            fold: Some((kind, modulus)),
            extent,
            xs,
            ys: xs,
            want,
            fault,
        };
        meet(&rt, rt.alloc(), &case)?;
    }
    Ok(())
}

// Rotations of a matrix of zeros whose function faults, or whose blocks differ in size, which comes first.
const TURNS: &[(Call, Extent, Wanted)] = &[
    (RotateRows("divides", 1), (4, 4, 4, 2), BY_0),
    (RotateRows("exceeds", 1), (4, 4, 4, 2), OVERFLOW),
    (RotateCols("divides", 1), (4, 4, 2, 4), BY_0),
    (RotateCols("exceeds", 1), (4, 4, 2, 4), OVERFLOW),
    // Also in block rows and columns without a number.
    (RotateRows("exceeds", 6), (1, 4, 7, 2), OVERFLOW),
    (RotateCols("exceeds", 6), (4, 1, 2, 7), OVERFLOW),
    (RotateRows("all", 0), (4, 4, 2, 3), RAGGED),
    (RotateCols("all", 0), (4, 4, 3, 2), RAGGED),
    (RotateRows("divides", 0), (4, 4, 2, 3), RAGGED),
    (RotateCols("divides", 0), (4, 4, 3, 2), RAGGED),
    (RotateRows("all", 1), (4, 4, 1, 7), RAGGED),
    (RotateRows("all", 1), (4, 4, 32, 32), RAGGED),
    (RotateCols("all", 1), (4, 4, 32, 32), RAGGED),
    (RotateRows("divides", 0), (4, 5, 3, 5), BY_0),
    (RotateCols("divides", 0), (5, 4, 5, 3), BY_0),
];

#[test]
fn rotations_that_fault(rt: HostRuntime) -> Result<(), Fail> {
    for &(call, extent, want) in TURNS {
        meet_marked(&rt, rt.alloc(), call, extent, &[], want)?;
    }
    Ok(())
}

// The numbers of a matrix that aren't 0, by their places row by row.
type Marks = &'static [(usize, i64)];

// A call on a matrix of zeros but at these places; a zip takes it twice. In the grid of the matrices of 2 rows the block
// of the second place stands before that of the first.
const MARKED: &[(Call, Extent, Marks, Wanted)] = &[
    (Map("fault1"), (2, 4, 1, 2), &[(3, 2), (4, 1)], OVERFLOW),
    (Map("fault1"), (2, 4, 1, 2), &[(3, 1), (4, 2)], BY_0),
    (
        MapIndex("fault3"),
        (2, 4, 1, 2),
        &[(3, 2), (4, 1)],
        OVERFLOW,
    ),
    (MapIndex("fault3"), (2, 4, 1, 2), &[(3, 1), (4, 2)], BY_0),
    (Zip("fault2"), (2, 4, 1, 2), &[(3, 2), (4, 1)], OVERFLOW),
    (Zip("fault2"), (2, 4, 1, 2), &[(3, 1), (4, 2)], BY_0),
    (
        ZipIndex("fault4"),
        (2, 4, 1, 2),
        &[(3, 2), (4, 1)],
        OVERFLOW,
    ),
    (ZipIndex("fault4"), (2, 4, 1, 2), &[(3, 1), (4, 2)], BY_0),
    (Map("fault1"), (5, 7, 2, 3), &[(6, 2), (7, 1)], OVERFLOW),
    (Map("fault1"), (5, 7, 2, 3), &[(6, 1), (34, 2)], BY_0),
    (Zip("fault2"), (5, 7, 7, 1), &[(33, 2), (34, 1)], OVERFLOW),
    (Zip("fault2"), (5, 7, 32, 32), &[(27, 1), (28, 2)], BY_0),
    // 20,000 numbers, which threads work on: the last column is that of the last blocks.
    (
        Map("fault1"),
        (100, 200, 2, 3),
        &[(199, 2), (200, 1)],
        OVERFLOW,
    ),
    (Map("fault1"), (100, 200, 2, 3), &[(199, 1), (200, 2)], BY_0),
    (Map("fault1"), (100, 200, 2, 3), &[(19_999, 1)], BY_0),
    (
        Zip("fault2"),
        (100, 200, 1, 7),
        &[(9_999, 2), (10_000, 1)],
        OVERFLOW,
    ),
    (
        Zip("fault2"),
        (100, 200, 7, 1),
        &[(9_999, 1), (10_000, 2)],
        BY_0,
    ),
];

#[test]
fn the_least_place_is_the_answer(rt: HostRuntime) -> Result<(), Fail> {
    for &(call, extent, marks, want) in MARKED {
        meet_marked(&rt, rt.alloc(), call, extent, marks, want)?;
    }
    Ok(())
}

fn marked(alloc: Global, extent: Extent, marks: &[(usize, i64)]) -> Result<Vec<i64>, AllocError> {
    let mut all = Vec::new(alloc);
    for _ in 0..(extent.0 as u64).wrapping_mul(extent.1 as u64) {
        all.push(0)?;
    }
    for &(at, x) in marks {
        if let Some(number) = all.as_mut_slice().get_mut(at) {
            *number = x;
        }
    }
    Ok(all)
}

fn meet_marked(
    rt: &(impl Abort + Threads),
    alloc: Global,
    call: Call,
    extent: Extent,
    marks: &[(usize, i64)],
    wanted: Wanted,
) -> Result<(), Fail> {
    let (want, fault) = parts(wanted);
    let all = marked(alloc, extent, marks)?;
    let xs = all.as_slice();
    let case = Case {
        calls: &[call],
        fold: None,
        extent,
        xs,
        ys: xs,
        want,
        fault,
    };
    meet(rt, alloc, &case)
}
