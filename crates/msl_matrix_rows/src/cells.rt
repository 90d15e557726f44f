//! Every call in grids of several forms, by plain code.

use crate::matrices::Call::{Map, MapIndex, RotateCols, RotateRows, Transpose, Zip, ZipIndex};
use crate::matrices::{Call, Case, Extent, meet};
use crate::plain::{given, numbers};
use msl_ops::OpKind;
use std::alloc::Global;
use std::process::Abort;
use std::test::Fail;
use std::thread::Threads;

/// Rows and columns of grids.
pub const GRIDS: &[(u32, u32)] = &[(1, 1), (1, 7), (7, 1), (32, 32), (2, 3)];

/// Rows and columns of matrices, which most of the grids don't divide: of some blocks are empty, or differ in size.
pub const SIZES: &[(u32, u32)] = &[(1, 1), (1, 9), (9, 1), (5, 8), (35, 33)];

const CALLS: &[Call] = &[
    Map("twice"),
    MapIndex("place"),
    Zip("minus"),
    ZipIndex("places"),
    Transpose,
];

/// By how much blocks move: the function, and the number that it is given.
pub const TURNS: &[(&str, i64)] = &[
    ("all", 0),
    ("all", 1),
    ("all", -1),
    ("all", -7),
    ("all", 11),
    ("all", i64::MAX),
    ("all", i64::MIN),
    ("plus", 2),
    ("less", 0),
    ("plus", i64::MIN),
    ("less", i64::MAX),
];

fn meet_call(
    rt: &(impl Abort + Threads),
    alloc: Global,
    call: Call,
    extent: Extent,
) -> Result<(), Fail> {
    let xs = numbers(alloc, 3, extent)?;
    let ys = numbers(alloc, 5, extent)?;
    let (xs, ys) = (xs.as_slice(), ys.as_slice());
    let want = given(rt, alloc, call, extent, xs, ys)?;
    let case = Case {
        calls: &[call],
        fold: None,
        extent,
        xs,
        ys,
        want: want.as_slice(),
        fault: None,
    };
    meet(rt, alloc, &case)
}

#[test]
fn calls_by_rows_and_columns(rt: HostRuntime) -> Result<(), Fail> {
    for &(rows, cols) in SIZES {
        for &(grid_rows, grid_cols) in GRIDS {
            for &call in CALLS {
                meet_call(&rt, rt.alloc(), call, (rows, cols, grid_rows, grid_cols))?;
            }
        }
    }
    Ok(())
}

// Maps and zips of great matrices, which threads work on.
#[test]
fn calls_on_great_matrices(rt: HostRuntime) -> Result<(), Fail> {
    for call in [Map("twice"), Zip("minus"), MapIndex("place"), Transpose] {
        meet_call(&rt, rt.alloc(), call, (250, 100, 2, 3))?;
    }
    Ok(())
}

// The rows needn't be divided where those of blocks move, nor the columns where those move.
#[test]
fn rotations_by_rows_and_columns(rt: HostRuntime) -> Result<(), Fail> {
    for &(grid_rows, grid_cols) in GRIDS {
        for &(name, k) in TURNS {
            let wide = (5, grid_cols.wrapping_mul(2), grid_rows, grid_cols);
            let high = (grid_rows.wrapping_mul(2), 5, grid_rows, grid_cols);
            meet_call(&rt, rt.alloc(), RotateRows(name, k), wide)?;
            meet_call(&rt, rt.alloc(), RotateCols(name, k), high)?;
        }
    }
    Ok(())
}

// The fold of some numbers, by a plain loop.
fn folded(kind: OpKind, xs: &[i64]) -> i64 {
    let mut value = if kind == OpKind::Max { i64::MIN } else { 0 };
    for x in xs {
        value = match kind {
            OpKind::Max => value.max(*x),
            OpKind::Xor => value ^ *x,
            _ => value.wrapping_add(*x),
        };
    }
    value
}

fn meet_fold(
    rt: &(impl Abort + Threads),
    alloc: Global,
    kind: OpKind,
    extent: Extent,
) -> Result<(), Fail> {
    let xs = numbers(alloc, 3, extent)?;
    let xs = xs.as_slice();
    let case = Case {
        calls: &[],
        fold: Some((kind, 1)),
        extent,
        xs,
        ys: xs,
        want: &[folded(kind, xs)],
        fault: None,
    };
    meet(rt, alloc, &case)
}

#[test]
fn folds_by_a_loop(rt: HostRuntime) -> Result<(), Fail> {
    for &(rows, cols) in SIZES {
        for &(grid_rows, grid_cols) in GRIDS {
            for kind in [OpKind::Sum, OpKind::Max, OpKind::Xor] {
                meet_fold(&rt, rt.alloc(), kind, (rows, cols, grid_rows, grid_cols))?;
            }
        }
    }
    Ok(())
}
