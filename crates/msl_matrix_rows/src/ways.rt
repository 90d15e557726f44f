//! Calls one after the other: matrices that are turned and rotated, and come back.

use crate::cells::{GRIDS, SIZES, TURNS};
use crate::matrices::Call::{RotateCols, RotateRows, Transpose};
use crate::matrices::{Call, Case, Extent, meet};
use crate::plain::{given, numbers};
use std::alloc::Global;
use std::process::Abort;
use std::test::Fail;
use std::thread::Threads;

// The calls give the matrix again, or what one call gives of it.
fn meet_ways(
    rt: &(impl Abort + Threads),
    alloc: Global,
    calls: &[Call],
    like: Option<Call>,
    extent: Extent,
) -> Result<(), Fail> {
    let all = numbers(alloc, 7, extent)?;
    let xs = all.as_slice();
    let one = match like {
        Some(call) => given(rt, alloc, call, extent, xs, xs)?,
        None => Vec::from_slice(alloc, xs)?,
    };
    let case = Case {
        calls,
        fold: None,
        extent,
        xs,
        ys: xs,
        want: one.as_slice(),
        fault: None,
    };
    meet(rt, alloc, &case)
}

#[test]
fn twice_transposed(rt: HostRuntime) -> Result<(), Fail> {
    for &(rows, cols) in SIZES {
        for &(grid_rows, grid_cols) in GRIDS {
            let extent = (rows, cols, grid_rows, grid_cols);
            meet_ways(&rt, rt.alloc(), &[], None, extent)?;
            meet_ways(&rt, rt.alloc(), &[Transpose, Transpose], None, extent)?;
        }
    }
    Ok(())
}

// Rotations there and back, of block rows and of block columns.
const BACK: &[[Call; 4]] = &[
    [
        RotateRows("all", 5),
        RotateCols("all", -3),
        RotateCols("all", 3),
        RotateRows("all", -5),
    ],
    [
        RotateRows("all", i64::MAX),
        RotateRows("all", -9223372036854775807),
        RotateCols("plus", 1),
        RotateCols("less", -1),
    ],
    [
        RotateCols("less", 0),
        RotateCols("plus", 0),
        Transpose,
        Transpose,
    ],
];

#[test]
fn rotated_there_and_back(rt: HostRuntime) -> Result<(), Fail> {
    for &(grid_rows, grid_cols) in GRIDS {
        for calls in BACK {
            let (rows, cols) = (grid_rows.wrapping_mul(2), grid_cols);
            let extent = (rows, cols, grid_rows, grid_cols);
            meet_ways(&rt, rt.alloc(), calls, None, extent)?;
        }
    }
    Ok(())
}

// Between two transpositions block columns are block rows.
#[test]
fn rotated_between_transpositions(rt: HostRuntime) -> Result<(), Fail> {
    for &(grid_rows, grid_cols) in GRIDS {
        for &(name, k) in TURNS {
            let calls = [Transpose, RotateCols(name, k), Transpose];
            let like = Some(RotateRows(name, k));
            let extent = (5, grid_cols.wrapping_mul(2), grid_rows, grid_cols);
            meet_ways(&rt, rt.alloc(), &calls, like, extent)?;
        }
    }
    Ok(())
}
