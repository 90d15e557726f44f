//! What calls come to, by plain code over rows and columns.

use crate::matrices::{Call, Extent, extent_behind};
use std::alloc::{AllocError, Global};
use std::process::Abort;

/// The matrix that a call gives, row by row, of matrices of this extent, whose grid divides what is rotated.
pub fn given(
    rt: &impl Abort,
    alloc: Global,
    call: Call,
    extent: Extent,
    xs: &[i64],
    ys: &[i64],
) -> Result<Vec<i64>, AllocError> {
    let (rows, cols, _, _) = extent_behind(call, extent);
    let mut all = Vec::new(alloc);
    for r in 0..rows {
        for c in 0..cols {
            all.push(number(rt, call, extent, (r, c), xs, ys))?;
        }
    }
    Ok(all)
}

// What stands at a row and a column of it.
fn number(
    rt: &impl Abort,
    call: Call,
    extent: Extent,
    place: (u32, u32),
    xs: &[i64],
    ys: &[i64],
) -> i64 {
    let cols = extent.1;
    let (r, c) = place;
    let x = cell(rt, cols, from(rt, call, extent, place), xs);
    let before = (r as i64)
        .wrapping_mul(5)
        .wrapping_sub((c as i64).wrapping_mul(3));
    match call {
        Call::Map(_) => x.wrapping_add(x),
        Call::MapIndex(_) => before.wrapping_add(x),
        Call::Zip(_) => x.wrapping_sub(cell(rt, cols, place, ys)),
        Call::ZipIndex(_) => before
            .wrapping_add(x)
            .wrapping_sub(cell(rt, cols, place, ys)),
        _ => x,
    }
}

// The row and the column that the number at a row and a column comes from.
fn from(rt: &impl Abort, call: Call, extent: Extent, place: (u32, u32)) -> (u32, u32) {
    let (rows, cols, grid_rows, grid_cols) = extent;
    let (r, c) = place;
    match call {
        Call::Transpose => (c, r),
        Call::RotateRows(name, k) => {
            let by = turns(name, k, block_of(rt, r, rows, grid_rows));
            (r, source(rt, c, by, cols, grid_cols))
        }
        Call::RotateCols(name, k) => {
            let by = turns(name, k, block_of(rt, c, cols, grid_cols));
            (source(rt, r, by, rows, grid_rows), c)
        }
        _ => place,
    }
}

// What stands at a row and a column of a matrix of so many columns.
fn cell(rt: &impl Abort, cols: u32, place: (u32, u32), xs: &[i64]) -> i64 {
    let (r, c) = place;
    let i = (r as u64).wrapping_mul(cols as u64).wrapping_add(c as u64);
    *xs.get(i as usize).expect(rt, "a place")
}

// How many places the blocks of block row or column s move.
fn turns(name: &str, k: i64, s: u32) -> i64 {
    match name {
        "plus" => k.wrapping_add(s as i64),
        "less" => k.wrapping_sub(s as i64),
        _ => k,
    }
}

// The block in which place i lies if n places lie in b blocks, of which the first have one more.
fn block_of(rt: &impl Abort, i: u32, n: u32, b: u32) -> u32 {
    assert!(rt; b > 0);
    let mut left = i;
    for j in 0..b {
        let more = if j < n % b { 1 } else { 0 };
        let size = (n / b).wrapping_add(more);
        if left < size {
            return j;
        }
        left = left.wrapping_sub(size);
    }
    b
}

// From where the number at place i comes, if n places lie in b equal blocks, which move so far, and round.
fn source(rt: &impl Abort, i: u32, by: i64, n: u32, b: u32) -> u32 {
    assert!(rt; n > 0 && b > 0);
    let blocks = by.wrapping_rem(b as i64);
    let places = blocks.wrapping_mul((n / b) as i64);
    let from = (i as i64).wrapping_sub(places).wrapping_rem(n as i64);
    let from = if from < 0 {
        from.wrapping_add(n as i64)
    } else {
        from
    };
    u32::try_from(from).ok().expect(rt, "a place")
}

/// Numbers in no order, of both signs, for a matrix of this extent.
pub fn numbers(alloc: Global, first: i64, extent: Extent) -> Result<Vec<i64>, AllocError> {
    let mut all = Vec::new(alloc);
    let mut x = first;
    for _ in 0..(extent.0 as u64).wrapping_mul(extent.1 as u64) {
        all.push(x)?;
        x = x.wrapping_mul(-7919).wrapping_add(13).wrapping_rem(1009);
    }
    Ok(all)
}
