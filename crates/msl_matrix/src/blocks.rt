ghost use Rattle.std.specs.Prelude.{◌≡◌, ◌<◌, ◌≤◌, ◌*◌, IfOk, length};
ghost use Rattle.msl_base.specs.declared.limits.TheConstants.{MOST_NUMBERS};
ghost use Rattle.msl_matrix.specs.Grids.{AreWindows, IsExtent, IsWindow, extent_of, left, top};
ghost use Rattle.msl_matrix.specs.Matrices.{AreBlocks, IsBlock, IsCut, seen};

use crate::shape::Shape2;
use msl_base::NoMemory;
use msl_local::Window;
use msl_side::in_turn;
use std::alloc::Global;

// The list in blocks. Each number is copied once.
pub fn laid(alloc: Global, shape: Shape2, xs: &[i64]) -> Result<Vec<Vec<i64>>, NoMemory>
    requires limits { IsExtent (extent_of shape) }
    requires long { length xs.now ≡ shape.rows * shape.cols }
    ensures blocks { IfOk result (λ v. AreBlocks (extent_of shape) v.items) }
    ensures seen { IfOk result (λ v. seen (extent_of shape) v.items ≡ xs.now) }
{
    let room = Vec::with_capacity(alloc, shape.blocks())?;
    in_turn(
        shape.blocks(),
        &|j: usize| -> Result<Vec<i64>, NoMemory>
            requires { IsExtent (extent_of shape) × (length xs.now ≡ shape.rows * shape.cols) × (j < shape.grid_rows * shape.grid_cols) }
            ensures { IfOk result (λ v. IsBlock (extent_of shape) xs.entry.now j v.items) }
        { block_of(alloc, shape, xs, j) },
        room,
    )
}

// Block j of a list.
fn block_of(alloc: Global, shape: Shape2, xs: &[i64], j: usize) -> Result<Vec<i64>, NoMemory>
    requires limits { IsExtent (extent_of shape) }
    requires long { length xs.now ≡ shape.rows * shape.cols }
    requires within { j < shape.grid_rows * shape.grid_cols }
    ensures { IfOk result (λ v. IsBlock (extent_of shape) xs.now j v.items) }
{
    cut(alloc, xs, shape.cols as usize, shape.window(j))
}

// The rows and columns of a window, row by row.
fn cut(alloc: Global, xs: &[i64], cols: usize, window: Window) -> Result<Vec<i64>, NoMemory>
    requires rows { window.above ≤ window.below }
    requires order { window.before ≤ window.behind }
    requires cols { window.behind ≤ cols }
    requires within { window.below * cols ≤ length xs.now }
    requires few { length xs.now ≤ MOST_NUMBERS }
    ensures { IfOk result (λ v. IsCut cols xs.now window.above window.below window.before window.behind v.items) }
{
    let Window {
        above,
        below,
        before,
        behind,
    } = window;
    let mut block = Vec::with_capacity(alloc, (below - above) * (behind - before))?;
    for r in above..below {
        let row = &xs[r * cols + before..r * cols + behind];
        block.extend_from_slice(row)?;
    }
    Ok(block)
}

// The windows of all blocks.
pub fn windows(alloc: Global, shape: Shape2) -> Result<Vec<Window>, NoMemory>
    requires { IsExtent (extent_of shape) }
    ensures { IfOk result (λ v. AreWindows (extent_of shape) v.items) }
{
    let room = Vec::with_capacity(alloc, shape.blocks())?;
    in_turn(
        shape.blocks(),
        &|j: usize| -> Result<Window, NoMemory>
            requires { IsExtent (extent_of shape) × (j < shape.grid_rows * shape.grid_cols) }
            ensures { IfOk result (λ w. IsWindow (extent_of shape) j w) }
        { Ok(shape.window(j)) },
        room,
    )
}
