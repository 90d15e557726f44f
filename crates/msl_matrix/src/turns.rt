ghost use Rattle.std.specs.Prelude.{◌≡◌, ◌<◌, ◌≤◌, ◌+◌, ◌*◌, IfOk, length, vec_capacity};
ghost use Rattle.msl_base.specs.declared.limits.TheConstants.{MOST_NUMBERS};
ghost use Rattle.msl_lists.specs.Whole.{transpose, transposed};
ghost use Rattle.msl_matrix.specs.Grids.{IsExtent, extent_of};
ghost use Rattle.msl_matrix.specs.Matrices.{matrix, seen, AreBlocks, AreTurned, IsTurned, IsTurnedBlock};

use crate::matrix::DistMatrix;
use crate::shape::Shape2;
use msl_base::NoMemory;
use msl_fabric::{Fabric, Place};
use msl_side::in_turn;
use std::alloc::Global;

impl DistMatrix {
    /// The matrix with rows and columns exchanged, and those of the grid. It fails for want of memory alone.
    pub fn transpose<F: Fabric>(
        &self,
        alloc: Global,
        _at: &mut Place<'_, F>,
    ) -> Result<DistMatrix, NoMemory>
        ensures matrix { IfOk result (λ d. d ≡ matrix (transposed self.now.extent) (transpose self.now.extent self.now.elements)) }
        ensures stage { _at.new.stage ≡ _at.old.stage }
        ensures group { _at.new.group ≡ _at.old.group }
    {
        let shape = self.shape();
        let blocks = turned_blocks(alloc, shape, self.blocks())?;
        Ok(DistMatrix::of_blocks(shape.transposed(), blocks))
    }
}

// The blocks of the matrix with rows and columns exchanged. Each number is copied once.
fn turned_blocks(
    alloc: Global,
    shape: Shape2,
    blocks: &[Vec<i64>],
) -> Result<Vec<Vec<i64>>, NoMemory>
    requires { AreBlocks (extent_of shape) blocks.now }
    ensures blocks { IfOk result (λ v. AreBlocks (transposed (extent_of shape)) v.items) }
    ensures seen { IfOk result (λ v. seen (transposed (extent_of shape)) v.items ≡ transpose (extent_of shape) (seen (extent_of shape) blocks.now)) }
{
    let room = Vec::with_capacity(alloc, shape.blocks())?;
    in_turn(
        shape.blocks(),
        &|j: usize| -> Result<Vec<i64>, NoMemory>
            requires { AreBlocks (extent_of shape) blocks.now × (j < shape.grid_rows * shape.grid_cols) }
            ensures { IfOk result (λ v. IsTurnedBlock (extent_of shape) blocks.entry.now j v.items) }
        { turned_block(alloc, shape, blocks, j) },
        room,
    )
}

// Block j of the matrix with rows and columns exchanged.
fn turned_block(
    alloc: Global,
    shape: Shape2,
    blocks: &[Vec<i64>],
    j: usize,
) -> Result<Vec<i64>, NoMemory>
    requires blocks { AreBlocks (extent_of shape) blocks.now }
    requires within { j < shape.grid_rows * shape.grid_cols }
    ensures { IfOk result (λ v. IsTurnedBlock (extent_of shape) blocks.now j v.items) }
{
    let grid_rows = shape.grid_rows as usize;
    let (t, s) = (j / grid_rows, j % grid_rows);
    let height = shape.top(s + 1) - shape.top(s);
    let width = shape.left(t + 1) - shape.left(t);
    let block = blocks[s * shape.grid_cols as usize + t].as_slice();
    turned(alloc, block, height, width)
}

// How many rows of a block are turned together. What was read of them for one column is at hand for the next.
const STRIP: usize = 32;

// The columns of a block as rows.
fn turned(alloc: Global, block: &[i64], height: usize, width: usize) -> Result<Vec<i64>, NoMemory>
    requires long { length block.now ≡ height * width }
    requires few { length block.now ≤ MOST_NUMBERS }
    ensures { IfOk result (λ v. IsTurned height width block.now v.items) }
{
    let mut out = vec![in alloc; 0; block.len()]?;
    for i in 0..height / STRIP + 1 {
        let from = i * STRIP;
        let to = from + STRIP.min(height - from);
        turn_rows(out.as_mut_slice(), block, height, width, from, to);
    }
    Ok(out)
}

// Turns the rows from `from` up to `to`.
fn turn_rows(out: &mut [i64], block: &[i64], height: usize, width: usize, from: usize, to: usize)
    requires long { length block.now ≡ height * width }
    requires few { length block.now ≤ MOST_NUMBERS }
    requires order { from ≤ to }
    requires within { to ≤ height }
    requires before { AreTurned height width block.now from 0 0 out.old }
    ensures { AreTurned height width block.now to 0 0 out.new }
{
    for b in 0..width {
        for a in from..to {
            out[b * height + a] = block[a * width + b];
        }
    }
}
