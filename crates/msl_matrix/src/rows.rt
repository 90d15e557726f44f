ghost use Rattle.std.specs.Prelude.{◌≡◌, ◌<◌, ◌≤◌, ◌+◌, ◌*◌, ◌++◌, length, take, drop};
ghost use Rattle.msl_matrix.specs.Grids.{extent_of, height, left, top, width};
ghost use Rattle.msl_matrix.specs.Matrices.{AreBlocks, AreRead, seen};

use crate::shape::Shape2;
use msl_base::Rec;

// Appends all numbers of a matrix, row by row. Each number is copied once.
pub fn put_rows(all: &mut Rec, shape: Shape2, blocks: &[Vec<i64>])
    requires blocks { AreBlocks (extent_of shape) blocks.now }
    requires none { AreRead (extent_of shape) blocks.now 0 all.old }
    ensures { AreRead (extent_of shape) blocks.now (shape.rows * shape.cols) all.new }
{
    for s in 0..shape.grid_rows as usize {
        put_block_row(all, shape, blocks, s);
    }
}

// Appends the rows of a block row.
fn put_block_row(all: &mut Rec, shape: Shape2, blocks: &[Vec<i64>], s: usize)
    requires blocks { AreBlocks (extent_of shape) blocks.now }
    requires within { s < shape.grid_rows }
    requires read { AreRead (extent_of shape) blocks.now (top (extent_of shape) s * shape.cols) all.old }
    ensures { AreRead (extent_of shape) blocks.now (top (extent_of shape) (s + 1) * shape.cols) all.new }
{
    let height = shape.top(s + 1) - shape.top(s);
    for a in 0..height {
        put_row(all, shape, blocks, s, a);
    }
}

// Appends a row of a block row.
fn put_row(all: &mut Rec, shape: Shape2, blocks: &[Vec<i64>], s: usize, a: usize)
    requires blocks { AreBlocks (extent_of shape) blocks.now }
    requires within { s < shape.grid_rows }
    requires inside { a < height (extent_of shape) s }
    requires read { AreRead (extent_of shape) blocks.now ((top (extent_of shape) s + a) * shape.cols) all.old }
    ensures { AreRead (extent_of shape) blocks.now ((top (extent_of shape) s + (a + 1)) * shape.cols) all.new }
{
    for t in 0..shape.grid_cols as usize {
        put_all(all, row_of(shape, blocks, s, t, a));
    }
}

// A row of a block.
pub fn row_of(shape: Shape2, blocks: &[Vec<i64>], s: usize, t: usize, a: usize) -> &[i64]
    requires blocks { AreBlocks (extent_of shape) blocks.now }
    requires row { s < shape.grid_rows }
    requires col { t < shape.grid_cols }
    requires inside { a < height (extent_of shape) s }
    ensures { result.now ≡ take (width (extent_of shape) t) (drop ((top (extent_of shape) s + a) * shape.cols + left (extent_of shape) t) (seen (extent_of shape) blocks.now)) }
{
    let width = shape.left(t + 1) - shape.left(t);
    let block = blocks[s * shape.grid_cols as usize + t].as_slice();
    &block[a * width..a * width + width]
}

// Appends numbers to the spare room.
fn put_all(all: &mut Rec, xs: &[i64])
    requires { length xs.now ≤ all.old.spare }
    ensures numbers { all.new.numbers ≡ all.old.numbers ++ xs.now }
    ensures room { all.new.spare + length xs.now ≡ all.old.spare }
{
    for x in xs {
        all.put(*x);
    }
}
