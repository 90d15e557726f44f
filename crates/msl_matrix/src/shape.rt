ghost use Rattle.std.specs.Prelude.{◌≡◌, ◌<◌, ◌≤◌, ◌*◌};
ghost use Rattle.msl_matrix.specs.Grids.{IsExtent, IsWindow, extent_of, in_one, left, top};

use msl_base::bounds;
use msl_local::Window;

/// The rows and columns of a matrix, and those of the grid of blocks in which it lies.
#[derive(Clone, Copy)]
pub struct Shape2 {
    pub rows: u32,
    pub cols: u32,
    pub grid_rows: u32,
    pub grid_cols: u32,
}

impl Shape2 {
    // The number of blocks.
    pub fn blocks(&self) -> usize
        requires { IsExtent (extent_of self.now) }
        ensures { result ≡ self.now.grid_rows * self.now.grid_cols }
    {
        self.grid_rows as usize * self.grid_cols as usize
    }

    // Where a block row begins.
    pub fn top(&self, s: usize) -> usize
        requires limits { IsExtent (extent_of self.now) }
        requires within { s ≤ self.now.grid_rows }
        ensures { result ≡ top (extent_of self.now) s }
    {
        bounds(self.rows as u64, self.grid_rows as u64, s as u64) as usize
    }

    // Where a block column begins.
    pub fn left(&self, t: usize) -> usize
        requires limits { IsExtent (extent_of self.now) }
        requires within { t ≤ self.now.grid_cols }
        ensures { result ≡ left (extent_of self.now) t }
    {
        bounds(self.cols as u64, self.grid_cols as u64, t as u64) as usize
    }

    // The rows and columns of block j.
    pub fn window(&self, j: usize) -> Window
        requires limits { IsExtent (extent_of self.now) }
        requires within { j < self.now.grid_rows * self.now.grid_cols }
        ensures { IsWindow (extent_of self.now) j result }
    {
        let grid_cols = self.grid_cols as usize;
        let (s, t) = (j / grid_cols, j % grid_cols);
        Window {
            above: self.top(s),
            below: self.top(s + 1),
            before: self.left(t),
            behind: self.left(t + 1),
        }
    }

    // The same matrix in a grid of one block.
    pub fn in_one(&self) -> Shape2
        ensures { extent_of result ≡ in_one (extent_of self.now) }
    {
        Shape2 {
            grid_rows: 1,
            grid_cols: 1,
            ..*self
        }
    }

    // The shape of the matrix with rows and columns exchanged.
    pub fn transposed(&self) -> Shape2
        ensures rows { result.rows ≡ self.now.cols }
        ensures cols { result.cols ≡ self.now.rows }
        ensures grid_rows { result.grid_rows ≡ self.now.grid_cols }
        ensures grid_cols { result.grid_cols ≡ self.now.grid_rows }
    {
        Shape2 {
            rows: self.cols,
            cols: self.rows,
            grid_rows: self.grid_cols,
            grid_cols: self.grid_rows,
        }
    }
}
