ghost use Rattle.std.specs.Prelude.{◌≡◌, ◌*◌, IfOk, length};
ghost use Rattle.msl_matrix.specs.Grids.{IsExtent, extent_of};
ghost use Rattle.msl_matrix.specs.Matrices.{matrix, seen, AreBlocks};

use crate::blocks::laid;
use crate::rows::put_rows;
use crate::shape::Shape2;
use msl_base::{NoMemory, Rec};
use msl_fabric::{Fabric, Place};
use std::alloc::Global;
use std::marker::Model;

/// A matrix in a grid of blocks. Seen as its extent and its numbers, row by row. It never changes.
// The blocks stand row by row of the grid, and each lies row by row.
#[derive(Drop)]
pub struct DistMatrix {
    shape: Shape2,
    blocks: Vec<Vec<i64>>,
}

impl Model for DistMatrix {
    ghost use Rattle.msl_matrix.specs.Grids.{extent_of};
    ghost use Rattle.msl_matrix.specs.Matrices.{AreBlocks, Matrix, matrix, seen};

    ghost Value = { Matrix };

    ghost view = { λ d. matrix (extent_of d.shape) (seen (extent_of d.shape) d.blocks.items) };

    ghost invariant = { λ d. AreBlocks (extent_of d.shape) d.blocks.items };
}

impl DistMatrix {
    /// The matrix of these numbers, row by row, in blocks. It fails for want of memory alone.
    pub fn of_rec<F: Fabric>(
        alloc: Global,
        _at: &mut Place<'_, F>,
        shape: Shape2,
        xs: &[i64],
    ) -> Result<DistMatrix, NoMemory>
        requires limits { IsExtent (extent_of shape) }
        requires numbers { length xs.now ≡ shape.rows * shape.cols }
        ensures matrix { IfOk result (λ d. d ≡ matrix (extent_of shape) xs.now) }
        ensures stage { _at.new.stage ≡ _at.old.stage }
        ensures group { _at.new.group ≡ _at.old.group }
    {
        let blocks = laid(alloc, shape, xs)?;
        Ok(DistMatrix::of_blocks(shape, blocks))
    }

    /// The numbers, row by row. It fails for want of memory alone.
    pub fn to_rec<F: Fabric>(&self, alloc: Global, _at: &mut Place<'_, F>) -> Result<Rec, NoMemory>
        ensures list { IfOk result (λ r. r.numbers ≡ self.now.elements) }
        ensures stage { _at.new.stage ≡ _at.old.stage }
        ensures group { _at.new.group ≡ _at.old.group }
    {
        self.in_rows(alloc)
    }

    /// The rows and columns, and those of the grid.
    pub fn shape(&self) -> Shape2
        ensures extent { extent_of result ≡ self.now.extent }
        ensures limits { IsExtent (extent_of result) }
    {
        self.shape
    }

    // The numbers, row by row.
    pub(crate) fn in_rows(&self, alloc: Global) -> Result<Rec, NoMemory>
        ensures list { IfOk result (λ r. r.numbers ≡ self.now.elements) }
        ensures long { IfOk result (λ r. length r.numbers ≡ self.now.extent.rows * self.now.extent.cols) }
    {
        let shape = self.shape();
        let mut all = Rec::new(alloc);
        all.reserve(shape.rows as usize * shape.cols as usize)?;
        put_rows(&mut all, shape, self.blocks());
        Ok(all)
    }

    // The same matrix in the grid of this shape.
    pub(crate) fn in_grid(&self, alloc: Global, shape: Shape2) -> Result<DistMatrix, NoMemory>
        requires limits { IsExtent (extent_of shape) }
        requires rows { shape.rows ≡ self.now.extent.rows }
        requires cols { shape.cols ≡ self.now.extent.cols }
        ensures { IfOk result (λ d. d ≡ matrix (extent_of shape) self.now.elements) }
    {
        let all = self.in_rows(alloc)?;
        let blocks = laid(alloc, shape, all.as_slice())?;
        Ok(DistMatrix::of_blocks(shape, blocks))
    }

    // The blocks.
    pub(crate) fn blocks(&self) -> &[Vec<i64>]
        ensures seen { seen self.now.extent result.now ≡ self.now.elements }
        ensures blocks { AreBlocks self.now.extent result.now }
    {
        self.blocks.as_slice()
    }

    // The matrix that lies in these blocks.
    pub(crate) fn of_blocks(shape: Shape2, blocks: Vec<Vec<i64>>) -> DistMatrix
        requires { AreBlocks (extent_of shape) blocks.items }
        ensures { result ≡ matrix (extent_of shape) (seen (extent_of shape) blocks.items) }
    {
        DistMatrix { shape, blocks }
    }
}
