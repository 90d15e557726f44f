ghost use Rattle.std.specs.Prelude.{◌≡◌, ◌<◌, ◌+◌, ◌*◌, take};
ghost use Rattle.msl_lists.specs.Whole.{fold_all};
ghost use Rattle.msl_local.specs.Outcomes.{ComesTo};
ghost use Rattle.msl_matrix.specs.Grids.{extent_of, height, top};
ghost use Rattle.msl_matrix.specs.Matrices.{seen, AreBlocks};
ghost use Rattle.msl_ops.specs.Meaning.{fold_of};

use crate::matrix::DistMatrix;
use crate::rows::row_of;
use crate::shape::Shape2;
use msl_base::Halt;
use msl_fabric::{Fabric, Place};
use msl_local::{Folding, fold};
use msl_ops::{Lawful, Op};
use std::alloc::Global;

impl DistMatrix {
    /// What all elements combine to, row by row, or `Overflow` where that is no number of 64 bits.
    pub fn fold<F: Fabric>(
        &self,
        _alloc: Global,
        at: &mut Place<'_, F>,
        op: Op,
    ) -> Result<i64, Halt>
        ensures number { ComesTo (fold_all op at.old.stage self.now.elements) result }
        ensures stage { at.new.stage ≡ at.old.stage }
        ensures group { at.new.group ≡ at.old.group }
    {
        let work = Folding::new(op, at.stage, self.blocks());
        let total = fold_rows(&work, self.shape());
        match op.settle(total, at.stage) {
            Ok(z) => Ok(z),
            Err(fault) => Err(Halt::Fault(fault)),
        }
    }
}

// What the numbers of a matrix combine to, row by row, beginning with the unit. Block by block would ask more of an
// operator, that its operands may change places.
fn fold_rows(work: &Folding<'_>, shape: Shape2) -> i128
    requires { AreBlocks (extent_of shape) work.now.parts.now }
    ensures { result ≡ fold_of work.now.op.kind work.now.op.modulus (seen (extent_of shape) work.now.parts.now) }
{
    let mut total = work.op.unit();
    for s in 0..shape.grid_rows as usize {
        total = fold_block_row(work, shape, s, total);
    }
    total
}

// The same with the rows of a block row.
fn fold_block_row(work: &Folding<'_>, shape: Shape2, s: usize, before: i128) -> i128
    requires blocks { AreBlocks (extent_of shape) work.now.parts.now }
    requires within { s < shape.grid_rows }
    requires before { before ≡ fold_of work.now.op.kind work.now.op.modulus (take (top (extent_of shape) s * shape.cols) (seen (extent_of shape) work.now.parts.now)) }
    ensures { result ≡ fold_of work.now.op.kind work.now.op.modulus (take (top (extent_of shape) (s + 1) * shape.cols) (seen (extent_of shape) work.now.parts.now)) }
{
    let height = shape.top(s + 1) - shape.top(s);
    let mut total = before;
    for a in 0..height {
        total = fold_row(work, shape, s, a, total);
    }
    total
}

// The same with a row of a block row.
fn fold_row(work: &Folding<'_>, shape: Shape2, s: usize, a: usize, before: i128) -> i128
    requires blocks { AreBlocks (extent_of shape) work.now.parts.now }
    requires within { s < shape.grid_rows }
    requires inside { a < height (extent_of shape) s }
    requires before { before ≡ fold_of work.now.op.kind work.now.op.modulus (take ((top (extent_of shape) s + a) * shape.cols) (seen (extent_of shape) work.now.parts.now)) }
    ensures { result ≡ fold_of work.now.op.kind work.now.op.modulus (take ((top (extent_of shape) s + (a + 1)) * shape.cols) (seen (extent_of shape) work.now.parts.now)) }
{
    let mut total = before;
    for t in 0..shape.grid_cols as usize {
        let row = row_of(shape, work.parts, s, t, a);
        total = work.op.combine(total, fold(&work.op, row));
    }
    total
}
