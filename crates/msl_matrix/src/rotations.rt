// A `Use` that comes by value isn't lent as it is: it is taken apart and put together again.

ghost use Rattle.std.specs.Prelude.{◌≡◌, ◌<◌, ◌≤◌, ◌*◌, ◌+ℤ◌, pos, [], ◌∷◌, ◌↔◌, IfOk, IsTrue, length, map};
ghost use Rattle.msl_base.specs.declared.limits.TheConstants.{MOST_BLOCKS};
ghost use Rattle.msl_fabric.specs.Grids.{records};
ghost use Rattle.msl_lists.specs.Whole.{at_stage, below, each, function_of, modulo, rotate_cols, rotate_rows};
ghost use Rattle.msl_local.specs.Outcomes.{Comes, ComesTo};
ghost use Rattle.msl_local.specs.Places.{Takes};
ghost use Rattle.msl_matrix.specs.Grids.{IsExtent, extent_of};
ghost use Rattle.msl_matrix.specs.Matrices.{AreBlocks, ComesMatrix};
ghost use Rattle.msl_matrix.specs.Rotations.{as_records, comes_from, goes_to, lines, rotate, AreMoved, IsEven};

use crate::cells::apply;
use crate::matrix::DistMatrix;
use crate::shape::Shape2;
use msl_base::{Fault, Halt, NoMemory, Rec};
use msl_fabric::{Fabric, Place, permute_blocks};
use msl_fun::Use;
use msl_local::room;
use msl_side::in_turn;
use std::alloc::Global;

impl DistMatrix {
    /// In block row s the blocks move u(s) places to the right, and round. `Ragged` comes exactly where the columns of
    /// the grid don't divide those of the matrix, else the fault at the least block row.
    pub fn rotate_rows<F: Fabric>(
        &self,
        alloc: Global,
        at: &mut Place<'_, F>,
        u: Use<'_>,
    ) -> Result<DistMatrix, Halt>
        requires { Takes u 1 }
        ensures matrix { ComesMatrix self.now.extent (rotate_rows (function_of u.entry) at.old.stage self.now.extent self.now.elements) result }
        ensures stage { at.new.stage ≡ at.old.stage }
        ensures group { at.new.group ≡ at.old.group }
    {
        let Use { f, extra } = u;
        self.rotated(alloc, at, &Use { f, extra }, Axis::Rows)
    }

    /// In block column t the blocks move u(t) places down, and round. `Ragged` comes exactly where the rows of the grid
    /// don't divide those of the matrix, else the fault at the least block column.
    pub fn rotate_cols<F: Fabric>(
        &self,
        alloc: Global,
        at: &mut Place<'_, F>,
        u: Use<'_>,
    ) -> Result<DistMatrix, Halt>
        requires { Takes u 1 }
        ensures matrix { ComesMatrix self.now.extent (rotate_cols (function_of u.entry) at.old.stage self.now.extent self.now.elements) result }
        ensures stage { at.new.stage ≡ at.old.stage }
        ensures group { at.new.group ≡ at.old.group }
    {
        let Use { f, extra } = u;
        self.rotated(alloc, at, &Use { f, extra }, Axis::Cols)
    }

    // In each line the blocks move as far as the function gives for its number, and round.
    fn rotated<F: Fabric>(
        &self,
        alloc: Global,
        at: &mut Place<'_, F>,
        u: &Use<'_>,
        axis: Axis,
    ) -> Result<DistMatrix, Halt>
        requires { Takes u.now 1 }
        ensures matrix { ComesMatrix self.now.extent (rotate axis (function_of u.now) at.old.stage self.now.extent self.now.elements) result }
        ensures stage { at.new.stage ≡ at.old.stage }
        ensures group { at.new.group ≡ at.old.group }
    {
        let shape = self.shape();
        if !axis.is_even(shape) {
            return Err(Halt::Fault(Fault::Ragged(at.stage)));
        }
        match turns(alloc, u, at.stage, axis.lines(shape)) {
            Ok(by) => {
                let blocks = moved(alloc, at, shape, self.blocks(), axis, by.as_slice())?;
                Ok(DistMatrix::of_blocks(shape, blocks))
            }
            Err(h) => Err(h),
        }
    }
}

// Along which lines of the grid blocks move: to the right in its block rows, or down in its block columns.
#[derive(Clone, Copy)]
pub enum Axis {
    Rows,
    Cols,
}

impl Axis {
    // How many lines there are.
    fn lines(self, shape: Shape2) -> usize
        ensures { result ≡ lines self (extent_of shape) }
    {
        match self {
            Axis::Rows => shape.grid_rows as usize,
            Axis::Cols => shape.grid_cols as usize,
        }
    }

    // Whether the blocks of a line are of one size.
    fn is_even(self, shape: Shape2) -> bool
        requires { IsExtent (extent_of shape) }
        ensures { IsTrue result ↔ IsEven self (extent_of shape) }
    {
        match self {
            Axis::Rows => shape.cols % shape.grid_cols == 0,
            Axis::Cols => shape.rows % shape.grid_rows == 0,
        }
    }

    // To where block i goes, if those of each line move so far.
    fn goes_to(self, shape: Shape2, by: &[i64], i: usize) -> usize
        requires limits { IsExtent (extent_of shape) }
        requires long { length by.now ≡ lines self (extent_of shape) }
        requires within { i < shape.grid_rows * shape.grid_cols }
        ensures goes { result ≡ goes_to self (extent_of shape) by.now i }
        ensures within { result < shape.grid_rows * shape.grid_cols }
    {
        let n = shape.grid_cols as usize;
        let (s, t) = (i / n, i % n);
        match self {
            Axis::Rows => s * n + further(t, by[s], n),
            Axis::Cols => further(s, by[t], shape.grid_rows as usize) * n + t,
        }
    }
}

// The place among n to which one comes that moves so far, and round.
fn further(i: usize, by: i64, n: usize) -> usize
    requires within { i < n }
    requires few { n ≤ MOST_BLOCKS }
    ensures further { result ≡ modulo (pos i +ℤ by) n }
    ensures below { result < n }
{
    (i as i128 + by as i128).rem_euclid(n as i128) as usize
}

// What the function gives for each place below n, or its first fault.
fn turns(alloc: Global, u: &Use<'_>, stage: u32, n: usize) -> Result<Vec<i64>, Halt>
    requires takes { Takes u.now 1 }
    requires few { n ≤ MOST_BLOCKS }
    ensures { Comes (each n (λ s. at_stage stage (function_of u.now (pos s ∷ [])))) result }
{
    let out = room(alloc, n)?;
    in_turn(
        n,
        &|s: usize| -> Result<i64, Halt>
            requires { Takes u.now 1 × (s < MOST_BLOCKS) }
            ensures { ComesTo (at_stage stage (function_of u.entry.now (pos s ∷ []))) result }
        { apply(u, stage, &[s as i64]) },
        out,
    )
}

// The blocks, those of each line so much further, by the members. Each number is copied once.
fn moved<F: Fabric>(
    alloc: Global,
    at: &mut Place<'_, F>,
    shape: Shape2,
    blocks: &[Vec<i64>],
    axis: Axis,
    by: &[i64],
) -> Result<Vec<Vec<i64>>, NoMemory>
    requires blocks { AreBlocks (extent_of shape) blocks.now }
    requires long { length by.now ≡ lines axis (extent_of shape) }
    ensures blocks { IfOk result (λ v. AreMoved (extent_of shape) blocks.now (comes_from axis (extent_of shape) by.now) v.items) }
    ensures stage { at.new.stage ≡ at.old.stage }
    ensures group { at.new.group ≡ at.old.group }
{
    let to = places(alloc, shape, axis, by)?;
    let copies = copied(alloc, blocks)?;
    let all = permute_blocks(alloc, at, copies, to.as_slice())?;
    unpacked(alloc, all)
}

// To where each block goes.
fn places(alloc: Global, shape: Shape2, axis: Axis, by: &[i64]) -> Result<Vec<u32>, NoMemory>
    requires limits { IsExtent (extent_of shape) }
    requires long { length by.now ≡ lines axis (extent_of shape) }
    ensures { IfOk result (λ to. to.items ≡ map (goes_to axis (extent_of shape) by.now) (below (shape.grid_rows * shape.grid_cols))) }
{
    let n = shape.blocks();
    let mut to = Vec::with_capacity(alloc, n)?;
    for i in 0..n {
        to.push_reserved(axis.goes_to(shape, by, i) as u32);
    }
    Ok(to)
}

// The blocks as records. Each number is copied once.
fn copied(alloc: Global, blocks: &[Vec<i64>]) -> Result<Vec<Rec>, NoMemory>
    ensures { IfOk result (λ all. records all.items ≡ as_records blocks.now) }
{
    let mut all = Vec::with_capacity(alloc, blocks.len())?;
    for block in blocks {
        all.push_reserved(Rec::of_slice(alloc, block.as_slice())?);
    }
    Ok(all)
}

// The records as blocks. No number is copied.
fn unpacked(alloc: Global, all: Vec<Rec>) -> Result<Vec<Vec<i64>>, NoMemory>
    ensures { IfOk result (λ blocks. as_records blocks.items ≡ records all.items) }
{
    Ok(all.into_iter().map(Rec::into_vec).collect(alloc)?)
}
