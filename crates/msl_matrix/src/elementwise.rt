// A `Use` that comes by value isn't passed on as it is: it is taken apart and put together again.

ghost use Rattle.std.specs.Prelude.{◌≡◌, IfOk, MatchOption, Ok, ⊤};
ghost use Rattle.msl_lists.specs.Whole.{function_of, map_all, map_cells, zip_all, zip_cells};
ghost use Rattle.msl_local.specs.Cells as local;
ghost use Rattle.msl_local.specs.Parts.{flat, lengths};
ghost use Rattle.msl_local.specs.Places as places;
ghost use Rattle.msl_local.specs.Places.{parts_of, Takes};
ghost use Rattle.msl_matrix.specs.Cells.{first, whole, Suits};
ghost use Rattle.msl_matrix.specs.Grids.{extent_of, in_one, IsExtent};
ghost use Rattle.msl_matrix.specs.Matrices.{ComesMatrix};

use crate::blocks::windows;
use crate::cells::Cells;
use crate::matrix::DistMatrix;
use crate::shape::Shape2;
use msl_base::{Halt, NoMemory};
use msl_fabric::{Fabric, Place};
use msl_fun::Use;
use msl_local::{Elements, Inputs};
use std::alloc::Global;

impl DistMatrix {
    /// The function at each element, or its fault at the least place, row by row.
    pub fn map<F: Fabric>(
        &self,
        alloc: Global,
        at: &mut Place<'_, F>,
        u: Use<'_>,
    ) -> Result<DistMatrix, Halt>
        requires { Takes u 1 }
        ensures matrix { ComesMatrix self.now.extent (map_all (function_of u.entry) at.old.stage self.now.elements) result }
        ensures stage { at.new.stage ≡ at.old.stage }
        ensures group { at.new.group ≡ at.old.group }
    {
        let Use { f, extra } = u;
        each_cell(alloc, at, Use { f, extra }, Cells::Map(self))
    }

    /// The function at each row, column and element, or its fault at the least place, row by row.
    pub fn map_index<F: Fabric>(
        &self,
        alloc: Global,
        at: &mut Place<'_, F>,
        u: Use<'_>,
    ) -> Result<DistMatrix, Halt>
        requires { Takes u 3 }
        ensures matrix { ComesMatrix self.now.extent (map_cells (function_of u.entry) at.old.stage self.now.extent.cols self.now.elements) result }
        ensures stage { at.new.stage ≡ at.old.stage }
        ensures group { at.new.group ≡ at.old.group }
    {
        let Use { f, extra } = u;
        let windows = windows(alloc, self.shape())?;
        let cells = Cells::MapIndex(self, windows.as_slice());
        each_cell(alloc, at, Use { f, extra }, cells)
    }

    /// The function at the two elements of each place, or its fault at the least place, row by row.
    pub fn zip_with<F: Fabric>(
        &self,
        alloc: Global,
        at: &mut Place<'_, F>,
        u: Use<'_>,
        y: &DistMatrix,
    ) -> Result<DistMatrix, Halt>
        requires takes { Takes u 2 }
        requires extent { y.now.extent ≡ self.now.extent }
        ensures matrix { ComesMatrix self.now.extent (zip_all (function_of u.entry) at.old.stage self.now.elements y.now.elements) result }
        ensures stage { at.new.stage ≡ at.old.stage }
        ensures group { at.new.group ≡ at.old.group }
    {
        let Use { f, extra } = u;
        each_cell(alloc, at, Use { f, extra }, Cells::Zip(self, y))
    }

    /// The function at each row, column and the two elements there, or its fault at the least place, row by row.
    pub fn zip_index<F: Fabric>(
        &self,
        alloc: Global,
        at: &mut Place<'_, F>,
        u: Use<'_>,
        y: &DistMatrix,
    ) -> Result<DistMatrix, Halt>
        requires takes { Takes u 4 }
        requires extent { y.now.extent ≡ self.now.extent }
        ensures matrix { ComesMatrix self.now.extent (zip_cells (function_of u.entry) at.old.stage self.now.extent.cols self.now.elements y.now.elements) result }
        ensures stage { at.new.stage ≡ at.old.stage }
        ensures group { at.new.group ≡ at.old.group }
    {
        let Use { f, extra } = u;
        let windows = windows(alloc, self.shape())?;
        let cells = Cells::ZipIndex(self, y, windows.as_slice());
        each_cell(alloc, at, Use { f, extra }, cells)
    }
}

// What a function gives at each place, or its fault at the least place, row by row. The members work it out; only where
// they meet a fault it is looked for row by row, since the first in the blocks may be another.
fn each_cell<F: Fabric>(
    alloc: Global,
    at: &mut Place<'_, F>,
    u: Use<'_>,
    cells: Cells<'_>,
) -> Result<DistMatrix, Halt>
    requires { Suits u cells }
    ensures matrix { ComesMatrix (first cells.entry).extent (whole (function_of u.entry) at.old.stage cells.entry) result }
    ensures stage { at.new.stage ≡ at.old.stage }
    ensures group { at.new.group ≡ at.old.group }
{
    let Use { f, extra } = u;
    match by_members(alloc, at, Use { f, extra }, cells.inputs())? {
        Some(blocks) => Ok(DistMatrix::of_blocks(cells.first().shape(), blocks)),
        None => row_by_row(alloc, at.stage, &Use { f, extra }, cells),
    }
}

// What a function gives at each place of blocks, in blocks of the same lengths, or none where it faults.
fn by_members<F: Fabric>(
    alloc: Global,
    at: &mut Place<'_, F>,
    u: Use<'_>,
    inputs: Inputs<'_, '_>,
) -> Result<Option<Vec<Vec<i64>>>, NoMemory>
    requires { places.Suits u inputs }
    ensures outcomes { IfOk result (λ o. MatchOption o ⊤ (λ v. (local.whole (function_of u.entry) at.old.stage inputs.entry ≡ Ok (flat v.items)) × (lengths v.items ≡ lengths (parts_of inputs.entry)))) }
    ensures stage { at.new.stage ≡ at.old.stage }
    ensures group { at.new.group ≡ at.old.group }
{
    let Use { f, extra } = u;
    let work = Elements::new(Use { f, extra }, at.stage, inputs);
    let fabric = &mut *at.fabric;
    match fabric.outcomes(alloc, &work) {
        Ok(blocks) => Ok(Some(blocks)),
        Err(Halt::Fault(_)) => Ok(None),
        Err(Halt::NoMemory) => Err(NoMemory),
    }
}

// What a function gives at each place, one after the other: in a grid of one block the places lie row by row.
fn row_by_row(alloc: Global, stage: u32, u: &Use<'_>, cells: Cells<'_>) -> Result<DistMatrix, Halt>
    requires { Suits u.now cells }
    ensures { ComesMatrix (first cells.entry).extent (whole (function_of u.now) stage cells.entry) result }
{
    let shape = cells.first().shape();
    let one = shape.in_one();
    let windows = [one.window(0)];
    let a = cells.first().in_grid(alloc, one)?;
    match cells {
        Cells::Map(_) => in_one_block(alloc, shape, stage, u, Cells::Map(&a)),
        Cells::MapIndex(..) => in_one_block(alloc, shape, stage, u, Cells::MapIndex(&a, &windows)),
        Cells::Zip(_, c) => {
            let c = c.in_grid(alloc, one)?;
            in_one_block(alloc, shape, stage, u, Cells::Zip(&a, &c))
        }
        Cells::ZipIndex(_, c, _) => {
            let c = c.in_grid(alloc, one)?;
            in_one_block(alloc, shape, stage, u, Cells::ZipIndex(&a, &c, &windows))
        }
    }
}

// The same where the matrices lie in one block, laid in the grid of this shape.
fn in_one_block(
    alloc: Global,
    shape: Shape2,
    stage: u32,
    u: &Use<'_>,
    cells: Cells<'_>,
) -> Result<DistMatrix, Halt>
    requires limits { IsExtent (extent_of shape) }
    requires one { (first cells).extent ≡ in_one (extent_of shape) }
    requires suits { Suits u.now cells }
    ensures { ComesMatrix (extent_of shape) (whole (function_of u.now) stage cells.entry) result }
{
    let (f, extra) = (u.f, u.extra);
    let work = Elements::new(Use { f, extra }, stage, cells.inputs());
    match work.all(alloc) {
        Ok(blocks) => {
            let all = DistMatrix::of_blocks(shape.in_one(), blocks);
            Ok(all.in_grid(alloc, shape)?)
        }
        Err(h) => Err(h),
    }
}
