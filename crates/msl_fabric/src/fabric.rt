ghost use Rattle.std.specs.Prelude.{IfOk};
ghost use Rattle.msl_fabric.specs.Grids.{IsExchange};
ghost use Rattle.msl_lists.specs.Whole.{fold_all, function_of, scan_all};
ghost use Rattle.msl_local.specs.Cells.{whole};
ghost use Rattle.msl_local.specs.Outcomes.{ComesLike, ComesTo};
ghost use Rattle.msl_local.specs.Parts.{flat};
ghost use Rattle.msl_local.specs.Places.{parts_of};

use crate::Boxes;
use msl_base::{Halt, NoMemory};
use msl_group::Group;
use msl_local::{Elements, Folding};
use std::alloc::Global;

/// What members exchange records by, and how they work on what they hold. Each method promises the operation on whole
/// lists, so that no caller sees who worked on what.
pub trait Fabric {
    /// Box `(i, j)` of the answer is box `(j, i)` of `out`. It fails for want of memory alone.
    fn exchange(&mut self, alloc: Global, out: Boxes) -> Result<Boxes, NoMemory>
        ensures { IfOk result (λ got. IsExchange out got) };

    /// What a function gives at each place, in parts of the same lengths, or the fault of the least place.
    fn outcomes(
        &mut self,
        alloc: Global,
        work: &Elements<'_, '_, '_>,
    ) -> Result<Vec<Vec<i64>>, Halt>
        ensures { ComesLike (parts_of work.now.inputs) (whole (function_of work.now.u) work.now.stage work.now.inputs) result };

    /// What all numbers combine to, settled.
    fn fold(&mut self, alloc: Global, work: &Folding<'_>) -> Result<i64, Halt>
        ensures { ComesTo (fold_all work.now.op work.now.stage (flat work.now.parts.now)) result };

    /// What the numbers up to each place combine to, settled, in parts of the same lengths, or the fault of the least
    /// place.
    fn scan(&mut self, alloc: Global, work: &Folding<'_>) -> Result<Vec<Vec<i64>>, Halt>
        ensures { ComesLike work.now.parts.now (scan_all work.now.op work.now.stage (flat work.now.parts.now)) result };
}

/// Where a step of a computation runs: at its stage, by the members of a group, over a fabric.
#[derive(Drop)]
pub struct Place<'a, F: Fabric> {
    /// The stage's number.
    pub stage: u32,
    /// The members.
    pub group: &'a Group,
    /// What they exchange records by.
    pub fabric: &'a mut F,
}

/// The fabric that moves boxes in place, and whose members work one after the other, on one thread.
#[derive(Drop)]
pub struct Moved;

impl Moved {
    /// The fabric.
    pub fn new() -> Moved {
        Moved
    }
}

impl Fabric for Moved {
    fn exchange(&mut self, _alloc: Global, out: Boxes) -> Result<Boxes, NoMemory> {
        Ok(turned(out))
    }

    fn outcomes(
        &mut self,
        alloc: Global,
        work: &Elements<'_, '_, '_>,
    ) -> Result<Vec<Vec<i64>>, Halt> {
        work.all(alloc)
    }

    fn fold(&mut self, _alloc: Global, work: &Folding<'_>) -> Result<i64, Halt> {
        work.all().map_err(Halt::Fault)
    }

    fn scan(&mut self, alloc: Global, work: &Folding<'_>) -> Result<Vec<Vec<i64>>, Halt> {
        work.scan_all(alloc)
    }
}

// Each box before the diagonal changes places with the one across from it.
pub fn turned(mut boxes: Boxes) -> Boxes
    ensures { IsExchange boxes result }
{
    let n = boxes.count();
    for i in 0..n {
        for j in 0..i {
            boxes.turn(i, j);
        }
    }
    boxes
}
