ghost use Rattle.std.specs.Prelude.{◌≡◌, ◌<◌, ◌≤◌};
ghost use Rattle.msl_base.specs.declared.limits.TheConstants.{MOST_BLOCKS};
ghost use Rattle.msl_lists.specs.Whole.{broadcast_partition, function_of, permute, permute_partition};
ghost use Rattle.msl_local.specs.Places.{Takes};
ghost use Rattle.msl_array.specs.Arrays.{ComesBlocked};
ghost use Rattle.msl_array.specs.Moves.{Sources};

use crate::DistArray;
use crate::blocks::{gathered, numbered, repeated};
use crate::parts::laid;
use crate::targets::{moved, targets};
use msl_base::{Fault, Halt};
use msl_fabric::{Fabric, Place};
use msl_fun::Use;
use std::alloc::Global;

impl DistArray {
    /// The element of each place at the place that the function gives for its own, in as many blocks. It answers the
    /// function's fault at the least place, or else `NotPermutation` where two elements go to one place or one to none.
    pub fn permute<F: Fabric>(
        &self,
        alloc: Global,
        at: &mut Place<'_, F>,
        u: Use<'_>,
    ) -> Result<DistArray, Halt>
        requires { Takes u 1 }
        ensures array { ComesBlocked self.now.blocks (permute (function_of u.entry) at.old.stage self.now.elements) result }
        ensures stage { at.new.stage ≡ at.old.stage }
        ensures group { at.new.group ≡ at.old.group }
    {
        let Use { f, extra } = u;
        let xs = self.parts();
        let to = targets(alloc, at, Use { f, extra }, xs)?;
        let all = moved(alloc, to.as_slice(), xs)?;
        let blocks = self.blocks() as usize;
        let parts = laid(alloc, blocks, xs.len(), all.as_slice())?;
        Ok(DistArray::of_parts(blocks, parts))
    }

    /// Each block in the place that the function gives for its own. It answers `Ragged` where the blocks differ in size,
    /// or else the function's fault at the least block, or else `NotPermutation` where two blocks go to one place or one
    /// to none.
    pub fn permute_partition<F: Fabric>(
        &self,
        alloc: Global,
        at: &mut Place<'_, F>,
        u: Use<'_>,
    ) -> Result<DistArray, Halt>
        requires { Takes u 1 }
        ensures array { ComesBlocked self.now.blocks (permute_partition (function_of u.entry) at.old.stage self.now.blocks self.now.elements) result }
        ensures stage { at.new.stage ≡ at.old.stage }
        ensures group { at.new.group ≡ at.old.group }
    {
        let blocks = self.blocks() as usize;
        if self.len() % blocks != 0 {
            return Err(Halt::Fault(Fault::Ragged(at.stage)));
        }
        let Use { f, extra } = u;
        let numbers = sources(alloc, at, Use { f, extra }, blocks)?;
        let size = self.len() / blocks;
        let parts = gathered(alloc, self.parts(), blocks, size, numbers.as_slice())?;
        Ok(DistArray::of_parts(blocks, parts))
    }

    /// Block `j` in the place of each. It answers `Ragged` where the blocks differ in size.
    pub fn broadcast_partition<F: Fabric>(
        &self,
        alloc: Global,
        at: &mut Place<'_, F>,
        j: u32,
    ) -> Result<DistArray, Halt>
        requires { j < self.now.blocks }
        ensures array { ComesBlocked self.now.blocks (broadcast_partition j at.old.stage self.now.blocks self.now.elements) result }
        ensures stage { at.new.stage ≡ at.old.stage }
        ensures group { at.new.group ≡ at.old.group }
    {
        let n = self.len();
        let blocks = self.blocks() as usize;
        if n % blocks != 0 {
            return Err(Halt::Fault(Fault::Ragged(at.stage)));
        }
        let numbers = repeated(alloc, j, blocks)?;
        let parts = gathered(alloc, self.parts(), blocks, n / blocks, numbers.as_slice())?;
        Ok(DistArray::of_parts(blocks, parts))
    }
}

// Which block comes to each place: the numbers of the blocks, moved as the blocks are.
fn sources<F: Fabric>(
    alloc: Global,
    at: &mut Place<'_, F>,
    u: Use<'_>,
    blocks: usize,
) -> Result<Vec<i64>, Halt>
    requires takes { Takes u 1 }
    requires few { blocks ≤ MOST_BLOCKS }
    ensures sources { Sources (function_of u.entry) at.old.stage blocks result }
    ensures stage { at.new.stage ≡ at.old.stage }
    ensures group { at.new.group ≡ at.old.group }
{
    let places = numbered(alloc, blocks)?;
    let Use { f, extra } = u;
    let numbers = places.as_slice();
    match targets(alloc, at, Use { f, extra }, numbers) {
        Ok(to) => Ok(moved(alloc, to.as_slice(), numbers)?),
        Err(h) => Err(h),
    }
}
