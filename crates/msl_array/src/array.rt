ghost use Rattle.std.specs.Prelude.{◌≡◌, ◌≤◌, IfOk, length};
ghost use Rattle.msl_base.specs.declared.limits.TheConstants.{MOST_BLOCKS};
ghost use Rattle.msl_local.specs.Parts.{flat};
ghost use Rattle.msl_array.specs.Arrays.{blocked, AreParts};

use crate::parts::{all_of, laid, number_of};
use msl_base::{NoMemory, Rec};
use msl_fabric::{Fabric, Place};
use std::alloc::Global;
use std::marker::Model;

/// A list in 1 to 1,024 blocks, which the members of a group hold, each its blocks side by side. Seen as the list and
/// the number of blocks. It never changes.
#[derive(Drop)]
pub struct DistArray {
    blocks: usize,
    parts: Vec<Vec<i64>>,
}

impl Model for DistArray {
    ghost use Rattle.msl_local.specs.Parts.{flat};
    ghost use Rattle.msl_array.specs.Arrays.{AreParts, Blocked, blocked};

    ghost Value = { Blocked };

    ghost view = { λ d. blocked d.blocks (flat d.parts.items) };

    ghost invariant = { λ d. AreParts d.blocks d.parts.items };
}

impl DistArray {
    /// The list in blocks, each with the member of the group that holds it. It fails for want of memory alone.
    pub fn of_rec<F: Fabric>(
        alloc: Global,
        at: &mut Place<'_, F>,
        blocks: u32,
        xs: &[i64],
    ) -> Result<DistArray, NoMemory>
        requires some { 1 ≤ blocks }
        requires few { blocks ≤ MOST_BLOCKS }
        ensures array { IfOk result (λ d. d ≡ blocked blocks xs.now) }
        ensures stage { at.new.stage ≡ at.old.stage }
        ensures group { at.new.group ≡ at.old.group }
    {
        let parts = laid(alloc, blocks as usize, at.group.count() as usize, xs)?;
        Ok(DistArray::of_parts(blocks as usize, parts))
    }

    /// The whole list. It fails for want of memory alone.
    pub fn to_rec<F: Fabric>(&self, alloc: Global, at: &mut Place<'_, F>) -> Result<Rec, NoMemory>
        ensures list { IfOk result (λ r. r.numbers ≡ self.now.elements) }
        ensures stage { at.new.stage ≡ at.old.stage }
        ensures group { at.new.group ≡ at.old.group }
    {
        all_of(alloc, self.parts())
    }

    /// The number of blocks.
    pub fn blocks(&self) -> u32
        ensures blocks { result ≡ self.now.blocks }
        ensures some { 1 ≤ result }
        ensures few { result ≤ MOST_BLOCKS }
    {
        self.blocks as u32
    }

    // The number of elements.
    pub(crate) fn len(&self) -> usize
        ensures { result ≡ length self.now.elements }
    {
        number_of(self.parts())
    }

    // The part of each member.
    pub(crate) fn parts(&self) -> &[Vec<i64>]
        ensures list { flat result.now ≡ self.now.elements }
        ensures parts { AreParts self.now.blocks result.now }
    {
        self.parts.as_slice()
    }

    // The array that lies in these parts.
    pub(crate) fn of_parts(blocks: usize, parts: Vec<Vec<i64>>) -> DistArray
        requires { AreParts blocks parts.items }
        ensures { result ≡ blocked blocks (flat parts.items) }
    {
        DistArray { blocks, parts }
    }
}
