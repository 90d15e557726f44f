// A `Use` that comes by value isn't passed on as it is: it is taken apart and put together again.

ghost use Rattle.std.specs.Prelude.{◌≡◌, ◌≢◌, MatchOption, IfOk, length};
ghost use Rattle.msl_base.specs.declared.fault.Fault.TheVariants.{Shape};
ghost use Rattle.msl_lists.specs.Whole.{function_of, map_all, map_index, zip_all, zip_index};
ghost use Rattle.msl_local.specs.Cells.{whole};
ghost use Rattle.msl_local.specs.Parts.{flat, lengths};
ghost use Rattle.msl_local.specs.Places.{parts_of, Suits, Takes};
ghost use Rattle.msl_array.specs.Arrays.{AreParts, ComesBlocked};

use crate::DistArray;
use crate::parts::{all_of, laid};
use msl_base::{Fault, Halt, NoMemory};
use msl_fabric::{Fabric, Place};
use msl_fun::Use;
use msl_local::{Elements, Inputs};
use std::alloc::Global;

impl DistArray {
    /// The function at each element, in the same blocks, or its fault at the least place.
    pub fn map<F: Fabric>(
        &self,
        alloc: Global,
        at: &mut Place<'_, F>,
        u: Use<'_>,
    ) -> Result<DistArray, Halt>
        requires { Takes u 1 }
        ensures array { ComesBlocked self.now.blocks (map_all (function_of u.entry) at.old.stage self.now.elements) result }
        ensures stage { at.new.stage ≡ at.old.stage }
        ensures group { at.new.group ≡ at.old.group }
    {
        let Use { f, extra } = u;
        let inputs = Inputs::Map(self.parts());
        each_place(alloc, at, self.blocks() as usize, Use { f, extra }, inputs)
    }

    /// The function at each place and its element, in the same blocks, or its fault at the least place.
    pub fn map_index<F: Fabric>(
        &self,
        alloc: Global,
        at: &mut Place<'_, F>,
        u: Use<'_>,
    ) -> Result<DistArray, Halt>
        requires { Takes u 2 }
        ensures array { ComesBlocked self.now.blocks (map_index (function_of u.entry) at.old.stage self.now.elements) result }
        ensures stage { at.new.stage ≡ at.old.stage }
        ensures group { at.new.group ≡ at.old.group }
    {
        let Use { f, extra } = u;
        let inputs = Inputs::MapIndex(self.parts());
        each_place(alloc, at, self.blocks() as usize, Use { f, extra }, inputs)
    }

    /// The function at the two elements of each place, in the same blocks. `Shape` comes exactly where the other array
    /// has another length, else the fault at the least place.
    pub fn zip_with<F: Fabric>(
        &self,
        alloc: Global,
        at: &mut Place<'_, F>,
        u: Use<'_>,
        y: &DistArray,
    ) -> Result<DistArray, Halt>
        requires takes { Takes u 2 }
        requires blocks { y.now.blocks ≡ self.now.blocks }
        ensures array { ComesBlocked self.now.blocks (zip_all (function_of u.entry) at.old.stage self.now.elements y.now.elements) result }
        ensures stage { at.new.stage ≡ at.old.stage }
        ensures group { at.new.group ≡ at.old.group }
    {
        if let Some(fault) = self.other_length(at.stage, y) {
            return Err(Halt::Fault(fault));
        }
        let (a, c) = (self.parts(), y.parts());
        let anew = laid_like(alloc, self.blocks() as usize, a, c)?;
        let Use { f, extra } = u;
        let inputs = Inputs::Zip(a, anew.as_deref().unwrap_or(c));
        each_place(alloc, at, self.blocks() as usize, Use { f, extra }, inputs)
    }

    /// The function at each place and its two elements, in the same blocks. `Shape` comes exactly where the other array
    /// has another length, else the fault at the least place.
    pub fn zip_index<F: Fabric>(
        &self,
        alloc: Global,
        at: &mut Place<'_, F>,
        u: Use<'_>,
        y: &DistArray,
    ) -> Result<DistArray, Halt>
        requires takes { Takes u 3 }
        requires blocks { y.now.blocks ≡ self.now.blocks }
        ensures array { ComesBlocked self.now.blocks (zip_index (function_of u.entry) at.old.stage self.now.elements y.now.elements) result }
        ensures stage { at.new.stage ≡ at.old.stage }
        ensures group { at.new.group ≡ at.old.group }
    {
        if let Some(fault) = self.other_length(at.stage, y) {
            return Err(Halt::Fault(fault));
        }
        let (a, c) = (self.parts(), y.parts());
        let anew = laid_like(alloc, self.blocks() as usize, a, c)?;
        let Use { f, extra } = u;
        let inputs = Inputs::ZipIndex(a, anew.as_deref().unwrap_or(c));
        each_place(alloc, at, self.blocks() as usize, Use { f, extra }, inputs)
    }

    // The fault where the other array has another length.
    fn other_length(&self, stage: u32, y: &DistArray) -> Option<Fault>
        ensures { MatchOption result (length y.now.elements ≡ length self.now.elements) (λ e. (length y.now.elements ≢ length self.now.elements) × (e ≡ Shape stage (length y.now.elements) (length self.now.elements))) }
    {
        let (n, other) = (self.len(), y.len());
        if other == n {
            None
        } else {
            Some(Fault::Shape(stage, other as u64, n as u64))
        }
    }
}

// What a function gives at each place, as an array that lies as its inputs do.
fn each_place<F: Fabric>(
    alloc: Global,
    at: &mut Place<'_, F>,
    blocks: usize,
    u: Use<'_>,
    inputs: Inputs<'_, '_>,
) -> Result<DistArray, Halt>
    requires suits { Suits u inputs }
    requires parts { AreParts blocks (parts_of inputs) }
    ensures array { ComesBlocked blocks (whole (function_of u.entry) at.old.stage inputs.entry) result }
    ensures stage { at.new.stage ≡ at.old.stage }
    ensures group { at.new.group ≡ at.old.group }
{
    let Use { f, extra } = u;
    let work = Elements::new(Use { f, extra }, at.stage, inputs);
    let fabric = &mut *at.fabric;
    let parts = fabric.outcomes(alloc, &work)?;
    Ok(DistArray::of_parts(blocks, parts))
}

// The second list in parts that lie as those of the first, where its own don't: arrays that were made at groups of
// other sizes have other numbers of parts.
fn laid_like(
    alloc: Global,
    blocks: usize,
    a: &[Vec<i64>],
    c: &[Vec<i64>],
) -> Result<Option<Vec<Vec<i64>>>, NoMemory>
    requires first { AreParts blocks a.now }
    requires second { AreParts blocks c.now }
    requires long { length (flat c.now) ≡ length (flat a.now) }
    ensures { IfOk result (λ anew. MatchOption anew (lengths c.now ≡ lengths a.now) (λ v. (flat v.items ≡ flat c.now) × (lengths v.items ≡ lengths a.now))) }
{
    if c.len() == a.len() {
        return Ok(None);
    }
    let whole = all_of(alloc, c)?;
    Ok(Some(laid(alloc, blocks, a.len(), whole.as_slice())?))
}
