ghost use Rattle.std.specs.Prelude.{◌≡◌, [], ◌∷◌};
ghost use Rattle.msl_lists.specs.Whole.{at_stage, fold_all, foldl_all, function_of, scan_all};
ghost use Rattle.msl_local.specs.Outcomes.{ComesTo};
ghost use Rattle.msl_local.specs.Parts.{flat};
ghost use Rattle.msl_local.specs.Places.{Takes};
ghost use Rattle.msl_array.specs.Arrays.{ComesBlocked};

use crate::DistArray;
use msl_base::{Fault, Halt};
use msl_fabric::{Fabric, Place};
use msl_fun::Use;
use msl_local::{Folding, of_stage};
use msl_ops::Op;
use std::alloc::Global;

impl DistArray {
    /// What all elements combine to, or `Overflow` where that is no number of 64 bits.
    pub fn fold<F: Fabric>(&self, alloc: Global, at: &mut Place<'_, F>, op: Op) -> Result<i64, Halt>
        ensures number { ComesTo (fold_all op at.old.stage self.now.elements) result }
        ensures stage { at.new.stage ≡ at.old.stage }
        ensures group { at.new.group ≡ at.old.group }
    {
        let work = Folding::new(op, at.stage, self.parts());
        let fabric = &mut *at.fabric;
        fabric.fold(alloc, &work)
    }

    /// What the function makes of the first value and each element in turn, or its first fault. It is worked out from
    /// the first element to the last, since nothing is known of the function.
    pub fn foldl<F: Fabric>(
        &self,
        _alloc: Global,
        at: &mut Place<'_, F>,
        u: Use<'_>,
        first: i64,
    ) -> Result<i64, Halt>
        requires { Takes u 2 }
        ensures number { ComesTo (foldl_all (function_of u.entry) at.old.stage first self.now.elements) result }
        ensures stage { at.new.stage ≡ at.old.stage }
        ensures group { at.new.group ≡ at.old.group }
    {
        // Taken apart, since a `Use` that comes by value isn't lent as it is.
        let Use { f, extra } = u;
        let u = Use { f, extra };
        let mut value = first;
        for part in self.parts() {
            match pass(&u, at.stage, value, part.as_slice()) {
                Ok(next) => value = next,
                Err(fault) => return Err(Halt::Fault(fault)),
            }
        }
        Ok(value)
    }

    /// What the elements up to each place combine to, in the same blocks, or `Overflow` of the least place at which that
    /// is no number of 64 bits.
    pub fn scan<F: Fabric>(
        &self,
        alloc: Global,
        at: &mut Place<'_, F>,
        op: Op,
    ) -> Result<DistArray, Halt>
        ensures array { ComesBlocked self.now.blocks (scan_all op at.old.stage self.now.elements) result }
        ensures stage { at.new.stage ≡ at.old.stage }
        ensures group { at.new.group ≡ at.old.group }
    {
        let blocks = self.blocks() as usize;
        let work = Folding::new(op, at.stage, self.parts());
        let fabric = &mut *at.fabric;
        let parts = fabric.scan(alloc, &work)?;
        Ok(DistArray::of_parts(blocks, parts))
    }
}

// What the function makes of a value and each number in turn.
fn pass(u: &Use<'_>, stage: u32, first: i64, xs: &[i64]) -> Result<i64, Fault>
    requires { Takes u.now 2 }
    ensures { result ≡ foldl_all (function_of u.now) stage first xs.now }
{
    let mut value = first;
    for x in xs {
        match step(u, stage, value, *x) {
            Ok(next) => value = next,
            Err(fault) => return Err(fault),
        }
    }
    Ok(value)
}

// What the function makes of two numbers.
fn step(u: &Use<'_>, stage: u32, value: i64, x: i64) -> Result<i64, Fault>
    requires { Takes u.now 2 }
    ensures { result ≡ at_stage stage (function_of u.now (value ∷ x ∷ [])) }
{
    let mut out = [0];
    match u.eval(&[value, x], &mut out) {
        Ok(_) => Ok(out[0]),
        Err(fault) => Err(of_stage(fault, stage)),
    }
}
