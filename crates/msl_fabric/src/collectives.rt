ghost use Rattle.std.specs.Prelude.{◌≡◌, ◌<◌, length, replicate, IfOk};
ghost use Rattle.msl_fabric.specs.Grids.{IsExchange, records};

use crate::lines::{put_column, put_row, take_column, take_row};
use crate::{Boxes, Fabric, Place};
use msl_base::{NoMemory, Rec};
use std::alloc::Global;

/// `x` at each member, from the one at `root`. It fails for want of memory alone.
pub fn broadcast<F: Fabric>(
    alloc: Global,
    at: &mut Place<'_, F>,
    root: u32,
    x: &Rec,
) -> Result<Vec<Rec>, NoMemory>
    requires { root < at.old.group.now.count }
    ensures each { IfOk result (λ all. records all.items ≡ replicate at.old.group.now.count x.now.numbers) }
    ensures stage { at.new.stage ≡ at.old.stage }
    ensures group { at.new.group ≡ at.old.group }
{
    let parts = copies(alloc, at.group.count(), x)?;
    scatter(alloc, at, root, parts)
}

fn copies(alloc: Global, n: u32, x: &Rec) -> Result<Vec<Rec>, NoMemory>
    ensures same { IfOk result (λ all. records all.items ≡ replicate n x.now.numbers) }
    ensures long { IfOk result (λ all. length all.items ≡ n) }
{
    let mut all = Vec::with_capacity(alloc, n as usize)?;
    for _i in 0..n {
        all.push_reserved(Rec::of_slice(alloc, x.as_slice())?);
    }
    Ok(all)
}

/// Part `i` at member `i`, from the one at `root`. It fails for want of memory alone.
pub fn scatter<F: Fabric>(
    alloc: Global,
    at: &mut Place<'_, F>,
    root: u32,
    parts: Vec<Rec>,
) -> Result<Vec<Rec>, NoMemory>
    requires root { root < at.old.group.now.count }
    requires each { length parts.items ≡ at.old.group.now.count }
    ensures parts { IfOk result (λ all. records all.items ≡ records parts.items) }
    ensures stage { at.new.stage ≡ at.old.stage }
    ensures group { at.new.group ≡ at.old.group }
{
    let mut out = Boxes::new(alloc, at.group.count())?;
    put_row(&mut out, root, parts);
    let fabric = &mut *at.fabric;
    let got = fabric.exchange(alloc, out)?;
    take_column(alloc, got, root)
}

/// What the member at `root` holds then: the part of each member, in the order of the members. It fails for want of
/// memory alone.
pub fn gather<F: Fabric>(
    alloc: Global,
    at: &mut Place<'_, F>,
    root: u32,
    parts: Vec<Rec>,
) -> Result<Vec<Rec>, NoMemory>
    requires root { root < at.old.group.now.count }
    requires each { length parts.items ≡ at.old.group.now.count }
    ensures parts { IfOk result (λ all. records all.items ≡ records parts.items) }
    ensures stage { at.new.stage ≡ at.old.stage }
    ensures group { at.new.group ≡ at.old.group }
{
    let mut out = Boxes::new(alloc, at.group.count())?;
    put_column(&mut out, root, parts);
    let fabric = &mut *at.fabric;
    let got = fabric.exchange(alloc, out)?;
    take_row(alloc, got, root)
}

/// The exchange: what each member has for each other, at that other. It fails for want of memory alone.
pub fn all_to_all<F: Fabric>(
    alloc: Global,
    at: &mut Place<'_, F>,
    out: Boxes,
) -> Result<Boxes, NoMemory>
    ensures exchange { IfOk result (λ got. IsExchange out got) }
    ensures stage { at.new.stage ≡ at.old.stage }
    ensures group { at.new.group ≡ at.old.group }
{
    let fabric = &mut *at.fabric;
    fabric.exchange(alloc, out)
}
