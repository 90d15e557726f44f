//! Blocks that change places, by the members, each of whom has as many blocks as `bounds` gives: in each round every
//! member sends one of its own.

ghost use Rattle.std.specs.Prelude.{◌≡◌, ◌≢◌, ◌<◌, ℕ, length, IfOk};
ghost use Rattle.msl_fabric.specs.Grids.{box_at, records};
ghost use Rattle.msl_fabric.specs.Moves.{AreMoved, AreRotated, IsBijection, block};
ghost use Rattle.msl_fabric.specs.Routes.{Lands, goes, many, owner, round};
ghost use Rattle.msl_fabric.specs.Targets.{Permutes, target};

use crate::routes::{Route, Targets, owners};
use crate::{Boxes, Fabric, Place};
use msl_base::{NoMemory, Rec};
use std::alloc::Global;
use std::mem;

/// Block `i` in the place `to[i]`, by the members, each of whom has as many blocks as `bounds` gives. It fails for want of
/// memory alone.
pub fn permute_blocks<F: Fabric>(
    alloc: Global,
    at: &mut Place<'_, F>,
    blocks: Vec<Rec>,
    to: &[u32],
) -> Result<Vec<Rec>, NoMemory>
    requires { IsBijection (length blocks.items) to.now }
    ensures blocks { IfOk result (λ all. AreMoved to.now (records blocks.items) (records all.items)) }
    ensures stage { at.new.stage ≡ at.old.stage }
    ensures group { at.new.group ≡ at.old.group }
{
    by_members(alloc, at, blocks, Targets::Listed(to))
}

/// Each block so many places further, and round. It fails for want of memory alone.
pub fn rotate_blocks<F: Fabric>(
    alloc: Global,
    at: &mut Place<'_, F>,
    blocks: Vec<Rec>,
    by: u32,
) -> Result<Vec<Rec>, NoMemory>
    requires { by < length blocks.items }
    ensures blocks { IfOk result (λ all. AreRotated by (records blocks.items) (records all.items)) }
    ensures stage { at.new.stage ≡ at.old.stage }
    ensures group { at.new.group ≡ at.old.group }
{
    by_members(alloc, at, blocks, Targets::Further(by))
}

// Each block where its target is.
fn by_members<F: Fabric>(
    alloc: Global,
    at: &mut Place<'_, F>,
    blocks: Vec<Rec>,
    targets: Targets<'_>,
) -> Result<Vec<Rec>, NoMemory>
    requires { Permutes (length blocks.items) targets }
    ensures count { IfOk result (λ all. length (records all.items) ≡ length (records blocks.items)) }
    ensures lands { IfOk result (λ all. (i : ℕ) → i < length blocks.items → block (records all.items) (target targets.entry (length blocks.items) i) ≡ block (records blocks.items) i) }
    ensures stage { at.new.stage ≡ at.old.stage }
    ensures group { at.new.group ≡ at.old.group }
{
    let members = at.group.count();
    let owners = owners(alloc, blocks.len(), members)?;
    let route = Route {
        targets,
        owners: owners.as_slice(),
        members,
    };
    in_rounds(alloc, at, blocks, &route)
}

// The same along a route. A block leaves its place as it is sent, and the same boxes go through all rounds.
fn in_rounds<F: Fabric>(
    alloc: Global,
    at: &mut Place<'_, F>,
    mut blocks: Vec<Rec>,
    route: &Route<'_>,
) -> Result<Vec<Rec>, NoMemory>
    requires { length blocks.items ≡ many route.now }
    ensures lands { IfOk result (λ all. Lands route.now (records blocks.items) (records all.items)) }
    ensures stage { at.new.stage ≡ at.old.stage }
    ensures group { at.new.group ≡ at.old.group }
{
    let mut moved = nothing(alloc, blocks.len())?;
    let mut boxes = Boxes::new(alloc, route.members)?;
    for k in 0..route.rounds() {
        send(alloc, &mut boxes, blocks.as_mut_slice(), route, k);
        let fabric = &mut *at.fabric;
        boxes = fabric.exchange(alloc, boxes)?;
        receive(&mut boxes, moved.as_mut_slice(), route, k);
    }
    Ok(moved)
}

// So many empty blocks.
fn nothing(alloc: Global, n: usize) -> Result<Vec<Rec>, NoMemory>
    ensures { IfOk result (λ all. length all.items ≡ n) }
{
    let mut all = Vec::with_capacity(alloc, n)?;
    for _i in 0..n {
        all.push_reserved(Rec::new(alloc));
    }
    Ok(all)
}

// Each member who has a block `k` puts it in the box for the member who has its target.
fn send(alloc: Global, boxes: &mut Boxes, left: &mut [Rec], route: &Route<'_>, k: u64)
    requires members { boxes.old.n ≡ route.now.members }
    requires long { length left.old ≡ many route.now }
    ensures members { boxes.new.n ≡ boxes.old.n }
    ensures long { length left.new ≡ length left.old }
    ensures sent { (i : ℕ) → i < many route.now → round route.now i ≡ k → box_at boxes.new (owner route.now i) (owner route.now (goes route.now i)) ≡ block (records left.old) i }
    ensures rest { (i : ℕ) → i < many route.now → round route.now i ≢ k → block (records left.new) i ≡ block (records left.old) i }
{
    for m in 0..boxes.count() {
        if let Some(way) = route.way(m, k) {
            let block = mem::replace(&mut left[way.from], Rec::new(alloc));
            boxes.put(m, way.owner, block);
        }
    }
}

// Each member takes what others sent it, and puts it in its place.
fn receive(boxes: &mut Boxes, moved: &mut [Rec], route: &Route<'_>, k: u64)
    requires members { boxes.old.n ≡ route.now.members }
    requires long { length moved.old ≡ many route.now }
    ensures members { boxes.new.n ≡ boxes.old.n }
    ensures long { length moved.new ≡ length moved.old }
    ensures got { (i : ℕ) → i < many route.now → round route.now i ≡ k → block (records moved.new) (goes route.now i) ≡ box_at boxes.old (owner route.now (goes route.now i)) (owner route.now i) }
    ensures rest { (i : ℕ) → i < many route.now → round route.now i ≢ k → block (records moved.new) (goes route.now i) ≡ block (records moved.old) (goes route.now i) }
{
    for m in 0..boxes.count() {
        if let Some(way) = route.way(m, k) {
            moved[way.to] = boxes.take(way.owner, m);
        }
    }
}
