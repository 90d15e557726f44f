ghost use Rattle.std.specs.Prelude.{◌≡◌, ◌≤◌, ◌^◌, ◌++◌, List, ℤ, IfOk, MatchBool, length};
ghost use Rattle.msl_lists.specs.Whole.{function_of, is_bijection, targets_of};
ghost use Rattle.msl_local.specs.Outcomes.{ComesLike};
ghost use Rattle.msl_local.specs.Parts.{flat, lengths};
ghost use Rattle.msl_local.specs.Places.{Takes};
ghost use Rattle.msl_array.specs.Moves.{ArePlaces, ArePut, AreMarked, AreRefused, IsMoved, Marks};

use crate::parts::number_of;
use msl_base::{Fault, Halt, NoMemory};
use msl_fabric::{Fabric, Place};
use msl_fun::Use;
use msl_local::{Elements, Inputs};
use std::alloc::Global;

// What a function gives for each of the places, in parts of the same lengths: where what is there goes. Its fault at
// the least place, or `NotPermutation` where two go to one place or one to none.
pub fn targets<F: Fabric>(
    alloc: Global,
    at: &mut Place<'_, F>,
    u: Use<'_>,
    places: &[Vec<i64>],
) -> Result<Vec<Vec<i64>>, Halt>
    requires takes { Takes u 1 }
    requires few { length (flat places.now) ≤ 2 ^ 60 }
    ensures targets { ComesLike places.now (targets_of (function_of u.entry) at.old.stage (length (flat places.now))) result }
    ensures stage { at.new.stage ≡ at.old.stage }
    ensures group { at.new.group ≡ at.old.group }
{
    let Use { f, extra } = u;
    let work = Elements::new(Use { f, extra }, at.stage, Inputs::Place(places));
    let fabric = &mut *at.fabric;
    let targets = fabric.outcomes(alloc, &work)?;
    if is_permutation(alloc, targets.as_slice())? {
        Ok(targets)
    } else {
        Err(Halt::Fault(Fault::NotPermutation(at.stage)))
    }
}

// Whether each place below their number is a target of one: so many marks without a repetition mark all.
fn is_permutation(alloc: Global, targets: &[Vec<i64>]) -> Result<bool, NoMemory>
    requires { length (flat targets.now) ≤ 2 ^ 60 }
    ensures { IfOk result (λ b. b ≡ is_bijection (length (flat targets.now)) (flat targets.now)) }
{
    let mut marks = vec![in alloc; false; number_of(targets)]?;
    for part in targets {
        if !mark_all(marks.as_mut_slice(), part.as_slice()) {
            return Ok(false);
        }
    }
    Ok(true)
}

// Marks the places of all targets, unless one is no place or is marked before.
fn mark_all(marks: &mut [bool], targets: &[i64]) -> bool
    ensures marks { (seen : List ℤ) → AreMarked marks.old seen → MatchBool result (AreMarked marks.new (seen ++ targets.now)) (AreRefused (length marks.old) (seen ++ targets.now)) }
    ensures long { length marks.new ≡ length marks.old }
{
    for target in targets {
        if !mark(marks, *target) {
            return false;
        }
    }
    true
}

// Marks the place of a target, unless it is none or is marked before. Nothing is taken modulo.
fn mark(marks: &mut [bool], target: i64) -> bool
    ensures marks { Marks marks.old target result marks.new }
    ensures long { length marks.new ≡ length marks.old }
{
    if target < 0 {
        return false;
    }
    let to = target as usize;
    if to >= marks.len() || marks[to] {
        return false;
    }
    marks[to] = true;
    true
}

// The numbers, each at the place of its target. Each is copied once.
pub fn moved(alloc: Global, targets: &[Vec<i64>], xs: &[Vec<i64>]) -> Result<Vec<i64>, NoMemory>
    requires alike { lengths targets.now ≡ lengths xs.now }
    requires places { ArePlaces (length (flat xs.now)) (flat targets.now) }
    requires few { length (flat xs.now) ≤ 2 ^ 60 }
    ensures { IfOk result (λ v. IsMoved (flat targets.now) (flat xs.now) v.items) }
{
    let mut all = vec![in alloc; 0; number_of(xs)]?;
    for m in 0..xs.len() {
        put_part(all.as_mut_slice(), targets[m].as_slice(), xs[m].as_slice());
    }
    Ok(all)
}

fn put_part(all: &mut [i64], targets: &[i64], xs: &[i64])
    requires long { length targets.now ≡ length xs.now }
    requires places { ArePlaces (length all.old) targets.now }
    requires few { length all.old ≤ 2 ^ 60 }
    ensures { ArePut all.old targets.now xs.now (length xs.now) all.new }
{
    for i in 0..xs.len() {
        all[targets[i] as usize] = xs[i];
    }
}
