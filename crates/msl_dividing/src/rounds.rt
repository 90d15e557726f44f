ghost use Rattle.std.specs.Prelude.{◌≡◌, ◌≤◌, [], length};
ghost use Rattle.msl_base.specs.declared.limits.TheConstants.{MOST_MEMBERS};
ghost use Rattle.msl_fun.specs.Meaning.{params_of};
ghost use Rattle.msl_program.specs.Calls.{run};
ghost use Rattle.msl_program.specs.Divide.{dc, divcon_outcome};
ghost use Rattle.msl_program.specs.Promises.{DivConFits};
ghost use Rattle.msl_stage.specs.Answers.{MayAnswer};

use crate::dividing::{Dividing, Task};
use msl_base::{Answer, Fault, Small};
use msl_fun::Funs;
use msl_pool::by_turns;
use msl_program::DivCon;
use msl_tree::combine_cover;
use std::alloc::Global;
use std::marker::Brand;

/// The recursive value of the record, or its first fault, as of `divcon_seq`, by so many members of a pool in turns;
/// `Shape` where it hasn't as many numbers as `simple` has parameters. `NoMemory` comes where memory ran out.
pub fn divcon_rounds(
    alloc: Global,
    d: &DivCon,
    funs: &Funs,
    stage: u32,
    members: u32,
    xs: &[i64],
) -> Answer
    requires fits { DivConFits funs.now d.now }
    requires some { 1 ≤ members }
    requires few { members ≤ MOST_MEMBERS }
    ensures { MayAnswer (λ r. r ≡ divcon_outcome funs.now d.now stage xs.now) result }
{
    let (want, _) = funs.muscle(d.simple).widths();
    if xs.len() != want {
        return Answer::Fault(Fault::Shape(stage, xs.len() as u64, want as u64));
    }
    in_turns::<Brand>(alloc, d, funs, stage, members, Small::of(xs))
}

// The value of a problem, the root.
fn in_turns<K: Task>(
    alloc: Global,
    d: &DivCon,
    funs: &Funs,
    stage: u32,
    members: u32,
    root: Small,
) -> Answer
    requires funs { funs.now ≡ K.funs }
    requires spec { d.now ≡ K.spec }
    requires stage { stage ≡ K.stage }
    requires root { root ≡ K.root }
    requires fits { DivConFits K.funs K.spec }
    requires width { length root ≡ params_of K.funs K.spec.simple }
    requires some { 1 ≤ members }
    requires few { members ≤ MOST_MEMBERS }
    ensures { MayAnswer (λ r. r ≡ dc K.funs K.spec K.stage (run K.funs K.stage K.spec.solve) [] K.root) result }
{
    let mut dividing = Dividing::<K>::new(alloc, d, funs, stage, root);
    match by_turns(alloc, &mut dividing, members, root) {
        Ok(()) => combine_cover(alloc, d, funs, stage, &dividing.splits, &dividing.solved),
        // Nothing but want of memory stops it.
        Err(_) => Answer::NoMemory,
    }
}
