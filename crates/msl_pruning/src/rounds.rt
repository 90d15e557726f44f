ghost use Rattle.std.specs.Prelude.{◌≡◌, ◌≤◌, length};
ghost use Rattle.msl_base.specs.declared.limits.TheConstants.{MOST_MEMBERS};
ghost use Rattle.msl_fun.specs.Meaning.{params_of};
ghost use Rattle.msl_program.specs.Promises.{SearchFits};
ghost use Rattle.msl_program.specs.Searches.{BestOf, IsAnswer};
ghost use Rattle.msl_stage.specs.Answers.{MayAnswer};

use crate::pruning::{LiveNode, Pruning, Task};
use msl_base::{Answer, Fault, Halt, Small};
use msl_fun::Funs;
use msl_pool::by_turns;
use msl_program::BnbSpec;
use std::alloc::Global;
use std::marker::Brand;

/// A best solution of a search from these numbers on, its value and behind it its numbers, or the empty record where there
/// is none; by so many members of a pool in turns, which drop nodes.
///
/// # Errors
///
/// `Shape` where the record hasn't as many numbers as `bound` takes, else the fault of a node that is reached and wasn't
/// dropped; and `NoMemory` where memory ran out.
pub fn bnb_rounds(
    alloc: Global,
    b: &BnbSpec,
    funs: &Funs,
    stage: u32,
    members: u32,
    xs: &[i64],
) -> Answer
    requires fits { SearchFits funs.now b.now }
    requires some { 1 ≤ members }
    requires few { members ≤ MOST_MEMBERS }
    ensures { MayAnswer (BestOf funs.now b.now stage xs.now) result }
{
    let (params, _) = funs.muscle(b.bound).widths();
    if xs.len() != params {
        return Answer::Fault(Fault::Shape(stage, xs.len() as u64, params as u64));
    }
    in_turns::<Brand>(alloc, b, funs, stage, members, Small::of(xs))
}

// A best solution of the search from this root on.
fn in_turns<K: Task>(
    alloc: Global,
    b: &BnbSpec,
    funs: &Funs,
    stage: u32,
    members: u32,
    root: Small,
) -> Answer
    requires funs { funs.now ≡ K.funs }
    requires spec { b.now ≡ K.spec }
    requires stage { stage ≡ K.stage }
    requires root { root ≡ K.root }
    requires fits { SearchFits K.funs K.spec }
    requires long { length root ≡ params_of K.funs K.spec.bound }
    requires some { 1 ≤ members }
    requires few { members ≤ MOST_MEMBERS }
    ensures { MayAnswer (IsAnswer K.funs K.spec K.stage K.root) result }
{
    let mut search = Pruning::<K>::new(b, funs, stage, root);
    match by_turns(alloc, &mut search, members, LiveNode::root(root)) {
        Ok(()) => search.answer(alloc),
        Err(Halt::Fault(fault)) => Answer::Fault(fault),
        Err(Halt::NoMemory) => Answer::NoMemory,
    }
}
