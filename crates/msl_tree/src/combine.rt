ghost use Rattle.std.specs.Prelude.{◌≡◌, ◌≤◌, ◌+◌, [], ◌++◌, length, IfOk};
ghost use Rattle.msl_base.specs.declared.limits.TheConstants.{MOST_SMALL};
ghost use Rattle.msl_base.specs.Covers.{Covers, ComesUp};
ghost use Rattle.msl_fun.specs.Meaning.{results_of};
ghost use Rattle.msl_local.specs.Outcomes.{ComesTo};
ghost use Rattle.msl_program.specs.Promises.{DivConFits};
ghost use Rattle.msl_stage.specs.Answers.{MayAnswer};
ghost use Rattle.msl_tree.specs.Combined.{combined, AreParted, AreWide};
ghost use Rattle.msl_tree.specs.Covered.{IsCovered};
ghost use Rattle.msl_tree.specs.ByPath.{Finds};
ghost use Rattle.msl_tree.specs.Lists.{leaf_paths};

use crate::by_path::ByPath;
use crate::{Solved, Splits};
use msl_base::limits::MOST_SMALL;
use msl_base::{Answer, Fault, Halt, Path, Rec, Small};
use msl_calls::Calls;
use msl_fun::Funs;
use msl_local::of_stage;
use msl_program::DivCon;
use std::alloc::Global;

/// The value of the root, combined from the values of the solved paths, or the first fault among them. These and the
/// splits have to cover the tree, each split with as many children as the division has parts.
pub fn combine_cover(
    alloc: Global,
    d: &DivCon,
    funs: &Funs,
    stage: u32,
    splits: &Splits,
    solved: &Solved,
) -> Answer
    requires fits { DivConFits funs.now d.now }
    requires covers { Covers splits.now (leaf_paths solved.now) }
    requires parts { AreParted funs.now d.now stage splits.now }
    requires wide { AreWide funs.now d.now stage solved.now }
    ensures { MayAnswer (λ r. r ≡ combined funs.now d.now stage splits.now solved.now []) result }
{
    match root_value(alloc, d, funs, stage, splits, solved) {
        Ok(value) => match Rec::of_slice(alloc, value.as_slice()) {
            Ok(rec) => Answer::Rec(rec),
            Err(_) => Answer::NoMemory,
        },
        Err(Halt::Fault(fault)) => Answer::Fault(fault),
        Err(Halt::NoMemory) => Answer::NoMemory,
    }
}

// The same, with no memory for the value.
fn root_value(
    alloc: Global,
    d: &DivCon,
    funs: &Funs,
    stage: u32,
    splits: &Splits,
    solved: &Solved,
) -> Result<Small, Halt>
    requires fits { DivConFits funs.now d.now }
    requires covers { Covers splits.now (leaf_paths solved.now) }
    requires parts { AreParted funs.now d.now stage splits.now }
    requires wide { AreWide funs.now d.now stage solved.now }
    ensures { ComesTo (combined funs.now d.now stage splits.now solved.now []) result }
{
    let cover = Cover {
        d,
        stage,
        splits,
        solved,
        by_path: ByPath::new(alloc, solved)?,
    };
    let mut calls = Calls::new(funs);
    match cover.value(&mut calls, Path::root()) {
        Ok(value) => Ok(value),
        Err(fault) => Err(Halt::Fault(fault)),
    }
}

// What covers the tree of a division, with the solved paths to be looked up.
#[derive(Drop)]
struct Cover<'a> {
    d: &'a DivCon,
    stage: u32,
    splits: &'a Splits,
    solved: &'a Solved,
    by_path: ByPath<'a>,
}

impl Cover<'_> {
    // The value of a path: its own where it was solved, else what its parts' values combine to.
    fn value(&self, calls: &mut Calls<'_>, path: Path) -> Result<Small, Fault>
        requires covered { IsCovered calls.old self.now.d.now self.now.stage self.now.splits.now self.now.solved.now }
        requires finds { Finds self.now.by_path.entries self.now.solved.now }
        requires comes_up { ComesUp self.now.splits.now path }
        ensures same { calls.new ≡ calls.old }
        ensures value { result ≡ combined calls.old self.now.d.now self.now.stage self.now.splits.now self.now.solved.now path }
        ensures wide { IfOk result (λ y. length y ≡ results_of calls.old self.now.d.now.solve) }
    {
        if let Some(value) = self.by_path.get(&path) {
            return value;
        }
        let mut values = Small::of(&[]);
        for j in 0..self.d.parts {
            // A path that was split is less than 64 deep.
            let part = path.push(j as u8).unwrap();
            let value = self.value(calls, part)?;
            values = joined(&values, &value);
        }
        match calls.results(self.d.combine, values.as_slice()) {
            Ok(value) => Ok(value),
            Err(fault) => Err(of_stage(fault, self.stage)),
        }
    }
}

// The numbers of both, one after the other.
fn joined(a: &Small, b: &Small) -> Small
    requires few { length a.now + length b.now ≤ MOST_SMALL }
    ensures { result ≡ a.now ++ b.now }
{
    let (a, b) = (a.as_slice(), b.as_slice());
    let len = a.len() + b.len();
    let mut numbers = [0; MOST_SMALL];
    numbers[..a.len()].copy_from_slice(a);
    numbers[a.len()..len].copy_from_slice(b);
    Small::of(&numbers[..len])
}
