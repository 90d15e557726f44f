ghost use Rattle.std.specs.Prelude.{◌≡◌, ◌<◌, ◌≤◌, [], length, OnOk, ℕ, List};
ghost use Rattle.msl_base.specs.Streams.{Record};
ghost use Rattle.msl_base.specs.declared.limits.TheConstants.{MOST_CHILDREN, MOST_LEVELS};
ghost use Rattle.msl_dividing.specs.Dividing.{Finds, HoldsParts};
ghost use Rattle.msl_division.specs.Steps.{left_by, AreWide};
ghost use Rattle.msl_fun.specs.Meaning.{params_of};
ghost use Rattle.msl_fun.specs.declared.funs.Fun.{Fun};
ghost use Rattle.msl_local.specs.Outcomes.{ComesTo};
ghost use Rattle.msl_program.specs.Divide.{parts_of};
ghost use Rattle.msl_program.specs.Promises.{DivConFits};
ghost use Rattle.msl_program.specs.declared.script.DivCon.{DivCon};
ghost use Rattle.msl_stage.specs.Answers.{made_by};

use msl_base::limits::MOST_PARTS;
use msl_base::{Halt, NoMemory, Path, Small};
use msl_division::Division;
use msl_fun::Funs;
use msl_pool::{Held, Search};
use msl_program::DivCon;
use msl_stage::Halted;
use msl_tree::{Solved, Splits, replay_divcon};
use std::alloc::Global;
use std::collections::VecDeque;
use std::marker::{Brand, PhantomData};

/// What is divided. It stays the same while members work, and no code runs on it.
pub trait Task {
    ghost funs: { List Fun };

    ghost spec: { DivCon };

    ghost stage: { ℕ };

    ghost root: { Record };
}

impl Task for Brand {
    ghost use Rattle.std.specs.Prelude.{[]};

    ghost funs = { [] };

    ghost spec = { record { name = []; parts = 2; cutoff = 0; simple = 0; solve = 0; divide = 0; combine = 0 } };

    ghost stage = { 0 };

    ghost root = { [] };
}

/// A division of a problem, the root, into parts that members work on, and what they have found out so far.
#[derive(Drop)]
pub struct Dividing<'a, K: Task> {
    division: Division<'a>,
    funs: &'a Funs,
    root: Small,
    pub splits: Splits,
    pub solved: Solved,
    task: PhantomData<K>,
}

impl<'a, K: Task> Dividing<'a, K> {
    /// The division of this problem, on which nobody has worked yet. Takes no memory.
    pub fn new(
        alloc: Global,
        spec: &'a DivCon,
        funs: &'a Funs,
        stage: u32,
        root: Small,
    ) -> Dividing<'a, K>
        ensures spec { result.division.spec.now ≡ spec.now }
        ensures calls { result.division.calls ≡ funs.now }
        ensures stage { result.division.stage ≡ stage }
        ensures funs { result.funs.now ≡ funs.now }
        ensures root { result.root ≡ root }
        ensures splits { result.splits ≡ [] }
        ensures solved { result.solved ≡ [] }
    {
        Dividing {
            division: Division::new(spec, funs, stage),
            funs,
            root,
            splits: Splits::new(alloc),
            solved: Solved::new(alloc),
            task: PhantomData,
        }
    }
}

impl<K: Task> Search for Dividing<'_, K> {
    ghost use Rattle.msl_dividing.specs.Dividing.{IsProblemOf, HasDivided};

    /// The numbers of a problem.
    type Node = Small;

    ghost is_node = { λ s. IsProblemOf K.funs K.spec K.stage K.root s.division s.funs.now s.root };

    ghost has = { λ s. HasDivided K.funs K.spec K.stage K.root s.splits s.solved };

    ghost stops = { λ _ _. ⊥ };

    fn node_at(&self, path: &Path) -> Small {
        replay_divcon(self.division.spec, self.funs, self.root, *path).unwrap()
    }

    /// Shuts the path of a problem with its value or its fault, or splits it into all its parts.
    fn work(
        &mut self,
        _alloc: Global,
        at: &Held<Small>,
        held: &mut VecDeque<Held<Small>>,
    ) -> Result<(), Halt> {
        let mut why = Halt::NoMemory;
        let mut places = [Small::of(&[]); MOST_PARTS as usize];
        let parts = &mut places[..self.division.spec.parts as usize];
        let value = match solve_or_divide(&mut self.division, at, parts, &mut why) {
            Ok(Some(value)) => Ok(value),
            Ok(None) => {
                self.splits.add(at.path, parts.len() as u32)?;
                hold(at.path, parts, held)?;
                return Ok(());
            }
            Err(Halted) => match why {
                Halt::Fault(fault) => Err(fault),
                Halt::NoMemory => return Err(Halt::NoMemory),
            },
        };
        self.solved.add(at.path, value)?;
        Ok(())
    }
}

// The value of a problem; or none, where it isn't simple and lies above the cutoff, and then there are its parts.
fn solve_or_divide(
    division: &mut Division<'_>,
    at: &Held<Small>,
    parts: &mut [Small],
    why: &mut Halt,
) -> Result<Option<Small>, Halted>
    requires fits { DivConFits division.old.calls division.old.spec.now }
    requires width { length at.now.node ≡ params_of division.old.calls division.old.spec.now.simple }
    requires all { length parts.old ≡ division.old.spec.now.parts }
    ensures same { division.new ≡ division.old }
    ensures found { Finds division.old.calls division.old.spec.now division.old.stage at.now.path at.now.node parts.new (made_by result why.new) }
{
    let x = at.node.as_slice();
    if at.path.as_slice().len() >= division.spec.cutoff as usize {
        return Ok(Some(division.value(at.path, x, why)?));
    }
    if division.is_simple(x, why)? {
        return Ok(Some(division.solve(x, why)?));
    }
    divide(division, x, parts, why)?;
    Ok(None)
}

// All parts of a problem, or the first fault.
fn divide(
    division: &mut Division<'_>,
    x: &[i64],
    parts: &mut [Small],
    why: &mut Halt,
) -> Result<(), Halted>
    requires fits { DivConFits division.old.calls division.old.spec.now }
    requires width { length x.now ≡ params_of division.old.calls division.old.spec.now.simple }
    requires all { length parts.old ≡ division.old.spec.now.parts }
    ensures same { division.new ≡ division.old }
    ensures parts { ComesTo (parts_of division.old.calls division.old.spec.now division.old.stage x.now) (left_by result parts.new why.new) }
    ensures width { OnOk result (AreWide (params_of division.old.calls division.old.spec.now.simple) parts.new) }
    ensures all { length parts.new ≡ length parts.old }
{
    for j in 0..parts.len() {
        parts[j] = division.part(x, j as u8, why)?;
    }
    Ok(())
}

// Holds the parts of the problem at a path, the first last.
fn hold(path: Path, parts: &[Small], held: &mut VecDeque<Held<Small>>) -> Result<(), NoMemory>
    requires deep { length path < MOST_LEVELS }
    requires few { length parts.now ≤ MOST_CHILDREN }
    ensures { OnOk result (HoldsParts path parts.now 0 held.old.items held.new.items) }
{
    let mut left = parts.len();
    while left > 0 {
        left -= 1;
        let path = path.push(left as u8).unwrap();
        held.push_back(Held {
            path,
            node: parts[left],
        })?;
    }
    Ok(())
}
