ghost use Rattle.std.specs.Prelude.{◌≡◌, ◌+◌, ◌<◌, ◌≤◌, ◌++◌, [], ◌∷◌, IfOk, IsErr, OnOk, All, length, pos};
ghost use Rattle.msl_base.specs.declared.answer.Halt.TheVariants as halt;
ghost use Rattle.msl_base.specs.declared.limits.TheConstants.{MOST_CHILDREN};
ghost use Rattle.msl_bounding.specs.Nodes.{HasRoom, Tells, Leaves, low_of, found, valued, counted};
ghost use Rattle.msl_fun.specs.Meaning.{params_of};
ghost use Rattle.msl_lists.specs.Whole.{at_stage};
ghost use Rattle.msl_program.specs.Calls.{number_by, run};
ghost use Rattle.msl_program.specs.Promises.{SearchFits};
ghost use Rattle.msl_program.specs.Searches.{children_of, node};
ghost use Rattle.msl_program.specs.Widths.{IsFunction};
ghost use Rattle.msl_program.specs.declared.width.Width.TheVariants.{Exactly};

use msl_base::limits::{MOST_CHILDREN, MOST_LEVELS};
use msl_base::{Fault, Halt, Path, Small};
use msl_calls::Calls;
use msl_fun::{EvalFault, Funs};
use msl_local::of_stage;
use msl_program::BnbSpec;
use msl_stage::Halted;

/// What a node is that has no fault so far.
#[derive(Clone, Copy)]
pub enum Found {
    /// A solution of this value.
    Solution(i64),
    /// A node with so many children, at most 64.
    Children(u8),
}

/// A search over the functions of its script, at the stage of a number. It says of one node after the other what becomes
/// of it; a fault is told in the halt that the call was lent.
#[derive(Drop)]
pub struct Bounding<'a> {
    pub spec: &'a BnbSpec,
    pub stage: u32,
    pub calls: Calls<'a>,
}

impl<'a> Bounding<'a> {
    /// Takes no memory.
    pub fn new(spec: &'a BnbSpec, funs: &'a Funs, stage: u32) -> Bounding<'a>
        ensures spec { result.spec.now ≡ spec.now }
        ensures stage { result.stage ≡ stage }
        ensures funs { result.calls ≡ funs.now }
    {
        Bounding {
            spec,
            stage,
            calls: Calls::new(funs),
        }
    }

    /// The node's bound. Takes no memory.
    ///
    /// # Errors
    ///
    /// The fault of `bound`, and `BoundBroken` where it is below its parent's, `above`.
    pub fn low(
        &mut self,
        path: &Path,
        x: &[i64],
        above: Option<i64>,
        why: &mut Halt,
    ) -> Result<i64, Halted>
        requires fits { SearchFits self.old.calls self.old.spec.now }
        requires long { length x.now ≡ params_of self.old.calls self.old.spec.now.bound }
        ensures same { self.new ≡ self.old }
        ensures low { Tells (low_of self.old.calls self.old.spec.now self.old.stage path.now (node x.now above)) result why.new }
    {
        let low = self.number(self.spec.bound, x, why)?;
        match above {
            Some(up) if low < up => faults(why, Fault::BoundBroken(self.stage, *path)),
            _ => Ok(low),
        }
    }

    /// What the node is behind its bound `low`. Takes no memory.
    ///
    /// # Errors
    ///
    /// The fault of `solved`; of a solution that of `value`, `BoundBroken` where its value is below its bound, and `Value`
    /// where it is 9223372036854775807; of another node that of `count`, `Count` where its number isn't 0 to 64, and `Depth`
    /// where it has children at the end of a path of 64 steps.
    pub fn found(
        &mut self,
        path: &Path,
        x: &[i64],
        low: i64,
        why: &mut Halt,
    ) -> Result<Found, Halted>
        requires fits { SearchFits self.old.calls self.old.spec.now }
        requires long { length x.now ≡ params_of self.old.calls self.old.spec.now.bound }
        ensures same { self.new ≡ self.old }
        ensures found { Tells (found self.old.calls self.old.spec.now self.old.stage path.now x.now low) result why.new }
        ensures room { IfOk result (HasRoom path.now) }
    {
        let solved = self.number(self.spec.solved, x, why)?;
        if solved == 0 {
            self.counted(path, x, why)
        } else {
            self.valued(path, x, low, why)
        }
    }

    /// The numbers of child k, as many as the node's. Takes no memory.
    ///
    /// # Errors
    ///
    /// The fault of `branch`.
    pub fn child(&mut self, x: &[i64], k: u8, why: &mut Halt) -> Result<Small, Halted>
        requires fits { SearchFits self.old.calls self.old.spec.now }
        requires long { length x.now ≡ params_of self.old.calls self.old.spec.now.bound }
        ensures same { self.new ≡ self.old }
        ensures child { Tells (run self.old.calls self.old.stage self.old.spec.now.branch (x.now ++ pos k ∷ [])) result why.new }
        ensures long { IfOk result (λ y. length y ≡ length x.now) }
    {
        let made = self.calls.results_with(self.spec.branch, x, k);
        told(made, self.stage, why)
    }

    /// The numbers of as many children as there is room, in order. Takes no memory. At an `Err` the room is open.
    ///
    /// # Errors
    ///
    /// The first fault of `branch`.
    pub fn children(&mut self, x: &[i64], room: &mut [Small], why: &mut Halt) -> Result<(), Halted>
        requires fits { SearchFits self.old.calls self.old.spec.now }
        requires long { length x.now ≡ params_of self.old.calls self.old.spec.now.bound }
        requires few { length room.old ≤ MOST_CHILDREN }
        ensures same { self.new ≡ self.old }
        ensures children { Leaves (children_of self.old.calls self.old.spec.now self.old.stage x.now (length room.old)) room.new result why.new }
        ensures long { OnOk result (All (λ y. length y ≡ length x.now) room.new) }
    {
        for k in 0..room.len() {
            room[k] = self.child(x, k as u8, why)?;
        }
        Ok(())
    }

    // The value of a solution.
    fn valued(&mut self, path: &Path, x: &[i64], low: i64, why: &mut Halt) -> Result<Found, Halted>
        requires fits { SearchFits self.old.calls self.old.spec.now }
        requires long { length x.now ≡ params_of self.old.calls self.old.spec.now.bound }
        ensures same { self.new ≡ self.old }
        ensures valued { Tells (valued self.old.calls self.old.spec.now self.old.stage path.now x.now low) result why.new }
        ensures room { IfOk result (HasRoom path.now) }
    {
        let value = self.number(self.spec.value, x, why)?;
        if value < low {
            faults(why, Fault::BoundBroken(self.stage, *path))
        } else if value == i64::MAX {
            faults(why, Fault::Value(self.stage, *path))
        } else {
            Ok(Found::Solution(value))
        }
    }

    // How many children a node has.
    fn counted(&mut self, path: &Path, x: &[i64], why: &mut Halt) -> Result<Found, Halted>
        requires fits { SearchFits self.old.calls self.old.spec.now }
        requires long { length x.now ≡ params_of self.old.calls self.old.spec.now.bound }
        ensures same { self.new ≡ self.old }
        ensures counted { Tells (counted self.old.calls self.old.spec.now self.old.stage path.now x.now) result why.new }
        ensures room { IfOk result (HasRoom path.now) }
    {
        let count = self.number(self.spec.count, x, why)?;
        if !(0..=i64::from(MOST_CHILDREN)).contains(&count) {
            faults(why, Fault::Count(self.stage))
        } else if count > 0 && path.as_slice().len() == MOST_LEVELS {
            faults(why, Fault::Depth(self.stage, *path))
        } else {
            Ok(Found::Children(count as u8))
        }
    }

    // The first result of a function.
    fn number(&mut self, f: u32, x: &[i64], why: &mut Halt) -> Result<i64, Halted>
        requires f { IsFunction self.old.calls (Exactly (length x.now)) (Exactly 1) f }
        ensures same { self.new ≡ self.old }
        ensures number { Tells (number_by self.old.calls self.old.stage f x.now) result why.new }
    {
        let made = self.calls.number(f, x);
        told(made, self.stage, why)
    }
}

// What an evaluation gave, with its fault as one of the stage.
fn told<T>(made: Result<T, EvalFault>, stage: u32, why: &mut Halt) -> Result<T, Halted>
    ensures { Tells (at_stage stage made) result why.new }
{
    match made {
        Ok(x) => Ok(x),
        Err(fault) => faults(why, of_stage(fault, stage)),
    }
}

// There is this fault.
#[inline(never)]
fn faults<T>(why: &mut Halt, fault: Fault) -> Result<T, Halted>
    ensures why { why.new ≡ halt.Fault fault }
    ensures err { IsErr result }
{
    *why = Halt::Fault(fault);
    Err(Halted)
}
