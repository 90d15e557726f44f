ghost use Rattle.std.specs.Prelude.{◌≡◌, ℤ, Err};
ghost use Rattle.std.proofs.Props.{props};
ghost use Rattle.msl_lists.specs.Whole.{at_stage};
ghost use Rattle.msl_local.specs.Places.{Suits};

use crate::hands::held_by;
use crate::inputs::cell;
use crate::parts::{element, start};
use crate::{Inputs, room};
use msl_base::{Fault, Halt};
use msl_fun::{EvalFault, Use};
use msl_side::in_turn;
use std::alloc::Global;

/// A function in use at each place of its inputs, which it suits: it takes as many numbers as they have at a place, and
/// gives one.
#[derive(Clone, Copy)]
pub struct Elements<'u, 'a, 'c> {
    pub u: Use<'u>,
    pub stage: u32,
    pub inputs: Inputs<'a, 'c>,
    pub ghost right: { Suits u inputs } by { Prim.hlevel props },
}

/// The fault of a function as one of a stage.
pub fn of_stage(fault: EvalFault, stage: u32) -> Fault
    ensures { at_stage {A = ℤ} stage (Err fault) ≡ Err result }
{
    match fault {
        EvalFault::Overflow => Fault::Overflow(stage),
        EvalFault::DivZero => Fault::DivZero(stage),
        EvalFault::Steps => Fault::Steps(stage),
    }
}

impl<'u, 'a, 'c> Elements<'u, 'a, 'c> {
    ghost use Rattle.std.specs.Prelude.{◌+◌, ◌-◌, ◌<◌, ◌≤◌, length, slice_index_or};
    ghost use Rattle.msl_base.specs.declared.limits.TheConstants.{MOST_BLOCKS};
    ghost use Rattle.msl_fun.specs.Meaning.{params_of};
    ghost use Rattle.msl_lists.specs.Whole.{function_of};
    ghost use Rattle.msl_local.specs.Parts.{between, lengths, start};
    ghost use Rattle.msl_local.specs.Places.{parts_of};
    ghost use Rattle.msl_local.specs.Outcomes.{part, Comes, ComesLike, ComesTo};
    ghost use Rattle.msl_local.specs.Cells.{cells, whole};
    ghost use Rattle.msl_local.specs.Folds.{HandComes};

    /// The function at these inputs.
    pub fn new(u: Use<'u>, stage: u32, inputs: Inputs<'a, 'c>) -> Elements<'u, 'a, 'c>
        requires { Suits u inputs }
        ensures u { result.u ≡ u.entry }
        ensures stage { result.stage ≡ stage }
        ensures inputs { result.inputs ≡ inputs.entry }
    {
        // Taken apart, since a `Use` that comes by value isn't passed on as it is.
        let Use { f, extra } = u;
        Elements {
            u: Use { f, extra },
            stage,
            inputs,
        }
    }

    /// The outcomes at all places, in parts of the same lengths, or the fault of the least place.
    pub fn all(&self, alloc: Global) -> Result<Vec<Vec<i64>>, Halt>
        ensures { ComesLike (parts_of self.now.inputs) (whole (function_of self.now.u) self.now.stage self.now.inputs) result }
    {
        self.between(alloc, 0, self.inputs.parts().len())
    }

    /// The same at the parts that one of so many hands has.
    pub fn hand(&self, alloc: Global, hands: usize, h: usize) -> Result<Vec<Vec<i64>>, Halt>
        requires few { hands ≤ MOST_BLOCKS }
        requires within { h < hands }
        ensures { HandComes (parts_of self.now.inputs) (cells self.now) hands h result }
    {
        let (from, to) = held_by(self.inputs.parts().len(), hands, h);
        self.between(alloc, from, to)
    }

    // The same at the parts from `from` up to `to`.
    fn between(&self, alloc: Global, from: usize, to: usize) -> Result<Vec<Vec<i64>>, Halt>
        requires order { from ≤ to }
        requires within { to ≤ length (parts_of self.now.inputs) }
        ensures { ComesLike (between (parts_of self.now.inputs) from to) (part (cells self.now) (start (parts_of self.now.inputs) from) (start (parts_of self.now.inputs) to - start (parts_of self.now.inputs) from)) result }
    {
        let mut out = room(alloc, to - from)?;
        let mut first = start(self.inputs.parts(), from);
        for m in from..to {
            match self.part(alloc, m, first) {
                Ok(part) => {
                    first += part.len();
                    out.push_reserved(part);
                }
                Err(h) => return Err(h),
            }
        }
        Ok(out)
    }

    // The outcomes at the places of a part, which begins at `first`.
    fn part(&self, alloc: Global, m: usize, first: usize) -> Result<Vec<i64>, Halt>
        requires within { m < length (parts_of self.now.inputs) }
        requires first { first ≡ start (parts_of self.now.inputs) m }
        ensures { Comes (part (cells self.now) first (slice_index_or (lengths (parts_of self.now.inputs)) m 0)) result }
    {
        let n = self.inputs.parts()[m].len();
        let out = room(alloc, n)?;
        in_turn(
            n,
            &|k: usize| -> Result<i64, Halt>
                requires { (m < length (parts_of self.now.inputs)) × (first ≡ start (parts_of self.now.inputs) m) × (k < slice_index_or (lengths (parts_of self.now.inputs)) m 0) }
                ensures { ComesTo (cells self.entry.now (first + k)) result }
            { self.outcome(m, first, k) },
            out,
        )
    }

    // The outcome at place `k` of a part.
    fn outcome(&self, m: usize, first: usize, k: usize) -> Result<i64, Halt>
        requires within { m < length (parts_of self.now.inputs) }
        requires first { first ≡ start (parts_of self.now.inputs) m }
        requires inside { k < slice_index_or (lengths (parts_of self.now.inputs)) m 0 }
        ensures { ComesTo (cells self.now (first + k)) result }
    {
        let i = first + k;
        match self.inputs {
            Inputs::Map(a) => self.apply(&[element(a, m, k)]),
            Inputs::MapIndex(a) => self.apply(&[i as i64, element(a, m, k)]),
            Inputs::Zip(a, c) => self.apply(&[element(a, m, k), element(c, m, k)]),
            Inputs::ZipIndex(a, c) => self.apply(&[i as i64, element(a, m, k), element(c, m, k)]),
            Inputs::Place(_) => self.apply(&[i as i64]),
            Inputs::MapCell(a, windows) => {
                let (row, col) = cell(windows, m, k);
                self.apply(&[row, col, element(a, m, k)])
            }
            Inputs::ZipCell(a, c, windows) => {
                let (row, col) = cell(windows, m, k);
                self.apply(&[row, col, element(a, m, k), element(c, m, k)])
            }
        }
    }

    // What the function gives for these numbers, behind its given arguments.
    fn apply(&self, numbers: &[i64]) -> Result<i64, Halt>
        requires { length self.now.u.extra + length numbers.now ≡ params_of self.now.u.f.funs.now self.now.u.f.at }
        ensures { ComesTo (at_stage self.now.stage (function_of self.now.u numbers.now)) result }
    {
        let mut out = [0];
        match self.u.eval(numbers, &mut out) {
            Ok(_) => Ok(out[0]),
            Err(e) => Err(Halt::Fault(of_stage(e, self.stage))),
        }
    }
}
