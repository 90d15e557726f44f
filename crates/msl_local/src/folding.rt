ghost use Rattle.std.specs.Prelude.{◌≡◌, ◌≤◌, ◌^◌, All, FitsSigned, length};
ghost use Rattle.std.specs.Int.{w64};
ghost use Rattle.msl_local.specs.Parts.{flat};
ghost use Rattle.msl_ops.specs.Lawful.{folded};

use crate::hands::held_by;
use crate::parts::all_fit;
use crate::room;
use msl_base::{Fault, Halt};
use msl_ops::{Lawful, Op};
use std::alloc::Global;

/// Numbers in parts, one for each member, that are combined by an operator from the first to the last.
#[derive(Clone, Copy)]
pub struct Folding<'a> {
    pub op: Op,
    pub stage: u32,
    pub parts: &'a [Vec<i64>],
    pub ghost few: { length (flat parts.now) ≤ 2 ^ 60 },
    pub ghost fit: { All (FitsSigned w64) (flat parts.now) },
}

impl<'a> Folding<'a> {
    ghost use Rattle.std.specs.Prelude.{◌+◌, ◌<◌, IfOk, IfErr};
    ghost use Rattle.msl_base.specs.declared.answer.Halt.TheVariants.{NoMemory};
    ghost use Rattle.msl_base.specs.declared.limits.TheConstants.{MOST_BLOCKS};
    ghost use Rattle.msl_ops.specs.Meaning.{fold_of};
    ghost use Rattle.msl_lists.specs.Whole.{fold_all};
    ghost use Rattle.msl_local.specs.Parts.{between};
    ghost use Rattle.msl_local.specs.Folds.{held_by, AreFolds, AreStarts};

    /// These numbers by this operator.
    pub fn new(op: Op, stage: u32, parts: &'a [Vec<i64>]) -> Folding<'a>
        requires { length (flat parts.now) ≤ 2 ^ 60 }
        ensures op { result.op ≡ op }
        ensures stage { result.stage ≡ stage }
        ensures parts { result.parts ≡ parts.entry }
    {
        all_fit(parts);
        Folding { op, stage, parts }
    }

    /// What all numbers combine to, settled.
    pub fn all(&self) -> Result<i64, Fault>
        ensures { result ≡ fold_all self.now.op self.now.stage (flat self.now.parts.now) }
    {
        let total = self.between(0, self.parts.len());
        self.op.settle(total, self.stage)
    }

    /// What the numbers combine to that one of so many hands has, beginning with the unit. No operator leaves 128 bits.
    pub fn hand(&self, hands: usize, h: usize) -> i128
        requires few { hands ≤ MOST_BLOCKS }
        requires within { h < hands }
        ensures { result ≡ fold_of self.now.op.kind self.now.op.modulus (flat (held_by self.now.parts.now hands h)) }
    {
        let (from, to) = held_by(self.parts.len(), hands, h);
        self.between(from, to)
    }

    /// What all numbers combine to, settled, by what those of each hand do.
    pub fn of_hands(&self, hands: usize, folds: &[i128]) -> Result<i64, Fault>
        requires some { 1 ≤ hands }
        requires folds { AreFolds self.now.op self.now.parts.now hands folds.now }
        ensures { result ≡ fold_all self.now.op self.now.stage (flat self.now.parts.now) }
    {
        let mut total = self.op.unit();
        for h in 0..hands {
            total = self.op.combine(total, folds[h]);
        }
        self.op.settle(total, self.stage)
    }

    /// What each hand begins to scan with, by the folds of all: the fold of what stands before it.
    pub fn starts(&self, alloc: Global, hands: usize, folds: &[i128]) -> Result<Vec<i128>, Halt>
        requires { AreFolds self.now.op self.now.parts.now hands folds.now }
        ensures starts { IfOk result (λ v. AreStarts self.now.op self.now.parts.now hands v.items) }
        ensures err { IfErr result (λ h. h ≡ NoMemory) }
    {
        let mut starts = room(alloc, hands)?;
        let mut total = self.op.unit();
        for h in 0..hands {
            starts.push_reserved(total);
            total = self.op.combine(total, folds[h]);
        }
        Ok(starts)
    }

    // What the numbers of the parts from `from` up to `to` combine to, beginning with the unit.
    fn between(&self, from: usize, to: usize) -> i128
        requires order { from ≤ to }
        requires within { to ≤ length self.now.parts.now }
        ensures { result ≡ fold_of self.now.op.kind self.now.op.modulus (flat (between self.now.parts.now from to)) }
    {
        let mut total = self.op.unit();
        for m in from..to {
            total = self
                .op
                .combine(total, fold(&self.op, self.parts[m].as_slice()));
        }
        total
    }
}

/// What numbers combine to by an operator, from the first to the last, beginning with the unit. It has 128 bits: no
/// fold of so few numbers leaves them.
pub fn fold<L: Lawful>(op: &L, xs: &[i64]) -> i128
    requires { length xs.now ≤ 2 ^ 60 }
    ensures { result ≡ folded (L.unit op.now) (L.lift op.now) (L.combine op.now) xs.now }
{
    let mut total = op.unit();
    for x in xs {
        total = op.combine(total, op.lift(*x));
    }
    total
}
