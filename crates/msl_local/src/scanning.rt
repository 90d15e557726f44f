use crate::hands::held_by;
use crate::{Folding, room};
use msl_base::Halt;
use msl_ops::Lawful;
use std::alloc::Global;

impl Folding<'_> {
    ghost use Rattle.std.specs.Prelude.{◌≡◌, ◌+◌, ◌-◌, ◌<◌, ◌≤◌, OnOk, length, slice_index_or, take};
    ghost use Rattle.msl_base.specs.declared.limits.TheConstants.{MOST_BLOCKS};
    ghost use Rattle.msl_lists.specs.Whole.{scan_all};
    ghost use Rattle.msl_ops.specs.Meaning.{fold_of};
    ghost use Rattle.msl_local.specs.Outcomes.{part, Comes, ComesLike};
    ghost use Rattle.msl_local.specs.Parts.{between, flat, lengths, start};
    ghost use Rattle.msl_local.specs.Folds.{scanned, AreStarts, HandComes};

    /// What the numbers up to each place combine to, settled, in parts of the same lengths, or the fault of the least
    /// place.
    pub fn scan_all(&self, alloc: Global) -> Result<Vec<Vec<i64>>, Halt>
        ensures { ComesLike self.now.parts.now (scan_all self.now.op self.now.stage (flat self.now.parts.now)) result }
    {
        self.scan_between(alloc, self.op.unit(), 0, self.parts.len())
    }

    /// The same at the parts that one of so many hands has, by what each begins with.
    pub fn scan_hand(
        &self,
        alloc: Global,
        starts: &[i128],
        hands: usize,
        h: usize,
    ) -> Result<Vec<Vec<i64>>, Halt>
        requires few { hands ≤ MOST_BLOCKS }
        requires within { h < hands }
        requires starts { AreStarts self.now.op self.now.parts.now hands starts.now }
        ensures { HandComes self.now.parts.now (scanned self.now.op self.now.stage (flat self.now.parts.now)) hands h result }
    {
        let (from, to) = held_by(self.parts.len(), hands, h);
        self.scan_between(alloc, starts[h], from, to)
    }

    // The same at the parts from `from` up to `to`, by what stands before them.
    fn scan_between(
        &self,
        alloc: Global,
        before: i128,
        from: usize,
        to: usize,
    ) -> Result<Vec<Vec<i64>>, Halt>
        requires order { from ≤ to }
        requires within { to ≤ length self.now.parts.now }
        requires before { before ≡ fold_of self.now.op.kind self.now.op.modulus (flat (take from self.now.parts.now)) }
        ensures { ComesLike (between self.now.parts.now from to) (part (scanned self.now.op self.now.stage (flat self.now.parts.now)) (start self.now.parts.now from) (start self.now.parts.now to - start self.now.parts.now from)) result }
    {
        let mut out = room(alloc, to - from)?;
        let mut total = before;
        for m in from..to {
            match self.scan_part(alloc, m, &mut total) {
                Ok(part) => out.push_reserved(part),
                Err(h) => return Err(h),
            }
        }
        Ok(out)
    }

    // The same at the places of a part. The total is that of all before it, and then with it.
    fn scan_part(&self, alloc: Global, m: usize, total: &mut i128) -> Result<Vec<i64>, Halt>
        requires within { m < length self.now.parts.now }
        requires total { total.old ≡ fold_of self.now.op.kind self.now.op.modulus (flat (take m self.now.parts.now)) }
        ensures part { Comes (part (scanned self.now.op self.now.stage (flat self.now.parts.now)) (start self.now.parts.now m) (slice_index_or (lengths self.now.parts.now) m 0)) result }
        ensures total { OnOk result (total.new ≡ fold_of self.now.op.kind self.now.op.modulus (flat (take (m + 1) self.now.parts.now))) }
    {
        let xs = self.parts[m].as_slice();
        let mut out = room(alloc, xs.len())?;
        for k in 0..xs.len() {
            *total = self.op.combine(*total, self.op.lift(xs[k]));
            match self.op.settle(*total, self.stage) {
                Ok(y) => out.push_reserved(y),
                Err(e) => return Err(Halt::Fault(e)),
            }
        }
        Ok(out)
    }
}
