ghost use Rattle.std.specs.Prelude.{◌≡◌, ◌<◌, ◌≤◌, IfErr, IfOk};
ghost use Rattle.msl_base.specs.declared.answer.Halt.TheVariants as halt;
ghost use Rattle.msl_base.specs.declared.limits.TheConstants.{MOST_BLOCKS, MOST_MEMBERS};
ghost use Rattle.msl_lists.specs.Whole.{function_of, scan_all};
ghost use Rattle.msl_local.specs.Cells.{cells, whole};
ghost use Rattle.msl_local.specs.Folds.{scanned, AreFolds, AreStarts, FoldGives, HandComes};
ghost use Rattle.msl_local.specs.Outcomes.{ComesLike};
ghost use Rattle.msl_local.specs.Parts.{flat};
ghost use Rattle.msl_local.specs.Places.{parts_of};

use crate::fabric::turned;
use crate::{Boxes, Fabric};
use msl_base::{Halt, NoMemory};
use msl_local::{Elements, Folding, joined, room};
use msl_side::beside;
use std::alloc::Global;
use std::thread::Threads;

// From so many evaluations on, threads save more than they cost: a start takes some 20 microseconds, an evaluation from
// 10 nanoseconds on.
const PAYS_EVALUATIONS: usize = 16_384;

// The same of numbers that an operator combines, each in some nanoseconds.
const PAYS_NUMBERS: usize = 262_144;

/// The fabric whose members work side by side, by as many threads as it is given, where that pays, and which moves boxes
/// in place. It always returns; where no thread can be had, the work is done on the caller's.
#[derive(Drop)]
pub struct Joined<'r, R> {
    rt: &'r R,
    threads: usize,
    ghost few: { threads ≤ MOST_MEMBERS },
}

impl<'r, R: Threads> Joined<'r, R> {
    /// The fabric with at most so many threads at once, the caller's among them.
    pub fn new(rt: &'r R, threads: u32) -> Joined<'r, R>
        requires { threads ≤ MOST_MEMBERS }
    {
        Joined {
            rt,
            threads: threads as usize,
        }
    }

    // How many hands work on the parts: one where more don't pay.
    fn hands(&self, parts: &[Vec<i64>], pays: usize) -> usize
        ensures { result ≤ MOST_MEMBERS }
    {
        if has(parts, pays) {
            parts.len().min(self.threads)
        } else {
            1
        }
    }
}

// Whether there are so many numbers.
fn has(parts: &[Vec<i64>], many: usize) -> bool {
    let mut left = many;
    for part in parts {
        left = left.saturating_sub(part.len());
    }
    left == 0
}

impl<'r, R: Threads> Fabric for Joined<'r, R> {
    fn exchange(&mut self, _alloc: Global, out: Boxes) -> Result<Boxes, NoMemory> {
        Ok(turned(out))
    }

    fn outcomes(
        &mut self,
        alloc: Global,
        work: &Elements<'_, '_, '_>,
    ) -> Result<Vec<Vec<i64>>, Halt> {
        let hands = self.hands(work.inputs.parts(), PAYS_EVALUATIONS);
        if hands < 2 {
            return work.all(alloc);
        }
        outcomes_beside(self.rt, alloc, work, hands)
    }

    fn fold(&mut self, alloc: Global, work: &Folding<'_>) -> Result<i64, Halt> {
        let hands = self.hands(work.parts, PAYS_NUMBERS);
        if hands < 2 {
            return work.all().map_err(Halt::Fault);
        }
        let folds = folds_beside(self.rt, alloc, work, hands)?;
        work.of_hands(hands, folds.as_slice()).map_err(Halt::Fault)
    }

    fn scan(&mut self, alloc: Global, work: &Folding<'_>) -> Result<Vec<Vec<i64>>, Halt> {
        let hands = self.hands(work.parts, PAYS_NUMBERS);
        if hands < 2 {
            return work.scan_all(alloc);
        }
        let folds = folds_beside(self.rt, alloc, work, hands)?;
        let starts = work.starts(alloc, hands, folds.as_slice())?;
        scan_beside(self.rt, alloc, work, hands, starts.as_slice())
    }
}

// The outcomes at all places by several hands, in parts of the same lengths. All room but that for the parts themselves
// is taken before the first thread starts.
fn outcomes_beside<R: Threads>(
    rt: &R,
    alloc: Global,
    work: &Elements<'_, '_, '_>,
    hands: usize,
) -> Result<Vec<Vec<i64>>, Halt>
    requires some { 1 ≤ hands }
    requires few { hands ≤ MOST_MEMBERS }
    ensures { ComesLike (parts_of work.now.inputs) (whole (function_of work.now.u) work.now.stage work.now.inputs) result }
{
    let all = room(alloc, work.inputs.parts().len())?;
    let answers = room(alloc, hands)?;
    let got = beside(
        rt,
        hands,
        &|h: usize| -> Result<Vec<Vec<i64>>, Halt>
            requires { (hands ≤ MOST_MEMBERS) × (h < hands) }
            ensures { HandComes (parts_of work.entry.now.inputs) (cells work.entry.now) hands h result }
        { work.hand(alloc, hands, h) },
        answers,
    );
    joined(all, got)
}

// What each hand folds.
fn folds_beside<R: Threads>(
    rt: &R,
    alloc: Global,
    work: &Folding<'_>,
    hands: usize,
) -> Result<Vec<i128>, Halt>
    requires { hands ≤ MOST_MEMBERS }
    ensures folds { IfOk result (λ v. AreFolds work.now.op work.now.parts.now hands v.items) }
    ensures err { IfErr result (λ h. h ≡ halt.NoMemory) }
{
    let answers = room(alloc, hands)?;
    beside(
        rt,
        hands,
        &|h: usize| -> Result<i128, Halt>
            requires { (hands ≤ MOST_MEMBERS) × (h < hands) }
            ensures { FoldGives work.entry.now.op work.entry.now.parts.now hands h result }
        { Ok(work.hand(hands, h)) },
        answers,
    )
}

// The scan by several hands, by what each begins with, in parts of the same lengths.
fn scan_beside<R: Threads>(
    rt: &R,
    alloc: Global,
    work: &Folding<'_>,
    hands: usize,
    starts: &[i128],
) -> Result<Vec<Vec<i64>>, Halt>
    requires some { 1 ≤ hands }
    requires few { hands ≤ MOST_MEMBERS }
    requires starts { AreStarts work.now.op work.now.parts.now hands starts.now }
    ensures { ComesLike work.now.parts.now (scan_all work.now.op work.now.stage (flat work.now.parts.now)) result }
{
    let all = room(alloc, work.parts.len())?;
    let answers = room(alloc, hands)?;
    let got = beside(
        rt,
        hands,
        &|h: usize| -> Result<Vec<Vec<i64>>, Halt>
            requires { (hands ≤ MOST_MEMBERS) × (h < hands) × AreStarts work.now.op work.now.parts.now hands starts.now }
            ensures { HandComes work.entry.now.parts.now (scanned work.entry.now.op work.entry.now.stage (flat work.entry.now.parts.now)) hands h result }
        { work.scan_hand(alloc, starts, hands, h) },
        answers,
    );
    joined(all, got)
}
