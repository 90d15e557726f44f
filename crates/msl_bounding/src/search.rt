ghost use Rattle.std.specs.Prelude.{◌≡◌, ◌<◌, ◌≤◌, ◌∷◌, length, All, IfOk};
ghost use Rattle.msl_base.specs.declared.limits.TheConstants.{MOST_CHILDREN, MOST_LEVELS, MOST_SMALL};
ghost use Rattle.msl_bounding.specs.Nodes.{Leaves};
ghost use Rattle.msl_bounding.specs.Visits.{answer_of, best_after, best_below, better_by, visits, visits_from};
ghost use Rattle.msl_fun.specs.Meaning.{params_of};
ghost use Rattle.msl_program.specs.Promises.{SearchFits};
ghost use Rattle.msl_program.specs.Searches.{first_best_outcome, node, solution};
ghost use Rattle.msl_stage.specs.Answers.{MayAnswer};

use crate::bounding::{Bounding, Found};
use msl_base::limits::MOST_CHILDREN;
use msl_base::{Answer, Fault, Halt, NoMemory, Path, Rec, Small};
use msl_fun::Funs;
use msl_program::BnbSpec;
use msl_stage::Halted;
use std::alloc::Global;

// Up to so many children stand in less room, which costs less to clear.
const FEW_CHILDREN: u8 = 8;

/// The best solution of a search from these numbers on: its value and behind it its numbers, or the empty record where
/// there is none. All nodes are visited in preorder; of equal values the first is the best.
///
/// # Errors
///
/// `Shape` where the record hasn't as many numbers as `bound` takes, else the first fault of a node in preorder, as
/// `Bounding` has it; and `NoMemory` where there is no memory for the answer.
pub fn bnb_seq(alloc: Global, b: &BnbSpec, funs: &Funs, stage: u32, xs: &[i64]) -> Answer
    requires { SearchFits funs.now b.now }
    ensures { MayAnswer (λ r. r ≡ first_best_outcome funs.now b.now stage xs.now) result }
{
    let (params, _) = funs.muscle(b.bound).widths();
    if xs.len() != params {
        return Answer::Fault(Fault::Shape(stage, xs.len() as u64, params as u64));
    }
    let mut search = Search {
        nodes: Bounding::new(b, funs, stage),
        best: None,
    };
    let mut why = Halt::NoMemory;
    match search.visit(&Path::root(), xs, None, &mut why) {
        Ok(()) => match search.answer(alloc) {
            Ok(r) => Answer::Rec(r),
            Err(NoMemory) => Answer::NoMemory,
        },
        Err(Halted) => match why {
            Halt::Fault(fault) => Answer::Fault(fault),
            Halt::NoMemory => Answer::NoMemory,
        },
    }
}

// The visits of a tree's nodes in preorder, with the best solution so far.
#[derive(Drop)]
struct Search<'a> {
    nodes: Bounding<'a>,
    best: Option<(i64, Small)>,
}

impl Search<'_> {
    // Visits a node and all below it.
    #[cycle(visits)]
    fn visit(
        &mut self,
        path: &Path,
        x: &[i64],
        above: Option<i64>,
        why: &mut Halt,
    ) -> Result<(), Halted>
        requires fits { SearchFits self.old.nodes.calls self.old.nodes.spec.now }
        requires long { length x.now ≡ params_of self.old.nodes.calls self.old.nodes.spec.now.bound }
        ensures same { self.new.nodes ≡ self.old.nodes }
        ensures best { Leaves (best_after self.old.nodes self.old.best (visits self.old.nodes path.now (node x.now above))) self.new.best result why.new }
    {
        let low = self.nodes.low(path, x, above, why)?;
        let found = self.nodes.found(path, x, low, why)?;
        match found {
            Found::Solution(value) => {
                self.offer(value, x);
                Ok(())
            }
            Found::Children(n) if n <= FEW_CHILDREN => self.visit_few(path, x, low, n, why),
            Found::Children(n) => self.visit_many(path, x, low, n, why),
        }
    }

    // Visits few children of a node and all below them.
    #[cycle(visits)]
    #[inline(never)]
    fn visit_few(
        &mut self,
        path: &Path,
        x: &[i64],
        low: i64,
        n: u8,
        why: &mut Halt,
    ) -> Result<(), Halted>
        requires fits { SearchFits self.old.nodes.calls self.old.nodes.spec.now }
        requires long { length x.now ≡ params_of self.old.nodes.calls self.old.nodes.spec.now.bound }
        requires few { n ≤ FEW_CHILDREN }
        requires deep { 0 < n → length path.now < MOST_LEVELS }
        ensures same { self.new.nodes ≡ self.old.nodes }
        ensures best { Leaves (best_below self.old.nodes self.old.best path.now x.now low n) self.new.best result why.new }
    {
        let mut room = [Small::of(&[]); FEW_CHILDREN as usize];
        self.visit_all(path, x, low, &mut room[..usize::from(n)], why)
    }

    // Visits any children of a node and all below them.
    #[cycle(visits)]
    #[inline(never)]
    fn visit_many(
        &mut self,
        path: &Path,
        x: &[i64],
        low: i64,
        n: u8,
        why: &mut Halt,
    ) -> Result<(), Halted>
        requires fits { SearchFits self.old.nodes.calls self.old.nodes.spec.now }
        requires long { length x.now ≡ params_of self.old.nodes.calls self.old.nodes.spec.now.bound }
        requires few { n ≤ MOST_CHILDREN }
        requires deep { 0 < n → length path.now < MOST_LEVELS }
        ensures same { self.new.nodes ≡ self.old.nodes }
        ensures best { Leaves (best_below self.old.nodes self.old.best path.now x.now low n) self.new.best result why.new }
    {
        let mut room = [Small::of(&[]); MOST_CHILDREN as usize];
        self.visit_all(path, x, low, &mut room[..usize::from(n)], why)
    }

    // Visits as many children of a node as there is room, and all below them.
    #[cycle(visits)]
    fn visit_all(
        &mut self,
        path: &Path,
        x: &[i64],
        low: i64,
        room: &mut [Small],
        why: &mut Halt,
    ) -> Result<(), Halted>
        requires fits { SearchFits self.old.nodes.calls self.old.nodes.spec.now }
        requires long { length x.now ≡ params_of self.old.nodes.calls self.old.nodes.spec.now.bound }
        requires few { length room.old ≤ MOST_CHILDREN }
        requires deep { 0 < length room.old → length path.now < MOST_LEVELS }
        ensures same { self.new.nodes ≡ self.old.nodes }
        ensures best { Leaves (best_below self.old.nodes self.old.best path.now x.now low (length room.old)) self.new.best result why.new }
    {
        self.nodes.children(x, room, why)?;
        self.visit_each(path, low, room, why)
    }

    // Visits these children of a node and all below them.
    #[cycle(visits)]
    fn visit_each(
        &mut self,
        path: &Path,
        low: i64,
        children: &[Small],
        why: &mut Halt,
    ) -> Result<(), Halted>
        requires fits { SearchFits self.old.nodes.calls self.old.nodes.spec.now }
        requires long { All (λ y. length y ≡ params_of self.old.nodes.calls self.old.nodes.spec.now.bound) children.now }
        requires few { length children.now ≤ MOST_CHILDREN }
        requires deep { 0 < length children.now → length path.now < MOST_LEVELS }
        ensures same { self.new.nodes ≡ self.old.nodes }
        ensures best { Leaves (best_after self.old.nodes self.old.best (visits_from self.old.nodes path.now low 0 children.now)) self.new.best result why.new }
    {
        for k in 0..children.len() {
            let at = path.push(k as u8).unwrap();
            self.visit(&at, children[k].as_slice(), Some(low), why)?;
        }
        Ok(())
    }

    // Takes a solution where its value is less than the best so far.
    fn offer(&mut self, value: i64, x: &[i64])
        requires short { length x.now ≤ MOST_SMALL }
        ensures same { self.new.nodes ≡ self.old.nodes }
        ensures best { self.new.best ≡ better_by self.old.nodes self.old.best x.now (solution value) }
    {
        if self.best.is_none_or(|best| value < best.0) {
            self.best = Some((value, Small::of(x)));
        }
    }

    // The record of the best, or the empty one.
    fn answer(&self, alloc: Global) -> Result<Rec, NoMemory>
        ensures { IfOk result (λ r. Ok r.numbers ≡ answer_of self.now.nodes self.now.best) }
    {
        match &self.best {
            Some(best) => record_of(alloc, best.0, best.1.as_slice()),
            None => Ok(Rec::new(alloc)),
        }
    }
}

// The record of a solution: its value, and behind it its numbers.
fn record_of(alloc: Global, value: i64, x: &[i64]) -> Result<Rec, NoMemory>
    ensures { IfOk result (λ r. r.numbers ≡ value ∷ x.now) }
{
    let mut r = Rec::new(alloc);
    r.reserve(x.len() + 1)?;
    r.push(value)?;
    for y in x {
        r.push(*y)?;
    }
    Ok(r)
}
