ghost use Rattle.std.specs.Prelude.{◌≡◌, ◌<◌, ◌++◌, [], ◌∷◌, ℤ, List, IfOk, OnOk, Ok, Err, length, flat_map, pos, slice_index_or};
ghost use Rattle.msl_base.specs.Streams.{Outcome};
ghost use Rattle.msl_base.specs.declared.limits.TheConstants.{MOST_LEVELS};
ghost use Rattle.msl_division.specs.Steps.{left_by, whether_simple, AreWide};
ghost use Rattle.msl_fun.specs.Meaning.{params_of, results_of};
ghost use Rattle.msl_lists.specs.Whole.{at_stage, each};
ghost use Rattle.msl_local.specs.Outcomes.{ComesTo};
ghost use Rattle.msl_program.specs.Calls.{run};
ghost use Rattle.msl_program.specs.Divide.{dc, divcon_outcome, parts_of};
ghost use Rattle.msl_program.specs.Promises.{DivConFits};
ghost use Rattle.msl_stage.specs.Answers.{MayAnswer, made_by};

use msl_base::limits::{MOST_LEVELS, MOST_PARTS, MOST_SMALL};
use msl_base::{Answer, Fault, Halt, Path, Rec, Small};
use msl_calls::Calls;
use msl_fun::{EvalFault, Funs};
use msl_local::of_stage;
use msl_program::DivCon;
use msl_stage::Halted;
use std::alloc::Global;

/// A division over the functions of its script, at the stage of a number.
#[derive(Drop)]
pub struct Division<'a> {
    pub spec: &'a DivCon,
    pub stage: u32,
    pub calls: Calls<'a>,
}

impl<'a> Division<'a> {
    /// The division over these functions. Takes no memory.
    pub fn new(spec: &'a DivCon, funs: &'a Funs, stage: u32) -> Division<'a>
        ensures spec { result.spec.now ≡ spec.now }
        ensures funs { result.calls ≡ funs.now }
        ensures stage { result.stage ≡ stage }
    {
        Division {
            spec,
            stage,
            calls: Calls::new(funs),
        }
    }

    /// The value of the problem at this path, by plain recursion. Takes no memory.
    ///
    /// # Errors
    ///
    /// The first fault of the functions: of `simple`; of `solve` where the problem is simple; else `Depth` where the path
    /// has 64 steps, then the first fault of all its parts by `divide`, then that of their values, then that of `combine`.
    #[cycle(value)]
    pub fn value(&mut self, path: Path, x: &[i64], why: &mut Halt) -> Result<Small, Halted>
        requires fits { DivConFits self.old.calls self.old.spec.now }
        requires width { length x.now ≡ params_of self.old.calls self.old.spec.now.simple }
        ensures same { self.new ≡ self.old }
        ensures value { ComesTo (dc self.old.calls self.old.spec.now self.old.stage (run self.old.calls self.old.stage self.old.spec.now.solve) path x.now) (made_by result why.new) }
        ensures long { IfOk result (λ y. length y ≡ results_of self.old.calls self.old.spec.now.solve) }
    {
        if self.is_simple(x, why)? {
            return self.solve(x, why);
        }
        if path.as_slice().len() == MOST_LEVELS {
            *why = Halt::Fault(Fault::Depth(self.stage, path));
            return Err(Halted);
        }
        let mut places = [Small::of(&[]); MOST_PARTS as usize];
        let problems = &mut places[..self.spec.parts as usize];
        self.divide(x, problems, why)?;
        self.conquer(path, problems, why)?;
        self.combine(problems, why)
    }

    // All parts of a problem, or the first fault.
    fn divide(&mut self, x: &[i64], parts: &mut [Small], why: &mut Halt) -> Result<(), Halted>
        requires fits { DivConFits self.old.calls self.old.spec.now }
        requires width { length x.now ≡ params_of self.old.calls self.old.spec.now.simple }
        requires all { length parts.old ≡ self.old.spec.now.parts }
        ensures same { self.new ≡ self.old }
        ensures parts { ComesTo (parts_of self.old.calls self.old.spec.now self.old.stage x.now) (left_by result parts.new why.new) }
        ensures width { OnOk result (AreWide (params_of self.old.calls self.old.spec.now.simple) parts.new) }
    {
        for j in 0..parts.len() {
            parts[j] = self.part(x, j as u8, why)?;
        }
        Ok(())
    }

    // Puts the value of each part of the problem at this path in its place, or answers the first fault.
    #[cycle(value)]
    fn conquer(&mut self, path: Path, parts: &mut [Small], why: &mut Halt) -> Result<(), Halted>
        requires fits { DivConFits self.old.calls self.old.spec.now }
        requires level { length path < MOST_LEVELS }
        requires all { length parts.old ≡ self.old.spec.now.parts }
        requires width { AreWide (params_of self.old.calls self.old.spec.now.simple) parts.old }
        ensures same { self.new ≡ self.old }
        ensures values { ComesTo (each self.old.spec.now.parts (λ j. dc self.old.calls self.old.spec.now self.old.stage (run self.old.calls self.old.stage self.old.spec.now.solve) (path ++ j ∷ []) (slice_index_or parts.old j []))) (left_by result parts.new why.new) }
        ensures long { OnOk result (AreWide (results_of self.old.calls self.old.spec.now.solve) parts.new) }
    {
        for j in 0..parts.len() {
            let path = path.push(j as u8).unwrap();
            parts[j] = self.value(path, parts[j].as_slice(), why)?;
        }
        Ok(())
    }

    /// Whether a problem is simple, or the fault of `simple`. Takes no memory.
    pub fn is_simple(&mut self, x: &[i64], why: &mut Halt) -> Result<bool, Halted>
        requires fits { DivConFits self.old.calls self.old.spec.now }
        requires width { length x.now ≡ params_of self.old.calls self.old.spec.now.simple }
        ensures same { self.new ≡ self.old }
        ensures simple { ComesTo (whether_simple self.old.calls self.old.spec.now self.old.stage x.now) (made_by result why.new) }
    {
        match self.calls.number(self.spec.simple, x) {
            Ok(s) => Ok(s != 0),
            Err(fault) => Err(self.halted(fault, why)),
        }
    }

    /// The value of a simple problem, or the fault of `solve`. Takes no memory.
    pub fn solve(&mut self, x: &[i64], why: &mut Halt) -> Result<Small, Halted>
        requires fits { DivConFits self.old.calls self.old.spec.now }
        requires width { length x.now ≡ params_of self.old.calls self.old.spec.now.simple }
        ensures same { self.new ≡ self.old }
        ensures solved { ComesTo (run self.old.calls self.old.stage self.old.spec.now.solve x.now) (made_by result why.new) }
        ensures long { IfOk result (λ y. length y ≡ results_of self.old.calls self.old.spec.now.solve) }
    {
        match self.calls.results(self.spec.solve, x) {
            Ok(y) => Ok(y),
            Err(fault) => Err(self.halted(fault, why)),
        }
    }

    /// The part of a problem with this number, or the fault of `divide`. Takes no memory.
    pub fn part(&mut self, x: &[i64], j: u8, why: &mut Halt) -> Result<Small, Halted>
        requires fits { DivConFits self.old.calls self.old.spec.now }
        requires width { length x.now ≡ params_of self.old.calls self.old.spec.now.simple }
        ensures same { self.new ≡ self.old }
        ensures part { ComesTo (run self.old.calls self.old.stage self.old.spec.now.divide (x.now ++ pos j ∷ [])) (made_by result why.new) }
        ensures width { IfOk result (λ y. length y ≡ params_of self.old.calls self.old.spec.now.simple) }
    {
        match self.calls.results_with(self.spec.divide, x, j) {
            Ok(y) => Ok(y),
            Err(fault) => Err(self.halted(fault, why)),
        }
    }

    /// The value of a problem by the values of all its parts, in their order; or the fault of `combine`. Takes no memory.
    pub fn combine(&mut self, values: &[Small], why: &mut Halt) -> Result<Small, Halted>
        requires fits { DivConFits self.old.calls self.old.spec.now }
        requires all { length values.now ≡ self.old.spec.now.parts }
        requires long { AreWide (results_of self.old.calls self.old.spec.now.solve) values.now }
        ensures same { self.new ≡ self.old }
        ensures combined { ComesTo (run self.old.calls self.old.stage self.old.spec.now.combine (flat_map (λ r. r) values.now)) (made_by result why.new) }
        ensures long { IfOk result (λ y. length y ≡ results_of self.old.calls self.old.spec.now.solve) }
    {
        let mut numbers = [0; MOST_SMALL];
        let mut n = 0;
        for value in values {
            let value = value.as_slice();
            numbers[n..n + value.len()].copy_from_slice(value);
            n += value.len();
        }
        match self.calls.results(self.spec.combine, &numbers[..n]) {
            Ok(y) => Ok(y),
            Err(fault) => Err(self.halted(fault, why)),
        }
    }

    // Says why there is no result: for the fault of an evaluation.
    fn halted(&self, fault: EvalFault, why: &mut Halt) -> Halted
        ensures { ComesTo (at_stage {A = List ℤ} self.now.stage (Err fault)) (Err why.new) }
    {
        *why = Halt::Fault(of_stage(fault, self.stage));
        Halted
    }
}

/// The recursive value of the record, or its first fault, as `Division::value` says; `Shape` where it hasn't as many
/// numbers as `simple` has parameters. `NoMemory` comes where there is none for the value.
pub fn divcon_seq(alloc: Global, d: &DivCon, funs: &Funs, stage: u32, xs: &[i64]) -> Answer
    requires fits { DivConFits funs.now d.now }
    ensures answer { MayAnswer (λ r. r ≡ divcon_outcome funs.now d.now stage xs.now) result }
{
    let (want, _) = funs.muscle(d.simple).widths();
    if xs.len() != want {
        return Answer::Fault(Fault::Shape(stage, xs.len() as u64, want as u64));
    }
    let mut why = Halt::NoMemory;
    match Division::new(d, funs, stage).value(Path::root(), xs, &mut why) {
        Ok(y) => record(alloc, &y),
        Err(Halted) => halt(why),
    }
}

// A record of these numbers.
fn record(alloc: Global, y: &Small) -> Answer
    ensures { MayAnswer (λ r. r ≡ Ok y.now) result }
{
    match Rec::of_slice(alloc, y.as_slice()) {
        Ok(rec) => Answer::Rec(rec),
        Err(_) => Answer::NoMemory,
    }
}

// Why there is no record.
fn halt(why: Halt) -> Answer
    ensures { (want : Outcome) → ComesTo want (Err why) → MayAnswer (λ r. r ≡ want) result }
{
    match why {
        Halt::Fault(fault) => Answer::Fault(fault),
        Halt::NoMemory => Answer::NoMemory,
    }
}
