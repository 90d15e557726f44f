ghost use Rattle.std.specs.Prelude.{◌≡◌, ◌+◌, ◌<◌, ◌≤◌, ◌++◌, length, take, OnOk};
ghost use Rattle.msl_base.specs.declared.limits.TheConstants.{MOST_PARAMS, MOST_RESULTS};
ghost use Rattle.msl_fun.specs.Meaning.{mean, params_of, results_of, Answers};
ghost use Rattle.msl_fun.specs.Budget.{values_over};
ghost use Rattle.msl_fun.specs.Checks.{AreFuns, MayFollow};
ghost use Rattle.msl_fun.specs.Evaluable.{AreEvaluable};

use crate::eval::value;
use crate::scope::Scope;
use crate::{EvalFault, Expr, Fun, Funs};
use msl_base::Small;

impl Funs {
    /// The function at a place.
    pub fn muscle(&self, at: u32) -> Muscle<'_>
        requires { at < length self.now }
        ensures funs { result.funs.now ≡ self.now }
        ensures at { result.at ≡ at }
    {
        Muscle { funs: self, at }
    }
}

/// A function, by the list in which it stands and its place there.
#[derive(Clone, Copy)]
pub struct Muscle<'a> {
    pub funs: &'a Funs,
    pub at: u32,
    ghost within: { at < length funs.now },
}

impl Muscle<'_> {
    ghost use Rattle.msl_fun.specs.Muscle.{IsFun};

    /// How many parameters and results it has, each 1 to 16.
    pub fn widths(&self) -> (usize, usize)
        ensures params { result.0 ≡ params_of self.now.funs.now self.now.at }
        ensures results { result.1 ≡ results_of self.now.funs.now self.now.at }
        ensures some { (1 ≤ result.0) × (1 ≤ result.1) }
        ensures few { (result.0 ≤ MOST_PARAMS) × (result.1 ≤ MOST_RESULTS) }
    {
        let f = self.get();
        (f.params.len(), f.results.len())
    }

    /// Takes a number for each parameter, puts the results into `out` and gives the cost, the number of nodes
    /// that were begun. Parts are evaluated from left to right, and the first fault is the answer: `Overflow`
    /// or `DivZero`, or `Steps` where more than 10,000,000 nodes are begun up to the end or the first fault.
    /// At an `Err` what is in `out` is open. No memory is taken.
    pub fn eval(&self, args: &[i64], out: &mut [i64]) -> Result<u64, EvalFault>
        requires args { length args.now ≡ params_of self.now.funs.now self.now.at }
        requires out { length out.old ≡ results_of self.now.funs.now self.now.at }
        ensures { Answers (mean self.now.funs.now self.now.at args.now) result out.new }
    {
        let f = self.get();
        let mut scope = Scope::new();
        scope.extend(args);
        evaluate(self.known(), f.results.as_slice(), &mut scope, out)
    }

    /// `eval` at the numbers in scope, a number for each parameter. They are there again at an `Ok`; at an `Err` what is
    /// in scope is open.
    pub fn eval_in(&self, scope: &mut Scope, out: &mut [i64]) -> Result<u64, EvalFault>
        requires args { length scope.old ≡ params_of self.now.funs.now self.now.at }
        requires out { length out.old ≡ results_of self.now.funs.now self.now.at }
        ensures result { Answers (mean self.now.funs.now self.now.at scope.old) result out.new }
        ensures scope { OnOk result (scope.new ≡ scope.old) }
    {
        let f = self.get();
        evaluate(self.known(), f.results.as_slice(), scope, out)
    }

    // The function, which meets the rules over those before it.
    fn get(&self) -> &Fun
        ensures found { IsFun self.now result.now }
        ensures rules { MayFollow (take self.now.at self.now.funs.now) result.now }
    {
        &self.funs.as_slice()[self.at as usize]
    }

    // The functions before it.
    fn known(&self) -> &[Fun]
        ensures list { result.now ≡ take self.now.at self.now.funs.now }
        ensures rules { AreFuns result.now }
    {
        &self.funs.as_slice()[..self.at as usize]
    }
}

/// A function with its first arguments given.
#[derive(Clone, Copy)]
pub struct Use<'a> {
    pub f: Muscle<'a>,
    pub extra: Small,
}

impl Use<'_> {
    ghost use Rattle.msl_fun.specs.Muscle.{IsFun};

    /// `Muscle::eval` at the first arguments and then these.
    pub fn eval(&self, args: &[i64], out: &mut [i64]) -> Result<u64, EvalFault>
        requires args { length self.now.extra + length args.now ≡ params_of self.now.f.funs.now self.now.f.at }
        requires out { length out.old ≡ results_of self.now.f.funs.now self.now.f.at }
        ensures { Answers (mean self.now.f.funs.now self.now.f.at (self.now.extra ++ args.now)) result out.new }
    {
        let f = self.f.get();
        let mut scope = Scope::new();
        scope.extend(self.extra.as_slice());
        scope.extend(args);
        evaluate(self.f.known(), f.results.as_slice(), &mut scope, out)
    }
}

// The values of the results of a function, over those before it.
fn evaluate(
    known: &[Fun],
    results: &[Expr],
    scope: &mut Scope,
    out: &mut [i64],
) -> Result<u64, EvalFault>
    requires known { AreFuns known.now }
    requires results { AreEvaluable known.now (length scope.old) results.now }
    requires out { length out.old ≡ length results.now }
    ensures result { Answers (values_over known.now results.now scope.old) result out.new }
    ensures scope { OnOk result (scope.new ≡ scope.old) }
{
    let mut spent = 0;
    for i in 0..results.len() {
        out[i] = value(known, &results[i], scope, &mut spent)?;
    }
    Ok(spent)
}
