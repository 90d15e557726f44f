ghost use Rattle.std.specs.Prelude.{◌≡◌, ◌+◌, ◌<◌, length, IfOk, OnOk};
ghost use Rattle.msl_base.specs.declared.limits.TheConstants.{MOST_NAMES};
ghost use Rattle.msl_fun.specs.Meaning.{params_of, results_of};
ghost use Rattle.msl_local.specs.Outcomes.{ComesTo};
ghost use Rattle.msl_program.specs.Calls.{number_by, run};
ghost use Rattle.msl_program.specs.Filters.{flushed, stepped};
ghost use Rattle.msl_program.specs.Promises.{FilterFits};
ghost use Rattle.msl_program.specs.Widths.{IsFunction};
ghost use Rattle.msl_program.specs.declared.width.Width.TheVariants.{Any, Exactly};
ghost use Rattle.msl_stage.specs.Answers.{Gives, StepsTo};
ghost use Rattle.msl_stage.specs.Outputs.{counted, numbered, outputs, Fills, GivesRecord};

use msl_base::limits::{MOST_OUTPUTS, MOST_SMALL};
use msl_base::{Fault, Halt, ListOf, NoMemory, Rec, Small};
use msl_fun::{Funs, Scope};
use msl_local::{of_stage, room};
use msl_program::FilterSpec;
use std::alloc::Global;

/// The records that a filter gives at once, in their order.
pub type Outs = ListOf<Rec>;

/// A filter over a stream, with the number of its stage and its state, 1 to 8 numbers.
#[derive(Clone, Copy)]
pub struct FilterState<'a> {
    pub spec: &'a FilterSpec,
    pub stage: u32,
    pub state: Small,
}

impl<'a> FilterState<'a> {
    /// The filter at the beginning of a stream. Takes no memory.
    pub fn new(spec: &'a FilterSpec, stage: u32) -> FilterState<'a>
        ensures spec { result.spec.now ≡ spec.now }
        ensures stage { result.stage ≡ stage }
        ensures state { result.state ≡ spec.now.state }
    {
        FilterState {
            spec,
            stage,
            state: spec.state,
        }
    }

    /// Takes a record: the records that it gives for it, with the state that goes to the next one.
    ///
    /// # Errors
    ///
    /// `Shape` where the record hasn't as many numbers as `count` takes behind the state, else the first fault of
    /// `count`, `Count` where its number isn't 0 to 64, then the first fault of `item`, then that of `next`; and `NoMemory`
    /// where memory ran out. The state is then as before.
    pub fn step(&mut self, alloc: Global, funs: &Funs, x: &[i64]) -> Result<Outs, Halt>
        requires fits { FilterFits funs.now self.old.spec.now }
        requires long { length self.old.state ≡ length self.old.spec.now.state }
        ensures step { StepsTo (stepped funs.now self.old.spec.now self.old.stage self.old.state x.now) self.old self.new result }
        ensures long { length self.new.state ≡ length self.new.spec.now.state }
    {
        let want = self.width(funs);
        if x.len() != want {
            return Err(Halt::Fault(Fault::Shape(self.stage, x.len() as u64, want as u64)));
        }
        let calls = self.calls(funs);
        let mut scope = self.scope();
        scope.extend(x);
        let outs = calls.outputs(alloc, self.spec.count, self.spec.item, &mut scope)?;
        self.state = calls.small(self.spec.next, &mut scope)?;
        Ok(outs)
    }

    /// The records that it gives at the end of a whole stream.
    ///
    /// # Errors
    ///
    /// The first fault of `flush`, `Count` where its number isn't 0 to 64, then the first fault of `last`; and `NoMemory`
    /// where memory ran out.
    pub fn flush(&self, alloc: Global, funs: &Funs) -> Result<Outs, Halt>
        requires fits { FilterFits funs.now self.now.spec.now }
        requires long { length self.now.state ≡ length self.now.spec.now.state }
        ensures flush { Gives (flushed funs.now self.now.spec.now self.now.stage self.now.state) result }
    {
        let mut scope = self.scope();
        self.calls(funs)
            .outputs(alloc, self.spec.flush, self.spec.last, &mut scope)
    }

    // How many numbers a record has to have.
    fn width(&self, funs: &Funs) -> usize
        requires fits { FilterFits funs.now self.now.spec.now }
        requires long { length self.now.state ≡ length self.now.spec.now.state }
        ensures width { length self.now.state + result ≡ params_of funs.now self.now.spec.now.count }
        ensures few { length self.now.state + result < MOST_NAMES }
    {
        let (params, _) = funs.muscle(self.spec.count).widths();
        params - self.state.as_slice().len()
    }

    fn calls<'f>(&self, funs: &'f Funs) -> Calls<'f>
        ensures funs { result.funs.now ≡ funs.now }
        ensures stage { result.stage ≡ self.now.stage }
    {
        Calls {
            funs,
            stage: self.stage,
        }
    }

    // The state in scope.
    fn scope(&self) -> Scope
        ensures state { result ≡ self.now.state }
        ensures few { length result < MOST_NAMES }
    {
        let mut scope = Scope::new();
        scope.extend(self.state.as_slice());
        scope
    }
}

// Calls of a script's functions by a stage. Each is at the numbers in scope, which are there again at an `Ok`.
#[derive(Clone, Copy)]
struct Calls<'f> {
    funs: &'f Funs,
    stage: u32,
}

impl Calls<'_> {
    // As many records as `count` says, each by `item` with its number behind what is in scope.
    fn outputs(&self, alloc: Global, count: u32, item: u32, scope: &mut Scope) -> Result<Outs, Halt>
        requires count { IsFunction self.now.funs.now (Exactly (length scope.old)) (Exactly 1) count }
        requires item { IsFunction self.now.funs.now (Exactly (length scope.old + 1)) Any item }
        requires room { length scope.old < MOST_NAMES }
        ensures outs { Gives (outputs self.now.funs.now self.now.stage count item scope.old) result }
        ensures scope { OnOk result (scope.new ≡ scope.old) }
    {
        let n = self.count(count, scope)?;
        self.numbered(alloc, n, item, scope)
    }

    // How many records a function wants.
    fn count(&self, f: u32, scope: &mut Scope) -> Result<usize, Halt>
        requires { IsFunction self.now.funs.now (Exactly (length scope.old)) (Exactly 1) f }
        ensures count { ComesTo (counted self.now.funs.now self.now.stage f scope.old) result }
        ensures scope { OnOk result (scope.new ≡ scope.old) }
    {
        let n = self.number(f, scope)?;
        if (0..=i64::from(MOST_OUTPUTS)).contains(&n) {
            Ok(n as usize)
        } else {
            Err(Halt::Fault(Fault::Count(self.stage)))
        }
    }

    // The records by the first n numbers behind what is in scope.
    fn numbered(&self, alloc: Global, n: usize, f: u32, scope: &mut Scope) -> Result<Outs, Halt>
        requires f { IsFunction self.now.funs.now (Exactly (length scope.old + 1)) Any f }
        requires room { length scope.old < MOST_NAMES }
        ensures outs { Gives (numbered self.now.funs.now self.now.stage f scope.old n) result }
        ensures scope { OnOk result (scope.new ≡ scope.old) }
    {
        let mut outs = room(alloc, n)?;
        for k in 0..n {
            scope.push(k as i64);
            let out = self.record(alloc, f, scope)?;
            outs.push_reserved(out);
            scope.leave(1);
        }
        Ok(ListOf::from_vec(outs))
    }

    // The first result.
    fn number(&self, f: u32, scope: &mut Scope) -> Result<i64, Halt>
        requires { IsFunction self.now.funs.now (Exactly (length scope.old)) (Exactly 1) f }
        ensures number { ComesTo (number_by self.now.funs.now self.now.stage f scope.old) result }
        ensures scope { OnOk result (scope.new ≡ scope.old) }
    {
        let mut out = [0];
        match self.eval(f, scope, &mut out) {
            Ok(()) => Ok(out[0]),
            Err(h) => Err(h),
        }
    }

    // The results, which aren't more than a `Small` holds.
    fn small(&self, f: u32, scope: &mut Scope) -> Result<Small, Halt>
        requires { IsFunction self.now.funs.now (Exactly (length scope.old)) Any f }
        ensures small { ComesTo (run self.now.funs.now self.now.stage f scope.old) result }
        ensures long { IfOk result (λ s. length s ≡ results_of self.now.funs.now f) }
        ensures scope { OnOk result (scope.new ≡ scope.old) }
    {
        let (_, results) = self.funs.muscle(f).widths();
        let mut numbers = [0; MOST_SMALL];
        match self.eval(f, scope, &mut numbers[..results]) {
            Ok(()) => Ok(Small::of(&numbers[..results])),
            Err(h) => Err(h),
        }
    }

    // A record of the results.
    fn record(&self, alloc: Global, f: u32, scope: &mut Scope) -> Result<Rec, Halt>
        requires { IsFunction self.now.funs.now (Exactly (length scope.old)) Any f }
        ensures made { GivesRecord (run self.now.funs.now self.now.stage f scope.old) result }
        ensures scope { OnOk result (scope.new ≡ scope.old) }
    {
        let (_, results) = self.funs.muscle(f).widths();
        let mut numbers = zeros(alloc, results)?;
        self.eval(f, scope, numbers.as_mut_slice())?;
        Ok(Rec::from_vec(numbers))
    }

    // The results in `out`.
    fn eval(&self, f: u32, scope: &mut Scope, out: &mut [i64]) -> Result<(), Halt>
        requires { IsFunction self.now.funs.now (Exactly (length scope.old)) (Exactly (length out.old)) f }
        ensures run { Fills (run self.now.funs.now self.now.stage f scope.old) result out.new }
        ensures scope { OnOk result (scope.new ≡ scope.old) }
    {
        match self.funs.muscle(f).eval_in(scope, out) {
            Ok(_) => Ok(()),
            Err(fault) => Err(Halt::Fault(of_stage(fault, self.stage))),
        }
    }
}

// So many zeros, in one piece of memory. It fails for want of memory alone.
fn zeros(alloc: Global, n: usize) -> Result<Vec<i64>, NoMemory>
    ensures { IfOk result (λ v. length v.items ≡ n) }
{
    Ok(vec![in alloc; 0; n]?)
}
