ghost use Rattle.std.specs.Prelude.{◌≡◌, ◌+◌, ◌<◌, ◌≤◌, ◌++◌, [], ◌∷◌, IfOk, length, pos};
ghost use Rattle.msl_base.specs.declared.limits.TheConstants.{MOST_NAMES};
ghost use Rattle.msl_calls.specs.Evaluated.{Gives};
ghost use Rattle.msl_fun.specs.Meaning.{params_of, results_of};
ghost use Rattle.msl_program.specs.Calls.{number_by, run};
ghost use Rattle.msl_program.specs.Widths.{IsFunction};
ghost use Rattle.msl_program.specs.declared.width.Width.TheVariants.{Any, Exactly};

use msl_base::Small;
use msl_base::limits::MOST_SMALL;
use msl_fun::{EvalFault, Funs, Muscle, Scope};
use std::marker::Model;

/// Calls of the functions of a script. Contracts see the functions.
#[derive(Drop)]
pub struct Calls<'f> {
    funs: &'f Funs,
    scope: Scope,
}

impl<'f> Model for Calls<'f> {
    ghost use Rattle.std.specs.Prelude.{List};
    ghost use Rattle.std.specs.Coded.{codes};
    ghost use Rattle.msl_fun.specs.contracts.expr.Expr as e;
    ghost use Rattle.msl_fun.specs.declared.funs.Fun.{Fun};

    ghost Value = { List Fun };

    ghost coded = { Prim.hlevel (codes, e.the_row.coded) };

    ghost view = { λ c. c.funs.now };
}

impl<'f> Calls<'f> {
    /// Calls of these functions. Takes no memory.
    pub fn new(funs: &'f Funs) -> Calls<'f>
        ensures { result ≡ funs.now }
    {
        Calls {
            funs,
            scope: Scope::new(),
        }
    }

    /// The first result of a function, or its fault. Takes no memory.
    pub fn number(&mut self, f: u32, x: &[i64]) -> Result<i64, EvalFault>
        requires f { IsFunction self.old (Exactly (length x.now)) (Exactly 1) f }
        ensures same { self.new ≡ self.old }
        ensures number { Gives (λ stage. number_by self.old stage f x.now) result }
    {
        let mut out = [0];
        let f = self.funs.muscle(f);
        set(&f, &mut self.scope, x);
        match f.eval_in(&mut self.scope, &mut out) {
            Ok(_) => Ok(out[0]),
            Err(fault) => Err(fault),
        }
    }

    /// All results of a function, or its fault. Takes no memory.
    pub fn results(&mut self, f: u32, x: &[i64]) -> Result<Small, EvalFault>
        requires f { IsFunction self.old (Exactly (length x.now)) Any f }
        ensures same { self.new ≡ self.old }
        ensures results { Gives (λ stage. run self.old stage f x.now) result }
        ensures long { IfOk result (λ s. length s ≡ results_of self.old f) }
    {
        let f = self.funs.muscle(f);
        set(&f, &mut self.scope, x);
        small(&f, &mut self.scope)
    }

    /// All results of a function with one number more behind the others, or its fault. Takes no memory.
    pub fn results_with(&mut self, f: u32, x: &[i64], k: u8) -> Result<Small, EvalFault>
        requires f { IsFunction self.old (Exactly (length x.now + 1)) Any f }
        ensures same { self.new ≡ self.old }
        ensures results { Gives (λ stage. run self.old stage f (x.now ++ pos k ∷ [])) result }
        ensures long { IfOk result (λ s. length s ≡ results_of self.old f) }
    {
        let f = self.funs.muscle(f);
        set(&f, &mut self.scope, x);
        self.scope.push(i64::from(k));
        small(&f, &mut self.scope)
    }
}

// Puts these numbers in scope, in place of others: at most as many as the function takes.
fn set(f: &Muscle<'_>, scope: &mut Scope, x: &[i64])
    requires few { length x.now ≤ params_of f.now.funs.now f.now.at }
    ensures set { scope.new ≡ x.now }
    ensures room { length scope.new < MOST_NAMES }
{
    f.widths();
    scope.clear();
    scope.extend(x);
}

// All results of a function at the numbers in scope.
fn small(f: &Muscle<'_>, scope: &mut Scope) -> Result<Small, EvalFault>
    requires params { length scope.old ≡ params_of f.now.funs.now f.now.at }
    ensures results { Gives (λ stage. run f.now.funs.now stage f.now.at scope.old) result }
    ensures long { IfOk result (λ s. length s ≡ results_of f.now.funs.now f.now.at) }
{
    let (_, results) = f.widths();
    let mut numbers = [0; MOST_SMALL];
    match f.eval_in(scope, &mut numbers[..results]) {
        Ok(_) => Ok(Small::of(&numbers[..results])),
        Err(fault) => Err(fault),
    }
}
