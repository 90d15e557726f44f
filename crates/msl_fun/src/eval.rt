// The walk over an expression. `spent` counts the nodes begun so far in the whole evaluation.

ghost use Rattle.std.specs.Prelude.{◌≡◌, ◌+◌, ◌<◌, ◌≤◌, ℕ, length, Some, OnOk};
ghost use Rattle.msl_base.specs.declared.limits.TheConstants.{MOST_NAMES};
ghost use Rattle.msl_fun.specs.Budget.{ended, spend, value_over, minus_over, opposite_over, binary_over, choice_over, binding_over, looping_over, calling_over};
ghost use Rattle.msl_fun.specs.Checks.{AreFuns, widths_of};
ghost use Rattle.msl_fun.specs.Evaluable.{IsEvaluable, AreEvaluable};

use crate::number::{decided, is_true, negated, operate, truth, turn_count};
use crate::scope::Scope;
use crate::{BinOp, EvalFault, Expr, Fun};
use msl_base::limits::MOST_BEGUN;

// The value of an expression that may call the functions in `known`. It is compiled into each of its callers, so that
// a literal or a variable takes no call.
#[cycle(value)]
#[inline(always)]
pub fn value(known: &[Fun], e: &Expr, scope: &mut Scope, spent: &mut u64) -> Result<i64, EvalFault>
    requires known { AreFuns known.now }
    requires fits { IsEvaluable known.now (length scope.old) e.now }
    ensures value { ended result spent.new ≡ spend spent.old (value_over known.now e.now scope.old) }
    ensures scope { OnOk result (scope.new ≡ scope.old) }
{
    if *spent >= MOST_BEGUN {
        return Err(EvalFault::Steps);
    }
    *spent += 1;
    match e {
        Expr::Lit(n) => Ok(*n),
        Expr::Slot(at) => Ok(scope.get(*at)),
        Expr::Neg(a) => minus(known, a.get(), scope, spent),
        Expr::Not(a) => opposite(known, a.get(), scope, spent),
        Expr::Bin(op, a, b) => binary(known, *op, a.get(), b.get(), scope, spent),
        Expr::If(c, a, b) => choice(known, c.get(), a.get(), b.get(), scope, spent),
        Expr::Let(a, b) => binding(known, a.get(), b.get(), scope, spent),
        Expr::Loop(n, s, e) => looping(known, n.get(), s.get(), e.get(), scope, spent),
        Expr::Call(f, args) => calling(known, *f, args.as_slice(), scope, spent),
    }
}

// An operand, with the other sign.
#[cycle(value)]
fn minus(known: &[Fun], a: &Expr, scope: &mut Scope, spent: &mut u64) -> Result<i64, EvalFault>
    requires known { AreFuns known.now }
    requires a { IsEvaluable known.now (length scope.old) a.now }
    ensures value { ended result spent.new ≡ spend spent.old (minus_over known.now a.now scope.old) }
    ensures scope { OnOk result (scope.new ≡ scope.old) }
{
    negated(value(known, a, scope, spent)?)
}

// 1 where the operand is 0, else 0.
#[cycle(value)]
fn opposite(known: &[Fun], a: &Expr, scope: &mut Scope, spent: &mut u64) -> Result<i64, EvalFault>
    requires known { AreFuns known.now }
    requires a { IsEvaluable known.now (length scope.old) a.now }
    ensures value { ended result spent.new ≡ spend spent.old (opposite_over known.now a.now scope.old) }
    ensures scope { OnOk result (scope.new ≡ scope.old) }
{
    Ok(truth(!is_true(value(known, a, scope, spent)?)))
}

// Two operands and their operator; of `and` and `or` the second only where the first doesn't decide.
#[cycle(value)]
fn binary(
    known: &[Fun],
    op: BinOp,
    a: &Expr,
    b: &Expr,
    scope: &mut Scope,
    spent: &mut u64,
) -> Result<i64, EvalFault>
    requires known { AreFuns known.now }
    requires a { IsEvaluable known.now (length scope.old) a.now }
    requires b { IsEvaluable known.now (length scope.old) b.now }
    ensures value { ended result spent.new ≡ spend spent.old (binary_over known.now op a.now b.now scope.old) }
    ensures scope { OnOk result (scope.new ≡ scope.old) }
{
    let x = value(known, a, scope, spent)?;
    match decided(op, x) {
        Some(y) => Ok(y),
        None => {
            let y = value(known, b, scope, spent)?;
            operate(op, x, y)
        }
    }
}

// A condition and one branch.
#[cycle(value)]
fn choice(
    known: &[Fun],
    c: &Expr,
    a: &Expr,
    b: &Expr,
    scope: &mut Scope,
    spent: &mut u64,
) -> Result<i64, EvalFault>
    requires known { AreFuns known.now }
    requires c { IsEvaluable known.now (length scope.old) c.now }
    requires a { IsEvaluable known.now (length scope.old) a.now }
    requires b { IsEvaluable known.now (length scope.old) b.now }
    ensures value { ended result spent.new ≡ spend spent.old (choice_over known.now c.now a.now b.now scope.old) }
    ensures scope { OnOk result (scope.new ≡ scope.old) }
{
    if is_true(value(known, c, scope, spent)?) {
        value(known, a, scope, spent)
    } else {
        value(known, b, scope, spent)
    }
}

// The value of a variable, and the body in which it is in scope.
#[cycle(value)]
fn binding(
    known: &[Fun],
    a: &Expr,
    b: &Expr,
    scope: &mut Scope,
    spent: &mut u64,
) -> Result<i64, EvalFault>
    requires known { AreFuns known.now }
    requires room { length scope.old < MOST_NAMES }
    requires a { IsEvaluable known.now (length scope.old) a.now }
    requires b { IsEvaluable known.now (length scope.old + 1) b.now }
    ensures value { ended result spent.new ≡ spend spent.old (binding_over known.now a.now b.now scope.old) }
    ensures scope { OnOk result (scope.new ≡ scope.old) }
{
    let x = value(known, a, scope, spent)?;
    scope.push(x);
    let y = value(known, b, scope, spent)?;
    scope.leave(1);
    Ok(y)
}

// The turns of a loop, each with its number and the value so far in scope.
#[cycle(value)]
fn looping(
    known: &[Fun],
    n: &Expr,
    s: &Expr,
    e: &Expr,
    scope: &mut Scope,
    spent: &mut u64,
) -> Result<i64, EvalFault>
    requires known { AreFuns known.now }
    requires room { length scope.old + 1 < MOST_NAMES }
    requires n { IsEvaluable known.now (length scope.old) n.now }
    requires s { IsEvaluable known.now (length scope.old) s.now }
    requires e { IsEvaluable known.now (length scope.old + 2) e.now }
    ensures value { ended result spent.new ≡ spend spent.old (looping_over known.now n.now s.now e.now scope.old) }
    ensures scope { OnOk result (scope.new ≡ scope.old) }
{
    let count = turn_count(value(known, n, scope, spent)?);
    let mut last = value(known, s, scope, spent)?;
    for i in 0..count {
        scope.push(i as i64);
        scope.push(last);
        last = value(known, e, scope, spent)?;
        scope.leave(2);
    }
    Ok(last)
}

// The arguments, which make the scope of the function that is called.
#[cycle(value)]
fn calling(
    known: &[Fun],
    f: u32,
    args: &[Expr],
    scope: &mut Scope,
    spent: &mut u64,
) -> Result<i64, EvalFault>
    requires known { AreFuns known.now }
    requires fits { widths_of known.now f ≡ Some (length args.now, 1) }
    requires args { AreEvaluable known.now (length scope.old) args.now }
    ensures value { ended result spent.new ≡ spend spent.old (calling_over known.now f args.now scope.old) }
    ensures scope { OnOk result (scope.new ≡ scope.old) }
{
    let at = f as usize;
    let mut inner = Scope::new();
    for arg in args {
        inner.push(value(known, arg, scope, spent)?);
    }
    let results = known[at].results.as_slice();
    value(&known[..at], &results[0], &mut inner, spent)
}
