// What operators do with numbers.

ghost use Rattle.std.specs.Prelude.{◌≡◌, ◌<◌, ◌^◌, neg_ℤ, int_div, int_rem};
ghost use Rattle.msl_fun.specs.Meaning.{checked, decision, divided, holds, operated, truth, turns_of};

use crate::{BinOp, EvalFault};

/// Any number but 0 is true.
pub fn is_true(x: i64) -> bool
    ensures { result ≡ holds x }
{
    x != 0
}

pub fn truth(holds: bool) -> i64
    ensures { result ≡ truth holds }
{
    i64::from(holds)
}

pub fn negated(x: i64) -> Result<i64, EvalFault>
    ensures { result ≡ checked (neg_ℤ x) }
{
    x.checked_neg().ok_or(EvalFault::Overflow)
}

/// The value of `and` and `or` where the first operand decides it.
pub fn decided(op: BinOp, x: i64) -> Option<i64>
    ensures { result ≡ decision op x }
{
    match op {
        BinOp::And if !is_true(x) => Some(0),
        BinOp::Or if is_true(x) => Some(1),
        _ => None,
    }
}

/// No turn where the number is not above 0.
pub fn turn_count(n: i64) -> u64
    ensures value { result ≡ turns_of n }
    ensures fits { result < 2 ^ 63 }
{
    if n > 0 { n as u64 } else { 0 }
}

pub fn operate(op: BinOp, x: i64, y: i64) -> Result<i64, EvalFault>
    ensures { result ≡ operated op x y }
{
    match op {
        BinOp::Add => x.checked_add(y).ok_or(EvalFault::Overflow),
        BinOp::Sub => x.checked_sub(y).ok_or(EvalFault::Overflow),
        BinOp::Mul => x.checked_mul(y).ok_or(EvalFault::Overflow),
        BinOp::Div => quotient(x, y),
        BinOp::Rem => remainder(x, y),
        BinOp::Eq => Ok(truth(x == y)),
        BinOp::Ne => Ok(truth(x != y)),
        BinOp::Lt => Ok(truth(x < y)),
        BinOp::Le => Ok(truth(x <= y)),
        BinOp::Gt => Ok(truth(x > y)),
        BinOp::Ge => Ok(truth(x >= y)),
        BinOp::And => Ok(truth(is_true(x) && is_true(y))),
        BinOp::Or => Ok(truth(is_true(x) || is_true(y))),
        BinOp::Min => Ok(x.min(y)),
        BinOp::Max => Ok(x.max(y)),
    }
}

fn quotient(x: i64, y: i64) -> Result<i64, EvalFault>
    ensures { result ≡ divided int_div x y }
{
    if y == 0 {
        return Err(EvalFault::DivZero);
    }
    x.checked_div(y).ok_or(EvalFault::Overflow)
}

fn remainder(x: i64, y: i64) -> Result<i64, EvalFault>
    ensures { result ≡ divided int_rem x y }
{
    if y == 0 {
        return Err(EvalFault::DivZero);
    }
    x.checked_rem(y).ok_or(EvalFault::Overflow)
}
