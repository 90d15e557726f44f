ghost use Rattle.std.specs.Prelude.{◌≡◌, ℤ, FitsSigned};
ghost use Rattle.std.specs.Int.{w128};
ghost use Rattle.msl_ops.specs.Lawful.{IsLawful};
ghost use Rattle.msl_ops.specs.Keeping.{lawful_of};
ghost use Rattle.msl_ops.specs.Meaning.{IsInDomainOf, unit_of, lift_of, combine_of};

use crate::gcd::gcd;
use crate::modulo::{modulo, product_modulo, sum_modulo};
use crate::rows::{combine, lift, rows, unit};
use crate::{Op, OpKind};

/// An operator by which lists of numbers are folded and scanned. Numbers of 64 signed bits are lifted into its domain
/// and combined there; none of its methods takes memory. `laws` says that lifted numbers are in the domain, that it is
/// closed, that `combine` is associative there and `unit` neutral, and that no fold of at most 2 ^ 60 numbers leaves
/// 128 signed bits.
pub trait Lawful {
    ghost IsInDomain: { Self → ℤ → Type 0 };

    ghost unit: { Self → ℤ };

    ghost lift: { Self → ℤ → ℤ };

    ghost combine: { Self → ℤ → ℤ → ℤ };

    /// The number of the domain that changes none that it is combined with.
    fn unit(&self) -> i128
        ensures { result ≡ unit self.now };

    /// The number of the domain that stands for `x`.
    fn lift(&self, x: i64) -> i128
        ensures { result ≡ lift self.now x };

    /// What two numbers of the domain combine to.
    fn combine(&self, a: i128, b: i128) -> i128
        requires a { IsInDomain self.now a }
        requires b { IsInDomain self.now b }
        requires fits { FitsSigned w128 (combine self.now a b) }
        ensures { result ≡ combine self.now a b };

    ghost laws: { (op : Self) → IsLawful (IsInDomain op) (unit op) (lift op) (combine op) };
}

impl Lawful for Op {
    ghost IsInDomain = { λ op. IsInDomainOf op.kind op.modulus };

    ghost unit = { λ op. unit_of op.kind op.modulus };

    ghost lift = { λ op. lift_of op.kind op.modulus };

    ghost combine = { λ op. combine_of op.kind op.modulus };

    ghost laws = { λ op. lawful_of op.kind op.modulus op.least op.most };

    fn unit(&self) -> i128 {
        rows!(unit!(self))
    }

    fn lift(&self, x: i64) -> i128 {
        rows!(lift!(self, x))
    }

    fn combine(&self, a: i128, b: i128) -> i128 {
        rows!(combine!(self, a, b))
    }
}
