ghost use Rattle.std.specs.Prelude.{pos, ◌≤ℤ◌};
ghost use Rattle.msl_ops.specs.Table.{greatest_modulus};

use msl_base::Fault;

/// Which operator. Each has a row in the table.
#[derive(Clone, Copy, Debug, PartialEq, Eq)]
pub enum OpKind {
    /// The sum.
    Sum,
    /// The lesser number.
    Min,
    /// The greater number.
    Max,
    /// Bitwise and of 64 bits.
    And,
    /// Bitwise or of 64 bits.
    Or,
    /// Bitwise exclusive or of 64 bits.
    Xor,
    /// The greatest common divisor.
    Gcd,
    /// The sum modulo a number.
    AddMod,
    /// The product modulo a number.
    MulMod,
}

/// An operator. `AddMod` and `MulMod` have a modulus from 1 to 1,000,000,000,000,000,000; that of all others is 1,
/// and means nothing.
#[derive(Clone, Copy)]
pub struct Op {
    pub kind: OpKind,
    pub modulus: i64,
    pub ghost least: { pos 1 ≤ℤ modulus },
    pub ghost most: { modulus ≤ℤ greatest_modulus kind },
}

impl OpKind {
    ghost use Rattle.std.specs.Prelude.{◌≡◌};
    ghost use Rattle.msl_ops.specs.Operators.{has_modulus};

    /// Whether operators of this kind have a modulus.
    pub fn has_modulus(self) -> bool
        ensures { result ≡ has_modulus self }
    {
        matches!(self, OpKind::AddMod | OpKind::MulMod)
    }
}

impl Op {
    ghost use Rattle.std.specs.Prelude.{◌≡◌};
    ghost use Rattle.msl_ops.specs.Meaning.{settle};

    /// The number that a result is: itself, or `Overflow` of this stage exactly where it is outside 64 signed bits.
    pub fn settle(self, v: i128, stage: u32) -> Result<i64, Fault>
        ensures { result ≡ settle stage v }
    {
        if v < i128::from(i64::MIN) || v > i128::from(i64::MAX) {
            return Err(Fault::Overflow(stage));
        }
        Ok(v as i64)
    }
}
