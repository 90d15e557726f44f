ghost use Rattle.std.specs.Prelude.{◌≡◌, ◌≤◌, length};
ghost use Rattle.msl_base.specs.declared.limits.TheConstants.{MOST_SMALL};

use crate::limits::MOST_SMALL;
use std::marker::Model;

/// A list of at most 16 numbers that takes no memory of its own.
#[derive(Clone, Copy)]
pub struct Small {
    numbers: [i64; MOST_SMALL],
    len: usize,
}

impl Model for Small {
    ghost use Rattle.std.specs.Prelude.{ℤ, List, take, length};
    ghost use Rattle.msl_base.specs.Smalls.{padded, IsKept, unpadded};

    ghost Value = { List ℤ };

    ghost view = { λ s. take s.len s.numbers };

    ghost invariant = { λ s. IsKept s.len s.numbers };

    ghost inverse = { λ xs. record { numbers = padded xs; len = length xs } };

    ghost inverse_ok = { λ s h. unpadded s.len s.numbers h };
}

impl Small {
    /// The same list.
    pub fn of(xs: &[i64]) -> Small
        requires { length xs.now ≤ MOST_SMALL }
        ensures { result ≡ xs.now }
    {
        let mut numbers = [0; MOST_SMALL];
        numbers[..xs.len()].copy_from_slice(xs);
        Small {
            numbers,
            len: xs.len(),
        }
    }

    /// The list, which has at most 16 numbers.
    pub fn as_slice(&self) -> &[i64]
        ensures numbers { result.now ≡ self.now }
        ensures short { length self.now ≤ MOST_SMALL }
    {
        &self.numbers[..self.len]
    }
}
