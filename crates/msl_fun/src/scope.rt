ghost use Rattle.std.specs.Prelude.{◌≡◌, ◌+◌, ◌-◌, ◌<◌, ◌≤◌, ◌++◌, [], ◌∷◌, length, take, pos, slice_index_or};
ghost use Rattle.msl_base.specs.declared.limits.TheConstants.{MOST_NAMES};

use msl_base::limits::MOST_NAMES;
use std::marker::Model;

/// The numbers in scope at an evaluation, at most 32: the arguments, and behind them the variables. It is seen as their
/// list, and takes no memory. Whoever evaluates again and again keeps one, since a new one costs the clearing of its
/// places.
#[derive(Drop)]
pub struct Scope {
    values: [i64; MOST_NAMES],
    len: usize,
}

impl Model for Scope {
    ghost use Rattle.std.specs.Prelude.{ℤ, List, ◌≤◌, take};
    ghost use Rattle.msl_base.specs.declared.limits.TheConstants.{MOST_NAMES};

    ghost Value = { List ℤ };

    ghost view = { λ s. take s.len s.values };

    ghost invariant = { λ s. s.len ≤ MOST_NAMES };
}

impl Scope {
    /// None is in scope.
    pub fn new() -> Scope
        ensures { result ≡ [] }
    {
        Scope {
            values: [0; MOST_NAMES],
            len: 0,
        }
    }

    /// Takes all out of scope.
    pub fn clear(&mut self)
        ensures { self.new ≡ [] }
    {
        self.len = 0;
    }

    /// The number at a place.
    pub fn get(&self, at: u32) -> i64
        requires { at < length self.now }
        ensures { result ≡ slice_index_or self.now at (pos 0) }
    {
        self.values[at as usize]
    }

    /// One number more, behind the others.
    pub fn push(&mut self, x: i64)
        requires { length self.old < MOST_NAMES }
        ensures { self.new ≡ self.old ++ x ∷ [] }
    {
        self.values[self.len] = x;
        self.len += 1;
    }

    /// These numbers, behind the others.
    pub fn extend(&mut self, xs: &[i64])
        requires { length self.old + length xs.now ≤ MOST_NAMES }
        ensures { self.new ≡ self.old ++ xs.now }
    {
        for x in xs {
            self.push(*x);
        }
    }

    /// The last n go out of scope.
    pub fn leave(&mut self, n: usize)
        requires { n ≤ length self.old }
        ensures { self.new ≡ take (length self.old - n) self.old }
    {
        self.len -= n;
    }
}
