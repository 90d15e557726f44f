ghost use Rattle.std.specs.Prelude.{◌≡◌, ◌<◌, ◌≤◌, [], ◌∷◌, ◌++◌, length, IsNone, IfSome, ◌↔◌};
ghost use Rattle.msl_base.specs.Paths.{AreSteps};
ghost use Rattle.msl_base.specs.declared.limits.TheConstants.{MOST_CHILDREN, MOST_LEVELS};

use crate::limits::MOST_LEVELS;
use std::marker::Model;

/// A path from the root of a tree: which child was taken at each step. Seen as the list of its steps, each
/// below 64; it has at most 64 of them.
#[derive(Clone, Copy)]
pub struct Path {
    steps: [u8; MOST_LEVELS],
    len: usize,
}

impl Model for Path {
    ghost use Rattle.std.specs.Prelude.{ℕ, List, take, length};
    ghost use Rattle.msl_base.specs.Paths.{padded, IsKept, unpadded};

    ghost Value = { List ℕ };

    ghost view = { λ p. take p.len p.steps };

    ghost invariant = { λ p. IsKept p.len p.steps };

    ghost inverse = { λ xs. record { steps = padded xs; len = length xs } };

    ghost inverse_ok = { λ p h. unpadded p.len p.steps h };
}

impl Path {
    /// The path of the root, which has no step.
    pub fn root() -> Path
        ensures { result ≡ [] }
    {
        Path {
            steps: [0; MOST_LEVELS],
            len: 0,
        }
    }

    /// The path one step further; none where it would be longer than 64 steps.
    pub fn push(self, child: u8) -> Option<Path>
        requires { child < MOST_CHILDREN }
        ensures full { IsNone result ↔ (length self ≡ MOST_LEVELS) }
        ensures pushed { IfSome result (λ path. path ≡ self ++ child ∷ []) }
    {
        if self.len == MOST_LEVELS {
            return None;
        }
        let mut steps = self.steps;
        steps[self.len] = child;
        Some(Path {
            steps,
            len: self.len + 1,
        })
    }

    /// The steps, at most 64 of them, each below 64.
    pub fn as_slice(&self) -> &[u8]
        ensures steps { result.now ≡ self.now }
        ensures below { AreSteps self.now }
        ensures few { length self.now ≤ MOST_LEVELS }
    {
        &self.steps[..self.len]
    }
}
