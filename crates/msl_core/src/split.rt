use msl_base::Path;
use std::marker::Model;

/// A path that was split, and how many children it has: at most 64.
#[derive(Drop)]
pub struct Split {
    path: Path,
    count: u8,
}

impl Model for Split {
    ghost use Rattle.std.specs.Prelude.{◌≤◌};
    ghost use Rattle.msl_base.specs.Covers as covers;
    ghost use Rattle.msl_base.specs.declared.limits.TheConstants.{MOST_CHILDREN};

    ghost Value = { covers.Split };

    ghost view = { λ s. covers.split s.path s.count };
}

impl Split {
    ghost use Rattle.std.specs.Prelude.{◌≡◌};
    ghost use Rattle.msl_base.specs.Covers as covers;

    pub fn new(path: Path, count: u8) -> Split
        ensures { result ≡ covers.split path count }
    {
        Split { path, count }
    }
}
