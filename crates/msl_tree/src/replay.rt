ghost use Rattle.std.specs.Prelude.{◌≡◌, ◌+◌, length, Option};
ghost use Rattle.msl_fun.specs.Meaning.{params_of};
ghost use Rattle.msl_program.specs.Promises.{DivConFits, SearchFits};
ghost use Rattle.msl_program.specs.Widths.{IsFunction};
ghost use Rattle.msl_program.specs.declared.width.Width.TheVariants.{Exactly};
ghost use Rattle.msl_tree.specs.Replays.{Replays};

use msl_base::{Path, Small};
use msl_calls::Calls;
use msl_fun::Funs;
use msl_program::{BnbSpec, DivCon};

/// The problem behind a path of a division, worked out anew from the root. None exactly where `divide` faults on the
/// way. Takes no memory.
pub fn replay_divcon(d: &DivCon, funs: &Funs, root: Small, path: Path) -> Option<Small>
    requires fits { DivConFits funs.now d.now }
    requires wide { length root ≡ params_of funs.now d.now.simple }
    ensures { Replays funs.now d.now.divide root path result }
{
    replay(funs, d.divide, root, path)
}

/// The numbers of the node behind a path of a search, worked out anew from the root. None exactly where `branch` faults on
/// the way. Takes no memory.
pub fn replay_bnb(b: &BnbSpec, funs: &Funs, root: Small, path: Path) -> Option<Small>
    requires fits { SearchFits funs.now b.now }
    requires wide { length root ≡ params_of funs.now b.now.bound }
    ensures { Replays funs.now b.now.branch root path result }
{
    replay(funs, b.branch, root, path)
}

// What a function gives along the path, each time as many numbers as it takes with the step behind them.
fn replay(funs: &Funs, f: u32, root: Small, path: Path) -> Option<Small>
    requires f { IsFunction funs.now (Exactly (length root + 1)) (Exactly (length root)) f }
    ensures { Replays funs.now f root path result }
{
    let mut calls = Calls::new(funs);
    let mut x = root;
    for step in path.as_slice() {
        match calls.results_with(f, x.as_slice(), *step) {
            Ok(y) => x = y,
            Err(_) => return None,
        }
    }
    Some(x)
}
