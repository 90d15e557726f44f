//! Laws of what a search leaves behind. Each function is empty, and its contract is the law.

ghost use Rattle.std.specs.Prelude.{ℕ, List};
ghost use Rattle.msl_base.specs.Covers.{Split};
ghost use Rattle.msl_base.specs.Streams.{Outcome, Record};
ghost use Rattle.msl_fun.specs.declared.funs.Fun.{Fun};
ghost use Rattle.msl_program.specs.declared.script.DivCon.{DivCon};
ghost use Rattle.msl_tree.specs.Combined.{GivesValue};
ghost use Rattle.msl_tree.specs.Lists.{Leaf};

/// Where splits and solved paths cover, each split is of a problem that isn't simple, is less than 64 deep and divides into
/// all its parts, and each solved path has its recursive value, the combined value is the root's recursive value.
pub fn cover_gives_value()
    ensures { (funs : List Fun) (d : DivCon) (stage : ℕ) (leaf : Record → Outcome) (splits : List Split) (solved : List Leaf) (root : Record) → GivesValue funs d stage leaf splits solved root }
{}
