//! The law of a search that drops nodes. The function is empty, and its contract is the law.

ghost use Rattle.std.specs.Prelude.{ℕ, List};
ghost use Rattle.msl_base.specs.Covers.{Split};
ghost use Rattle.msl_base.specs.Streams.{Record};
ghost use Rattle.msl_fun.specs.declared.funs.Fun.{Fun};
ghost use Rattle.msl_program.specs.declared.script.BnbSpec.{BnbSpec};
ghost use Rattle.msl_pruning.specs.Pruned.{Best, Prunes};

/// Where splits and shut paths cover the tree, each split is of a node with so many children, and each shut node is a
/// solution that isn't better than the best so far, has no children, or may be dropped for that one, the best so far is an
/// answer of the search.
pub fn the_best_so_far_is_an_answer()
    ensures { (funs : List Fun) (b : BnbSpec) (stage : ℕ) (root : Record) (best : Best) (splits : List Split) (shut : List (List ℕ)) → Prunes funs b stage root best splits shut }
{}
