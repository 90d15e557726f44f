//! Laws of what scripts make of streams, of the trees of problems and of searches, and of data programs. Each function
//! is empty, and its contract is the law.

ghost use Rattle.std.specs.Prelude.{List, ◌++◌};
ghost use Rattle.msl_fun.specs.declared.funs.Fun.{Fun};
ghost use Rattle.msl_program.specs.declared.script.BnbSpec.{BnbSpec};
ghost use Rattle.msl_program.specs.declared.script.DivCon.{DivCon};
ghost use Rattle.msl_program.specs.declared.script.FilterSpec.{FilterSpec};
ghost use Rattle.msl_program.specs.declared.data.DataProg.{DataProg};
ghost use Rattle.msl_program.specs.Script.{Script};
ghost use Rattle.msl_program.specs.declared.stage.Stage.{Stage};
ghost use Rattle.msl_program.specs.Promises.{FilterFits, DivConFits, SearchFits};
ghost use Rattle.msl_program.specs.ProgramPromise.{ProgramFits};
ghost use Rattle.msl_program.specs.RunLaws.{FirstBestIsBest, HasBest, SeqIsARun, SeqRunsMain, HasPrefixes, HasOutcomes, HasOneOutcome, GoesAlong, PartsLieAlong, HasAllParts, IsByParts, IsDeepest, ReachesChildren, HasNumbersAlong, IsShallow, HasFewChildren, LinesHaveShapes, StepsKeepShapes, ProgramsKeepShapes, LinesFitInTurn, ProgramsGrowInTurn, TablesGrowInTurn};

/// Each record has a best answer: the first best one in preorder is one.
pub fn first_best_is_best()
    ensures first { (funs : List Fun) (b : BnbSpec) → FirstBestIsBest funs b }
    ensures some { (funs : List Fun) (b : BnbSpec) → HasBest funs b }
{}

/// The order of `seq` is one of those that a script leaves open, for stages that name only what is there and have no
/// filter in a farm.
pub fn seq_is_a_run()
    ensures stage { (s : Script) (st : Stage) → SeqIsARun s st }
    ensures main { (s : Script) → SeqRunsMain s }
{}

/// What such a stage makes of the beginning of a stream begins what it can make of the whole.
pub fn stages_have_prefixes()
    ensures { (s : Script) (st : Stage) → HasPrefixes s st }
{}

/// What fits the functions fits more of them too.
pub fn conditions_last()
    ensures programs { (funs more : List Fun) (d : DataProg) → ProgramFits funs d → ProgramFits (funs ++ more) d }
    ensures filters { (funs more : List Fun) (f : FilterSpec) → FilterFits funs f → FilterFits (funs ++ more) f }
    ensures divcons { (funs more : List Fun) (d : DivCon) → DivConFits funs d → DivConFits (funs ++ more) d }
    ensures searches { (funs more : List Fun) (b : BnbSpec) → SearchFits funs b → SearchFits (funs ++ more) b }
{}

/// Each record has an outcome, without a search only one. For stages that name only what is there and have no filter.
pub fn records_have_outcomes()
    ensures total { (s : Script) (st : Stage) → HasOutcomes s st }
    ensures only { (s : Script) (st : Stage) → HasOneOutcome s st }
{}

/// The parts of a problem lie one step further along its path.
pub fn parts_lie_along()
    ensures step { (funs : List Fun) → GoesAlong funs }
    ensures parts { (funs : List Fun) (d : DivCon) → PartsLieAlong funs d }
    ensures all { (funs : List Fun) (d : DivCon) → HasAllParts funs d }
{}

/// The value of a problem by those of its parts, at a path of at most 64 steps.
pub fn dc_at()
    ensures inner { (funs : List Fun) (d : DivCon) → IsByParts funs d }
    ensures deepest { (funs : List Fun) (d : DivCon) → IsDeepest funs d }
{}

/// The tree of a search is finite, and each node in it is a child of the one before it, or the root.
pub fn trees_have_nodes()
    ensures step { (funs : List Fun) (b : BnbSpec) → ReachesChildren funs b }
    ensures numbers { (funs : List Fun) (b : BnbSpec) → HasNumbersAlong funs b }
    ensures depth { (funs : List Fun) (b : BnbSpec) → IsShallow funs b }
    ensures children { (funs : List Fun) (b : BnbSpec) → HasFewChildren funs b }
{}

/// The lines of a data program that fit the functions have values of their shapes.
pub fn lines_keep_shapes()
    ensures lines { LinesHaveShapes }
    ensures steps { (funs : List Fun) → StepsKeepShapes funs }
    ensures programs { (funs : List Fun) → ProgramsKeepShapes funs }
{}

/// The lines of a data program are taken one after the other.
pub fn lines_come_in_turn()
    ensures fit { (funs : List Fun) → LinesFitInTurn funs }
    ensures programs { ProgramsGrowInTurn }
    ensures tables { (funs : List Fun) → TablesGrowInTurn funs }
{}
