//! Laws of lines and of workers. Each function is empty, and its contract is the law.

ghost use Rattle.msl_line.specs.Laws.{LineMeans, WorkerMeans};
ghost use Rattle.msl_line.specs.declared.how.How.{How};
ghost use Rattle.msl_program.specs.Script.{Script};
ghost use Rattle.msl_program.specs.declared.stage.Stage.{Stage};

/// What a line of a stage makes of a stream is what the stage may make of it, and where all is done in turn what `seq`
/// makes of it. For stages that name only what is there, with no filter in a farm.
pub fn line_runs<R>()
    ensures { (how : How R) (s : Script) (st : Stage) → LineMeans how s st }
{}

/// What a worker that is a whole stage makes of a record is what the stage may make of it, and where all is done in turn
/// what `seq` makes of it. For stages that name only what is there and have no filter.
pub fn worker_runs<R>()
    ensures { (how : How R) (s : Script) (st : Stage) → WorkerMeans how s st }
{}
