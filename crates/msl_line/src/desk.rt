ghost use Rattle.std.specs.Prelude.{◌≡◌, [], IsErr, OnErr, OnOk};
ghost use Rattle.msl_base.specs.declared.answer.Halt.TheVariants as halt;
ghost use Rattle.msl_program.specs.Calls.{atomic_outcome};
ghost use Rattle.msl_stage.specs.Answers.{MayMake, made_by};

use msl_base::limits::MOST_RESULTS;
use msl_base::{Fault, Halt, NoMemory, Rec};
use msl_fun::{Muscle, Scope};
use msl_local::of_stage;
use msl_stage::Halted;

/// What a function is evaluated on. It lives from record to record, since a new one costs the clearing of its places.
#[derive(Drop)]
pub struct Desk {
    scope: Scope,
    results: [i64; MOST_RESULTS],
}

impl Desk {
    /// Takes no memory.
    pub fn new() -> Desk {
        Desk {
            scope: Scope::new(),
            results: [0; MOST_RESULTS],
        }
    }

    /// Makes a record of the function's width its results, in the record's memory.
    #[inline(always)]
    pub fn evaluate(
        &mut self,
        f: &Muscle<'_>,
        stage: u32,
        x: &mut Rec,
        why: &mut Halt,
    ) -> Result<(), Halted>
        ensures { MayMake (λ r. r ≡ atomic_outcome f.now.funs.now stage f.now.at x.old.numbers) x.new.numbers (made_by result why.new) }
    {
        let (params, results) = f.widths();
        let got = x.as_slice().len();
        if got != params {
            return faults(why, Fault::Shape(stage, got as u64, params as u64));
        }
        self.scope.clear();
        self.scope.extend(x.as_slice());
        let room = &mut self.results[..];
        let out = &mut room[..results];
        match f.eval_in(&mut self.scope, out) {
            Ok(_) => overwrite(x, out, why),
            Err(fault) => faults(why, of_stage(fault, stage)),
        }
    }
}

// A record has no result for this fault.
#[inline(never)]
fn faults(why: &mut Halt, fault: Fault) -> Result<(), Halted>
    ensures why { why.new ≡ halt.Fault fault }
    ensures err { IsErr result }
{
    *why = Halt::Fault(fault);
    Err(Halted)
}

// Puts these numbers in the place of those of a record.
#[inline(always)]
fn overwrite(x: &mut Rec, ys: &[i64], why: &mut Halt) -> Result<(), Halted>
    ensures ok { OnOk result (x.new.numbers ≡ ys.now) }
    ensures err { OnErr result (why.new ≡ halt.NoMemory) }
{
    x.clear();
    for y in ys {
        match x.push(*y) {
            Ok(()) => {}
            Err(NoMemory) => {
                *why = Halt::NoMemory;
                return Err(Halted);
            }
        }
    }
    Ok(())
}
