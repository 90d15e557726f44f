use msl_base::{Answer, Halt, Rec};
use std::alloc::Global;

/// A record has no result. The halt that the call was lent says why.
#[derive(Clone, Copy)]
pub struct Halted;

/// Work on each record by itself. `one` relates a record to what may become of it: a record, or a fault. It may relate it
/// to several, of which a call answers one. `total` says that there is always one.
pub trait OneToOne: Drop {
    ghost use Rattle.std.specs.Prelude.{◌≡◌};
    ghost use Rattle.msl_base.specs.Streams.{Record, Outcome};
    ghost use Rattle.msl_stage.specs.Answers.{MayAnswer, MayMake, made_by};

    ghost one: { Self → Record → Outcome → Type 0 };

    /// Makes a record its result, in its own memory. Where it has none, `why` says why, and the record is open; `NoMemory`
    /// comes for want of memory alone. Halts are lent, and not answered, since they are large and seldom come.
    fn work(&mut self, alloc: Global, x: &mut Rec, why: &mut Halt) -> Result<(), Halted>
        ensures same { self.new ≡ self.old }
        ensures made { MayMake (one self.old x.old.numbers) x.new.numbers (made_by result why.new) };

    /// Works on a record, and gives the result by value.
    final fn one(&mut self, alloc: Global, x: Rec) -> Answer
        ensures same { self.new ≡ self.old }
        ensures answer { MayAnswer (one self.old x.numbers) result }
    {
        let mut x = x;
        let mut why = Halt::NoMemory;
        match self.work(alloc, &mut x, &mut why) {
            Ok(()) => Answer::Rec(x),
            Err(Halted) => match why {
                Halt::Fault(fault) => Answer::Fault(fault),
                Halt::NoMemory => Answer::NoMemory,
            },
        }
    }

    ghost total: { (w : Self) (x : Record) → (r : Outcome) × one w x r };
}
