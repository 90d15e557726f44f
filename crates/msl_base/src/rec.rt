ghost use Rattle.std.specs.Prelude.{◌≡◌, ◌+◌, ◌-◌, ◌<◌, ◌≤◌, [], ◌∷◌, ◌++◌, IfOk, OnOk, OnErr};

use crate::NoMemory;
use std::alloc::Global;
use std::marker::Model;

/// A record: a list of numbers. Contracts see it with its spare room, how many more numbers `put` can append.
#[derive(Drop)]
pub struct Rec {
    numbers: Vec<i64>,
    spare: usize,
}

impl Model for Rec {
    ghost use Rattle.std.specs.Prelude.{◌+◌, ◌≤◌};
    ghost use Rattle.std.specs.Vec.{vec_len, vec_capacity};
    ghost use Rattle.msl_base.specs.Records.{Kept};

    ghost Value = { Kept };

    ghost view = { λ r. record { numbers = r.numbers.items; spare = r.spare } };

    ghost invariant = { λ r. vec_len r.numbers + r.spare ≤ vec_capacity r.numbers };
}

impl Rec {
    /// The empty record. Takes no memory.
    pub fn new(alloc: Global) -> Rec
        ensures { result.numbers ≡ [] }
    {
        Rec {
            numbers: Vec::new(alloc),
            spare: 0,
        }
    }

    /// The record of these numbers. It fails for want of memory alone.
    pub fn of_slice(alloc: Global, xs: &[i64]) -> Result<Rec, NoMemory>
        ensures { IfOk result (λ rec. rec.numbers ≡ xs.now) }
    {
        let numbers = Vec::from_slice(alloc, xs)?;
        Ok(Rec { numbers, spare: 0 })
    }

    /// The record of these numbers, in their memory. Takes none.
    pub fn from_vec(numbers: Vec<i64>) -> Rec
        ensures { result.numbers ≡ numbers.items }
    {
        Rec { numbers, spare: 0 }
    }

    /// The numbers, in the record's memory. Takes none.
    pub fn into_vec(self) -> Vec<i64>
        ensures { result.items ≡ self.numbers }
    {
        self.numbers
    }

    /// Appends a number, to the spare room where there is any. Where memory runs out, which may be only where there is
    /// none, the record is left as it was.
    pub fn push(&mut self, x: i64) -> Result<(), NoMemory>
        ensures ok { OnOk result (self.new.numbers ≡ self.old.numbers ++ x ∷ []) }
        ensures room { OnOk result (self.new.spare ≡ self.old.spare - 1) }
        ensures err { OnErr result ((self.old.spare ≡ 0) × (self.new ≡ self.old)) }
    {
        self.numbers.push(x)?;
        self.spare = self.spare.saturating_sub(1);
        Ok(())
    }

    /// Makes room for `n` more numbers, or leaves the record where memory runs out.
    pub fn reserve(&mut self, n: usize) -> Result<(), NoMemory>
        ensures same { self.new.numbers ≡ self.old.numbers }
        ensures room { OnOk result (n ≤ self.new.spare) }
        ensures err { OnErr result (self.new ≡ self.old) }
    {
        self.numbers.reserve(n)?;
        self.spare = n;
        Ok(())
    }

    /// Appends a number to the spare room. Takes no memory.
    pub fn put(&mut self, x: i64)
        requires { 1 ≤ self.old.spare }
        ensures put { self.new.numbers ≡ self.old.numbers ++ x ∷ [] }
        ensures room { self.new.spare + 1 ≡ self.old.spare }
    {
        self.spare -= 1;
        self.numbers.push(x).unwrap();
    }

    /// Takes all numbers off. The memory stays, and with it the spare room.
    pub fn clear(&mut self)
        ensures { self.new ≡ record self.old { numbers = [] } }
    {
        self.numbers.clear();
    }

    /// The numbers.
    pub fn as_slice(&self) -> &[i64]
        ensures { result.now ≡ self.now.numbers }
    {
        self.numbers.as_slice()
    }
}
