//! The steps that make an array of the record, or work on arrays alone, each by the method of its name.

ghost use Rattle.std.specs.Prelude.{◌≡◌};
ghost use Rattle.msl_data.specs.Steps.{IsReady, outcome_of};
ghost use Rattle.msl_data.specs.Tables.{ComesAs};
ghost use Rattle.msl_program.specs.declared.data.DataStep.TheVariants as step;

use crate::context::Context;
use crate::table::Value;
use msl_array::DistArray;
use msl_base::Halt;
use msl_fabric::{Fabric, Place};
use msl_ops::Op;
use msl_program::{Arg, UseSpec};
use std::alloc::Global;

impl Context<'_, '_, '_> {
    pub fn whole<F: Fabric>(
        &self,
        alloc: Global,
        at: &mut Place<'_, F>,
        blocks: u32,
    ) -> Result<Value, Halt>
        requires { IsReady self.now (step.Array blocks) }
        ensures value { ComesAs (outcome_of self.now at.old.stage (step.Array blocks)) result }
        ensures stage { at.new.stage ≡ at.old.stage }
        ensures group { at.new.group ≡ at.old.group }
    {
        let array = DistArray::of_rec(alloc, at, blocks, self.input)?;
        Ok(Value::Array(array))
    }

    pub fn part<F: Fabric>(
        &self,
        alloc: Global,
        at: &mut Place<'_, F>,
        blocks: u32,
        from: u32,
        len: u32,
    ) -> Result<Value, Halt>
        requires { IsReady self.now (step.ArrayAt blocks from len) }
        ensures value { ComesAs (outcome_of self.now at.old.stage (step.ArrayAt blocks from len)) result }
        ensures stage { at.new.stage ≡ at.old.stage }
        ensures group { at.new.group ≡ at.old.group }
    {
        let numbers = self.cut(at.stage, from, len)?;
        let array = DistArray::of_rec(alloc, at, blocks, numbers)?;
        Ok(Value::Array(array))
    }

    pub fn scan<F: Fabric>(
        &self,
        alloc: Global,
        at: &mut Place<'_, F>,
        op: Op,
        k: u32,
    ) -> Result<Value, Halt>
        requires { IsReady self.now (step.Scan op k) }
        ensures value { ComesAs (outcome_of self.now at.old.stage (step.Scan op k)) result }
        ensures stage { at.new.stage ≡ at.old.stage }
        ensures group { at.new.group ≡ at.old.group }
    {
        let array = self.table.array(k);
        array.scan(alloc, at, op).map(Value::Array)
    }

    pub fn foldl<F: Fabric>(
        &self,
        alloc: Global,
        at: &mut Place<'_, F>,
        u: &UseSpec,
        first: Arg,
        k: u32,
    ) -> Result<Value, Halt>
        requires { IsReady self.now (step.Foldl u.now first k) }
        ensures value { ComesAs (outcome_of self.now at.old.stage (step.Foldl u.now first k)) result }
        ensures stage { at.new.stage ≡ at.old.stage }
        ensures group { at.new.group ≡ at.old.group }
    {
        let array = self.table.array(k);
        let first = self.table.argument(first);
        array
            .foldl(alloc, at, self.used(u), first)
            .map(Value::Number)
    }

    pub fn permute_partition<F: Fabric>(
        &self,
        alloc: Global,
        at: &mut Place<'_, F>,
        u: &UseSpec,
        k: u32,
    ) -> Result<Value, Halt>
        requires { IsReady self.now (step.PermutePartition u.now k) }
        ensures value { ComesAs (outcome_of self.now at.old.stage (step.PermutePartition u.now k)) result }
        ensures stage { at.new.stage ≡ at.old.stage }
        ensures group { at.new.group ≡ at.old.group }
    {
        let array = self.table.array(k);
        array
            .permute_partition(alloc, at, self.used(u))
            .map(Value::Array)
    }

    pub fn permute<F: Fabric>(
        &self,
        alloc: Global,
        at: &mut Place<'_, F>,
        u: &UseSpec,
        k: u32,
    ) -> Result<Value, Halt>
        requires { IsReady self.now (step.Permute u.now k) }
        ensures value { ComesAs (outcome_of self.now at.old.stage (step.Permute u.now k)) result }
        ensures stage { at.new.stage ≡ at.old.stage }
        ensures group { at.new.group ≡ at.old.group }
    {
        let array = self.table.array(k);
        array.permute(alloc, at, self.used(u)).map(Value::Array)
    }

    pub fn broadcast_partition<F: Fabric>(
        &self,
        alloc: Global,
        at: &mut Place<'_, F>,
        j: u32,
        k: u32,
    ) -> Result<Value, Halt>
        requires { IsReady self.now (step.BroadcastPartition j k) }
        ensures value { ComesAs (outcome_of self.now at.old.stage (step.BroadcastPartition j k)) result }
        ensures stage { at.new.stage ≡ at.old.stage }
        ensures group { at.new.group ≡ at.old.group }
    {
        let array = self.table.array(k);
        array.broadcast_partition(alloc, at, j).map(Value::Array)
    }
}
