//! The steps that make a matrix of the record, or work on matrices alone, each by the method of its name.

ghost use Rattle.std.specs.Prelude.{◌≡◌};
ghost use Rattle.msl_data.specs.Steps.{IsReady, outcome_of};
ghost use Rattle.msl_data.specs.Tables.{ComesAs};
ghost use Rattle.msl_program.specs.declared.data.DataStep.TheVariants as step;

use crate::context::Context;
use crate::table::Value;
use msl_base::Halt;
use msl_fabric::{Fabric, Place};
use msl_matrix::{DistMatrix, Shape2};
use msl_program::UseSpec;
use std::alloc::Global;

impl Context<'_, '_, '_> {
    pub fn matrix<F: Fabric>(
        &self,
        alloc: Global,
        at: &mut Place<'_, F>,
        shape: Shape2,
        from: u32,
    ) -> Result<Value, Halt>
        requires { IsReady self.now (step.Matrix shape.rows shape.cols shape.grid_rows shape.grid_cols from) }
        ensures value { ComesAs (outcome_of self.now at.old.stage (step.Matrix shape.rows shape.cols shape.grid_rows shape.grid_cols from)) result }
        ensures stage { at.new.stage ≡ at.old.stage }
        ensures group { at.new.group ≡ at.old.group }
    {
        let numbers = self.cut(at.stage, from, shape.rows * shape.cols)?;
        let matrix = DistMatrix::of_rec(alloc, at, shape, numbers)?;
        Ok(Value::Matrix(matrix))
    }

    pub fn rotate_rows<F: Fabric>(
        &self,
        alloc: Global,
        at: &mut Place<'_, F>,
        u: &UseSpec,
        k: u32,
    ) -> Result<Value, Halt>
        requires { IsReady self.now (step.RotateRows u.now k) }
        ensures value { ComesAs (outcome_of self.now at.old.stage (step.RotateRows u.now k)) result }
        ensures stage { at.new.stage ≡ at.old.stage }
        ensures group { at.new.group ≡ at.old.group }
    {
        let matrix = self.table.matrix(k);
        matrix
            .rotate_rows(alloc, at, self.used(u))
            .map(Value::Matrix)
    }

    pub fn rotate_cols<F: Fabric>(
        &self,
        alloc: Global,
        at: &mut Place<'_, F>,
        u: &UseSpec,
        k: u32,
    ) -> Result<Value, Halt>
        requires { IsReady self.now (step.RotateCols u.now k) }
        ensures value { ComesAs (outcome_of self.now at.old.stage (step.RotateCols u.now k)) result }
        ensures stage { at.new.stage ≡ at.old.stage }
        ensures group { at.new.group ≡ at.old.group }
    {
        let matrix = self.table.matrix(k);
        matrix
            .rotate_cols(alloc, at, self.used(u))
            .map(Value::Matrix)
    }

    pub fn transpose<F: Fabric>(
        &self,
        alloc: Global,
        at: &mut Place<'_, F>,
        k: u32,
    ) -> Result<Value, Halt>
        requires { IsReady self.now (step.Transpose k) }
        ensures value { ComesAs (outcome_of self.now at.old.stage (step.Transpose k)) result }
        ensures stage { at.new.stage ≡ at.old.stage }
        ensures group { at.new.group ≡ at.old.group }
    {
        let matrix = self.table.matrix(k);
        Ok(Value::Matrix(matrix.transpose(alloc, at)?))
    }
}
