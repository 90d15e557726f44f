//! The steps that work on arrays and on matrices, each by the method of its name.

ghost use Rattle.std.specs.Prelude.{◌≡◌};
ghost use Rattle.msl_data.specs.Steps.{IsReady, outcome_of};
ghost use Rattle.msl_data.specs.Tables.{ComesAs};
ghost use Rattle.msl_program.specs.declared.data.DataStep.TheVariants as step;

use crate::context::Context;
use crate::table::{Container, Value};
use msl_base::Halt;
use msl_fabric::{Fabric, Place};
use msl_ops::Op;
use msl_program::UseSpec;
use std::alloc::Global;

impl Context<'_, '_, '_> {
    pub fn map<F: Fabric>(
        &self,
        alloc: Global,
        at: &mut Place<'_, F>,
        u: &UseSpec,
        k: u32,
    ) -> Result<Value, Halt>
        requires { IsReady self.now (step.Map u.now k) }
        ensures value { ComesAs (outcome_of self.now at.old.stage (step.Map u.now k)) result }
        ensures stage { at.new.stage ≡ at.old.stage }
        ensures group { at.new.group ≡ at.old.group }
    {
        match self.table.container(k) {
            Container::Array(array) => array.map(alloc, at, self.used(u)).map(Value::Array),
            Container::Matrix(matrix) => matrix.map(alloc, at, self.used(u)).map(Value::Matrix),
        }
    }

    pub fn map_index<F: Fabric>(
        &self,
        alloc: Global,
        at: &mut Place<'_, F>,
        u: &UseSpec,
        k: u32,
    ) -> Result<Value, Halt>
        requires { IsReady self.now (step.MapIndex u.now k) }
        ensures value { ComesAs (outcome_of self.now at.old.stage (step.MapIndex u.now k)) result }
        ensures stage { at.new.stage ≡ at.old.stage }
        ensures group { at.new.group ≡ at.old.group }
    {
        match self.table.container(k) {
            Container::Array(array) => array.map_index(alloc, at, self.used(u)).map(Value::Array),
            Container::Matrix(matrix) => matrix
                .map_index(alloc, at, self.used(u))
                .map(Value::Matrix),
        }
    }

    pub fn zip<F: Fabric>(
        &self,
        alloc: Global,
        at: &mut Place<'_, F>,
        u: &UseSpec,
        k: u32,
        l: u32,
    ) -> Result<Value, Halt>
        requires { IsReady self.now (step.Zip u.now k l) }
        ensures value { ComesAs (outcome_of self.now at.old.stage (step.Zip u.now k l)) result }
        ensures stage { at.new.stage ≡ at.old.stage }
        ensures group { at.new.group ≡ at.old.group }
    {
        match self.table.container(k) {
            Container::Array(array) => {
                let other = self.table.array(l);
                array
                    .zip_with(alloc, at, self.used(u), other)
                    .map(Value::Array)
            }
            Container::Matrix(matrix) => {
                let other = self.table.matrix(l);
                matrix
                    .zip_with(alloc, at, self.used(u), other)
                    .map(Value::Matrix)
            }
        }
    }

    pub fn zip_index<F: Fabric>(
        &self,
        alloc: Global,
        at: &mut Place<'_, F>,
        u: &UseSpec,
        k: u32,
        l: u32,
    ) -> Result<Value, Halt>
        requires { IsReady self.now (step.ZipIndex u.now k l) }
        ensures value { ComesAs (outcome_of self.now at.old.stage (step.ZipIndex u.now k l)) result }
        ensures stage { at.new.stage ≡ at.old.stage }
        ensures group { at.new.group ≡ at.old.group }
    {
        match self.table.container(k) {
            Container::Array(array) => {
                let other = self.table.array(l);
                array
                    .zip_index(alloc, at, self.used(u), other)
                    .map(Value::Array)
            }
            Container::Matrix(matrix) => {
                let other = self.table.matrix(l);
                matrix
                    .zip_index(alloc, at, self.used(u), other)
                    .map(Value::Matrix)
            }
        }
    }

    pub fn fold<F: Fabric>(
        &self,
        alloc: Global,
        at: &mut Place<'_, F>,
        op: Op,
        k: u32,
    ) -> Result<Value, Halt>
        requires { IsReady self.now (step.Fold op k) }
        ensures value { ComesAs (outcome_of self.now at.old.stage (step.Fold op k)) result }
        ensures stage { at.new.stage ≡ at.old.stage }
        ensures group { at.new.group ≡ at.old.group }
    {
        match self.table.container(k) {
            Container::Array(array) => array.fold(alloc, at, op).map(Value::Number),
            Container::Matrix(matrix) => matrix.fold(alloc, at, op).map(Value::Number),
        }
    }
}
