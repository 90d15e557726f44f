ghost use Rattle.std.specs.Prelude.{◌≡◌, ◌<◌, ◌≤◌, [], ◌∷◌, ◌++◌, length, map, IfOk};
ghost use Rattle.std.specs.Vec.{vec_capacity};
ghost use Rattle.msl_data.specs.Kinds.{AreGiven, IsArray, IsContainer, IsGiven, IsMatrix, IsNumber};
ghost use Rattle.msl_base.specs.declared.limits.TheConstants.{MOST_SMALL};
ghost use Rattle.msl_data.specs.Tables.{held, meaning, values_of};
ghost use Rattle.msl_program.specs.Data.{argument, elements, list, matrix, number, value_of};

use msl_array::DistArray;
use msl_base::limits::MOST_SMALL;
use msl_base::{NoMemory, Rec, Small};
use msl_fabric::{Fabric, Place};
use msl_matrix::DistMatrix;
use msl_program::Arg;
use std::alloc::Global;

/// What a line of a data program is once it ran.
#[derive(Drop)]
pub enum Value {
    Array(DistArray),
    Matrix(DistMatrix),
    Number(i64),
}

/// A line that is no number.
#[derive(Clone, Copy)]
pub enum Container<'t> {
    Array(&'t DistArray),
    Matrix(&'t DistMatrix),
}

/// The values of the lines so far, in order.
#[derive(Drop)]
pub struct Table {
    values: Vec<Value>,
}

impl Table {
    /// No value yet, with room for those of so many lines. It fails for want of memory alone.
    pub fn with_room(alloc: Global, lines: usize) -> Result<Table, NoMemory>
        ensures none { IfOk result (λ t. values_of t ≡ []) }
        ensures room { IfOk result (λ t. lines ≤ vec_capacity t.values) }
    {
        let values = Vec::with_capacity(alloc, lines)?;
        Ok(Table { values })
    }

    /// Appends the value of the next line. It takes no memory.
    pub fn put(&mut self, value: Value)
        requires { length (values_of self.old) < vec_capacity self.old.values }
        ensures values { values_of self.new ≡ values_of self.old ++ meaning value ∷ [] }
        ensures room { vec_capacity self.new.values ≡ vec_capacity self.old.values }
    {
        self.values.push_reserved(value);
    }

    /// The array or the matrix that a line is.
    pub fn container(&self, k: u32) -> Container<'_>
        requires { IsContainer (value_of (values_of self.now) k) }
        ensures { value_of (values_of self.now) k ≡ held result }
    {
        match &self.values[k as usize] {
            Value::Array(array) => Container::Array(array),
            Value::Matrix(matrix) => Container::Matrix(matrix),
            Value::Number(_) => unreachable!(),
        }
    }

    /// The array that a line is.
    pub fn array(&self, k: u32) -> &DistArray
        requires { IsArray (value_of (values_of self.now) k) }
        ensures { value_of (values_of self.now) k ≡ list result.now.blocks result.now.elements }
    {
        match &self.values[k as usize] {
            Value::Array(array) => array,
            Value::Matrix(_) | Value::Number(_) => unreachable!(),
        }
    }

    /// The matrix that a line is.
    pub fn matrix(&self, k: u32) -> &DistMatrix
        requires { IsMatrix (value_of (values_of self.now) k) }
        ensures { value_of (values_of self.now) k ≡ matrix result.now.extent result.now.elements }
    {
        match &self.values[k as usize] {
            Value::Matrix(matrix) => matrix,
            Value::Array(_) | Value::Number(_) => unreachable!(),
        }
    }

    /// The number that a line is.
    pub fn number(&self, k: u32) -> i64
        requires within { k < length (values_of self.now) }
        requires number { IsNumber (value_of (values_of self.now) k) }
        ensures { value_of (values_of self.now) k ≡ number result }
    {
        match &self.values[k as usize] {
            Value::Number(number) => *number,
            Value::Array(_) | Value::Matrix(_) => unreachable!(),
        }
    }

    /// The number that an argument is.
    pub fn argument(&self, arg: Arg) -> i64
        requires { IsGiven (values_of self.now) arg }
        ensures { result ≡ argument (values_of self.now) arg }
    {
        match arg {
            Arg::Number(k) => self.number(k),
            Arg::Lit(number) => number,
        }
    }

    /// The numbers that arguments are.
    pub fn arguments(&self, args: &[Arg]) -> Small
        requires few { length args.now ≤ MOST_SMALL }
        requires given { AreGiven (values_of self.now) args.now }
        ensures { result ≡ map (argument (values_of self.now)) args.now }
    {
        let mut numbers = [0; MOST_SMALL];
        for (i, arg) in args.iter().enumerate() {
            numbers[i] = self.argument(*arg);
        }
        Small::of(&numbers[..args.len()])
    }

    /// The value of a line as a record. It fails for want of memory alone.
    pub fn give<F: Fabric>(
        &self,
        alloc: Global,
        at: &mut Place<'_, F>,
        k: u32,
    ) -> Result<Rec, NoMemory>
        requires { k < length (values_of self.now) }
        ensures rec { IfOk result (λ r. r.numbers ≡ elements (value_of (values_of self.now) k)) }
        ensures stage { at.new.stage ≡ at.old.stage }
        ensures group { at.new.group ≡ at.old.group }
    {
        match &self.values[k as usize] {
            Value::Array(array) => array.to_rec(alloc, at),
            Value::Matrix(matrix) => matrix.to_rec(alloc, at),
            Value::Number(number) => Rec::of_slice(alloc, &[*number]),
        }
    }
}
