ghost use Rattle.std.specs.Prelude.{◌≡◌, map, List};
ghost use Rattle.msl_data.specs.Steps.{CutComes, IsReady, UseFits, outcome_of};
ghost use Rattle.msl_data.specs.Tables.{ComesAs, values_of};
ghost use Rattle.msl_program.specs.Data.{argument, cut};

use crate::table::{Table, Value};
use msl_base::{Fault, Halt};
use msl_fabric::{Fabric, Place};
use msl_fun::{Funs, Use};
use msl_matrix::Shape2;
use msl_program::{DataStep, UseSpec};
use std::alloc::Global;

/// What a step can read: the functions, the record that came in, and the values of the lines before it.
#[derive(Clone, Copy)]
pub struct Context<'f, 'i, 't> {
    pub funs: &'f Funs,
    pub input: &'i [i64],
    pub table: &'t Table,
}

impl Context<'_, '_, '_> {
    /// The value of a step, or its first fault.
    pub fn value<F: Fabric>(
        &self,
        alloc: Global,
        at: &mut Place<'_, F>,
        step: &DataStep,
    ) -> Result<Value, Halt>
        requires { IsReady self.now step.now }
        ensures value { ComesAs (outcome_of self.now at.old.stage step.now) result }
        ensures stage { at.new.stage ≡ at.old.stage }
        ensures group { at.new.group ≡ at.old.group }
    {
        match step {
            DataStep::Array(blocks) => self.whole(alloc, at, *blocks),
            DataStep::ArrayAt {
                blocks,
                at: from,
                len,
            } => self.part(alloc, at, *blocks, *from, *len),
            DataStep::Matrix {
                rows,
                cols,
                grid_rows,
                grid_cols,
                at: from,
            } => {
                let shape = Shape2 {
                    rows: *rows,
                    cols: *cols,
                    grid_rows: *grid_rows,
                    grid_cols: *grid_cols,
                };
                self.matrix(alloc, at, shape, *from)
            }
            DataStep::Map(u, k) => self.map(alloc, at, u, *k),
            DataStep::MapIndex(u, k) => self.map_index(alloc, at, u, *k),
            DataStep::Zip(u, k, l) => self.zip(alloc, at, u, *k, *l),
            DataStep::ZipIndex(u, k, l) => self.zip_index(alloc, at, u, *k, *l),
            DataStep::Fold(op, k) => self.fold(alloc, at, *op, *k),
            DataStep::Scan(op, k) => self.scan(alloc, at, *op, *k),
            DataStep::Foldl(u, first, k) => self.foldl(alloc, at, u, *first, *k),
            DataStep::PermutePartition(u, k) => self.permute_partition(alloc, at, u, *k),
            DataStep::Permute(u, k) => self.permute(alloc, at, u, *k),
            DataStep::BroadcastPartition(j, k) => self.broadcast_partition(alloc, at, *j, *k),
            DataStep::RotateRows(u, k) => self.rotate_rows(alloc, at, u, *k),
            DataStep::RotateCols(u, k) => self.rotate_cols(alloc, at, u, *k),
            DataStep::Transpose(k) => self.transpose(alloc, at, *k),
        }
    }

    /// The function in use, with its arguments from the table.
    pub fn used(&self, u: &UseSpec) -> Use<'_>
        requires { UseFits self.now.funs.now (values_of self.now.table.now) u.now }
        ensures funs { result.f.funs.now ≡ self.now.funs.now }
        ensures at { result.f.at ≡ u.now.fun }
        ensures extra { result.extra ≡ map (argument (values_of self.now.table.now)) u.now.args }
    {
        let f = self.funs.muscle(u.fun);
        // What is given is among what the function takes, which is at most 16 numbers.
        let (params, _) = f.widths();
        let args = u.args.as_slice();
        prove!(args.len() <= params);
        let extra = self.table.arguments(args);
        Use { f, extra }
    }

    /// So many numbers of the record from a place on, or `Shape` where it ends before.
    pub fn cut(&self, stage: u32, from: u32, len: u32) -> Result<&[i64], Halt>
        ensures { CutComes (cut self.now.funs.now stage self.now.input.now from len) result }
    {
        let end = from as usize + len as usize;
        if self.input.len() < end {
            let fault = Fault::Shape(stage, self.input.len() as u64, end as u64);
            return Err(Halt::Fault(fault));
        }
        Ok(&self.input[from as usize..end])
    }
}
