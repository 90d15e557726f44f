//! What calls on matrices come to, at groups of each size and by each fabric.

ghost use Rattle.std.specs.Prelude.{◌≡◌};

use crate::functions::{function, functions, given};
use msl_base::limits::GREATEST_MODULUS;
use msl_base::{Fault, Halt, NoMemory, Rec};
use msl_fabric::{Fabric, Joined, Moved, Place};
use msl_group::Group;
use msl_matrix::{DistMatrix, Shape2};
use msl_muscle::Funs;
use msl_ops::{Op, OpKind};
use std::alloc::Global;
use std::process::Abort;
use std::test::Fail;
use std::thread::Threads;

// The stage of each call.
const STAGE: u32 = 3;

/// A call that gives a matrix, by the name of its function; rotations with the number that their function is given.
#[derive(Clone, Copy, Debug)]
pub enum Call {
    Map(&'static str),
    MapIndex(&'static str),
    Zip(&'static str),
    ZipIndex(&'static str),
    RotateRows(&'static str, i64),
    RotateCols(&'static str, i64),
    Transpose,
}

/// A fault of the stage of the calls.
#[derive(Clone, Copy)]
pub enum Stop {
    Overflow,
    DivZero,
    Ragged,
}

/// The rows and columns of a matrix and of its grid.
pub type Extent = (u32, u32, u32, u32);

/// Calls on a matrix, each on what the one before gives, with a second matrix of the same extent for zips; a fold at
/// their end, maybe, by its operator and its modulus; and what comes of them, row by row. A number is a list of one.
#[derive(Clone, Copy)]
pub struct Case<'a> {
    pub calls: &'a [Call],
    pub fold: Option<(OpKind, i64)>,
    pub extent: Extent,
    pub xs: &'a [i64],
    pub ys: &'a [i64],
    pub want: &'a [i64],
    pub fault: Option<Stop>,
}

// How many members there are where the first matrix is made and the calls run, and where the second is made.
#[derive(Clone, Copy)]
struct Setting<'a> {
    alloc: Global,
    funs: &'a Funs,
    groups: (u32, u32),
}

type Groups = &'static [(u32, u32)];

const GROUPS: Groups = &[(1, 1), (2, 2), (5, 5), (64, 64), (1, 64), (5, 2)];

// Those of great matrices.
const FEW_GROUPS: Groups = &[(5, 5), (64, 2)];

/// The case in groups of each size, and by each fabric.
pub fn meet(rt: &(impl Abort + Threads), alloc: Global, case: &Case<'_>) -> Result<(), Fail> {
    let funs = functions(rt, alloc)?;
    let great = case.xs.len() > 10_000;
    for &groups in if great { FEW_GROUPS } else { GROUPS } {
        let here = Setting {
            alloc,
            funs: &funs,
            groups,
        };
        is_met(rt, &mut Moved::new(), here, case);
        for threads in [1, 2, 4] {
            assert!(rt; threads <= 64);
            is_met(rt, &mut Joined::new(rt, threads), here, case);
        }
    }
    Ok(())
}

fn is_met<F: Fabric>(rt: &impl Abort, fabric: &mut F, here: Setting<'_>, case: &Case<'_>) {
    let met = match (outcome(rt, fabric, here, case), case.fault) {
        (Ok(got), None) => got.as_slice() == case.want,
        (Err(Halt::Fault(fault)), Some(want)) => is_fault(&fault, want),
        _ => false,
    };
    let (calls, extent, groups) = (case.calls, case.extent, here.groups);
    assert!(rt; met, "{calls:?} of {extent:?} at {groups:?}");
}

fn is_fault(fault: &Fault, want: Stop) -> bool {
    match (fault, want) {
        (Fault::Overflow(stage), Stop::Overflow) => *stage == STAGE,
        (Fault::DivZero(stage), Stop::DivZero) => *stage == STAGE,
        (Fault::Ragged(stage), Stop::Ragged) => *stage == STAGE,
        _ => false,
    }
}

fn whole(rt: &impl Abort, members: u32) -> Group {
    assert!(rt; 1 <= members && members <= 64);
    Group::whole(members)
}

fn outcome<F: Fabric>(
    rt: &impl Abort,
    fabric: &mut F,
    here: Setting<'_>,
    case: &Case<'_>,
) -> Result<Rec, Halt> {
    let x = laid(rt, fabric, here, here.groups.0, case.extent, case.xs)?;
    let y = laid(rt, fabric, here, here.groups.1, case.extent, case.ys)?;
    let group = whole(rt, here.groups.0);
    let mut at = Place {
        stage: STAGE,
        group: &group,
        fabric,
    };
    let got = called(rt, &mut at, here, case, x, &y);
    group.spend();
    got
}

// A matrix in blocks, at a group of so many members.
fn laid<F: Fabric>(
    rt: &impl Abort,
    fabric: &mut F,
    here: Setting<'_>,
    members: u32,
    extent: Extent,
    xs: &[i64],
) -> Result<DistMatrix, NoMemory> {
    let (rows, cols, grid_rows, grid_cols) = extent;
    assert!(rt; 1 <= rows && 1 <= cols && rows as u64 * cols as u64 <= 1_048_576);
    assert!(rt; 1 <= grid_rows && 1 <= grid_cols && grid_rows as u64 * grid_cols as u64 <= 1_024);
    assert!(rt; xs.len() as u64 == rows as u64 * cols as u64);
    let shape = Shape2 {
        rows,
        cols,
        grid_rows,
        grid_cols,
    };
    let group = whole(rt, members);
    let mut at = Place {
        stage: STAGE,
        group: &group,
        fabric,
    };
    let matrix = DistMatrix::of_rec(here.alloc, &mut at, shape, xs);
    group.spend();
    matrix
}

// What the calls give, and the fold, if there is one.
fn called<F: Fabric>(
    rt: &impl Abort,
    at: &mut Place<'_, F>,
    here: Setting<'_>,
    case: &Case<'_>,
    x: DistMatrix,
    y: &DistMatrix,
) -> Result<Rec, Halt> {
    let mut matrix = x;
    let mut extent = case.extent;
    for &call in case.calls {
        extent = extent_behind(call, extent);
        matrix = next(rt, at, here, call, &matrix, y)?;
        assert_eq!(rt; extent_of(&matrix), extent);
    }
    let Some((kind, modulus)) = case.fold else {
        return Ok(matrix.to_rec(here.alloc, at)?);
    };
    let number = matrix.fold(here.alloc, at, op(rt, kind, modulus))?;
    Ok(Rec::of_slice(here.alloc, &[number])?)
}

/// The extent of the matrix that a call gives for one of this extent.
pub fn extent_behind(call: Call, extent: Extent) -> Extent {
    let (rows, cols, grid_rows, grid_cols) = extent;
    match call {
        Call::Transpose => (cols, rows, grid_cols, grid_rows),
        _ => extent,
    }
}

fn extent_of(matrix: &DistMatrix) -> Extent {
    let shape = matrix.shape();
    (shape.rows, shape.cols, shape.grid_rows, shape.grid_cols)
}

fn next<F: Fabric>(
    rt: &impl Abort,
    at: &mut Place<'_, F>,
    here: Setting<'_>,
    call: Call,
    x: &DistMatrix,
    y: &DistMatrix,
) -> Result<DistMatrix, Halt> {
    let (alloc, funs) = (here.alloc, here.funs);
    match call {
        Call::Map(name) => x.map(alloc, at, function(rt, funs, name, 1)),
        Call::MapIndex(name) => x.map_index(alloc, at, function(rt, funs, name, 3)),
        Call::Zip(name) => {
            are_alike(rt, x, y);
            x.zip_with(alloc, at, function(rt, funs, name, 2), y)
        }
        Call::ZipIndex(name) => {
            are_alike(rt, x, y);
            x.zip_index(alloc, at, function(rt, funs, name, 4), y)
        }
        Call::RotateRows(name, k) => x.rotate_rows(alloc, at, given(rt, funs, name, k)),
        Call::RotateCols(name, k) => x.rotate_cols(alloc, at, given(rt, funs, name, k)),
        Call::Transpose => Ok(x.transpose(alloc, at)?),
    }
}

// Both have the same extent.
fn are_alike(rt: &impl Abort, x: &DistMatrix, y: &DistMatrix)
    ensures { y.now.extent ≡ x.now.extent }
{
    let (a, b) = (x.shape(), y.shape());
    assert!(rt; a.rows == b.rows && a.cols == b.cols);
    assert!(rt; a.grid_rows == b.grid_rows && a.grid_cols == b.grid_cols);
}

fn op(rt: &impl Abort, kind: OpKind, modulus: i64) -> Op {
    match kind {
        OpKind::AddMod | OpKind::MulMod => {
            assert!(rt; 1 <= modulus && modulus <= GREATEST_MODULUS);
            Op { kind, modulus }
        }
        _ => Op { kind, modulus: 1 },
    }
}
