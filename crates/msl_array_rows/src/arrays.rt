//! What a call on arrays comes to, at groups of each size and by each fabric.

ghost use Rattle.msl_local.specs.Places.{Takes};

use msl_array::DistArray;
use msl_base::limits::GREATEST_MODULUS;
use msl_base::{Fault, Halt, NoMemory, Rec, Small};
use msl_fabric::{Fabric, Joined, Moved, Place};
use msl_group::Group;
use msl_lex::lex;
use msl_muscle::{Funs, ParseFault, Use, parse_fun};
use msl_ops::{Op, OpKind};
use std::alloc::Global;
use std::process::Abort;
use std::test::Fail;
use std::thread::Threads;

// The stage of each call.
const STAGE: u32 = 3;

/// A call, by the name of its function, or by its operator and its modulus; `Foldl` with its first value. The functions
/// of moves are given a number before the place. `Same` is none, and gives the array's own list.
#[derive(Clone, Copy, Debug)]
pub enum Call {
    Same,
    Map(&'static str),
    MapIndex(&'static str),
    Zip(&'static str),
    ZipIndex(&'static str),
    Scan(OpKind, i64),
    Fold(OpKind, i64),
    Foldl(&'static str, i64),
    Permute(&'static str, i64),
    PermutePartition(&'static str, i64),
    BroadcastPartition(u32),
}

/// A fault of the stage of the call.
#[derive(Clone, Copy)]
pub enum Stop {
    Overflow,
    DivZero,
    Shape(u64, u64),
    NotPermutation,
    Ragged,
}

/// A call on a list, or on two, and what comes of it; a number is a list of one.
#[derive(Clone, Copy)]
pub struct Case<'a> {
    pub call: Call,
    pub xs: &'a [i64],
    pub ys: &'a [i64],
    pub want: Result<&'a [i64], Stop>,
}

// How many blocks, and members where the first array is made and the call runs, and where the second is made.
#[derive(Clone, Copy)]
struct Setting<'a> {
    alloc: Global,
    funs: &'a Funs,
    blocks: u32,
    groups: (u32, u32),
}

// Numbers of blocks, and of members.
type Sizes = (&'static [u32], &'static [(u32, u32)]);

const SIZES: Sizes = (
    &[1, 2, 3, 7, 1024],
    &[(1, 1), (2, 2), (3, 3), (64, 64), (1, 64), (3, 2), (64, 3)],
);

// Those of long lists.
const FEW_SIZES: Sizes = (&[7], &[(3, 3), (64, 2)]);

/// The case in blocks and groups of each size, and by each fabric.
pub fn meet(rt: &(impl Abort + Threads), alloc: Global, case: &Case<'_>) -> Result<(), Fail> {
    let long = case.xs.len() > 1024;
    let (blocks, groups) = if long { FEW_SIZES } else { SIZES };
    meet_at(rt, alloc, blocks, groups, case)
}

/// The case in so many blocks, in groups of each size, and by each fabric.
pub fn meet_in(
    rt: &(impl Abort + Threads),
    alloc: Global,
    blocks: u32,
    case: &Case<'_>,
) -> Result<(), Fail> {
    let (_, groups) = SIZES;
    meet_at(rt, alloc, &[blocks], groups, case)
}

fn meet_at(
    rt: &(impl Abort + Threads),
    alloc: Global,
    blocks: &[u32],
    groups: &[(u32, u32)],
    case: &Case<'_>,
) -> Result<(), Fail> {
    let funs = functions(rt, alloc)?;
    for &blocks in blocks {
        for &groups in groups {
            let here = Setting {
                alloc,
                funs: &funs,
                blocks,
                groups,
            };
            by_each_fabric(rt, here, case);
        }
    }
    Ok(())
}

fn by_each_fabric(rt: &(impl Abort + Threads), here: Setting<'_>, case: &Case<'_>) {
    is_met(rt, &mut Moved::new(), here, case);
    for threads in [1, 2, 4] {
        assert!(rt; threads <= 64);
        is_met(rt, &mut Joined::new(rt, threads), here, case);
    }
}

fn is_met<F: Fabric>(rt: &impl Abort, fabric: &mut F, here: Setting<'_>, case: &Case<'_>) {
    let met = match (outcome(rt, fabric, here, case), case.want) {
        (Ok(got), Ok(want)) => got.as_slice() == want,
        (Err(Halt::Fault(fault)), Err(want)) => is_fault(&fault, want),
        _ => false,
    };
    let (call, n, blocks, groups) = (case.call, case.xs.len(), here.blocks, here.groups);
    assert!(rt; met, "{call:?} of {n} in {blocks} blocks at {groups:?}");
}

fn is_fault(fault: &Fault, want: Stop) -> bool {
    match (fault, want) {
        (Fault::Overflow(stage), Stop::Overflow) => *stage == STAGE,
        (Fault::DivZero(stage), Stop::DivZero) => *stage == STAGE,
        (Fault::Shape(stage, got, own), Stop::Shape(m, n)) => (*stage, *got, *own) == (STAGE, m, n),
        (Fault::NotPermutation(stage), Stop::NotPermutation) => *stage == STAGE,
        (Fault::Ragged(stage), Stop::Ragged) => *stage == STAGE,
        _ => false,
    }
}

fn outcome<F: Fabric>(
    rt: &impl Abort,
    fabric: &mut F,
    here: Setting<'_>,
    case: &Case<'_>,
) -> Result<Rec, Halt> {
    let x = laid(rt, fabric, here, here.groups.0, case.xs)?;
    let y = laid(rt, fabric, here, here.groups.1, case.ys)?;
    let group = whole(rt, here.groups.0);
    let mut at = Place {
        stage: STAGE,
        group: &group,
        fabric,
    };
    let got = called(rt, &mut at, here, case.call, &x, &y);
    group.spend();
    got
}

fn whole(rt: &impl Abort, members: u32) -> Group {
    assert!(rt; 1 <= members && members <= 64);
    Group::whole(members)
}

// A list in blocks, at a group of so many members.
fn laid<F: Fabric>(
    rt: &impl Abort,
    fabric: &mut F,
    here: Setting<'_>,
    members: u32,
    xs: &[i64],
) -> Result<DistArray, NoMemory> {
    assert!(rt; 1 <= here.blocks && here.blocks <= 1024);
    let group = whole(rt, members);
    let mut at = Place {
        stage: STAGE,
        group: &group,
        fabric,
    };
    let array = DistArray::of_rec(here.alloc, &mut at, here.blocks, xs);
    group.spend();
    array
}

fn called<F: Fabric>(
    rt: &impl Abort,
    at: &mut Place<'_, F>,
    here: Setting<'_>,
    call: Call,
    x: &DistArray,
    y: &DistArray,
) -> Result<Rec, Halt> {
    let (alloc, funs) = (here.alloc, here.funs);
    assert!(rt; x.blocks() == here.blocks);
    assert!(rt; y.blocks() == x.blocks());
    let array = match call {
        Call::Same => return Ok(x.to_rec(alloc, at)?),
        Call::Fold(kind, modulus) => return number(alloc, x.fold(alloc, at, op(rt, kind, modulus))),
        Call::Foldl(name, first) => {
            let u = function(rt, funs, name, 2);
            return number(alloc, x.foldl(alloc, at, u, first));
        }
        Call::Map(name) => x.map(alloc, at, function(rt, funs, name, 1)),
        Call::MapIndex(name) => x.map_index(alloc, at, function(rt, funs, name, 2)),
        Call::Zip(name) => x.zip_with(alloc, at, function(rt, funs, name, 2), y),
        Call::ZipIndex(name) => x.zip_index(alloc, at, function(rt, funs, name, 3), y),
        Call::Scan(kind, modulus) => x.scan(alloc, at, op(rt, kind, modulus)),
        Call::Permute(name, k) => x.permute(alloc, at, given(rt, funs, name, k)),
        Call::PermutePartition(name, k) => x.permute_partition(alloc, at, given(rt, funs, name, k)),
        Call::BroadcastPartition(j) => {
            assert!(rt; j < here.blocks);
            x.broadcast_partition(alloc, at, j)
        }
    };
    let array = array?;
    assert!(rt; array.blocks() == here.blocks);
    Ok(array.to_rec(alloc, at)?)
}

fn number(alloc: Global, x: Result<i64, Halt>) -> Result<Rec, Halt> {
    Ok(Rec::of_slice(alloc, &[x?])?)
}

fn op(rt: &impl Abort, kind: OpKind, modulus: i64) -> Op {
    match kind {
        OpKind::AddMod | OpKind::MulMod => {
            assert!(rt; 1 <= modulus && modulus <= GREATEST_MODULUS);
            Op { kind, modulus }
        }
        _ => Op { kind, modulus: 1 },
    }
}

const TEXTS: &[&str] = &[
    "fun twice(x) = x + x;",
    "fun sum(x, y) = x + y;",
    "fun minus(x, y) = x - y;",
    "fun turned(x, y) = y - x;",
    "fun quotient(x, y) = x / y;",
    "fun by_zero(x) = x / 0;",
    "fun sum3(i, x, y) = i + x + y;",
    "fun differ(i, x, y) = i + x - y;",
    // 1 and 2 fault, and differ in how.
    "fun fault1(x) = if x == 1 then x / 0 else if x == 2 then x + 9223372036854775807 else x;",
    "fun fault2(i, x) = if x == 1 then i / 0 else if x == 2 then x + 9223372036854775807 else i;",
    "fun fault3(i, x, y) = if x == 1 then i / 0 else if x == 2 then x + 9223372036854775807 else y;",
    // Where what is at place i goes.
    "fun same(k, i) = i;",
    "fun all_at(k, i) = k;",
    "fun moved(k, i) = i + k;",
    "fun round(k, i) = (i + 1) % k;",
    "fun strides(k, i) = 7919 * i % k;",
    "fun again(k, i) = if i == k then 0 else i;",
    "fun away(k, i) = if i == 1 then k else i;",
    // k and the place behind it fault, and differ in how; all others go to 0.
    "fun divides(k, i) = if i == k then i / 0 else if i == k + 1 then i + 9223372036854775807 else 0;",
    "fun exceeds(k, i) = if i == k then i + 9223372036854775807 else if i == k + 1 then i / 0 else 0;",
];

// All functions.
fn functions(rt: &impl Abort, alloc: Global) -> Result<Funs, ParseFault> {
    let mut funs = Funs::new(alloc);
    for text in TEXTS {
        add(rt, alloc, text.as_bytes(), &mut funs)?;
    }
    Ok(funs)
}

fn add(rt: &impl Abort, alloc: Global, text: &[u8], funs: &mut Funs) -> Result<(), ParseFault> {
    assert!(rt; text.len() <= 1 << 20);
    let Ok(tokens) = lex(alloc, text) else {
        return Err(ParseFault::NoMemory);
    };
    assert!(rt; !tokens.as_slice().is_empty());
    let (fun, _) = parse_fun(alloc, text, &tokens, 0, funs)?;
    funs.add(fun)?;
    Ok(())
}

// The function of a name, which is given k and takes one number behind it.
fn given<'a>(rt: &impl Abort, funs: &'a Funs, name: &str, k: i64) -> Use<'a>
    ensures { Takes result 1 }
{
    let at = funs.find(name).expect(rt, "a function of the name");
    assert!(rt; (at as usize) < funs.as_slice().len());
    let f = funs.muscle(at);
    assert!(rt; f.widths() == (2, 1));
    let extra = Small::of(&[k]);
    Use { f, extra }
}

// The function of a name, which takes so many numbers and gives one.
fn function<'a>(rt: &impl Abort, funs: &'a Funs, name: &str, takes: usize) -> Use<'a>
    ensures { Takes result takes }
{
    let at = funs.find(name).expect(rt, "a function of the name");
    assert!(rt; (at as usize) < funs.as_slice().len());
    let f = funs.muscle(at);
    assert!(rt; f.widths() == (takes, 1));
    let extra = Small::of(&[]);
    Use { f, extra }
}
