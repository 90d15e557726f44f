//! Lists of no numbers to 300,000, of which the last are worked on by threads, with results by a plain loop.

use crate::arrays::{Call, Case, meet};
use msl_ops::OpKind;
use std::alloc::{AllocError, Global};
use std::process::Abort;
use std::test::Fail;
use std::thread::Threads;

// Calls, each with what it begins with.
const CALLS: &[(Call, i64)] = &[
    (Call::Same, 0),
    (Call::Map("twice"), 0),
    (Call::MapIndex("sum"), 0),
    (Call::Zip("minus"), 0),
    (Call::ZipIndex("differ"), 0),
    (Call::Foldl("turned", 7), 7),
    (Call::Scan(OpKind::Sum, 1), 0),
    (Call::Scan(OpKind::Min, 1), i64::MAX),
    (Call::Fold(OpKind::Sum, 1), 0),
    (Call::Fold(OpKind::Min, 1), i64::MAX),
];

// Numbers in no order, of both signs.
fn numbers(alloc: Global, first: i64, n: usize) -> Result<Vec<i64>, AllocError> {
    let mut all = Vec::new(alloc);
    let mut x = first;
    for _ in 0..n {
        all.push(x)?;
        x = x.wrapping_mul(-7919).wrapping_add(13).wrapping_rem(1009);
    }
    Ok(all)
}

// What is given at a place, where `before` was given at the one before it.
fn given(call: Call, before: i64, i: i64, x: i64, y: i64) -> i64 {
    match call {
        Call::Same => x,
        Call::Map(_) => x.wrapping_add(x),
        Call::MapIndex(_) => i.wrapping_add(x),
        Call::Zip(_) => x.wrapping_sub(y),
        Call::ZipIndex(_) => i.wrapping_add(x).wrapping_sub(y),
        Call::Scan(OpKind::Min, _) | Call::Fold(OpKind::Min, _) => before.min(x),
        Call::Scan(..) | Call::Fold(..) => before.wrapping_add(x),
        Call::Foldl(..) => x.wrapping_sub(before),
        // What moves isn't given place by place.
        Call::Permute(..) | Call::PermutePartition(..) | Call::BroadcastPartition(_) => before,
    }
}

fn all_given(
    alloc: Global,
    call: Call,
    first: i64,
    xs: &[i64],
    ys: &[i64],
) -> Result<Vec<i64>, AllocError> {
    let mut all = Vec::new(alloc);
    let (mut i, mut value) = (0, first);
    for (x, y) in xs.iter().zip(ys) {
        value = given(call, value, i, *x, *y);
        all.push(value)?;
        i = i.wrapping_add(1);
    }
    if matches!(call, Call::Fold(..) | Call::Foldl(..)) {
        all.clear();
        all.push(value)?;
    }
    Ok(all)
}

fn case<'a>(call: Call, xs: &'a [i64], ys: &'a [i64], all: &'a [i64]) -> Case<'a> {
    let want = Ok(all);
    Case { call, xs, ys, want }
}

fn meet_lists(rt: &(impl Abort + Threads), alloc: Global, n: usize) -> Result<(), Fail> {
    let xs = numbers(alloc, 3, n)?;
    let ys = numbers(alloc, 5, n)?;
    let (xs, ys) = (xs.as_slice(), ys.as_slice());
    for &(call, first) in CALLS {
        let all = all_given(alloc, call, first, xs, ys)?;
        meet(rt, alloc, &case(call, xs, ys, all.as_slice()))?;
    }
    Ok(())
}

#[test]
fn lists_by_a_loop(rt: HostRuntime) -> Result<(), Fail> {
    for n in [0, 1, 5, 1024, 20_000, 300_000] {
        meet_lists(&rt, rt.alloc(), n)?;
    }
    Ok(())
}
