//! Moves of elements and of blocks, with results and faults that are given, and long lists by a plain loop.

use crate::arrays::Call::{BroadcastPartition, Permute, PermutePartition};
use crate::arrays::{Call, Case, Stop, meet, meet_in};
use std::alloc::{AllocError, Global};
use std::process::Abort;
use std::test::Fail;
use std::thread::Threads;

type Wanted = Result<&'static [i64], Stop>;

const MAX: i64 = i64::MAX;

const MIN: i64 = i64::MIN;

const NOT_PERMUTATION: Wanted = Err(Stop::NotPermutation);

const RAGGED: Wanted = Err(Stop::Ragged);

const OVERFLOW: Wanted = Err(Stop::Overflow);

const BY_0: Wanted = Err(Stop::DivZero);

// Moves of elements, which are the same in any blocks.
const PERMUTED: &[(Call, &[i64], Wanted)] = &[
    (Permute("minus", 2), &[1, 2, 3], Ok(&[3, 2, 1])),
    (Permute("same", 0), &[7, MIN, MAX], Ok(&[7, MIN, MAX])),
    (Permute("round", 5), &[1, 2, 3, 4, 5], Ok(&[5, 1, 2, 3, 4])),
    (
        Permute("strides", 5),
        &[1, 2, 3, 4, 5],
        Ok(&[1, 5, 4, 3, 2]),
    ),
    (Permute("all_at", 0), &[9], Ok(&[9])),
    (Permute("all_at", 0), &[], Ok(&[])),
    (Permute("divides", 0), &[], Ok(&[])),
    // The last place alone isn't one to one, or is the only one.
    (Permute("again", 4), &[1, 2, 3, 4, 5], NOT_PERMUTATION),
    (Permute("all_at", 1), &[9], NOT_PERMUTATION),
    (Permute("all_at", 0), &[1, 2], NOT_PERMUTATION),
    // No target lies outside, and none is taken modulo.
    (Permute("moved", -1), &[1, 2, 3], NOT_PERMUTATION),
    (Permute("moved", 1), &[1, 2, 3], NOT_PERMUTATION),
    (Permute("away", -1), &[1, 2, 3], NOT_PERMUTATION),
    (Permute("away", 3), &[1, 2, 3], NOT_PERMUTATION),
    (Permute("away", MIN), &[1, 2, 3], NOT_PERMUTATION),
    (Permute("away", MAX), &[1, 2, 3], NOT_PERMUTATION),
    (Permute("away", 4294967297), &[1, 2, 3], NOT_PERMUTATION),
    // The fault at the least place, wherever places are repeated.
    (Permute("divides", 0), &[1], BY_0),
    (Permute("divides", 3), &[1, 2, 3, 4, 5], BY_0),
    (Permute("exceeds", 3), &[1, 2, 3, 4, 5], OVERFLOW),
    (Permute("exceeds", 4), &[1, 2, 3, 4, 5], OVERFLOW),
    (Permute("exceeds", 5), &[1, 2, 3, 4, 5], NOT_PERMUTATION),
];

const SEVEN: &[i64] = &[1, 2, 3, 4, 5, 6, 7];

const SIX: &[i64] = &[1, 2, 3, 4, 5, 6];

const FIVE: &[i64] = &[1, 2, 3, 4, 5];

const FOUR: &[i64] = &[1, 2, 3, 4];

// How many blocks, and the moves of blocks.
const BLOCKS: &[(u32, Call, &[i64], Wanted)] = &[
    (
        3,
        PermutePartition("round", 3),
        SIX,
        Ok(&[5, 6, 1, 2, 3, 4]),
    ),
    (2, PermutePartition("minus", 1), FOUR, Ok(&[3, 4, 1, 2])),
    (4, PermutePartition("minus", 3), FOUR, Ok(&[4, 3, 2, 1])),
    (
        7,
        PermutePartition("strides", 7),
        SEVEN,
        Ok(&[1, 5, 2, 6, 3, 7, 4]),
    ),
    (1, PermutePartition("all_at", 0), FIVE, Ok(FIVE)),
    (1024, PermutePartition("minus", 1023), &[], Ok(&[])),
    (3, PermutePartition("all_at", 0), SIX, NOT_PERMUTATION),
    (3, PermutePartition("again", 2), SIX, NOT_PERMUTATION),
    (3, PermutePartition("moved", -1), SIX, NOT_PERMUTATION),
    (3, PermutePartition("moved", 1), SIX, NOT_PERMUTATION),
    (1, PermutePartition("all_at", 1), FIVE, NOT_PERMUTATION),
    (3, PermutePartition("all_at", 0), &[], NOT_PERMUTATION),
    // Blocks that differ in size come before all faults of the function, and these before places that are repeated.
    (3, PermutePartition("divides", 0), FIVE, RAGGED),
    (3, PermutePartition("round", 3), SEVEN, RAGGED),
    (3, PermutePartition("all_at", 0), FIVE, RAGGED),
    (1024, PermutePartition("same", 0), SEVEN, RAGGED),
    (3, PermutePartition("divides", 0), SIX, BY_0),
    (3, PermutePartition("divides", 1), SIX, BY_0),
    (3, PermutePartition("exceeds", 1), SIX, OVERFLOW),
    (3, PermutePartition("exceeds", 2), SIX, OVERFLOW),
    (3, PermutePartition("exceeds", 3), SIX, NOT_PERMUTATION),
    (2, PermutePartition("divides", 1), &[], BY_0),
    (2, BroadcastPartition(1), FOUR, Ok(&[3, 4, 3, 4])),
    (3, BroadcastPartition(0), SIX, Ok(&[1, 2, 1, 2, 1, 2])),
    (3, BroadcastPartition(2), SIX, Ok(&[5, 6, 5, 6, 5, 6])),
    (7, BroadcastPartition(3), SEVEN, Ok(&[4, 4, 4, 4, 4, 4, 4])),
    (1, BroadcastPartition(0), FIVE, Ok(FIVE)),
    (3, BroadcastPartition(1), &[], Ok(&[])),
    (1024, BroadcastPartition(1023), &[], Ok(&[])),
    (3, BroadcastPartition(2), FIVE, RAGGED),
    (3, BroadcastPartition(0), SEVEN, RAGGED),
    (1024, BroadcastPartition(1023), SEVEN, RAGGED),
];

// The numbers from 0 on, each at a place that is 7919 places behind that of the one before it, and round.
fn strided(rt: &impl Abort, alloc: Global, n: usize) -> Result<Vec<i64>, AllocError> {
    assert!(rt; n > 0);
    let mut all = vec![in alloc; 0; n]?;
    let (mut to, mut x) = (0usize, 0i64);
    for _ in 0..n {
        if let Some(place) = all.as_mut_slice().get_mut(to) {
            *place = x;
        }
        to = to.wrapping_add(7919) % n;
        x = x.wrapping_add(1);
    }
    Ok(all)
}

fn meet_long(rt: &(impl Abort + Threads), alloc: Global, n: usize) -> Result<(), Fail> {
    let mut all = Vec::new(alloc);
    let mut k = 0i64;
    for _ in 0..n {
        all.push(k)?;
        k = k.wrapping_add(1);
    }
    let (xs, ys) = (all.as_slice(), all.as_slice());
    let want = strided(rt, alloc, n)?;
    let (last, moved) = (k.wrapping_sub(1), Ok(want.as_slice()));
    for (call, want) in [
        (Permute("strides", k), moved),
        (Permute("again", last), NOT_PERMUTATION),
        (Permute("divides", last), BY_0),
    ] {
        meet(rt, alloc, &Case { call, xs, ys, want })?;
    }
    Ok(())
}

#[test]
fn elements_move(rt: HostRuntime) -> Result<(), Fail> {
    for &(call, xs, want) in PERMUTED {
        let ys = xs;
        meet(&rt, rt.alloc(), &Case { call, xs, ys, want })?;
    }
    Ok(())
}

#[test]
fn blocks_move(rt: HostRuntime) -> Result<(), Fail> {
    for &(blocks, call, xs, want) in BLOCKS {
        let ys = xs;
        meet_in(&rt, rt.alloc(), blocks, &Case { call, xs, ys, want })?;
    }
    Ok(())
}

#[test]
fn elements_of_long_lists_move(rt: HostRuntime) -> Result<(), Fail> {
    for n in [5, 1024, 20_000] {
        meet_long(&rt, rt.alloc(), n)?;
    }
    Ok(())
}
