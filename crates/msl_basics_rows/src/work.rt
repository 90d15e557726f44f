//! Work at several places, in turn and side by side.

use msl_side::{beside, in_turn};
use std::process::Abort;
use std::test::Fail;

// How many places, which of them refuse, and what is answered: what the places give, or the place that refuses.
const ROWS: &[(usize, &[usize], Result<&[usize], usize>)] = &[
    (0, &[], Ok(&[])),
    (0, &[0], Ok(&[])),
    (1, &[], Ok(&[0])),
    (1, &[0], Err(0)),
    (2, &[], Ok(&[0, 10])),
    (2, &[1], Err(1)),
    (2, &[0, 1], Err(0)),
    (7, &[], Ok(&[0, 10, 20, 30, 40, 50, 60])),
    (7, &[7], Ok(&[0, 10, 20, 30, 40, 50, 60])),
    (7, &[5, 2], Err(2)),
    (7, &[6], Err(6)),
];

// Ten times the place, or the place where it refuses.
fn given(i: usize, refusing: &[usize]) -> Result<usize, usize> {
    if refusing.contains(&i) {
        return Err(i);
    }
    Ok(i.wrapping_mul(10))
}

fn is_answer(
    rt: &impl Abort,
    answer: &Result<Vec<usize>, usize>,
    want: &Result<&[usize], usize>,
    n: usize,
) {
    match (answer, want) {
        (Ok(all), Ok(want)) => assert_eq!(rt; all.as_slice(), *want, "of {n} places"),
        (Err(i), Err(want)) => assert_eq!(rt; i, want, "of {n} places"),
        _ => assert!(rt; false, "of {n} places"),
    }
}

#[test]
fn places_in_turn(rt: HostRuntime) -> Result<(), Fail> {
    for (n, refusing, want) in ROWS {
        let room = Vec::with_capacity(rt.alloc(), *n)?;
        let answer = in_turn(*n, &|i: usize| given(i, refusing), room);
        is_answer(&rt, &answer, want, *n);
    }
    Ok(())
}

#[test]
fn places_side_by_side(rt: HostRuntime) -> Result<(), Fail> {
    for (n, refusing, want) in ROWS {
        let room = Vec::with_capacity(rt.alloc(), *n)?;
        let answer = beside(&rt, *n, &|i: usize| given(i, refusing), room);
        is_answer(&rt, &answer, want, *n);
    }
    Ok(())
}
