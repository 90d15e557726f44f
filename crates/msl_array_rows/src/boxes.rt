//! Boxes, and exchanges of them.

use msl_base::{NoMemory, Rec};
use msl_fabric::{Boxes, Fabric, Moved, Place, all_to_all};
use msl_group::Group;
use std::alloc::Global;
use std::process::Abort;
use std::test::Fail;

// How many rows and columns.
const SIDES: &[u32] = &[1, 2, 3, 64];

fn empty(rt: &impl Abort, alloc: Global, n: u32) -> Result<Boxes, NoMemory> {
    assert!(rt; 1 <= n);
    assert!(rt; n <= 64);
    Boxes::new(alloc, n)
}

fn put(rt: &impl Abort, boxes: &mut Boxes, i: u32, j: u32, x: Rec) {
    let n = boxes.count();
    assert!(rt; i < n);
    assert!(rt; j < n);
    boxes.put(i, j, x);
}

fn is_taken(rt: &impl Abort, boxes: &mut Boxes, i: u32, j: u32, want: &[i64]) {
    let n = boxes.count();
    assert!(rt; i < n);
    assert!(rt; j < n);
    assert_eq!(rt; boxes.take(i, j).as_slice(), want, "box {i} {j} of {n}");
}

// Box `(i, j)` holds `i` and `j`.
fn marked(rt: &impl Abort, alloc: Global, n: u32) -> Result<Boxes, NoMemory> {
    let mut boxes = empty(rt, alloc, n)?;
    for i in 0..n {
        for j in 0..n {
            let mark = Rec::of_slice(alloc, &[i64::from(i), i64::from(j)])?;
            put(rt, &mut boxes, i, j, mark);
        }
    }
    Ok(boxes)
}

// Box `(i, j)` holds `j` and `i`, and nothing once it was taken.
fn are_turned(rt: &impl Abort, boxes: &mut Boxes) {
    let n = boxes.count();
    for i in 0..n {
        for j in 0..n {
            is_taken(rt, boxes, i, j, &[i64::from(j), i64::from(i)]);
            is_taken(rt, boxes, i, j, &[]);
        }
    }
}

#[test]
fn boxes_are_empty_at_first(rt: HostRuntime) -> Result<(), Fail> {
    for n in SIDES {
        let mut boxes = empty(&rt, rt.alloc(), *n)?;
        assert_eq!(rt; boxes.count(), *n);
        for i in 0..*n {
            for j in 0..*n {
                is_taken(&rt, &mut boxes, i, j, &[]);
            }
        }
    }
    Ok(())
}

#[test]
fn a_box_keeps_the_last_record(rt: HostRuntime) -> Result<(), Fail> {
    let mut boxes = marked(&rt, rt.alloc(), 3)?;
    put(&rt, &mut boxes, 2, 1, Rec::of_slice(rt.alloc(), &[9])?);
    is_taken(&rt, &mut boxes, 1, 2, &[1, 2]);
    is_taken(&rt, &mut boxes, 2, 1, &[9]);
    is_taken(&rt, &mut boxes, 2, 1, &[]);
    is_taken(&rt, &mut boxes, 2, 2, &[2, 2]);
    Ok(())
}

#[test]
fn an_exchange_turns_every_box(rt: HostRuntime) -> Result<(), Fail> {
    for n in SIDES {
        let out = marked(&rt, rt.alloc(), *n)?;
        let mut got = Moved::new().exchange(rt.alloc(), out)?;
        are_turned(&rt, &mut got);
    }
    Ok(())
}

#[test]
fn all_to_all_is_the_exchange(rt: HostRuntime) -> Result<(), Fail> {
    for n in SIDES {
        let out = marked(&rt, rt.alloc(), *n)?;
        assert!(rt; 1 <= *n);
        assert!(rt; *n <= 64);
        let group = Group::whole(*n);
        let mut at = Place {
            stage: 1,
            group: &group,
            fabric: &mut Moved::new(),
        };
        let got = all_to_all(rt.alloc(), &mut at, out);
        group.spend();
        are_turned(&rt, &mut got?);
    }
    Ok(())
}
