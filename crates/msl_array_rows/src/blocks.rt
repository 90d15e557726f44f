//! Blocks that change places, by groups that have fewer, as many and more members than there are blocks.

ghost use Rattle.std.specs.Prelude.{◌≡◌, ◌<◌, ◌≤◌, ◌+◌, ◌-◌, ◌/◌, ◌%◌, IfOk};
ghost use Rattle.msl_fabric.specs.Moves.{IsBijection};

use msl_base::{NoMemory, Rec};
use msl_fabric::{Fabric, Joined, Moved, Place, permute_blocks, rotate_blocks};
use msl_group::Group;
use std::alloc::Global;
use std::process::Abort;
use std::test::Fail;

const MEMBERS: &[u32] = &[1, 2, 3, 64];

const BLOCKS: &[u32] = &[1, 2, 7, 130];

// Block `i` holds `i`, from no times to four.
fn block(alloc: Global, i: u32) -> Result<Rec, NoMemory> {
    Ok(Rec::from_vec(vec![in alloc; i64::from(i); (i % 5) as usize]?))
}

fn blocks(alloc: Global, n: u32) -> Result<Vec<Rec>, NoMemory> {
    let mut all = Vec::new(alloc);
    for i in 0..n {
        all.push(block(alloc, i)?)?;
    }
    Ok(all)
}

// The even blocks to the front, and the odd ones behind them.
fn dealt(alloc: Global, n: u32) -> Result<Vec<u32>, NoMemory>
    ensures { IfOk result (λ to. IsBijection n to.items) }
{
    let mut to = Vec::with_capacity(alloc, n as usize)?;
    for i in 0..n {
        to.push_reserved(dealt_to(n, i));
    }
    Ok(to)
}

fn dealt_to(n: u32, i: u32) -> u32
    requires { i < n }
    ensures even { i % 2 < 1 → result ≡ i / 2 }
    ensures odd { 1 ≤ i % 2 → result ≡ n - n / 2 + i / 2 }
{
    if i % 2 == 0 { i / 2 } else { n - n / 2 + i / 2 }
}

fn is_block(
    rt: &impl Abort,
    alloc: Global,
    all: &[Rec],
    place: u32,
    i: u32,
) -> Result<(), NoMemory> {
    let place = place as usize;
    assert!(rt; place < all.len());
    let want = block(alloc, i)?;
    assert_eq!(rt;
        all[place].as_slice(),
        want.as_slice(),
        "block {i} at {place}"
    );
    Ok(())
}

fn permutes<F: Fabric>(
    rt: &impl Abort,
    alloc: Global,
    at: &mut Place<'_, F>,
    n: u32,
) -> Result<(), NoMemory> {
    let to = dealt(alloc, n)?;
    let all = blocks(alloc, n)?;
    assert!(rt; all.len() == n as usize);
    let moved = permute_blocks(alloc, at, all, &to)?;
    assert_eq!(rt; moved.len(), n as usize);
    for i in 0..n {
        is_block(rt, alloc, &moved, to[i as usize], i)?;
    }
    Ok(())
}

fn rotates<F: Fabric>(
    rt: &impl Abort,
    alloc: Global,
    at: &mut Place<'_, F>,
    n: u32,
    by: u32,
) -> Result<(), NoMemory> {
    let all = blocks(alloc, n)?;
    assert!(rt; all.len() == n as usize);
    assert!(rt; by < n);
    let moved = rotate_blocks(alloc, at, all, by)?;
    assert_eq!(rt; moved.len(), n as usize);
    for i in 0..n {
        let place = if i < n - by { i + by } else { i - (n - by) };
        is_block(rt, alloc, &moved, place, i)?;
    }
    Ok(())
}

fn moves<F: Fabric>(rt: &impl Abort, alloc: Global, at: &mut Place<'_, F>) -> Result<(), NoMemory> {
    for n in BLOCKS {
        permutes(rt, alloc, at, *n)?;
        for by in [0, *n / 3, *n / 2, n.saturating_sub(1)] {
            rotates(rt, alloc, at, *n, by)?;
        }
    }
    Ok(())
}

fn by_members<F: Fabric>(
    rt: &impl Abort,
    alloc: Global,
    fabric: &mut F,
    members: u32,
) -> Result<(), NoMemory> {
    assert!(rt; 1 <= members);
    assert!(rt; members <= 64);
    let group = Group::whole(members);
    let mut at = Place {
        stage: 1,
        group: &group,
        fabric,
    };
    let done = moves(rt, alloc, &mut at);
    group.spend();
    done
}

#[test]
fn blocks_change_places(rt: HostRuntime) -> Result<(), Fail> {
    for members in MEMBERS {
        by_members(&rt, rt.alloc(), &mut Moved::new(), *members)?;
    }
    by_members(&rt, rt.alloc(), &mut Joined::new(&rt, 2), 3)?;
    Ok(())
}
