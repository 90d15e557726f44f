//! What the members of a group give out, deal out and collect.

use msl_base::{NoMemory, Rec};
use msl_fabric::{Moved, Place, broadcast, gather, scatter};
use msl_group::Group;
use std::alloc::Global;
use std::process::Abort;
use std::test::Fail;

// Part `i` holds `i`.
fn parts(alloc: Global, n: u32) -> Result<Vec<Rec>, NoMemory> {
    let mut all = Vec::new(alloc);
    for i in 0..n {
        all.push(Rec::of_slice(alloc, &[i64::from(i)])?)?;
    }
    Ok(all)
}

fn are_parts(rt: &impl Abort, all: &[Rec], n: u32) {
    assert_eq!(rt; all.len(), n as usize);
    let mut i = 0i64;
    for part in all {
        assert_eq!(rt; part.as_slice(), [i].as_slice(), "of {n} members");
        i = i.wrapping_add(1);
    }
}

fn gives_out(rt: &impl Abort, alloc: Global, group: &Group, root: u32) -> Result<(), NoMemory> {
    assert!(rt; root < group.count());
    let mut moved = Moved::new();
    let mut at = Place {
        stage: 1,
        group,
        fabric: &mut moved,
    };
    let x = Rec::of_slice(alloc, &[i64::from(root), 5])?;
    let all = broadcast(alloc, &mut at, root, &x)?;
    assert_eq!(rt; all.len(), group.count() as usize);
    for part in &all {
        assert_eq!(rt; part.as_slice(), x.as_slice(), "from {root}");
    }
    Ok(())
}

fn deals_out(rt: &impl Abort, alloc: Global, group: &Group, root: u32) -> Result<(), NoMemory> {
    let all = parts(alloc, group.count())?;
    assert!(rt; root < group.count());
    assert!(rt; all.len() == group.count() as usize);
    let mut moved = Moved::new();
    let mut at = Place {
        stage: 1,
        group,
        fabric: &mut moved,
    };
    let dealt = scatter(alloc, &mut at, root, all)?;
    are_parts(rt, &dealt, group.count());
    Ok(())
}

fn collects(rt: &impl Abort, alloc: Global, group: &Group, root: u32) -> Result<(), NoMemory> {
    let all = parts(alloc, group.count())?;
    assert!(rt; root < group.count());
    assert!(rt; all.len() == group.count() as usize);
    let mut moved = Moved::new();
    let mut at = Place {
        stage: 1,
        group,
        fabric: &mut moved,
    };
    let held = gather(alloc, &mut at, root, all)?;
    are_parts(rt, &held, group.count());
    Ok(())
}

fn at_every_root(rt: &impl Abort, alloc: Global, group: &Group) -> Result<(), NoMemory> {
    for root in 0..group.count() {
        gives_out(rt, alloc, group, root)?;
        deals_out(rt, alloc, group, root)?;
        collects(rt, alloc, group, root)?;
    }
    Ok(())
}

#[test]
fn collectives_at_every_root(rt: HostRuntime) -> Result<(), Fail> {
    for members in [1u32, 2, 3, 7] {
        assert!(rt; 1 <= members);
        assert!(rt; members <= 64);
        let group = Group::whole(members);
        let done = at_every_root(&rt, rt.alloc(), &group);
        group.spend();
        done?;
    }
    Ok(())
}
