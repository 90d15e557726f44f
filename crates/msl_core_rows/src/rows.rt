//! What events answer.

use msl_core::{Applied, Event, World};
use std::process::Abort;
use std::test::Fail;

// An event, its numbers in the order group, node, then the other.
#[derive(Clone, Copy)]
enum Try {
    Split(u64, u32, u32),
    Shut(u64, u32),
    Post(u64, u32, u32),
    Take(u64, u32),
    Pass(u64, u32),
    Probe(u64),
    Over(u64),
    Lend(u64, u32, u32),
    Back(u64),
}

use Try::{Back, Lend, Over, Pass, Post, Probe, Shut, Split, Take};

impl Try {
    fn event(self) -> Event {
        match self {
            Split(group, node, k) => Event::Split { group, node, k },
            Shut(group, node) => Event::Shut { group, node },
            Post(group, node, to) => Event::Post { group, node, to },
            Take(group, node) => Event::Take { group, node },
            Pass(group, node) => Event::Pass { group, node },
            Probe(group) => Event::Probe { group },
            Over(group) => Event::Over { group },
            Lend(group, node, size) => Event::Lend { group, node, size },
            Back(group) => Event::Back { group },
        }
    }
}

// Events in a world, and whether each happens.
type Steps = &'static [(Try, bool)];

// The nodes of group 0, the one that holds the root, and what is tried in turn.
const ROWS: &[(u32, u32, Steps)] = &[
    // A group of one node ends, and then nothing happens in it.
    (
        1,
        0,
        &[
            (Over(0), false),
            (Probe(0), false),
            (Shut(0, 0), true),
            (Over(0), false),
            (Probe(0), true),
            (Probe(0), false),
            (Over(0), true),
            (Shut(0, 0), false),
            (Split(0, 0, 1), false),
            (Post(0, 0, 0), false),
            (Take(0, 0), false),
            (Pass(0, 0), false),
            (Probe(0), false),
            (Over(0), false),
            (Lend(0, 0, 1), false),
            (Back(0), false),
        ],
    ),
    // A path is lent, and comes back.
    (
        1,
        0,
        &[
            (Lend(0, 0, 2), true),
            (Over(0), false),
            (Probe(0), false),
            (Back(1), false),
            (Shut(1, 0), true),
            (Probe(1), true),
            (Pass(1, 1), true),
            (Over(1), true),
            (Back(1), true),
            (Back(1), false),
            (Probe(0), true),
            (Over(0), true),
            (Back(0), false),
        ],
    ),
    // Split: group, node, held, k.
    (
        2,
        0,
        &[
            (Split(1, 0, 2), false),
            (Split(0, 2, 2), false),
            (Split(0, 1, 2), false),
            (Split(0, 0, 65), false),
            (Split(0, 0, 64), true),
            (Split(0, 0, 0), true),
            (Shut(0, 0), true),
        ],
    ),
    (1, 0, &[(Split(0, 0, 0), true), (Split(0, 0, 0), false)]),
    // Shut: group, node, held.
    (
        2,
        1,
        &[
            (Shut(1, 1), false),
            (Shut(0, 2), false),
            (Shut(0, 0), false),
            (Shut(0, 1), true),
            (Shut(0, 1), false),
        ],
    ),
    // Post and Take: group, node, held, the node that it goes to, the mail.
    (
        2,
        0,
        &[
            (Post(0, 0, 1), false),
            (Split(0, 0, 3), true),
            (Post(1, 0, 1), false),
            (Post(0, 2, 1), false),
            (Post(0, 1, 0), false),
            (Post(0, 0, 2), false),
            (Post(0, 0, 1), true),
            (Post(0, 0, 1), false),
            (Post(0, 0, 0), true),
            (Post(0, 0, 0), false),
            (Take(1, 0), false),
            (Take(0, 2), false),
            (Take(0, 0), true),
            (Take(0, 0), false),
            (Take(0, 1), true),
        ],
    ),
    // Pass: group, node, where the token is, held, lent.
    (
        2,
        1,
        &[
            (Pass(0, 0), false),
            (Pass(0, 1), false),
            (Probe(0), true),
            (Probe(0), false),
            (Pass(1, 1), false),
            (Pass(0, 2), false),
            (Pass(0, 0), false),
            (Pass(0, 1), false),
            (Lend(0, 1, 1), true),
            (Pass(0, 1), false),
            (Shut(1, 0), true),
            (Probe(1), true),
            (Over(1), true),
            (Pass(0, 1), false),
            (Back(1), true),
            (Pass(0, 1), true),
            (Probe(1), false),
            (Probe(2), false),
            (Over(2), false),
        ],
    ),
    // Over: the sum, then the colour of node 0.
    (
        2,
        1,
        &[
            (Probe(0), true),
            (Over(0), false),
            (Split(0, 1, 3), true),
            (Post(0, 1, 0), true),
            (Shut(0, 1), true),
            (Shut(0, 1), true),
            (Pass(0, 1), true),
            (Over(0), false),
            (Take(0, 0), true),
            (Over(0), false),
            (Shut(0, 0), true),
            (Over(0), false),
            (Probe(0), true),
            (Over(0), false),
            (Pass(0, 1), true),
            (Over(0), true),
        ],
    ),
    // Over: the colour of the token, which it has of node 1.
    (
        2,
        0,
        &[
            (Split(0, 0, 2), true),
            (Post(0, 0, 1), true),
            (Shut(0, 0), true),
            (Probe(0), true),
            (Take(0, 1), true),
            (Shut(0, 1), true),
            (Pass(0, 1), true),
            (Over(0), false),
            (Probe(0), true),
            (Pass(0, 1), true),
            (Probe(0), false),
            (Over(0), true),
        ],
    ),
    // Lend and Back: group, node, held, size; whether it is over, and lent to.
    (
        2,
        0,
        &[
            (Lend(1, 0, 1), false),
            (Lend(0, 2, 1), false),
            (Lend(0, 1, 1), false),
            (Lend(0, 0, 0), false),
            (Lend(0, 0, 65), false),
            (Lend(0, 0, 64), true),
            (Lend(0, 0, 1), false),
            (Lend(1, 0, 1), true),
            (Shut(2, 0), true),
            (Probe(2), true),
            (Back(2), false),
            (Over(2), true),
            (Over(1), false),
            (Back(3), false),
            (Back(0), false),
            (Back(1), false),
            (Back(2), true),
            (Back(2), false),
        ],
    ),
];

// It happens where it is to, and else is refused by its own name.
fn tries(rt: &impl Abort, world: &mut World, event: Event, happens: bool, row: usize) {
    match world.apply(event) {
        Applied::Done => assert!(rt; happens, "row {row}: {event:?}"),
        Applied::NotEnabled(refused) => {
            assert!(rt; !happens, "row {row}: {event:?}");
            assert_eq!(rt; refused, event, "row {row}");
        }
        Applied::NoMemory => assert!(rt; false, "row {row}: no memory"),
    }
}

#[test]
fn events_happen_or_are_refused(rt: HostRuntime) -> Result<(), Fail> {
    for (row, &(n, start, steps)) in ROWS.iter().enumerate() {
        assert!(rt; start < n && n <= 64);
        let mut world = World::new(rt.alloc(), n, start)?;
        for &(step, happens) in steps {
            tries(&rt, &mut world, step.event(), happens, row);
        }
    }
    Ok(())
}

// A path of 64 steps isn't split.
#[test]
fn paths_have_64_levels(rt: HostRuntime) -> Result<(), Fail> {
    let mut world = World::new(rt.alloc(), 1, 0)?;
    for _ in 0..64 {
        tries(&rt, &mut world, Split(0, 0, 1).event(), true, 0);
    }
    tries(&rt, &mut world, Split(0, 0, 1).event(), false, 1);
    tries(&rt, &mut world, Split(0, 0, 0).event(), false, 2);
    tries(&rt, &mut world, Shut(0, 0).event(), true, 3);
    Ok(())
}

// 64 children are 64 paths, and a group of 64 nodes passes its token 63 times.
#[test]
fn counts_of_64(rt: HostRuntime) -> Result<(), Fail> {
    let mut world = World::new(rt.alloc(), 64, 63)?;
    tries(&rt, &mut world, Split(0, 63, 64).event(), true, 0);
    for _ in 0..64 {
        tries(&rt, &mut world, Shut(0, 63).event(), true, 1);
    }
    tries(&rt, &mut world, Shut(0, 63).event(), false, 2);
    tries(&rt, &mut world, Probe(0).event(), true, 3);
    for back in 0..63 {
        tries(&rt, &mut world, Pass(0, 63 - back).event(), true, 4);
    }
    tries(&rt, &mut world, Over(0).event(), true, 5);
    Ok(())
}
