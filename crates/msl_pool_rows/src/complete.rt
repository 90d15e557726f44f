//! Complete trees whose nodes are counted.

ghost use Rattle.std.specs.Prelude.{◌≡◌, ◌<◌, length, OnOk};
ghost use Rattle.msl_pool_rows.specs.Holding.{HoldsChildren};

use msl_base::limits::MOST_MEMBERS;
use msl_base::{Fault, Halt, NoMemory, Path};
use msl_pool::{Held, Search, by_turns};
use std::alloc::Global;
use std::collections::VecDeque;
use std::process::Abort;

// Each node has so many children, but for those of the last level.
const CHILDREN: u8 = 3;

const LEVELS: u8 = 5;

// How many nodes were worked on. It stops at the one after the most.
#[derive(Drop)]
struct Count {
    nodes: u64,
    most: u64,
}

impl Search for Count {
    ghost use Rattle.std.specs.Prelude.{◌≡◌, ⊤, length};
    ghost use Rattle.msl_base.specs.declared.answer.Halt.TheVariants as halt;
    ghost use Rattle.msl_base.specs.declared.fault.Fault.TheVariants as fault;

    // The level.
    type Node = u8;

    ghost is_node = { λ _ q n. n ≡ length q };

    ghost has = { λ _ _ _. ⊤ };

    ghost stops = { λ _ h. h ≡ halt.Fault (fault.Overflow 7) };

    fn node_at(&self, path: &Path) -> u8 {
        path.as_slice().len() as u8
    }

    fn work(
        &mut self,
        _alloc: Global,
        at: &Held<u8>,
        held: &mut VecDeque<Held<u8>>,
    ) -> Result<(), Halt> {
        if self.nodes >= self.most {
            return Err(Halt::Fault(Fault::Overflow(7)));
        }
        self.nodes += 1;
        if at.node >= LEVELS {
            return Ok(());
        }
        hold_children(at, held)?;
        Ok(())
    }
}

// Holds the children of a path, the first last.
fn hold_children(at: &Held<u8>, held: &mut VecDeque<Held<u8>>) -> Result<(), NoMemory>
    requires level { at.now.node ≡ length at.now.path }
    requires above { at.now.node < LEVELS }
    ensures { OnOk result (HoldsChildren CHILDREN 0 at.now.path held.old.items held.new.items) }
{
    let mut left = CHILDREN;
    while left > 0 {
        left -= 1;
        let path = at.path.push(left).unwrap();
        held.push_back(Held {
            path,
            node: at.node + 1,
        })?;
    }
    Ok(())
}

// How many members work, on how many nodes at most, on how many they do, and whether that is all.
const ROWS: &[(u32, u64, u64, bool)] = &[
    (1, 1_000, 364, true),
    (2, 1_000, 364, true),
    (7, 1_000, 364, true),
    (64, 1_000, 364, true),
    (64, 364, 364, true),
    (64, 363, 363, false),
    (7, 100, 100, false),
    (1, 0, 0, false),
];

#[test]
fn each_node_is_worked_on_once(rt: HostRuntime) {
    for &(members, most, nodes, whole) in ROWS {
        assert!(rt; 1 <= members && members <= MOST_MEMBERS);
        let mut count = Count { nodes: 0, most };
        let done = by_turns(rt.alloc(), &mut count, members, 0);
        assert_eq!(rt;
            (count.nodes, done.is_ok()),
            (nodes, whole),
            "by {members}, at most {most}"
        );
    }
}
