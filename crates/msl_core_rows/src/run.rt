//! Random events, and a plain count of what they leave.

ghost use Rattle.std.specs.Prelude.{◌<◌};
ghost use Rattle.msl_core_rows.specs.declared.run.TheConstants.{NODES};

use msl_core::{Applied, Event, World};
use std::alloc::Global;
use std::process::Abort;
use std::test::Fail;

const EVENTS: u32 = 10_000;

const TRIES: u32 = 10_000_000;

const NODES: u32 = 3;

const MOST_GROUPS: usize = 40;

// Numbers by a linear congruence.
#[derive(Clone, Copy)]
struct Numbers(u64);

impl Numbers {
    fn below(&mut self, n: u64) -> u64
        requires { 0 < n }
        ensures { result < n }
    {
        self.0 = self
            .0
            .wrapping_mul(6_364_136_223_846_793_005)
            .wrapping_add(1_442_695_040_888_963_407);
        (self.0 >> 33) % n
    }

    fn node(&mut self) -> u32
        ensures { result < NODES }
    {
        self.below(u64::from(NODES)) as u32
    }

    // An event in one of so many groups.
    fn event(&mut self, groups: u64) -> Event
        requires { 0 < groups }
    {
        let group = self.below(groups);
        let node = self.node();
        match self.below(16) {
            0 | 1 => Event::Split {
                group,
                node,
                k: self.below(3) as u32,
            },
            2 => Event::Shut { group, node },
            3 | 4 => Event::Post {
                group,
                node,
                to: self.node(),
            },
            5 | 6 => Event::Take { group, node },
            7 | 8 | 9 => Event::Pass { group, node },
            10 | 11 => Event::Probe { group },
            12 => Event::Over { group },
            13 => Event::Lend {
                group,
                node,
                size: self.node() + 1,
            },
            _ => Event::Back { group },
        }
    }
}

// How many paths of a group are held, in mails and lent, by the events alone; who lent to it, and how deep it lies.
#[derive(Clone, Copy)]
struct Count {
    held: i64,
    mails: i64,
    lent: i64,
    over: bool,
    level: u32,
    lender: Option<u64>,
}

impl Count {
    fn new(level: u32, lender: Option<u64>) -> Count {
        Count {
            held: 1,
            mails: 0,
            lent: 0,
            over: false,
            level,
            lender,
        }
    }

    fn change(&mut self, held: i64, mails: i64, lent: i64) {
        self.held = self.held.wrapping_add(held);
        self.mails = self.mails.wrapping_add(mails);
        self.lent = self.lent.wrapping_add(lent);
    }
}

#[derive(Drop)]
struct Counts {
    groups: Vec<Count>,
    deepest: u32,
}

impl Counts {
    fn change(&mut self, group: u64, held: i64, mails: i64, lent: i64) {
        if let Some(count) = self.groups.get_mut(group as usize) {
            count.change(held, mails, lent);
        }
    }

    fn level(&self, group: u64) -> u32 {
        match self.groups.get(group as usize) {
            Some(count) => count.level,
            None => 0,
        }
    }

    fn lender(&self, group: u64) -> Option<u64> {
        self.groups
            .get(group as usize)
            .and_then(|count| count.lender)
    }

    // Whether nothing is left in a group, and all that were lent to by it are over.
    fn is_quiet(&self, group: u64) -> bool {
        let empty = match self.groups.get(group as usize) {
            Some(count) => count.held == 0 && count.mails == 0 && count.lent == 0,
            None => false,
        };
        empty
            && self
                .groups
                .iter()
                .all(|count| count.lender != Some(group) || count.over)
    }

    fn happened(&mut self, rt: &impl Abort, event: Event) -> Result<(), Fail> {
        match event {
            Event::Split { group, k, .. } => self.change(group, i64::from(k) - 1, 0, 0),
            Event::Shut { group, .. } => self.change(group, -1, 0, 0),
            Event::Post { group, .. } => self.change(group, -1, 1, 0),
            Event::Take { group, .. } => self.change(group, 1, -1, 0),
            Event::Pass { .. } | Event::Probe { .. } => (),
            Event::Over { group } => {
                assert!(rt; self.is_quiet(group), "group {group} is over");
                if let Some(count) = self.groups.get_mut(group as usize) {
                    count.over = true;
                }
            }
            Event::Lend { group, .. } => {
                self.change(group, -1, 0, 1);
                let level = self.level(group).saturating_add(1);
                self.deepest = self.deepest.max(level);
                self.groups.push(Count::new(level, Some(group)))?;
            }
            Event::Back { group } => {
                if let Some(lender) = self.lender(group) {
                    self.change(lender, 0, 0, -1);
                }
            }
        }
        Ok(())
    }

    // Groups lie at most three deep, and aren't too many.
    fn wants(&self, event: Event) -> bool {
        match event {
            Event::Lend { group, .. } => self.level(group) < 2 && self.groups.len() < MOST_GROUPS,
            _ => true,
        }
    }
}

// The events of one world, until it is over or so many happened: how many did, and how deep the groups lay.
fn run(
    rt: &impl Abort,
    alloc: Global,
    numbers: &mut Numbers,
    most: u32,
) -> Result<(u32, u32), Fail> {
    let mut world = World::new(alloc, NODES, 0)?;
    let mut groups = Vec::new(alloc);
    groups.push(Count::new(0, None))?;
    let mut counts = Counts { groups, deepest: 0 };
    let mut happened = 0u32;
    for _ in 0..TRIES {
        if happened >= most {
            break;
        }
        let event = numbers.event(counts.groups.len().max(1) as u64);
        if !counts.wants(event) {
            continue;
        }
        match world.apply(event) {
            Applied::Done => {
                happened = happened.saturating_add(1);
                counts.happened(rt, event)?;
                if event == (Event::Over { group: 0 }) {
                    break;
                }
            }
            Applied::NotEnabled(refused) => assert_eq!(rt; refused, event),
            Applied::NoMemory => assert!(rt; false, "no memory"),
        }
    }
    Ok((happened, counts.deepest))
}

#[test]
fn groups_that_are_over_are_quiet(rt: HostRuntime) -> Result<(), Fail> {
    let mut numbers = Numbers(21);
    let mut left = EVENTS;
    let mut deepest = 0;
    for _ in 0..EVENTS {
        if left == 0 {
            break;
        }
        let (happened, deep) = run(&rt, rt.alloc(), &mut numbers, left)?;
        left = left.saturating_sub(happened);
        deepest = deep.max(deepest);
    }
    assert_eq!(rt; left, 0);
    assert_eq!(rt; deepest, 2);
    Ok(())
}
