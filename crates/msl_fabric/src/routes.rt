//! Where blocks go, and who has their places.

ghost use Rattle.std.specs.Prelude.{◌≡◌, ◌<◌, ◌≤◌, ◌^◌, IfOk, length, slice_index_or};
ghost use Rattle.msl_base.specs.declared.limits.TheConstants.{MOST_MEMBERS};
ghost use Rattle.msl_fabric.specs.Targets.{AreOwners, Permutes, reach, target};

use msl_base::{NoMemory, bounds};
use std::alloc::Global;

/// Where each block goes.
#[derive(Clone, Copy)]
pub enum Targets<'a> {
    /// Block `i` to the place of this number.
    Listed(&'a [u32]),
    /// So many places further, and round.
    Further(u32),
}

impl Targets<'_> {
    // Where block `i` of `n` goes.
    fn of(&self, i: usize, n: usize) -> usize
        requires long { reach self.now n ≡ n }
        requires few { n < 2 ^ 63 }
        requires within { i < n }
        ensures { result ≡ target self.now n i }
    {
        match *self {
            Targets::Listed(to) => listed(to, i),
            Targets::Further(by) => (i + by as usize) % n,
        }
    }
}

fn listed(to: &[u32], i: usize) -> usize
    requires { i < length to.now }
    ensures { result ≡ slice_index_or to.now i 0 }
{
    to[i] as usize
}

/// Where blocks go, and which of the members has each place.
#[derive(Clone, Copy)]
pub struct Route<'a> {
    pub targets: Targets<'a>,
    pub owners: &'a [u32],
    pub members: u32,
    pub ghost permutes: { Permutes (length owners.now) targets },
    pub ghost owned: { AreOwners (length owners.now) members owners.now },
    pub ghost some: { 1 ≤ members },
    pub ghost at_most: { members ≤ MOST_MEMBERS },
    pub ghost few: { length owners.now < 2 ^ 62 },
}

/// A block that moves: where it is, where it goes, and who has that place.
#[derive(Clone, Copy)]
pub struct Way {
    pub from: usize,
    pub to: usize,
    pub owner: u32,
}

impl Route<'_> {
    ghost use Rattle.std.specs.Prelude.{◌≡◌, ◌<◌, MatchOption};
    ghost use Rattle.msl_base.specs.Blocks.{begin};
    ghost use Rattle.msl_fabric.specs.Routes.{IsNone, IsWay, many};

    /// How many rounds it takes until each member has moved all its blocks. The first has as many as any.
    pub fn rounds(&self) -> u64
        ensures { result ≡ begin (many self.now) self.now.members 1 }
    {
        bounds(self.owners.len() as u64, u64::from(self.members), 1)
    }

    /// Block `k` of a member's own, where it has as many.
    pub fn way(&self, m: u32, k: u64) -> Option<Way>
        requires { m < self.now.members }
        ensures { MatchOption result (IsNone self.now m k) (IsWay self.now m k) }
    {
        let n = self.owners.len();
        let (blocks, members, member) = (n as u64, u64::from(self.members), u64::from(m));
        let first = bounds(blocks, members, member);
        if bounds(blocks, members, member + 1) - first <= k {
            return None;
        }
        let from = (first + k) as usize;
        let to = self.targets.of(from, n);
        Some(Way {
            from,
            to,
            owner: self.owners[to],
        })
    }
}

/// Who has each of `n` places, of so many members. It fails for want of memory alone.
pub fn owners(alloc: Global, n: usize, members: u32) -> Result<Vec<u32>, NoMemory>
    requires some { 1 ≤ members }
    requires few { members ≤ MOST_MEMBERS }
    ensures { IfOk result (λ all. AreOwners n members all.items) }
{
    let (places, count) = (n as u64, u64::from(members));
    let mut all = Vec::with_capacity(alloc, n)?;
    for m in 0..members {
        let from = bounds(places, count, u64::from(m));
        for _i in from..bounds(places, count, u64::from(m) + 1) {
            all.push_reserved(m);
        }
    }
    Ok(all)
}
