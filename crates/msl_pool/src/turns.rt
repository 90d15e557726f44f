ghost use Rattle.std.specs.Prelude.{◌≡◌, ◌≤◌, ℕ, List, [], All, IfOk, IfErr, OnOk, position};
ghost use Rattle.msl_base.specs.declared.limits.TheConstants.{MOST_MEMBERS};
ghost use Rattle.msl_pool.specs.Working.{IsWhole, StopsBy};
ghost use Rattle.msl_pool.specs.Turning.{open_in, is_open, IsSound, StartsOpen, Starts, PutsBack, Worked};

use crate::Search;
use crate::member::{Member, work};
use msl_base::{Halt, NoMemory};
use std::alloc::Global;
use std::collections::VecDeque;

/// Works on the tree with this root by so many members, in turns, until nothing is left.
///
/// In a turn a member takes the path in its mail where it holds none, works on its newest path, and gives its oldest to the
/// next member where it holds two or more and that one's mail is empty. It keeps the nodes of the paths that it made
/// itself; of a path out of its mail the node is worked out anew.
///
/// # Errors
///
/// Why the search stops, or `NoMemory` where memory ran out.
pub fn by_turns<S: Search>(
    alloc: Global,
    search: &mut S,
    members: u32,
    root: S::Node,
) -> Result<(), Halt>
    requires root { S.is_node search.old [] root }
    requires new { S.has search.old [] [] }
    requires some { 1 ≤ members }
    requires few { members ≤ MOST_MEMBERS }
    ensures done { IfOk result (λ _. IsWhole (S.has search.new)) }
    ensures stops { IfErr result (StopsBy (S.stops search.new)) }
{
    let mut ring = started(alloc, members, root)?;
    while let Some(at) = first_open(&ring) {
        ring.rotate_left(at);
        turn(alloc, &mut ring, search)?;
    }
    Ok(())
}

// The members in the order of their turns. The first holds the root.
fn started<N: Copy>(alloc: Global, members: u32, root: N) -> Result<VecDeque<Member<N>>, NoMemory>
    ensures { IfOk result (λ ring. Starts root ring.items) }
{
    let mut ring = VecDeque::new(alloc);
    ring.push_back(Member::at_root(alloc, root)?)?;
    for _ in 1..members {
        ring.push_back(Member::idle(alloc))?;
    }
    Ok(ring)
}

// The place of the first member that has a path to work on. The turns of those before it change nothing.
fn first_open<N: Copy>(ring: &VecDeque<Member<N>>) -> Option<usize>
    ensures { result ≡ position is_open ring.now.items }
{
    ring.iter().position(|member| member.is_open())
}

// The turn of the first member, which is the last then.
fn turn<S: Search>(
    alloc: Global,
    ring: &mut VecDeque<Member<S::Node>>,
    search: &mut S,
) -> Result<(), Halt>
    requires open { StartsOpen ring.old.items }
    requires sound { All (IsSound (S.is_node search.old)) ring.old.items }
    ensures nodes { (q : List ℕ) (n : S.Node) → S.is_node search.old q n → S.is_node search.new q n }
    ensures sound { OnOk result (All (IsSound (S.is_node search.new)) ring.new.items) }
    ensures works { OnOk result (Worked (S.has search.old) (S.has search.new) (open_in ring.old.items) (open_in ring.new.items)) }
    ensures stops { IfErr result (StopsBy (S.stops search.new)) }
{
    let Some(mut member) = ring.pop_front() else {
        return Ok(());
    };
    work(alloc, &mut member, search)?;
    put_back(ring, member)?;
    Ok(())
}

// Puts a member behind the others, which is before the first of them in the ring. It gives that one its oldest path.
fn put_back<N: Copy>(ring: &mut VecDeque<Member<N>>, mut member: Member<N>) -> Result<(), NoMemory>
    ensures { OnOk result (PutsBack ring.old.items member ring.new.items) }
{
    if let Some(next) = ring.front_mut() {
        member.give(next);
    }
    ring.push_back(member)?;
    Ok(())
}
