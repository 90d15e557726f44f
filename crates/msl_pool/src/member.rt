ghost use Rattle.std.specs.Prelude.{◌≡◌, ◌++◌, ◌∷◌, [], ◌↔◌, ℕ, List, IsTrue, IsSome, IfOk, IfSome, IfErr, OnOk, OnSome};
ghost use Rattle.msl_pool.specs.Working.{StopsBy};
ghost use Rattle.msl_pool.specs.Turning.{paths_in, is_open, HoldsRoot, Gives, IsSound, Worked};

use crate::{Held, Search};
use msl_base::{Halt, NoMemory, Path};
use std::alloc::Global;
use std::collections::VecDeque;

/// A member of a pool: the paths that it holds, the oldest first, and its mail.
#[derive(Drop)]
pub struct Member<N: Copy> {
    held: VecDeque<Held<N>>,
    mail: Option<Path>,
}

impl<N: Copy> Member<N> {
    /// A member that holds no path and has no mail. Takes no memory.
    pub fn idle(alloc: Global) -> Self
        ensures { paths_in result ≡ [] }
    {
        Member {
            held: VecDeque::new(alloc),
            mail: None,
        }
    }

    /// A member that holds the root.
    pub fn at_root(alloc: Global, node: N) -> Result<Self, NoMemory>
        ensures { IfOk result (HoldsRoot node) }
    {
        let mut held = VecDeque::new(alloc);
        held.push_back(Held {
            path: Path::root(),
            node,
        })?;
        Ok(Member { held, mail: None })
    }

    /// Holds a path, or has one in its mail.
    pub fn is_open(&self) -> bool
        ensures { result ≡ is_open self.now }
    {
        !self.held.is_empty() || self.mail.is_some()
    }

    /// Gives its oldest path to the next member, where it holds two or more and that one's mail is empty.
    pub fn give(&mut self, next: &mut Member<N>)
        ensures { Gives self.old next.old self.new next.new }
    {
        if self.held.len() < 2 || next.mail.is_some() {
            return;
        }
        if let Some(Held { path, node: _ }) = self.held.pop_front() {
            next.mail = Some(path);
        }
    }
}

/// The newest path that a member holds, or the one in its mail where it holds none.
fn take<S: Search>(member: &mut Member<S::Node>, search: &S) -> Option<Held<S::Node>>
    requires { IsSound (S.is_node search.now) member.old }
    ensures open { IsSome result ↔ IsTrue (is_open member.old) }
    ensures paths { IfSome result (λ at. paths_in member.old ≡ paths_in member.new ++ at.path ∷ []) }
    ensures node { IfSome result (λ at. S.is_node search.now at.path at.node) }
    ensures rest { OnSome result (IsSound (S.is_node search.now) member.new) }
{
    let newest = member.held.pop_back();
    if newest.is_some() {
        return newest;
    }
    let path = member.mail.take()?;
    let node = search.node_at(&path);
    Some(Held { path, node })
}

/// Works on a path of the member, where it is open.
pub fn work<S: Search>(
    alloc: Global,
    member: &mut Member<S::Node>,
    search: &mut S,
) -> Result<(), Halt>
    requires open { IsTrue (is_open member.old) }
    requires sound { IsSound (S.is_node search.old) member.old }
    ensures nodes { (q : List ℕ) (n : S.Node) → S.is_node search.old q n → S.is_node search.new q n }
    ensures sound { OnOk result (IsSound (S.is_node search.new) member.new) }
    ensures works { OnOk result (Worked (S.has search.old) (S.has search.new) (paths_in member.old) (paths_in member.new)) }
    ensures stops { IfErr result (StopsBy (S.stops search.new)) }
{
    match take(member, search) {
        Some(at) => search.work(alloc, &at, &mut member.held),
        None => Ok(()),
    }
}
