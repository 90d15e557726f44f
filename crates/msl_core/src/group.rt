ghost use Rattle.std.specs.Prelude.{◌≡◌, ◌<◌, ◌≤◌, ◌↔◌, ◌+◌, length, pos, neg_ℤ, ◌+ℤ◌, ◌≤ℤ◌, IsTrue, IfOk, OnOk, OnErr};
ghost use Rattle.msl_base.specs.declared.limits.TheConstants.{MOST_MEMBERS};
ghost use Rattle.msl_core.specs.Groups.{Ends, Holds, Enabled, Kept, after, full, gets_back, lends, new_group, node_at, slot_at};
ghost use Rattle.msl_core.specs.Outcomes.{Comes};
ghost use Rattle.msl_core.specs.Stored.{reach};
ghost use Rattle.msl_core.specs.declared.node.TheConstants.{MOST_SURPLUS};
ghost use Rattle.msl_core.specs.declared.event.Move.TheVariants as moves;

use crate::event::{Move, Refusal};
use crate::node::Node;
use msl_base::limits::MOST_CHILDREN;
use msl_base::{NoMemory, Path};
use std::alloc::Global;
use std::marker::Model;

/// A group of nodes. Contracts see it as the definitions of groups do.
#[derive(Drop)]
pub struct Group {
    nodes: Vec<Node>,
    mails: Vec<Option<Path>>,
    at: usize,
    tally: i128,
    black: bool,
    over: bool,
    start: usize,
}

impl Model for Group {
    ghost use Rattle.msl_core.specs.Groups as groups;
    ghost use Rattle.msl_core.specs.Stored.{IsBounded};

    ghost Value = { groups.Group };

    ghost view = { λ g. record { nodes = g.nodes.items; mails = g.mails.items; at = g.at; tally = g.tally; black = g.black; over = g.over; start = g.start } };

    ghost invariant = { λ g. IsBounded (record { nodes = g.nodes.items; mails = g.mails.items; at = g.at; tally = g.tally; black = g.black; over = g.over; start = g.start }) };
}

impl Group {
    /// A group whose node `start` holds the root.
    pub fn new(alloc: Global, n: u32, start: u32) -> Result<Group, NoMemory>
        requires { n ≤ MOST_MEMBERS }
        ensures { IfOk result (λ group. group ≡ new_group n start) }
    {
        let mails = vec![in alloc; None; n as usize]?;
        let mut nodes = Vec::new(alloc);
        for i in 0..n {
            nodes.push(Node::new(alloc, i == start)?)?;
        }
        Ok(Group {
            nodes,
            mails,
            at: 0,
            tally: 0,
            black: true,
            over: false,
            start: start as usize,
        })
    }

    pub fn is_over(&self) -> bool
        ensures { result ≡ self.now.over }
    {
        self.over
    }

    /// Whether this node is there and holds a path, in a group that isn't over.
    pub fn holds(&self, node: u32) -> bool
        ensures { IsTrue result ↔ Holds self.now node }
    {
        match self.nodes.get(node as usize) {
            Some(x) => !self.over && x.held() > 0,
            None => false,
        }
    }

    /// Makes a move, if it may happen.
    pub fn make(&mut self, m: Move) -> Result<(), Refusal>
        requires { Kept self.old }
        ensures { Comes (Enabled self.old m) self.old (after self.old m) self.new result }
    {
        match m {
            Move::Split { node, k } => self.split(node, k),
            Move::Shut { node } => self.shut(node),
            Move::Post { node, to } => self.post(node, to),
            Move::Take { node } => self.take(node),
            Move::Pass { node } => self.pass(node),
            Move::Probe => self.probe(),
            Move::Over => self.end(),
        }
    }

    fn split(&mut self, node: u32, k: u32) -> Result<(), Refusal>
        requires { Kept self.old }
        ensures { Comes (Enabled self.old (moves.Split node k)) self.old (after self.old (moves.Split node k)) self.new result }
    {
        if !self.holds(node) || k > u32::from(MOST_CHILDREN) {
            return Err(Refusal::NotEnabled);
        }
        let x = &mut self.nodes[node as usize];
        if !x.is_short() {
            return Err(Refusal::NotEnabled);
        }
        x.split(k as u8)?;
        Ok(())
    }

    fn shut(&mut self, node: u32) -> Result<(), Refusal>
        requires { Kept self.old }
        ensures { Comes (Enabled self.old (moves.Shut node)) self.old (after self.old (moves.Shut node)) self.new result }
    {
        if !self.holds(node) {
            return Err(Refusal::NotEnabled);
        }
        self.nodes[node as usize].shut()?;
        Ok(())
    }

    fn post(&mut self, node: u32, to: u32) -> Result<(), Refusal>
        requires { Kept self.old }
        ensures { Comes (Enabled self.old (moves.Post node to)) self.old (after self.old (moves.Post node to)) self.new result }
    {
        if !self.holds(node) || self.nodes[node as usize].held() < 2 {
            return Err(Refusal::NotEnabled);
        }
        match self.mails.get(to as usize) {
            Some(None) => (),
            _ => return Err(Refusal::NotEnabled),
        }
        self.mails[to as usize] = Some(self.nodes[node as usize].post());
        Ok(())
    }

    fn take(&mut self, node: u32) -> Result<(), Refusal>
        requires { Kept self.old }
        ensures { Comes (Enabled self.old (moves.Take node)) self.old (after self.old (moves.Take node)) self.new result }
    {
        if self.over {
            return Err(Refusal::NotEnabled);
        }
        match self.mails.get(node as usize).copied() {
            Some(Some(path)) => {
                self.nodes[node as usize].take(path)?;
                self.mails[node as usize] = None;
                Ok(())
            }
            _ => Err(Refusal::NotEnabled),
        }
    }

    fn pass(&mut self, node: u32) -> Result<(), Refusal>
        requires { Kept self.old }
        ensures { Comes (Enabled self.old (moves.Pass node)) self.old (after self.old (moves.Pass node)) self.new result }
    {
        let i = node as usize;
        if self.over || i != self.at || i == 0 || !self.nodes[i].is_passive() {
            return Err(Refusal::NotEnabled);
        }
        self.tally = self.gathered();
        let x = &mut self.nodes[i];
        self.black |= x.is_black();
        x.turn_white();
        self.at = i - 1;
        Ok(())
    }

    fn probe(&mut self) -> Result<(), Refusal>
        requires { Kept self.old }
        ensures { Comes (Enabled self.old moves.Probe) self.old (after self.old moves.Probe) self.new result }
    {
        if self.over || self.at != 0 || !self.nodes[0].is_passive() || self.ends() {
            return Err(Refusal::NotEnabled);
        }
        self.nodes[0].turn_white();
        self.at = self.nodes.len() - 1;
        self.tally = 0;
        self.black = false;
        Ok(())
    }

    fn end(&mut self) -> Result<(), Refusal>
        requires { Kept self.old }
        ensures { Comes (Enabled self.old moves.Over) self.old (after self.old moves.Over) self.new result }
    {
        if self.over || self.at != 0 || !self.ends() {
            return Err(Refusal::NotEnabled);
        }
        self.over = true;
        Ok(())
    }

    // Whether the token, which is at node 0, finds that all is quiet.
    fn ends(&self) -> bool
        requires kept { Kept self.now }
        requires home { self.now.at ≡ 0 }
        ensures { IsTrue result ↔ Ends self.now }
    {
        let x = &self.nodes[0];
        x.is_passive() && !x.is_black() && !self.black && self.gathered() == 0
    }

    // The tally with the surplus of the node where the token is.
    fn gathered(&self) -> i128
        requires { Kept self.now }
        ensures sum { result ≡ self.now.tally +ℤ (node_at self.now self.now.at).surplus }
        ensures above { neg_ℤ (pos (reach self.now.at + MOST_SURPLUS)) ≤ℤ result }
        ensures below { result ≤ℤ pos (reach self.now.at + MOST_SURPLUS) }
    {
        self.tally + self.nodes[self.at].surplus()
    }

    /// A node lends its newest path: the number of the loan. Memory is taken first.
    pub fn lend(&mut self, node: u32) -> Result<usize, NoMemory>
        requires { Holds self.old node }
        ensures slot { IfOk result (λ slot. slot ≡ length (node_at self.old node).lent) }
        ensures ok { OnOk result (self.new ≡ lends self.old node) }
        ensures err { OnErr result (self.new ≡ self.old) }
    {
        let slot = self.nodes[node as usize].lend()?;
        Ok(slot)
    }

    /// A lent path comes back to its node. Memory is taken first.
    pub fn back(&mut self, node: usize, slot: usize) -> Result<(), NoMemory>
        requires node { node < length self.old.nodes }
        requires lent { full (slot_at self.old node slot) ≡ 1 }
        ensures ok { OnOk result (self.new ≡ gets_back self.old node slot) }
        ensures err { OnErr result (self.new ≡ self.old) }
    {
        self.nodes[node].back(slot)?;
        Ok(())
    }
}
