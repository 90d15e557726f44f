ghost use Rattle.std.specs.Prelude.{◌≡◌, ◌+◌, ◌<◌, ◌≤◌, ◌↔◌, [], ◌∷◌, ◌++◌, length, true, false, pos, neg_ℤ, ◌≤ℤ◌, IsTrue, None, OnOk, OnErr, IfOk, slice_index_or, slice_set};
ghost use Rattle.std.specs.VecDeque.{deque_len, deque_capacity};
ghost use Rattle.msl_base.specs.Covers.{children};
ghost use Rattle.msl_base.specs.declared.limits.TheConstants.{MOST_CHILDREN, MOST_LEVELS};
ghost use Rattle.msl_core.specs.declared.node.TheConstants.{MOST_SURPLUS};
ghost use Rattle.msl_core.specs.Groups.{Passive, came_back, first_node, full, lend_node, newer, newest, older, oldest, post_node, IsCounted, shut_node, split_node, take_node, white};

use crate::split::Split;
use msl_base::limits::MOST_LEVELS;
use msl_base::{NoMemory, Path};
use std::alloc::Global;
use std::collections::VecDeque;
use std::marker::Model;

/// No node's surplus is above it, nor below it on the other side: lists aren't as long.
pub const MOST_SURPLUS: u128 = 1 << 72;

/// What a node has. Contracts see its lists, its surplus and its colour.
#[derive(Drop)]
pub struct Node {
    held: VecDeque<Path>,
    lent: Vec<Option<Path>>,
    // How many of `lent` are still there.
    lent_out: usize,
    shut: Vec<Path>,
    splits: Vec<Split>,
    surplus: i128,
    black: bool,
}

impl Model for Node {
    ghost use Rattle.std.specs.Prelude.{◌≡◌};
    ghost use Rattle.msl_core.specs.Groups as groups;
    ghost use Rattle.msl_core.specs.Stored.{IsStored};

    ghost Value = { groups.Node };

    ghost view = { λ x. record { held = x.held.items; lent = x.lent.items; shut = x.shut.items; splits = x.splits.items; surplus = x.surplus; black = x.black } };

    ghost invariant = { λ x. IsStored x.lent_out x.lent.items x.splits.items };
}

impl Node {
    /// A node that holds the root, or nothing.
    pub fn new(alloc: Global, is_start: bool) -> Result<Node, NoMemory>
        ensures { IfOk result (λ node. node ≡ first_node is_start) }
    {
        let mut held = VecDeque::new(alloc);
        if is_start {
            held.push_back(Path::root())?;
        }
        Ok(Node {
            held,
            lent: Vec::new(alloc),
            lent_out: 0,
            shut: Vec::new(alloc),
            splits: Vec::new(alloc),
            surplus: 0,
            black: false,
        })
    }

    /// How many paths it holds.
    pub fn held(&self) -> usize
        ensures { result ≡ length self.now.held }
    {
        self.held.len()
    }

    /// Whether the newest path may be split.
    pub fn is_short(&self) -> bool
        requires { 0 < length self.now.held }
        ensures { IsTrue result ↔ (length (newest self.now.held) < MOST_LEVELS) }
    {
        self.held[self.held.len() - 1].as_slice().len() < MOST_LEVELS
    }

    /// Whether it holds no path and has lent none.
    pub fn is_passive(&self) -> bool
        ensures { IsTrue result ↔ Passive self.now }
    {
        self.held.len() == 0 && self.lent_out == 0
    }

    pub fn is_black(&self) -> bool
        ensures { result ≡ self.now.black }
    {
        self.black
    }

    /// What it has sent less what it got. Both are bounded by what it has.
    pub fn surplus(&self) -> i128
        requires counted { IsCounted self.now }
        ensures surplus { result ≡ self.now.surplus }
        ensures above { neg_ℤ (pos MOST_SURPLUS) ≤ℤ result }
        ensures below { result ≤ℤ pos MOST_SURPLUS }
    {
        self.surplus
    }

    /// The newest path is replaced by its children. Memory is taken first.
    pub fn split(&mut self, count: u8) -> Result<(), NoMemory>
        requires holds { 0 < length self.old.held }
        requires short { length (newest self.old.held) < MOST_LEVELS }
        requires few { count ≤ MOST_CHILDREN }
        ensures ok { OnOk result (self.new ≡ split_node self.old count) }
        ensures err { OnErr result (self.new ≡ self.old) }
    {
        self.held.reserve(usize::from(count))?;
        self.splits.reserve(1)?;
        let path = take_newest(&mut self.held);
        self.splits.push_reserved(Split::new(path, count));
        push_children(&mut self.held, path, count);
        Ok(())
    }

    /// The newest path is shut. Memory is taken first.
    pub fn shut(&mut self) -> Result<(), NoMemory>
        requires { 0 < length self.old.held }
        ensures ok { OnOk result (self.new ≡ shut_node self.old) }
        ensures err { OnErr result (self.new ≡ self.old) }
    {
        self.shut.reserve(1)?;
        let path = take_newest(&mut self.held);
        self.shut.push_reserved(path);
        Ok(())
    }

    /// The oldest path leaves, and is counted as sent.
    pub fn post(&mut self) -> Path
        requires holds { 0 < length self.old.held }
        requires counted { IsCounted self.old }
        ensures path { result ≡ oldest self.old.held }
        ensures post { self.new ≡ post_node self.old }
    {
        self.surplus = self.surplus() + 1;
        take_oldest(&mut self.held)
    }

    /// A path comes, is counted as got, and turns the node black.
    pub fn take(&mut self, path: Path) -> Result<(), NoMemory>
        requires { IsCounted self.old }
        ensures ok { OnOk result (self.new ≡ take_node self.old path) }
        ensures err { OnErr result (self.new ≡ self.old) }
    {
        let surplus = self.surplus();
        self.held.push_back(path)?;
        self.surplus = surplus - 1;
        self.black = true;
        Ok(())
    }

    pub fn turn_white(&mut self)
        ensures { self.new ≡ white self.old }
    {
        self.black = false;
    }

    /// The newest path is lent: the number of the loan. Memory is taken first.
    pub fn lend(&mut self) -> Result<usize, NoMemory>
        requires { 0 < length self.old.held }
        ensures slot { IfOk result (λ slot. slot ≡ length self.old.lent) }
        ensures ok { OnOk result (self.new ≡ lend_node self.old) }
        ensures err { OnErr result (self.new ≡ self.old) }
    {
        self.lent.reserve(1)?;
        let slot = self.lent.len();
        let path = take_newest(&mut self.held);
        self.lent.push_reserved(Some(path));
        self.lent_out += 1;
        Ok(slot)
    }

    /// A lent path comes back, and is shut. Memory is taken first.
    pub fn back(&mut self, slot: usize) -> Result<(), NoMemory>
        requires lent { full (slice_index_or self.old.lent slot None) ≡ 1 }
        ensures ok { OnOk result (self.new ≡ came_back self.old slot (slice_index_or self.old.lent slot None)) }
        ensures err { OnErr result (self.new ≡ self.old) }
    {
        self.shut.reserve(1)?;
        if let Some(path) = self.lent[slot].take() {
            self.shut.push_reserved(path);
            self.lent_out -= 1;
        }
        Ok(())
    }
}

fn take_newest(held: &mut VecDeque<Path>) -> Path
    requires { 0 < length held.old.items }
    ensures path { result ≡ newest held.old.items }
    ensures rest { held.new.items ≡ older held.old.items }
    ensures len { deque_len held.new + 1 ≡ deque_len held.old }
    ensures room { deque_capacity held.new ≡ deque_capacity held.old }
{
    match held.pop_back() {
        Some(path) => path,
        None => unreachable!(),
    }
}

fn take_oldest(held: &mut VecDeque<Path>) -> Path
    requires { 0 < length held.old.items }
    ensures path { result ≡ oldest held.old.items }
    ensures rest { held.new.items ≡ newer held.old.items }
{
    match held.pop_front() {
        Some(path) => path,
        None => unreachable!(),
    }
}

// Into room that is there.
fn push_children(held: &mut VecDeque<Path>, path: Path, count: u8)
    requires room { deque_len held.old + count ≤ deque_capacity held.old }
    requires short { length path < MOST_LEVELS }
    requires few { count ≤ MOST_CHILDREN }
    ensures { held.new.items ≡ held.old.items ++ children path count }
{
    let mut left = count;
    while left > 0 {
        left -= 1;
        match path.push(left) {
            Some(child) => held.push_back_reserved(child),
            None => unreachable!(),
        }
    }
}
