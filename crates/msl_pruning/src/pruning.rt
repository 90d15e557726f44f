ghost use Rattle.std.specs.Prelude.{◌≡◌, ◌<◌, ◌≤◌, ℕ, List, Some, None, Ok, ◌∷◌, length, IfOk, OnOk, IsTrue, ◌↔◌};
ghost use Rattle.msl_base.specs.Streams.{Record};
ghost use Rattle.msl_base.specs.declared.limits.TheConstants.{MOST_CHILDREN, MOST_LEVELS};
ghost use Rattle.msl_bounding.specs.Nodes.{Tells};
ghost use Rattle.msl_fun.specs.Meaning.{params_of};
ghost use Rattle.msl_fun.specs.declared.funs.Fun.{Fun};
ghost use Rattle.msl_program.specs.Along.{along};
ghost use Rattle.msl_program.specs.Promises.{SearchFits};
ghost use Rattle.msl_program.specs.Searches.{node};
ghost use Rattle.msl_program.specs.declared.script.BnbSpec.{BnbSpec};
ghost use Rattle.msl_pruning.specs.Pruned.{better_by, outcome_of, HasBoundFor};
ghost use Rattle.msl_pruning.specs.Visiting.{CanHold, HoldsAll, HoldsChildren, IsReplayed, IsVisited};
ghost use Rattle.msl_stage.specs.Answers.{made_by, MayAnswer};

use msl_base::limits::MOST_CHILDREN;
use msl_base::{Answer, Halt, NoMemory, Path, Rec, Small};
use msl_bounding::{Bounding, Found};
use msl_fun::Funs;
use msl_pool::{Held, Search};
use msl_program::BnbSpec;
use msl_stage::Halted;
use std::alloc::Global;
use std::collections::VecDeque;
use std::marker::{Brand, PhantomData};

/// What is searched. It stays the same while members work, and no code runs on it.
pub trait Task {
    ghost funs: { List Fun };

    ghost spec: { BnbSpec };

    ghost stage: { ℕ };

    ghost root: { Record };
}

impl Task for Brand {
    ghost use Rattle.std.specs.Prelude.{[]};

    ghost funs = { [] };

    ghost spec = { record { name = []; bound = 0; solved = 0; value = 0; count = 0; branch = 0 } };

    ghost stage = { 0 };

    ghost root = { [] };
}

/// A node that is left to be worked on: its numbers, and its parent's bound.
#[derive(Clone, Copy)]
pub struct LiveNode {
    pub numbers: Small,
    pub above: Option<i64>,
}

impl LiveNode {
    /// The root, which has no parent.
    pub fn root(numbers: Small) -> LiveNode
        ensures numbers { result.numbers ≡ numbers }
        ensures above { result.above ≡ None }
    {
        LiveNode {
            numbers,
            above: None,
        }
    }
}

/// A node that has children: its bound, and how many they are.
#[derive(Clone, Copy)]
pub struct Branching {
    pub low: i64,
    pub count: u8,
}

/// A search from a root on, with the best solution so far: its value and its numbers.
#[derive(Drop)]
pub struct Pruning<'a, K: Task> {
    nodes: Bounding<'a>,
    funs: &'a Funs,
    root: Small,
    best: Option<(i64, Small)>,
    children: [Small; MOST_CHILDREN as usize],
    task: PhantomData<K>,
}

impl<'a, K: Task> Pruning<'a, K> {
    /// The search from this root on, of which no node was visited yet. Takes no memory.
    pub fn new(spec: &'a BnbSpec, funs: &'a Funs, stage: u32, root: Small) -> Pruning<'a, K>
        ensures spec { result.nodes.spec.now ≡ spec.now }
        ensures calls { result.nodes.calls ≡ funs.now }
        ensures stage { result.nodes.stage ≡ stage }
        ensures funs { result.funs.now ≡ funs.now }
        ensures root { result.root ≡ root }
        ensures best { result.best ≡ None }
    {
        Pruning {
            nodes: Bounding::new(spec, funs, stage),
            funs,
            root,
            best: None,
            children: [Small::of(&[]); MOST_CHILDREN as usize],
            task: PhantomData,
        }
    }

    /// The record of the best solution so far, or the empty one.
    pub fn answer(&self, alloc: Global) -> Answer
        ensures { MayAnswer (λ r. r ≡ outcome_of self.now.best) result }
    {
        match self.best_record(alloc) {
            Ok(r) => Answer::Rec(r),
            Err(NoMemory) => Answer::NoMemory,
        }
    }

    fn best_record(&self, alloc: Global) -> Result<Rec, NoMemory>
        ensures { IfOk result (λ r. Ok r.numbers ≡ outcome_of self.now.best) }
    {
        match &self.best {
            Some(best) => record_of(alloc, best.0, best.1.as_slice()),
            None => Ok(Rec::new(alloc)),
        }
    }

    // Visits a node: takes a solution where it is better than the best so far, or leaves the node's children in their room.
    fn visit(&mut self, at: &Held<LiveNode>, why: &mut Halt) -> Result<Option<Branching>, Halted>
        requires fits { SearchFits self.old.nodes.calls self.old.nodes.spec.now }
        requires long { length at.now.node.numbers ≡ params_of self.old.nodes.calls self.old.nodes.spec.now.bound }
        ensures nodes { self.new.nodes ≡ self.old.nodes }
        ensures funs { self.new.funs ≡ self.old.funs }
        ensures root { self.new.root ≡ self.old.root }
        ensures visited { IsVisited self.old.nodes.calls self.old.nodes.spec.now self.old.nodes.stage at.now.path (node at.now.node.numbers at.now.node.above) self.old.best self.new.best self.new.children (made_by result why.new) }
    {
        let x = at.node.numbers.as_slice();
        let low = self.nodes.low(&at.path, x, at.node.above, why)?;
        if self.is_no_better(low) {
            return Ok(None);
        }
        match self.nodes.found(&at.path, x, low, why)? {
            Found::Solution(value) => {
                self.offer(value, at.node.numbers);
                Ok(None)
            }
            Found::Children(0) => Ok(None),
            Found::Children(count) => {
                self.nodes
                    .children(x, &mut self.children[..usize::from(count)], why)?;
                Ok(Some(Branching { low, count }))
            }
        }
    }

    // Whether a solution of this value isn't better than the best so far.
    fn is_no_better(&self, value: i64) -> bool
        ensures { IsTrue result ↔ HasBoundFor self.now.best value }
    {
        self.best.is_some_and(|best| best.0 <= value)
    }

    // Takes a solution where its value is less than that of the best so far.
    fn offer(&mut self, value: i64, x: Small)
        ensures nodes { self.new.nodes ≡ self.old.nodes }
        ensures funs { self.new.funs ≡ self.old.funs }
        ensures root { self.new.root ≡ self.old.root }
        ensures best { self.new.best ≡ better_by self.old.best value x }
    {
        if !self.is_no_better(value) {
            self.best = Some((value, x));
        }
    }
}

impl<K: Task> Search for Pruning<'_, K> {
    ghost use Rattle.msl_pruning.specs.Pruned.{HasPruned};
    ghost use Rattle.msl_pruning.specs.Visiting.{IsLive, StopsWith};

    type Node = LiveNode;

    ghost is_node = { λ s. IsLive K.funs K.spec K.stage K.root s.nodes s.funs.now s.root };

    ghost has = { λ s. HasPruned K.funs K.spec K.stage K.root s.best };

    ghost stops = { λ _. StopsWith K.funs K.spec K.stage K.root };

    fn node_at(&self, path: &Path) -> LiveNode {
        let mut nodes = Bounding::new(self.nodes.spec, self.funs, self.nodes.stage);
        let mut why = Halt::NoMemory;
        match replayed(&mut nodes, self.root, path, &mut why) {
            Ok(live) => live,
            Err(_) => unreachable!(),
        }
    }

    /// Shuts the path of a node that is a solution, is dropped or has no children, or splits it into all its children.
    fn work(
        &mut self,
        _alloc: Global,
        at: &Held<LiveNode>,
        held: &mut VecDeque<Held<LiveNode>>,
    ) -> Result<(), Halt> {
        let mut why = Halt::NoMemory;
        match self.visit(at, &mut why) {
            Ok(inner) => {
                hold_all(at.path, inner, &self.children, held)?;
                Ok(())
            }
            Err(Halted) => Err(why),
        }
    }
}

// Holds the children of the node at a path, where it has some. They stand in front of these.
fn hold_all(
    path: Path,
    inner: Option<Branching>,
    children: &[Small],
    held: &mut VecDeque<Held<LiveNode>>,
) -> Result<(), NoMemory>
    requires room { CanHold path inner children.now }
    requires few { length children.now ≤ MOST_CHILDREN }
    ensures { OnOk result (HoldsAll path inner children.now held.old.items held.new.items) }
{
    match inner {
        Some(inner) => hold(path, inner.low, &children[..usize::from(inner.count)], held),
        None => Ok(()),
    }
}

// Holds these children of the node at a path, the first last.
fn hold(
    path: Path,
    low: i64,
    children: &[Small],
    held: &mut VecDeque<Held<LiveNode>>,
) -> Result<(), NoMemory>
    requires deep { length path < MOST_LEVELS }
    requires few { length children.now ≤ MOST_CHILDREN }
    ensures { OnOk result (HoldsChildren path low children.now 0 held.old.items held.new.items) }
{
    let mut left = children.len();
    while left > 0 {
        left -= 1;
        let path = path.push(left as u8).unwrap();
        let node = LiveNode {
            numbers: children[left],
            above: Some(low),
        };
        held.push_back(Held { path, node })?;
    }
    Ok(())
}

// The node behind a path, worked out anew.
fn replayed(
    nodes: &mut Bounding<'_>,
    root: Small,
    path: &Path,
    why: &mut Halt,
) -> Result<LiveNode, Halted>
    requires fits { SearchFits nodes.old.calls nodes.old.spec.now }
    requires long { length root ≡ params_of nodes.old.calls nodes.old.spec.now.bound }
    ensures { IsReplayed nodes.old.calls nodes.old.spec.now nodes.old.stage root path.now result }
{
    let Some((last, front)) = path.as_slice().split_last() else {
        return Ok(LiveNode::root(root));
    };
    let x = numbers_along(nodes, root, front, why)?;
    let low = nodes.low(path, x.as_slice(), None, why)?;
    let numbers = nodes.child(x.as_slice(), *last, why)?;
    Ok(LiveNode {
        numbers,
        above: Some(low),
    })
}

// The numbers at the end of these steps from a root on.
fn numbers_along(
    nodes: &mut Bounding<'_>,
    root: Small,
    steps: &[u8],
    why: &mut Halt,
) -> Result<Small, Halted>
    requires fits { SearchFits nodes.old.calls nodes.old.spec.now }
    requires long { length root ≡ params_of nodes.old.calls nodes.old.spec.now.bound }
    ensures same { nodes.new ≡ nodes.old }
    ensures numbers { Tells (along nodes.old.calls nodes.old.stage nodes.old.spec.now.branch root steps.now) result why.new }
    ensures long { IfOk result (λ x. length x ≡ length root) }
{
    let mut x = root;
    for step in steps {
        x = nodes.child(x.as_slice(), *step, why)?;
    }
    Ok(x)
}

// The record of a solution: its value, and behind it its numbers.
fn record_of(alloc: Global, value: i64, x: &[i64]) -> Result<Rec, NoMemory>
    ensures { IfOk result (λ r. r.numbers ≡ value ∷ x.now) }
{
    let mut r = Rec::new(alloc);
    r.reserve(x.len() + 1)?;
    r.push(value)?;
    for y in x {
        r.push(*y)?;
    }
    Ok(r)
}
