use msl_base::{Halt, Path};
use std::alloc::Global;
use std::collections::VecDeque;

/// A path of a tree, with the node behind it.
#[derive(Clone, Copy)]
pub struct Held<N> {
    pub path: Path,
    pub node: N,
}

/// Work on a tree, node by node, for a pool whose members hold paths. `is_node` says what a node behind a path is, `has`
/// what the work so far comes to where it has split and shut these paths, and `stops` why it may stop before the tree is
/// done.
pub trait Search {
    ghost use Rattle.std.specs.Prelude.{ℕ, List, IfOk, IfErr};
    ghost use Rattle.msl_base.specs.Covers.{Split};
    ghost use Rattle.msl_base.specs.declared.answer.Halt.{Halt as Halted};
    ghost use Rattle.msl_pool.specs.Working.{Works, StopsBy};

    /// What is kept of a node beside its path.
    type Node: Copy;

    ghost is_node: { Self → List ℕ → Self.Node → Type 0 };

    ghost has: { Self → List Split → List (List ℕ) → Type 0 };

    ghost stops: { Self → Halted → Type 0 };

    /// The node behind a path, worked out anew from the root. Takes no memory.
    fn node_at(&self, path: &Path) -> Self::Node
        requires { (n : Self.Node) × is_node self.now path.now n }
        ensures { is_node self.now path.now result };

    /// Shuts a path, or splits it and puts its children behind what is held, the first last. At an `Err` what is held is
    /// open.
    fn work(
        &mut self,
        alloc: Global,
        at: &Held<Self::Node>,
        held: &mut VecDeque<Held<Self::Node>>,
    ) -> Result<(), Halt>
        requires { is_node self.old at.now.path at.now.node }
        ensures nodes { (q : List ℕ) (n : Self.Node) → is_node self.old q n → is_node self.new q n }
        ensures works { IfOk result (λ _. Works (is_node self.new) (has self.old) (has self.new) at.now.path held.old.items held.new.items) }
        ensures stops { IfErr result (StopsBy (stops self.new)) };
}
