use msl_base::NoMemory;
use std::alloc::AllocError;

/// What happens in a world: a step of one group, or a loan between two. Groups are numbered from 0 in the order in which
/// they began, and the nodes of each from 0.
#[derive(Clone, Copy, Debug, PartialEq, Eq)]
pub enum Event {
    /// The newest path of a node is replaced by its `k` children, child 0 the newest.
    Split { group: u64, node: u32, k: u32 },
    /// The newest path of a node is shut.
    Shut { group: u64, node: u32 },
    /// The oldest path of a node goes into the mail of another, or of itself.
    Post { group: u64, node: u32, to: u32 },
    /// The path in a node's mail is its newest; the node turns black.
    Take { group: u64, node: u32 },
    /// The token goes from a node to the one before it, which takes the node's colour along.
    Pass { group: u64, node: u32 },
    /// Node 0 sends the token round once more.
    Probe { group: u64 },
    /// Node 0 finds that the group is over.
    Over { group: u64 },
    /// The newest path of a node is lent to a new group of so many nodes.
    Lend { group: u64, node: u32, size: u32 },
    /// The path that was lent to a group is shut by the node that lent it.
    Back { group: u64 },
}

/// What happens in one group.
#[derive(Clone, Copy, Debug, PartialEq, Eq)]
pub enum Move {
    Split { node: u32, k: u32 },
    Shut { node: u32 },
    Post { node: u32, to: u32 },
    Take { node: u32 },
    Pass { node: u32 },
    Probe,
    Over,
}

/// What became of an event.
#[derive(Clone, Copy, Debug, PartialEq, Eq)]
pub enum Applied {
    /// It happened.
    Done,
    /// Its condition doesn't hold.
    NotEnabled(Event),
    /// Memory ran out.
    NoMemory,
}

// Why an event didn't happen.
#[derive(Clone, Copy)]
pub(crate) enum Refusal {
    NotEnabled,
    NoMemory,
}

impl From<NoMemory> for Refusal {
    ghost use Rattle.std.specs.Prelude.{◌≡◌};
    ghost use Rattle.msl_core.specs.declared.event.Refusal.TheVariants as refusal;

    ghost from_gives = { λ _ r. r ≡ refusal.NoMemory };

    fn from(_: NoMemory) -> Self {
        Refusal::NoMemory
    }
}

impl From<AllocError> for Refusal {
    ghost use Rattle.std.specs.Prelude.{◌≡◌};
    ghost use Rattle.msl_core.specs.declared.event.Refusal.TheVariants as refusal;

    ghost from_gives = { λ _ r. r ≡ refusal.NoMemory };

    fn from(_: AllocError) -> Self {
        Refusal::NoMemory
    }
}
