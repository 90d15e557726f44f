ghost use Rattle.std.specs.Prelude.{◌≡◌, [], ◌∷◌, ◌++◌, map, OnOk, OnErr};
ghost use Rattle.msl_base.specs.Covers.{split};
ghost use Rattle.msl_tree.specs.Lists.{leaf, leaf_of, split_of};

use msl_base::{Fault, NoMemory, Path, Small};
use std::alloc::Global;
use std::marker::Model;

/// A path that was split, and how many children it has.
#[derive(Clone, Copy)]
pub struct Parted {
    pub path: Path,
    pub count: u32,
}

/// A path, and the value of its problem or its fault.
#[derive(Clone, Copy)]
pub struct Entry {
    pub path: Path,
    pub value: Result<Small, Fault>,
}

/// The paths that were split, in the order in which they were.
#[derive(Drop)]
pub struct Splits {
    items: Vec<Parted>,
}

impl Model for Splits {
    ghost use Rattle.std.specs.Prelude.{List, map};
    ghost use Rattle.msl_base.specs.Covers.{Split};
    ghost use Rattle.msl_tree.specs.Lists.{split_of};

    ghost Value = { List Split };

    ghost view = { λ s. map split_of s.items.items };
}

impl Splits {
    /// None. Takes no memory.
    pub fn new(alloc: Global) -> Splits
        ensures { result ≡ [] }
    {
        Splits {
            items: Vec::new(alloc),
        }
    }

    /// Appends a path that was split into so many children, or leaves the list where memory runs out.
    pub fn add(&mut self, path: Path, count: u32) -> Result<(), NoMemory>
        ensures ok { OnOk result (self.new ≡ self.old ++ split path count ∷ []) }
        ensures err { OnErr result (self.new ≡ self.old) }
    {
        self.items.push(Parted { path, count })?;
        Ok(())
    }

    /// The paths with their counts.
    pub fn as_slice(&self) -> &[Parted]
        ensures { map split_of result.now ≡ self.now }
    {
        self.items.as_slice()
    }
}

/// The paths that were solved, each with its value or its fault, in the order in which they were.
#[derive(Drop)]
pub struct Solved {
    items: Vec<Entry>,
}

impl Model for Solved {
    ghost use Rattle.std.specs.Prelude.{List, map};
    ghost use Rattle.msl_tree.specs.Lists.{Leaf, leaf_of};

    ghost Value = { List Leaf };

    ghost view = { λ s. map leaf_of s.items.items };
}

impl Solved {
    /// None. Takes no memory.
    pub fn new(alloc: Global) -> Solved
        ensures { result ≡ [] }
    {
        Solved {
            items: Vec::new(alloc),
        }
    }

    /// Appends a path with its value or its fault, or leaves the list where memory runs out.
    pub fn add(&mut self, path: Path, value: Result<Small, Fault>) -> Result<(), NoMemory>
        ensures ok { OnOk result (self.new ≡ self.old ++ leaf path value ∷ []) }
        ensures err { OnErr result (self.new ≡ self.old) }
    {
        self.items.push(Entry { path, value })?;
        Ok(())
    }

    /// The paths with their values.
    pub fn as_slice(&self) -> &[Entry]
        ensures { map leaf_of result.now ≡ self.now }
    {
        self.items.as_slice()
    }
}
