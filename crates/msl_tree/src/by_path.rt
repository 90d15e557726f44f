ghost use Rattle.std.specs.Prelude.{◌≡◌, List, IfOk};
ghost use Rattle.msl_tree.specs.ByPath.{found, AreShort, Finds};
ghost use Rattle.msl_tree.specs.Lists.{Leaf};

use crate::lists::{Entry, Solved};
use msl_base::{Fault, NoMemory, Path, Small};
use std::alloc::Global;
use std::collections::HashMap;

/// Solved entries by their paths, to be looked up in constant time.
#[derive(Drop)]
pub struct ByPath<'a> {
    entries: HashMap<&'a [u8], &'a Entry>,
}

impl<'a> ByPath<'a> {
    /// These entries. Of several at a path the first counts.
    pub fn new(alloc: Global, solved: &'a Solved) -> Result<ByPath<'a>, NoMemory>
        ensures finds { IfOk result (λ m. Finds m.entries solved.now) }
        ensures short { IfOk result (λ _. AreShort solved.now) }
    {
        let entries = solved.as_slice();
        let mut by_path = HashMap::with_capacity(alloc, entries.len())?;
        for entry in entries.iter().rev() {
            by_path.insert(entry.path.as_slice(), entry)?;
        }
        Ok(ByPath { entries: by_path })
    }

    /// What the first entry of the path says, if there is one. Takes no memory.
    pub fn get(&self, path: &Path) -> Option<Result<Small, Fault>>
        ensures { (solved : List Leaf) → Finds self.now.entries solved → result ≡ found solved path.now }
    {
        match self.entries.get(path.as_slice()) {
            Some(entry) => Some(entry.value),
            None => None,
        }
    }
}
