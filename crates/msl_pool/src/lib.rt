//! A pool of members that work on a tree in turns.
//!
//! - `Search` is work on one node of a tree: `work` shuts its path, or splits it into the paths of its children. What a
//!   node is, and what the work has found out so far, is the search's own (`is_node`, `has`).
//! - `by_turns` works until nothing is left. Then the splits and the shut paths cover the tree, none lost and none twice
//!   (`done`, by `Covers` of `msl_base`). It stops early only where the work stops, and then for its cause (`stops`), or
//!   for want of memory. It ends on each tree, since paths have at most 64 steps and nodes at most 64 children.
//!
//! Which member works on which path isn't said, nor in which order. `NoMemory` may come of any call that takes memory.
#![tactic(auto)]

mod member;
mod search;
mod turns;

pub use search::{Held, Search};
pub use turns::by_turns;
