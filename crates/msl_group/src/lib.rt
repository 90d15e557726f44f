//! Groups of members: runs of consecutive numbers, which are split and merged and have to be spent.
//!
//! - No member is lost or in two groups. The members of the two groups of `split_at`, one list after the other, are
//!   those of the group that was split, and the first group has the first k of them (`all`, `parts`).
//! - `merge` undoes it. It has the members of both groups, one list after the other (`all`), and answers Err exactly
//!   where the next group doesn't begin where this one ends; then both groups come back as they were (`answer`).
//! - `whole` has the members 0 to p - 1 (`Group::whole`), and a group always has 1 at least, all below 64
//!   (`Group::first`, `Group::count`).
//! - `Spans` says what a group is to contracts, what its members are, and what a split and a merge make of it.
//! - `laws`: a group that is split at k and merged is the group; each member of a group that is split is in one of its
//!   parts and not in the other; no member is twice in a group.
//!
//! A `Group` isn't `Drop`: one that is let go doesn't compile, and `spend` is its only end. Nothing is said of what
//! becomes of a member then, nor of two groups that `whole` made apart. No call takes memory.
#![tactic(auto)]

mod group;
pub mod laws;

pub use group::Group;
