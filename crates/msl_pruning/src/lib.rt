//! Branch and bound by a pool that works in turns and drops nodes.
//!
//! - `bnb_rounds` answers a best solution of a search, by any number of members (`BestOf` of `msl_program`): no solution
//!   that is reached has a lesser value, and each fault that is reached lies at or below a node that its bound allows to
//!   drop; or the fault of some node that is reached. Which of several best solutions is answered isn't said. `NoMemory`
//!   may come of it.
//! - A node is dropped where its bound isn't below the value of the best solution so far, but its bound is tested against
//!   its parent's first.
//! - `laws` says why that is enough: where the paths that were split and those that were shut cover the tree, each split is
//!   of a node with so many children, and each node that was shut is a solution that isn't better than the best so far, has
//!   no children, or may be dropped for that one, the best so far is an answer. It doesn't matter who worked on which path.
#![tactic(auto)]

pub mod laws;
mod pruning;
mod rounds;

pub use rounds::bnb_rounds;
