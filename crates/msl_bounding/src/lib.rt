//! Branch and bound that drops no node.
//!
//! - `Bounding` is what becomes of one node of a search: `low` is exactly its bound, tested against its parent's, `found`
//!   exactly what it is behind its bound, a solution or a node with so many children, and `child` the numbers of one child
//!   (`low`, `found`, `child`, by `Tells`). Lemmas (`Nodes`) make of these answers what the node is by `own` of
//!   `msl_program`; any search of the tree is built on them.
//! - `bnb_seq` visits all nodes in preorder, and answers exactly what the search of a script means (`outcome`, by
//!   `first_best_outcome`): the first fault, else the first solution of least value, else the empty record.
//!
//! No visit takes memory; `NoMemory` may come of the making of the answer alone.
#![tactic(auto)]

mod bounding;
mod search;

pub use bounding::{Bounding, Found};
pub use search::bnb_seq;
