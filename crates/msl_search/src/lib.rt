//! Searches of trees: divide and conquer, and branch and bound.
//!
//! `divcon_seq` and `bnb_seq` are plain recursions; `divcon_rounds` and `bnb_rounds` are pools whose members work in turns.
//! A division has one value or one first fault, by any of them. `bnb_seq` drops no node and gives the first best solution;
//! `bnb_rounds` drops nodes and gives one that is best.
//!
//! No code stands here, and nothing is promised beyond what the crates below promise.
#![tactic(auto)]

pub use msl_bounding::bnb_seq;
pub use msl_dividing::divcon_rounds;
pub use msl_division::divcon_seq;
pub use msl_pruning::bnb_rounds;
