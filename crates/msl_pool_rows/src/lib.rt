//! Tests of pools.
//!
//! - `complete`: each node of a complete tree is worked on once, by 1 to 64 members; a search that stops ends the pool at
//!   once, with its cause.
#![tactic(auto)]

#[cfg(test)]
mod complete;
