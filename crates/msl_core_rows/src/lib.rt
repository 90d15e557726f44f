//! Tests of the world of nested groups, as tables over its public calls.
//!
//! - `rows`: what each event answers where its condition holds, and where it fails in each of its parts; counts at 0, 64
//!   and 65; paths of 64 levels.
//! - `run`: 10,000 random events that happen, in groups three levels deep; each time a group is over, a plain count finds
//!   it quiet.
#![tactic(auto)]

#[cfg(test)]
mod rows;
#[cfg(test)]
mod run;
