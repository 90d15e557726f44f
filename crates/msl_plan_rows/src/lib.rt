//! Tests of plans, as a table of scripts: the teams of each for so many processes, or how many it needs.
#![tactic(auto)]

#[cfg(test)]
mod plans;
