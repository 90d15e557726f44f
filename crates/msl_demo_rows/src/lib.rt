//! Tests of the demonstration: lines as a table, and a run of the most records.
#![tactic(auto)]

#[cfg(test)]
mod lines;
