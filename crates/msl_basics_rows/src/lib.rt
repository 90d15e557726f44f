//! Tests of the lowest crates, as tables over their public calls.
//!
//! - `values`: names, lists, records, paths of 64 steps and short lists keep what they are given; the codes of paths;
//!   where blocks begin.
//! - `operators`: what lists fold to by each row of the table, as a stage hands it out; the names of the rows.
//! - `groups`: groups are split at every place and merged back, and come back where they don't follow each other.
//! - `work`: what work at 0 to 7 places answers, in turn and side by side.
//! - `tokens`: the tokens of texts by kind and place, the longest names, and the first faults of texts that have none.
#![tactic(auto)]

#[cfg(test)]
mod groups;
#[cfg(test)]
mod operators;
#[cfg(test)]
mod tokens;
#[cfg(test)]
mod values;
#[cfg(test)]
mod work;
