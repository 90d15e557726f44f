//! Tests of the words of a command line, as tables: the words, and the command that they are or `usage`.
#![tactic(auto)]

#[cfg(test)]
mod lines;
#[cfg(test)]
mod tables;
