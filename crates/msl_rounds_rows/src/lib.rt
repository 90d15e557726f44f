//! Tests of pipes, farms, filters, divisions and searches, as tables over `muesli_plain` with objects in memory, each row by `seq` and by
//! `rounds`. A farm's workers take turns in `rounds`, so its results come in the order of the input too.
//!
//! - `flow`: a main stage behind definitions, an input, and what comes of them.
//! - `farms`, `pipes`, `filters`: results, and the fault that ends the stream where several records have one.
//! - `clauses`: a fault in each clause of a filter, counts at the ends of their range, and records of another width.
//! - `divisions`, `searches`: values, best solutions and faults, with several members and cutoffs.
//! - `ends`: what a filter holds back where the input or the stage before it stops; each read and each write fails in
//!   turn.
#![tactic(auto)]

#[cfg(test)]
mod clauses;
#[cfg(test)]
mod divisions;
#[cfg(test)]
mod ends;
#[cfg(test)]
mod farms;
#[cfg(test)]
mod filters;
#[cfg(test)]
mod flow;
#[cfg(test)]
mod pipes;
#[cfg(test)]
mod searches;
