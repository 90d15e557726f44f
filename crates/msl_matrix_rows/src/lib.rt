//! Tests of matrices, as tables over the public calls.
//!
//! - `rows`: what each call comes to, by results that are given; of two faults the one at the least place row by row,
//!   which may stand behind the other in the blocks; blocks that differ in size.
//! - `cells`: every call over matrices whose rows and columns the grid divides or doesn't, one row and one column among
//!   them, by plain code over rows and columns (`plain`). Rotations by numbers of both signs up to the greatest.
//! - `ways`: calls one after the other that come back to the matrix.
//!
//! Each case is tried at groups of 1, 2, 5 and 64 members, by one thread and by at most 1, 2 and 4, with second matrices
//! that were made at other groups (`matrices`), by functions that are read from their text (`functions`).
#![tactic(auto)]

#[cfg(test)]
mod cells;
#[cfg(test)]
mod functions;
#[cfg(test)]
mod matrices;
#[cfg(test)]
mod plain;
#[cfg(test)]
mod rows;
#[cfg(test)]
mod ways;
