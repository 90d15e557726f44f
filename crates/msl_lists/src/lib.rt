//! Operations on whole lists, of which data programs are made: their definitions, and the laws on them.
//!
//! - `Whole` has the operations, each from lists and the stage where it runs to numbers or a fault, the first of the
//!   least place: maps and zips, folds and scans, permutations of elements and of blocks, rotations and transposition
//!   of matrices.
//! - `WholeLaws` has their equations, by where each element stands.
//! - `laws`: what the answer is, and exactly when each is refused (`each_element`, `each_pair`, `combines`, `passes`,
//!   `permutes`, `permutes_blocks`, `broadcasts`, `rotates_rows`, `rotates_cols`, `transposes`).
//! - Each equation has one answer, so whoever knows where the elements went knows the answer (`one_each`, and the
//!   clauses `one` and `answer`).
//! - Lists in parts: the answer for blocks side by side is that for the whole (`in_parts`, and the clauses `blocks`).
//!
//! `msl_local` computes maps, zips, folds and scans, part by part, and `msl_array` the moves of lists; there is no code for
//! matrices so far. The meanings of `msl_program` stand on these definitions.
#![tactic(auto)]

pub mod laws;
