//! Divide and conquer by a pool that works in turns.
//!
//! - `divcon_rounds` is exactly the recursive value of a record, or its first fault, as that of plain recursion, by any
//!   number of members; `NoMemory` may come of it (`divcon_outcome` of `msl_program`).
//! - A problem that isn't simple and lies above the cutoff is split into all its parts; any other is worked out at once by
//!   one member. A problem's fault is its value: it ends none of the others, and where several fault, it is the one that
//!   plain recursion meets first.
//! - The paths that were split and those that were solved cover the tree, each of these with its recursive value
//!   (`HasDivided`, by `Dividing`). So their combined value is that of the root, whoever worked on which path.
#![tactic(auto)]

mod dividing;
mod rounds;

pub use rounds::divcon_rounds;
