//! Divide and conquer over the functions of a script.
//!
//! - `divcon_seq` is exactly the recursive value of a record, or its first fault; `NoMemory` may come of it, since it makes
//!   a record (`divcon_outcome` of `msl_program`).
//! - `Division::value` is exactly the value of the problem at a path, by plain recursion (`dc`). It takes no memory: the
//!   parts of each open problem lie in its frame, at most 64 of them one in the other.
//! - `is_simple`, `solve`, `part` and `combine` are the steps of it, for those who share the work: each is exactly the call
//!   of its function.
//!
//! A step is at the stage of a number, and its fault is one of the stage. Why there is no result stands in a halt that the
//! caller lends, since a halt is large and seldom comes.
#![tactic(auto)]

mod division;

pub use division::{Division, divcon_seq};
