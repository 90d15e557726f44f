//! Work at several places, one after the other or side by side by threads, with the same promise.
//!
//! - `in_turn` and `beside` answer what a function gives at each place below n (`led`): where no place refuses, the
//!   answers of all in the order of the places, and else the refusal of the least place that has one, whichever was
//!   known first. Before that place each has an answer.
//! - A refusal is always one that the function gives at a place (`led`). So want of threads is none: where none can be
//!   had, the work is done on the caller's.
//! - Room for the answers comes from the caller, before the first thread starts, and is kept as it was (`room`).
//! - `Places` says what such an answer is (`Led`), of any function whose contract says what it gives at a place.
//! - `laws`: where what is given at each place is a function of the place, two such answers are the same, so `beside`
//!   answers as `in_turn` does.
//!
//! Both take `Fn`, which several threads may call at once. Which places were tried behind the one that refuses isn't
//! said, nor in what order, nor how many threads there are.
#![tactic(auto)]

pub mod laws;
mod places;

pub use places::{beside, in_turn};
