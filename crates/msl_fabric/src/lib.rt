//! What members of a group exchange, and how they work on what they hold.
//!
//! - `Boxes` is an n by n grid of records. `put` replaces a box and `take` empties it, and no other box changes
//!   (`Boxes::put`, `Boxes::take`).
//! - A `Fabric` exchanges boxes: box (i, j) of the answer is box (j, i) of what goes out, for all i and j
//!   (`Fabric::exchange`). It also works on lists in parts: a function at each place (`Fabric::outcomes`), a fold
//!   (`Fabric::fold`), a scan (`Fabric::scan`). Each promises the operation on whole lists, and the fault of the least
//!   place, so that no caller sees how many worked, nor on what.
//! - `Moved` exchanges in place and works in turn, on one thread. `Joined` exchanges in place and works side by side, by at
//!   most as many threads as it is given, where there is enough to do; it always returns, and where no thread can be had,
//!   the work is done on the caller's.
//! - Over any fabric `broadcast` puts a record at each member (`each`), `scatter` puts part i at member i (`parts`), and
//!   `gather` holds the parts in the order of the members (`parts`), each as an equation of whole lists. `all_to_all` is
//!   the exchange.
//! - `permute_blocks` puts block i in the place to[i], and `rotate_blocks` each block so many places further, and round
//!   (`blocks`). In each round every member sends one of its blocks by the fabric's exchange, and no number is copied.
//! - `laws`: two exchanges of the same boxes give the same; an exchange leads back; a row of the answer is a column of
//!   what went out. Worked examples. `Grids` says what boxes are to contracts.
//!
//! A call at a place leaves its stage and its group. What fails otherwise answers that memory ran out; that it was short
//! isn't said, nor how records travel.
#![tactic(auto)]

mod boxes;
mod collectives;
mod fabric;
mod joined;
pub mod laws;
mod lines;
mod moves;
mod routes;

pub use boxes::Boxes;
pub use collectives::{all_to_all, broadcast, gather, scatter};
pub use fabric::{Fabric, Moved, Place};
pub use joined::Joined;
pub use moves::{permute_blocks, rotate_blocks};
