//! What a search of a tree leaves behind, and what follows from it.
//!
//! - `Splits` are the paths that were split, with how many children each has, and `Solved` those that were solved, each with
//!   its value or fault.
//! - `combine_cover` is the combined value of splits and solved paths that cover the tree (`combined`, by `Combined`): at a
//!   path that was solved its value, else what the parts' values combine to.
//! - `replay_divcon` and `replay_bnb` work out anew what stands behind a path, and answer none exactly where a function
//!   faults on the way (`along`).
//! - `laws`: where splits and solved paths cover, each split is of a problem that isn't simple, is less than 64 deep and
//!   divides into all its parts, and each solved path has its recursive value, the combined value is the recursive value of
//!   the root. It doesn't matter who worked on which path.
#![tactic(auto)]

mod by_path;
mod combine;
pub mod laws;
mod lists;
mod replay;

pub use combine::combine_cover;
pub use lists::{Solved, Splits};
pub use replay::{replay_bnb, replay_divcon};
