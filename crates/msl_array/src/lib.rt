//! Arrays in blocks, shared out to the members of a group, and the operations of data programs on them.
//!
//! - A `DistArray` is seen as its list and its number of blocks, 1 to 1,024, and never changes. Each member of the group
//!   at which it was made holds its blocks side by side, and a member for whom there is no block holds none
//!   (`Arrays::IsLaid`).
//! - `of_rec` makes an array of a list (`array`), and `to_rec` gives its list (`list`).
//! - `map`, `map_index`, `zip_with`, `zip_index` and `scan` come to the operation of that name on whole lists
//!   (`msl_lists::Whole`), in the same blocks, or to its fault, that of the least place (`array`). A zip answers `Shape`
//!   exactly where the lengths differ, whatever the function does.
//! - `permute`, `permute_partition` and `broadcast_partition` come to the move of that name, in as many blocks, or to its
//!   fault (`array`): `Ragged` where blocks differ in size, then the function's at the least place, then `NotPermutation`
//!   where it is no map one to one onto the places. Each element is copied once, or twice where elements change places.
//! - `fold` and `foldl` come to the number that the operation on whole lists gives, or to its fault (`number`). `foldl`
//!   goes from the first element to the last, since nothing is known of its function.
//!
//! So no answer depends on the group, the blocks or the fabric, and arrays that were made at groups of other sizes are
//! zipped as any others. Each call leaves the stage and the group of its place (`stage`, `group`). Each but `blocks` may
//! answer instead that memory ran out, of which nothing more is said. Who worked on which part isn't said either.
#![tactic(auto)]

mod array;
mod blocks;
mod elementwise;
mod folds;
mod moves;
mod parts;
mod targets;

pub use array::DistArray;
