//! Matrices in a grid of blocks, and the operations of data programs on them.
//!
//! - A `DistMatrix` is seen as its extent, the rows and columns of the matrix and of its grid, and as its numbers, row by
//!   row, and never changes. It has a row and a column at least and at most 1,048,576 numbers, its grid a row and a column
//!   at least and at most 1,024 blocks, of which some may be empty (`Grids::IsExtent`).
//! - It lies as its blocks, row by row of the grid, each row by row (`Matrices::seen`). The members of a group have blocks
//!   side by side, as the fabric shares them out.
//! - `of_rec` makes a matrix of a list (`matrix`), and `to_rec` gives its list (`list`).
//! - `map`, `map_index`, `zip_with`, `zip_index`, `rotate_rows`, `rotate_cols` and `transpose` come to the operation on
//!   whole matrices (`msl_lists::Whole`), or to its fault, that of the least place row by row (`matrix`). `fold` comes to
//!   the number that the operation gives, or to its fault (`number`).
//!
//! So no answer depends on the group, the grid's sharing out or the fabric. Each call leaves the stage and the group of its
//! place (`stage`, `group`). Each but `shape` may answer instead that memory ran out, of which nothing more is said.
//!
//! `map`, `map_index`, `zip_with` and `zip_index` are worked out by the members, block by block; where they meet a fault, it
//! is looked for row by row, since the first in the blocks may be another. A rotation moves its blocks by the members, over
//! the fabric. The fold goes row by row, and a transposition turns block after block.
#![tactic(auto)]

mod blocks;
mod cells;
mod elementwise;
mod folds;
mod matrix;
mod rotations;
mod rows;
mod shape;
mod turns;

pub use matrix::DistMatrix;
pub use shape::Shape2;
