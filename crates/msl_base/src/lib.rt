//! What all other crates speak of: records, names, paths and faults, the limits of the language, and streams.
//!
//! - Each call on `Name`, `Rec`, `Small`, `Path` and `ListOf` is its list operation, and where memory runs out a list
//!   or a record stays as it was. `Path::push` answers none exactly at 64 steps (`full`); `Rec::push` fails only where
//!   no spare room is left (`err`).
//! - `position_named` and `position_among` find the first place of a name, and none exactly where there is no such
//!   name.
//! - `Fault` is why a stream ends before its end, by its line or its stage.
//! - `limits` holds each limit once; code and definitions cite it from there.
//! - `Streams` says what a stream is, and what it means to take one record by record, in order or by several workers.
//!   `Blocks` says how the elements of a list lie in blocks.
//! - `Covers` says how the work on a tree is divided into splits and leaves.
//! - `Path::code` makes one number of a path, and none exactly where its steps have more than 56 bits. `Path::of_code`
//!   gives the path back, and none exactly where no path has the number.
//! - `laws`: record by record there is one output for one input; what is made of a beginning begins what is made of the
//!   whole; a whole output is sound; the order of the input is one of the orders of a farm; blocks lie side by side; a
//!   code is of one path. Worked examples of streams and of codes.
//!
//! No crate takes `Answer` and `End` so far.
#![tactic(auto)]

mod answer;
mod blocks;
mod code;
mod fault;
pub mod laws;
pub mod limits;
mod list_of;
mod name;
mod path;
mod rec;
mod small;

pub use answer::{Answer, Halt};
pub use blocks::bounds;
pub use fault::{End, Fault};
pub use list_of::ListOf;
pub use name::{Name, Named, NoMemory, position_among, position_named};
pub use path::Path;
pub use rec::Rec;
pub use small::Small;
