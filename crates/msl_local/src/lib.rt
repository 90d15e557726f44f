//! What a member of a group does with its elements, place after place, as types of work over lists that lie in parts, one
//! part for each member.
//!
//! - `Elements` is a function in use at each place of one list or of two, by what it takes there (`Inputs`). `Elements::all`
//!   comes to the map or the zip of the whole lists, in parts of the same lengths, or to the fault of the least place.
//!   `Elements::hand` comes to the outcomes at the parts that one of several hands has.
//! - Each part may be a `Window` of a matrix, which lies row by row. Then a place has a row and a column, which the function
//!   may take too.
//! - `Folding` is an operator over a list. `Folding::all` comes to the fold of the list, settled, and `Folding::scan_all` to
//!   its scan. `Folding::hand` is the fold of what a hand has, in 128 bits, of which none overflows; of all of them
//!   `Folding::of_hands` makes the fold of the list, and `Folding::starts` that of what stands before each hand, from which
//!   `Folding::scan_hand` goes on.
//! - `joined` puts the parts of all hands together. That they make the whole, and that the fault of the whole is that of the
//!   least hand that has one, are lemmas (`Together`), which `msl_fabric` uses.
//! - `Parts` says what lists in parts are, `Windows` what each place of a window has, `Outcomes` what an answer comes to, `Folds` what each hand has and gives.
//!
//! What makes a list may answer instead that memory ran out, of which nothing more is said. Who works on which part is for
//! the caller to say.
#![tactic(auto)]

mod elements;
mod folding;
mod hands;
mod inputs;
mod parts;
mod reserve;
mod scanning;

pub use elements::{Elements, of_stage};
pub use folding::{Folding, fold};
pub use hands::joined;
pub use inputs::{Inputs, Window};
pub use parts::start;
pub use reserve::room;
