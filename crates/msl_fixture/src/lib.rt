//! What tests of the top call share: they run it over objects in memory, and compare what it leaves behind.
//!
//! - `outside`: the library, the source and the sinks, each call of which may be told to fail, and `run`.
//! - `cases`: a run and what it is to leave behind, and scripts that many tests take. `rows`: the same in short, for
//!   tables of scripts.
//!
//! Of its functions only that they are safe is proved: no clause says what they compare. A difference is a `Fail` with
//! the words, what was left and wanted, and the script, and it ends the test.
#![tactic(auto)]

mod cases;
mod outside;
mod rows;

pub use cases::{
    CHECK, Case, KNOWN, ROUNDS, SEQ, SQUARE, UNREAD, is_left, meet, meet_over, not_run,
};
pub use outside::{Left, Outside, WORKING, run};
pub use rows::{Row, is_checked, is_refused, meet_both, meet_row, meet_rows};
