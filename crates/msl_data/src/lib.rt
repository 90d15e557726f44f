//! What runs data programs: the lines in order, over a table of their values.
//!
//! - `run_data` gives the record that a data program is to give, which `data_outcome` is, or its first fault (`answer`).
//!   It fails for want of memory alone. The stage and the group of the place stay (`stage`, `group`).
//! - It asks that the program fits the functions, so that no line names what isn't there or is of another kind.
//! - The value of each step is that of its meaning, `step_on` over the values before it (`Context::value`). `StepFits`
//!   says when a step can be taken. No value is copied, and the room for all of them is taken at the start.
//! - The number of members, and who holds which block, stands in no clause: the calls on arrays and matrices promise
//!   whole lists.
#![tactic(auto)]

mod arrays;
mod containers;
mod context;
mod matrices;
mod run;
mod table;

pub use run::run_data;
