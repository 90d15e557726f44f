//! A line of steps that records stream through, and its run in rounds.
//!
//! - `OneToOne` is work on each record by itself: `work` makes a record what its relation `one` says, and leaves the
//!   relation (`made`, `same`); each record has some outcome by it (`total`).
//! - `FilterState::step` and `flush` are exactly what the filter makes of a record and of the end of a stream, and leave
//!   the state at a refusal (`step`, `flush`, by `Filters` of `msl_program`).
//! - `run_rounds` reads records, takes each through all steps of a line and writes what comes out. `ran` says what it
//!   read and wrote at each ending, by the table `Ran` of `Endings`, with what the line makes of the stream
//!   (`LineRuns`); `cause` and `flushed` say when the outside failed, and what was handed on.
//! - `laws` says how a step that takes its records one after the other keeps what it has done so far (`Working`), that
//!   steps one behind the other work as their line, and that parts which are dealt numbered records, and whose results are
//!   collected in any order, work as a farm (`Dealing`).
//!
//! That a farm deals its records in turn isn't said, nor how many records are held at once; `NoMemory` may come of any
//! call that takes memory.
#![tactic(auto)]

mod filter;
pub mod laws;
mod one;
mod rounds;
mod run;
mod step;

pub use filter::{FilterState, Outs};
pub use one::{Halted, OneToOne};
pub use rounds::run_rounds;
pub use step::{Step, Workers};
