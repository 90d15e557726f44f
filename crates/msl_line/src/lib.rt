//! The line of steps of a script's main stage, and the workers of its steps.
//!
//! - `line_of` makes a line of which each run is one that the script leaves open, and the one of `seq` where all is done
//!   in turn (`runs`, by `Means`). `run_rounds` of `msl_stage` can run it (`steps`).
//! - A `Worker` does what stands inside one step, one task after the other up to the first fault (`Does`). A pipe in a
//!   farm is one worker, and a farm in a farm its inner stage. Where all is done in turn, divisions and searches are plain
//!   recursions; else they are pools with the members that the script names.
//! - `laws`: what a line of a stage makes of a stream is what the stage makes of it, and what a worker that is a whole
//!   stage makes of a record is what that stage makes of it.
//!
//! Who works on which record isn't said, nor with how many threads. `NoMemory` may come of any call that takes memory.
#![tactic(auto)]

mod desk;
mod how;
pub mod laws;
mod line;
mod stages;
mod task;
mod tasks;
mod worker;

pub use how::How;
pub use line::line_of;
pub use worker::Worker;
