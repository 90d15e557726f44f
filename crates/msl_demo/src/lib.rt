//! The demonstration: records that are made in memory, run by rounds through a script of its own, and counted.
//!
//! - `demo_line` gives a line of which `DemoGives` of `msl_demo_laws` holds: it counts records that the script may make of
//!   the first ones, all of them. The laws there say that there is exactly one such line for each number of records.
//! - `DEMO_NEED` is how many processes the script needs (`need_is`).
//!
//! The records are written as text, and run as the command `rounds` runs them, over a source that never fails (`Makes`,
//! by `Outputs`). What comes out is read back and counted (`IsTallyOf`, by `Tallies`). No fault can come of it; so
//! `NoMemory` is the only error, of which no clause says that memory was really short. Of time nothing is said.
#![tactic(auto)]

mod count;
mod input;
mod output;
mod run;
mod script;
mod tally;

pub use run::demo_line;
pub use script::{DEMO_NEED, need_is};

// How many bytes are read at a time.
const CHUNK: usize = 4096;
