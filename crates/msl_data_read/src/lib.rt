//! Reading the data programs of a script.
//!
//! - `data_program` reads exactly what the grammar says stands behind the word `data`, with each line's name, step and
//!   shape, or gives the first test that fails with its place (`read`, by `ScriptGrammar`'s `data_rule`). It takes
//!   tokens off the front alone (`shorter`). Want of memory may come at any tokens.
//! - The functions of a step are tested where the first line that it works on is read, since only then is it known how
//!   many arguments the step gives. The refusal names the function. The block of `broadcastPartition` is tested there
//!   too.
//! - A line names those before it; names of lines are a space of their own.
//!
//! That what is read keeps the rules on data programs (`ProgramFits`) isn't said here: it is proved of the grammar, and
//! comes out at `msl_script_read`. Nor is anything run: what data programs mean is in `msl_program`.
#![tactic(auto)]

mod data;
mod line;
mod operator;
mod program;
mod scope;
mod step;
mod usage;

pub use data::data_program;
