//! The words of a command line, and the command that they are.
//!
//! - `command_of` answers exactly the command of the definition `command` (`Words`), and `Usage` exactly where there is
//!   none (`ok`). A test of its own decides whether the words follow the rule; `clap`, which takes more than the rule,
//!   then takes them apart. It is proved that `clap` refuses none of them, and finds that command.
//! - `limits` holds the ends of the numbers, and what stands where a number isn't given.
//! - For callers' proofs, `Ranges` says that the numbers of a command are within the limits.
//!
//! `NoMemory` may come of any words that are a command: no clause says that memory was really short.
#![tactic(auto)]

mod asked;
mod command_line;
mod grammar;
pub mod limits;
mod numbers;
mod progress;
mod verbs;

pub use command_line::{Command, Words, WordsFault, command_of};
