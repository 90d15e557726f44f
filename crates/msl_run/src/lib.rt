//! The commands of the program, and what each of them leaves behind.
//!
//! - `muesli_plain` does all that the program does: it takes the words and the objects, and answers the status. `ran`
//!   says what was read and written at each status, by the table `Ran` of `Endings` in `msl_stage` and the endings that
//!   statuses tell (`Headline`), with what the script makes of the stream: `SeqRuns` at `seq`, `RunsMain` at `rounds`. It
//!   says what `check` and `demo` write, and where the words, the script and its need are refused, in this order
//!   (`TopCall`).
//! - After `Done`, `Stream` and `Read` all that was written is flushed (`flushed`); at a refusal nothing was touched
//!   (`untouched`), nor the source at `check` and `demo` (`unread`), nor the library at `demo` (`unfetched`); the library
//!   was asked for the command's file alone (`asked`).
//! - A fault of the outside is answered where an object counted one, and nowhere else (`cause`, by `Causes`); where none
//!   does, there is a script that is told and as many processes as are asked for, the answer is `Done`, `Stream` or
//!   `Memory` (`complete`, used in `laws`); the error output grew by the message, and was flushed (`message`).
//! - `tell` writes the message of a status (`Messages`), `Status::code` is the exit status, `Status::of_end` the status of
//!   a run by its ending. Words and commands are those of `msl_words`.
//!
//! Of `rounds` it isn't said which of the results that a script leaves open come, nor who worked on what. Where the source
//! doesn't tell its bytes, only that the output grew is said. `Memory` may come of any command: no clause says that memory
//! was really short. How much is read after a fault of the stream is open, and nothing is said of time.
#![tactic(auto)]

pub mod laws;
mod message;
mod run;
mod status;

pub use message::tell;
pub use msl_words::{Command, Words, WordsFault, command_of};
pub use run::muesli_plain;
pub use status::Status;
