//! The outside of a program: what bytes are read from, what they are written to, and where files are.
//!
//! A program takes `Source`, `Sink` and `Library`, so that the same code runs on memory and on the system. Where an
//! object tells its bytes, its clauses say what each call does:
//!
//! - `read` gives the first of the bytes still to come, and `write` takes bytes from the front (`bytes`): they come in
//!   their order, none twice and none lost. `flush` hands on all that was taken (`flushed`). `fetch` gives the file of
//!   a name, within a limit, or says that it is longer (`file`), and asks for no other (`asked`).
//! - Each call counts a fault exactly where it fails, and no count falls (`cause`, by `Causes`).
//! - An object in memory tells all its bytes, and fails exactly at the calls that it is told to fail at, where a sink
//!   has no room, and where a library has no such file (`fails`). A `SteadySource` never fails.
//! - A real object begins with no fault (`new`) and meets its trait over whatever reader, writer or files it stands on.
//!   A source and a sink tell what that one tells, a library nothing.
//! - `read_whole` gives all of a source, or says that it is longer than a limit (`file`).
//!
//! Of what a real file, terminal or pipe gives or takes nothing is said, nor of how long a call takes.
#![tactic(auto)]

mod memory;
mod outside;
mod real;
mod whole;

pub use memory::{File, FileList, MemLibrary, MemSink, MemSource, SteadySource};
pub use outside::{Bytes, Calls, Failed, Fetched, Library, Sink, Source};
pub use real::{RealLibrary, RealSink, RealSource};
pub use whole::read_whole;
