//! Tests of reading and writing records, and of sources, sinks and libraries, in memory and over real files.
//!
//! - `lines`: what the reader of lines gives for inputs in pieces of any size, at a failing read, at the last line that
//!   it may read, and at lines that are too long or too wide; that it answers the same from then on, and asks nothing of
//!   its source behind the end.
//! - `written`: records and texts that are written, in pieces, and up to the call that fails.
//! - `memory`: objects in memory fail at the calls that they are told to, and at no other; what a library was asked for.
//! - `whole`: sources that are read to their end, or are too long.
//! - `failing`: the adapters fail where their reader, writer or flush does, and at no other call.
//! - `adapters`: real files. What is written and flushed is read back; all of a long file is given, and the one that was
//!   asked for; a missing file can't be fetched, and one that is longer than the limit is told apart.
#![tactic(auto)]

#[cfg(test)]
mod adapters;
#[cfg(test)]
mod failing;
#[cfg(test)]
mod lines;
#[cfg(test)]
mod memory;
#[cfg(test)]
mod whole;
#[cfg(test)]
mod written;
