//! The reader of lines and the writer of records, over the outside of a program, which it passes on.
//!
//! - `LineReader::next` gives exactly what the bytes read as, by the rules of the language: each record, the end only
//!   where nothing is left, and the first refusal exactly where there is one (`line`, by `Lines` and `Reader`).
//! - It answers a read fault exactly where its source counted one (`cause`), and has then taken bytes with no whole line
//!   in which nothing is refused. A line that is too long is refused with at most one chunk taken behind its limit. It
//!   numbers lines from 1 and reads at most as many as it was told (`counts`, `lines`). After any answer but a record it
//!   gives the same again and reads nothing (`again`). While it goes on it keeps at most 4,096 bytes (`kept`).
//! - `write_rec` appends exactly the record's text, or a proper beginning of it where the sink counted a fault (`ok`,
//!   `err`, `cause`, by `Text`), and `RecWriter` does so again and again; `write_text` does so with any bytes.
//! - `Piece` is a text of at most 320 bytes that takes no memory.
//! - `laws` has worked examples of records and their text.
//!
//! Clauses on content hold where the source or the sink tells its bytes. How much memory a record takes isn't said.
#![tactic(auto)]

mod chunk;
pub mod laws;
mod lines;
mod numeral;
mod piece;
mod text;
mod words;
mod write;

pub use lines::{Line, LineReader, Stop};
pub use msl_outside::{
    Bytes, Calls, Failed, Fetched, File, FileList, Library, MemLibrary, MemSink, MemSource,
    RealLibrary, RealSink, RealSource, Sink, Source, SteadySource, read_whole,
};
pub use piece::Piece;
pub use write::{RecWriter, WriteFault, write_rec, write_text};
