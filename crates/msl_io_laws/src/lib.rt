//! The text of records and what it reads as undo each other.
//!
//! - `laws::text_reads_back`: the text of records, each of at most 1,048,576 numbers of 64 bits, reads as these records
//!   and ends whole. So no two lists of records have one text.
//!
//! It stands apart since neither the reader nor the writer needs it.
#![tactic(auto)]

pub mod laws;
