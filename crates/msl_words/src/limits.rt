//! The limits of the words.

use msl_base::limits::MOST_MEMBERS;

/// The greatest value of `-p`.
pub const MOST_PROCESSES: u32 = MOST_MEMBERS;

/// The value of `-p` where it isn't given.
pub const DEFAULT_PROCESSES: u32 = 4;

/// Digits of the value of `-p`.
pub const MOST_PROCESS_DIGITS: usize = 4;

/// Records of `demo`.
pub const MOST_DEMO_RECORDS: u32 = 100_000;

/// Digits of the records of `demo`.
pub const MOST_DEMO_DIGITS: usize = 6;
