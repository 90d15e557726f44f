//! The operators of folds and scans: their table, what each does, and the laws that they keep.
//!
//! - `unit`, `lift` and `combine` are exactly those of the operator's row (`Meaning`). They take no memory.
//! - Each row keeps the laws that the trait `Lawful` states (`laws`): lifted numbers are in the domain, which is
//!   closed, there the operator is associative and its unit neutral, and no fold of at most 2 ^ 60 numbers of 64 bits
//!   leaves 128 bits.
//! - `OpTable::find` gives the operator of a name, and nothing exactly where no row has it; `OpTable::name` gives the
//!   name of a row. `OpKind::has_modulus` says which rows have a modulus, and an `Op` keeps its modulus in range.
//! - `Op::settle` answers an overflow exactly outside 64 bits.
//! - `laws` has these over all rows, a list that is folded in parts, what remainders, bits and greatest common divisors
//!   are, and worked examples.
//!
//! The program uses the table and its names so far, where it reads and writes scripts, and none of the operations.
#![tactic(auto)]

mod gcd;
mod lawful;
pub mod laws;
mod modulo;
mod op;
mod rows;
mod table;

pub use lawful::Lawful;
pub use op::{Op, OpKind};
pub use table::{OpTable, op_table};
