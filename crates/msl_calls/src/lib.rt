//! Calls of a script's functions, for a search that makes many of them.
//!
//! - `Calls::number` is exactly the first result of a function at some numbers, `Calls::results` all of them, and
//!   `Calls::results_with` those at the numbers and one more behind them; or the fault of the evaluation, as the stage of
//!   any number has it (`number`, `results`, by `Gives`).
//! - What is called on is kept from call to call, since a new one costs the clearing of its places. No call takes memory.
#![tactic(auto)]

mod calls;

pub use calls::Calls;
