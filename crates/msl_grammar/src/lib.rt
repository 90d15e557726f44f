//! The grammar of scripts, and the reading of what definitions have in common: names, numbers, functions and clauses.
//! Filters, divisions and searches, which are nothing but such clauses, are read here too.
//!
//! - `ScriptGrammar` says what a text reads as: at each token the tests that are due, in order, and what may follow. A
//!   text is one script (`ReadsAs`), or has one first refusal.
//! - `Known` is the definitions so far, with their names. `fresh`, `function`, `clause`, `filter`, `divcon` and `bnb`,
//!   and the rules in `token`, read one part each: reading goes on behind it, whatever follows, or is refused (`read`,
//!   by `Following`). What is read is a name that isn't declared, a function of the widths asked for, a number in its
//!   range (`is`, `within`).
//! - The calls that add a definition append it to its kind and its kind to the order of all, and take its name. What is
//!   left where memory runs out isn't said.
//! - `Used` is a function with its first arguments while it is read.
//!
//! That a whole text is read so is the promise of `msl_script_read`, which stands on these parts. Want of memory may
//! come at any part.
#![tactic(auto)]

mod bnb;
mod definitions;
mod divcon;
mod filter;
mod known;
pub mod token;
mod used;

pub use known::Known;
pub use used::Used;
