//! Reading the functions of a script from tokens.
//!
//! - `parse_fun` reads exactly the function that the grammar says begins at a token, or gives the first test that fails
//!   with its place (`read`, by `Grammar` and `Parse`). What it reads meets the rules of `msl_fun` (`rules`), and the
//!   place behind it is further on (`within`). Want of memory may come at any tokens.
//! - `parse_fun_at` does so at a cursor, where names are declared for other things too (`read`, `rules`, `shorter`).
//! - The reader descends through the grammar, a method for each rule. Each says by `msl_read`'s `Parts` that reading
//!   goes on behind its part, whatever follows, or is refused.
//! - `First` says how an expression may begin, `Level` how tightly an operator binds; the grammar speaks of both.
//!
//! Of the memory that a function takes nothing is said. Worked examples are in `msl_muscle_laws::laws::readings`.
#![tactic(auto)]

mod parse;

pub use parse::{First, Level, parse_fun, parse_fun_at};
