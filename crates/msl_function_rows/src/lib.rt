//! Tests of the functions of a script, as tables over `parse_fun`, `eval` and `fun_text`.
//!
//! - `reading`: texts that are read, and texts that are refused by this kind at this token.
//! - `limits`: as many of each thing as there may be are read, and one more is refused.
//! - `evaluation`: what functions give and cost, with first arguments given or without, which fault comes first, and of
//!   which rank they are.
//! - `printing`: canonical texts, each of which is read and printed as itself.
#![tactic(auto)]

#[cfg(test)]
mod evaluation;
#[cfg(test)]
mod limits;
#[cfg(test)]
mod printing;
#[cfg(test)]
mod reading;
#[cfg(test)]
mod texts;
