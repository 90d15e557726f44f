//! Tests of the whole program, as tables over `muesli_plain` with objects in memory: what is written, the message, the
//! status, and that nothing was read where nothing is run. Pipes, farms, filters, divisions and
//! searches are in `msl_rounds_rows`.
//!
//! - `rows`, `scripts`: commands, scripts of functions, inputs and what comes of them. `examples`,
//!   `examples_of_data`, `examples_of_lines`, `examples_of_trees`: the scripts of the folder `examples`, with their
//!   records and results, and what `check` makes of each.
//! - `faults`: each read, write and flush fails in turn, and is told behind the beginning of the results; a failing
//!   fetch; a message that can't be written; what failed isn't tried again.
//! - `needs`: how many processes there have to be. `demos`: what the demonstration writes.
//! - `messages`: the message and the number of each status. `asked`: which files the library was asked for.
//! - `programs`: data programs, their faults, and that neither blocks nor members change what they give. `moves`,
//!   `matrices`: the same of those that move numbers and blocks, and of those with matrices.
//! - `refusals`, `limits`: texts that are no script, and scripts, lines and records at the limits and one above.
//! - `checks`: what `check` writes, and that it refuses what `seq` refuses.
#![tactic(auto)]

#[cfg(test)]
mod asked;
#[cfg(test)]
mod checks;
#[cfg(test)]
mod demos;
#[cfg(test)]
mod examples;
#[cfg(test)]
mod examples_of_data;
#[cfg(test)]
mod examples_of_lines;
#[cfg(test)]
mod examples_of_trees;
#[cfg(test)]
mod faults;
#[cfg(test)]
mod limits;
#[cfg(test)]
mod matrices;
#[cfg(test)]
mod messages;
#[cfg(test)]
mod moves;
#[cfg(test)]
mod needs;
#[cfg(test)]
mod programs;
#[cfg(test)]
mod refusals;
#[cfg(test)]
mod rows;
#[cfg(test)]
mod scripts;
