//! Tests of scripts, as tables of texts over `read_script`, `print_script` and `need`. Each text is read as the script
//! of a canonical text, or refused by this kind at this token.
//!
//! - `tokens`, `names`, `definitions`, `steps` and `stages`: refusals by the part of the script where they come.
//! - `limits`, `ranges` and `longest`: the ends of each range are read; as many of each thing as there may be are read,
//!   and one more is refused; texts of the greatest length.
//! - `texts`: bodies, steps and items, with what each is read as.
//! - `scripts`: whole scripts, their canonical texts, and how many processes each needs.
#![tactic(auto)]

#[cfg(test)]
mod answers;
#[cfg(test)]
mod definitions;
#[cfg(test)]
mod limits;
#[cfg(test)]
mod longest;
#[cfg(test)]
mod names;
#[cfg(test)]
mod ranges;
#[cfg(test)]
mod scripts;
#[cfg(test)]
mod stages;
#[cfg(test)]
mod steps;
#[cfg(test)]
mod texts;
#[cfg(test)]
mod tokens;
