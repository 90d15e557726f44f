//! Laws and worked examples of scripts. Each function here is empty, and its contract is the law.
//!
//! - `laws::one_reading`: a text is a script or is refused, never both, and is one script at most.
//! - `laws::scripts_are_whole`: a script that a text reads as keeps all rules; so its stages name only what is there,
//!   and no filter is in a farm.
//! - `text_laws::text_reads_back`: the text of a script that keeps the rules, and whose expressions open few, is read
//!   as the script.
//! - Worked examples of texts that are scripts (`scripts`), of refusals with their places (`refusals`), of what scripts
//!   make of streams (`meanings`, `filters`, `divisions`), of what searches may answer (`searches`), of how many
//!   processes scripts need (`needs`), and of canonical texts (`texts`).
//!
//! They stand apart since they need the readers and the printers at once. The definitions compute in the examples: no
//! code runs.
#![tactic(auto)]

pub mod laws;
pub mod text_laws;
