//! Reading whole scripts: the script that a text is, or its first refusal.
//!
//! - `read_script` gives exactly the script that a text of at most 1,048,576 bytes reads as, or its first refusal with
//!   its kind and place (`IsReading`, by `ScriptReading`). Nothing else comes but want of memory, which may come at any
//!   text.
//! - What is read keeps all rules of the language, since a `Script` does. This is proved of the grammar
//!   (`WholeScripts`) and not of the code.
//! - The version comes first, then item after item, then the main stage up to the end of the text. The first test that
//!   fails is the answer.
//!
//! That a text has one reading is a law of `msl_script_laws`. A text that is too long isn't looked at: the caller tests
//! its length. Of the memory that a script takes nothing is said.
#![tactic(auto)]

mod definition;
mod item;
mod read;
mod script;
mod stage;

pub use read::read_script;
