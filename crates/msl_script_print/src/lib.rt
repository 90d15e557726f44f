//! The canonical text of scripts: an item or a clause on each line, and one space between words.
//!
//! - `print_script` is exactly the text that `ScriptText` says: the version, then each definition in its order with
//!   functions as `msl_fun_print` writes them, then the main stage. It fails for want of memory alone.
//! - Places are written as names: those of functions, of the lines of a data program, and of the definitions that the
//!   main stage names.
//! - `OpensFewIn` says which scripts have texts that open no more at once than the reader allows.
//!
//! That the text is read as the script again, where its expressions open few, is a law of `msl_script_laws`. Nothing is
//! said of how long a text is: that of a script may be longer than a script may be.
#![tactic(auto)]

mod item;
mod order;
mod print;
mod printer;
mod program;
mod stage;

pub use print::print_script;
