//! What a script is and what it means: its definitions, its stages, the rules that it keeps, and the answers that it
//! leaves open.
//!
//! - A `Script` keeps all rules of the language (`keeps_rules`, by `ScriptPromise`) but that on open expressions, which
//!   is one of texts. Its accessors say that each data program, filter, division and search fits over the script's
//!   functions (`fit`), and that its main stage names only what is there (`whole`, `bounded`).
//! - `need` is exactly how many processes a script needs (`Need`). It takes no memory.
//! - `Runs` relates a stream to each that a script may make of it, `SeqRuns` to the one of `seq`, by the meanings of
//!   data programs (`Data`), filters (`Filters`), divisions (`Divide`) and searches (`Searches`).
//! - `run_laws`: what `seq` makes is one of those that a script leaves open; a stage keeps the law of prefixes; each
//!   record has an outcome, and without searches one; the first best answer in preorder is a best one; what fits goes
//!   on to fit over more functions; each line of a data program keeps the shape that it was read with; the numbers of a
//!   node along its path.
//! - `Shape`, `Need`, `Width`, `Nest` and `Counts` are types of the language that the grammar speaks of.
//!
//! Of the meanings the program runs that of one function so far; no code here runs a stage.
#![tactic(auto)]

mod data;
mod named;
mod nest;
mod processes;
pub mod run_laws;
mod script;
pub mod shape;
mod stage;
mod width;

pub use data::{Arg, Args, DataLine, DataLines, DataProg, DataProgs, DataStep, UseSpec};
pub use nest::{Counts, Nest};
pub use processes::need;
pub use script::{
    BnbSpec, BnbSpecs, Definitions, DivCon, DivCons, FilterSpec, FilterSpecs, ItemKind, ItemKinds,
    Script,
};
pub use shape::Shape;
pub use stage::{Stage, Stages};
pub use width::Width;
