//! Scripts: their functions, data programs, filters, divisions and searches, and the stage that a stream goes through.
//!
//! `read_script` reads one from a text, or gives the first test that fails with its place; so each `Script` keeps all
//! rules of the language. `print_script` writes it in its canonical form, `need` says how many processes it needs, and
//! `plan` which of them work on which stage.
//!
//! No code stands here, and nothing is promised beyond what the crates below promise. The specifications say what a
//! text is read as (`ScriptGrammar`, `ScriptReading`), which rules a script keeps (`ScriptPromise`, with `Promises` and
//! `ProgramPromise` for its definitions), how one is written (`ScriptText`), how many processes it needs (`Need`), which
//! members work on which stage (`Plans`, with laws in `PlanLaws`), and what it makes of a stream of records (`Runs`, over
//! the meanings of `Data`, `Divide`, `Searches` and `Filters`, and with laws of them in `RunLaws`).
#![tactic(auto)]

pub use msl_lex::Kind;
pub use msl_plan::{PlanFault, Team, Teams, plan};
pub use msl_program::{
    Arg, Args, BnbSpec, BnbSpecs, DataLine, DataLines, DataProg, DataProgs, DataStep, DivCon,
    DivCons, FilterSpec, FilterSpecs, ItemKind, ItemKinds, Script, Stage, Stages, UseSpec, need,
};
pub use msl_read::ReadFault as ScriptFault;
pub use msl_script_print::print_script;
pub use msl_script_read::read_script;
