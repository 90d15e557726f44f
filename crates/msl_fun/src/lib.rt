//! The functions on whole numbers of a script, and their evaluation.
//!
//! - `Muscle::eval`, and `Use::eval` with the first arguments given, are exactly the meaning of a function (`Answers`,
//!   by `Meaning`): the results and the number of nodes begun, or the first fault, and `Steps` exactly where more than
//!   10,000,000 nodes are begun. They take no memory.
//! - `Funs` holds only functions that meet the rules over those before them (`funs`, by `Checks`), so an evaluation
//!   tests no place, width or depth. `Funs::add` asks for these rules.
//! - `Funs::find` gives the first function of a name, `Funs::rank` the length of its longest chain of calls,
//!   `Muscle::widths` how many parameters and results it has.
//! - `Expr` has an expression's parts in the order of its text. Variables are places; their names stand in `Fun`.
//!
//! What is in `out` after a fault is open, and nothing is said of time. How functions are read and written is the part
//! of `msl_fun_read` and `msl_fun_print`; laws and worked examples are in `msl_muscle_laws`.
#![tactic(auto)]

mod build;
mod eval;
mod expr;
mod fault;
mod funs;
mod muscle;
mod number;
mod rank;
mod scope;

pub use expr::{BinOp, Expr, Exprs};
pub use fault::EvalFault;
pub use funs::{Fun, Funs, Names};
pub use muscle::{Muscle, Use};
pub use scope::Scope;
