//! The functions on whole numbers of a script.
//!
//! `parse_fun` reads one from the tokens of `msl_lex::lex`, or gives the first test that fails with its place, and
//! `Funs::add` puts it behind those that it may call. `Muscle::eval` gives the results of a function at some numbers
//! and what they cost, or the first fault, and `Use::eval` those of a function whose first arguments are given.
//! `fun_text` writes a function in its canonical form.
//!
//! No code stands here, and nothing is promised beyond what the crates below promise. The specifications say what is
//! read (`Grammar`, `Parse`), what a function means (`Meaning`), which functions are allowed (`Checks`), how one is
//! written (`FunText`), and what operations on whole lists make of them (`Whole`, `WholeLaws`). A crate whose contracts
//! name them lists the crate that has them too, as `msl_fun`.
#![tactic(auto)]

pub use msl_fun::{BinOp, EvalFault, Expr, Exprs, Fun, Funs, Muscle, Names, Use};
pub use msl_fun_print::fun_text;
pub use msl_fun_read::parse_fun;
pub use msl_lex::Kind;
pub use msl_read::ReadFault as ParseFault;
