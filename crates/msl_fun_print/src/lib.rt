//! The text of functions, in their canonical form.
//!
//! - `fun_text` is exactly the text that `FunText` says: parentheses round each operand that is an operation, and the
//!   names of the function's own list at their places. It fails for want of memory alone.
//! - It takes any function, over whichever others; a name that isn't there is written as no bytes.
//! - `OpensFew` says which texts open no more at once than a reader allows.
//!
//! That the text is read as the function again, where the function meets the rules and opens few, is a law of
//! `msl_muscle_laws`. Nothing is said here of texts that aren't canonical: comments, blanks and parentheses of a script
//! aren't kept.
#![tactic(auto)]

mod text;

pub use text::fun_text;
